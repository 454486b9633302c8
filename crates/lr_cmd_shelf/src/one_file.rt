//! Commands on the file of one number.
ghost use Rattle.lr_causes.specs.Outside.{outlets, outlets_of};
ghost use Rattle.lr_cmd_shelf.specs.Runs.{RunsOver};
ghost use Rattle.lr_cmd_shelf.specs.Files.{query_of_files, query_of_one};

use crate::files::{Files, ReadsFiles};
use crate::opened::Opened;
use crate::range::Range;
use crate::run::run_entries;
use lr_bits::NoMemory;
use lr_causes::{Cause, Note, Refusal};
use lr_disk::Disk;
use lr_io::Sink;
use lr_shelf::{Shelf, Stored};
use std::alloc::Global;

/// What is put of a file, by a command that reads one.
pub(crate) trait PutsFile {
    ghost use Rattle.std.specs.Prelude.{◌≡◌, ℕ, List, Result, Err, IfErr, OnOk};
    ghost use Rattle.lr_causes.specs.declared.cause.Refusal.{Refusal as Refusal'};
    ghost use Rattle.lr_shelf_format.specs.declared.stored.Stored.{Stored};
    ghost use Rattle.lr_cmd_shelf.specs.declared.opened.Opened.{Opened};
    ghost use Rattle.lr_cmd_shelf.specs.Queries.{Sight};
    ghost use Rattle.lr_cmd_shelf.specs.Sights.{SeesIf, SeesImages};
    ghost use Rattle.lr_cmd_shelf.specs.Steps.{PutsText, TextStops};

    /// What it sees of the image.
    ghost sees: { Self → Sight };

    /// The text of the file of this number, or what the run is refused for.
    ghost fate: { Self → ℕ → Opened → Result (List ℕ) Refusal' };

    /// Whether it looks at the image.
    fn looks(&self) -> bool
        ensures { (stored : Stored) → SeesIf result stored.file (sees self.now stored) };

    /// Puts the text of the file. Memory is taken before the text.
    fn put<O: Sink>(
        &self,
        alloc: Global,
        number: u64,
        opened: &Opened,
        out: &mut O,
    ) -> Result<(), Cause>
        ensures puts { OnOk result (PutsText O.Sink (fate self.now number opened.now) out.old out.new) }
        ensures stops { IfErr result (λ cause.
            TextStops O.Sink (fate self.now number opened.now) cause out.old out.new) }
        // A refusal takes no memory.
        ensures refuses { (refusal : Refusal') → fate self.now number opened.now ≡ Err refusal
            → result ≡ Err (Cause.Refused refusal) };

    /// It sees the images that files have, or none.
    ghost sight: { (command : Self) → SeesImages (sees command) };
}

/// The file of this number, and what is put of it. A file that is gone is refused.
#[derive(Drop)]
struct OneFile<C> {
    number: u64,
    command: C,
}

impl<C: PutsFile> ReadsFiles for OneFile<C> {
    ghost use Rattle.lr_cmd_shelf.specs.Files.{query_of_one};

    type Gathered = ();

    ghost query = { λ s. query_of_one (C.sees s.command) (C.fate s.command) s.number };

    ghost gathers = { λ s gathered read. Unit {0} };

    ghost sight = { λ s. C.sight s.command };

    fn range(&self, count: u64) -> Option<Range> {
        Range::one(self.number, count)
    }

    fn start(&self, _: Global) -> Result<(), NoMemory> {
        Ok(())
    }

    fn looks(&self, _: Global, _: &Stored) -> Result<bool, NoMemory> {
        Ok(self.command.looks())
    }

    fn file<O: Sink>(
        &self,
        alloc: Global,
        number: u64,
        opened: &Opened,
        _: &mut (),
        out: &mut O,
    ) -> Result<(), Cause> {
        self.command.put(alloc, number, opened, out)
    }

    fn gone_entry<O: Sink>(&self, _: Global, _: u64, _: &mut O) -> Result<(), Cause> {
        Err(Cause::Refused(Refusal::Discarded))
    }

    fn last<O: Sink>(&self, _: Global, _: (), _: &Shelf, _: &mut O) -> Result<Option<Note>, Cause> {
        Ok(None)
    }
}

/// Runs such a command on the file of this number.
pub(crate) fn run_one<C: PutsFile + Drop, D: Disk, O: Sink>(
    alloc: Global,
    number: u64,
    command: C,
    disk: &mut D,
    out: &mut O,
) -> Cause
    ensures { RunsOver (outlets_of D.Disk O.Sink)
        (query_of_files (query_of_one (C.sees command) (C.fate command) number)) result
        (outlets disk.old out.old) (outlets disk.new out.new) }
{
    run_entries(alloc, &Files(OneFile { number, command }), disk, out)
}
