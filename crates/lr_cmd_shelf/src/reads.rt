//! What a command is that reads the entries of a shelf.
use crate::range::Range;
use lr_bits::NoMemory;
use lr_causes::{Cause, Note};
use lr_disk::Disk;
use lr_io::Sink;
use lr_shelf::Shelf;
use std::alloc::Global;

/// A command that reads the entries of a shelf. What it asks is given by its words alone; what it gathers of the
/// entries is a value beside it.
pub trait ReadsEntries {
    ghost use Rattle.std.specs.Prelude.{◌≡◌, ◌+◌, ◌<◌, ◌≤◌, ◌^◌, ℕ, false, Ok, Err, List, [], length};
    ghost use Rattle.std.specs.Prelude.{IfOk, IfErr, IfSome, OnOk};
    ghost use Rattle.lr_causes.specs.declared.cause.Refusal.{Refusal};
    ghost use Rattle.lr_shelf.specs.Kept.{kept_by};
    ghost use Rattle.lr_causes.specs.Outside.{outlet_counts, outlets, outlets_of};
    ghost use Rattle.lr_cmd_shelf.specs.Queries.{Query, EntryView};
    ghost use Rattle.lr_cmd_shelf.specs.Sights.{SeesImages};
    ghost use Rattle.lr_causes.specs.Counts.{CountsTell, NoneBesides};
    ghost use Rattle.lr_cmd_shelf.specs.Steps.{PutsText, ReadsOnly, TextStops, TakesEntry, EntryStops, standing_at};

    /// What it gathers of the entries.
    type Gathered: Drop;

    /// What it asks.
    ghost query: { Self → Query };

    /// What was gathered of the entries that were seen, these.
    ghost gathers: { Self → Self.Gathered → List EntryView → Type 0 };

    /// The entries that it reads of this many, if no number is refused.
    fn range(&self, count: u64) -> Option<Range>
        ensures is { result ≡ (query self.now).range count }
        ensures ordered { IfSome result (λ range. range.from ≤ range.to) }
        ensures inside { IfSome result (λ range. range.to ≤ count) };

    /// Takes the memory at opening.
    fn start(&self, alloc: Global) -> Result<Self::Gathered, NoMemory>
        ensures { IfOk result (λ gathered. gathers self.now gathered []) };

    /// Reads an entry and puts its text. Memory is taken before the text.
    fn entry<D: Disk, O: Sink>(
        &self,
        number: u64,
        gathered: &mut Self::Gathered,
        shelf: &mut Shelf,
        disk: &mut D,
        out: &mut O,
    ) -> Result<(), Cause>
        requires there { number < length (kept_by shelf.old).way.entries }
        requires working { (kept_by shelf.old).failed ≡ false }
        ensures reads { ReadsOnly D.Disk shelf.old shelf.new disk.old disk.new }
        ensures same { OnOk result (D.faults disk.new ≡ D.faults disk.old) }
        ensures counted { (read : List EntryView) → gathers self.now gathered.old read → IfErr result (λ cause.
            CountsTell NoneBesides cause (outlet_counts (outlets_of D.Disk O.Sink) (outlets disk.old out.old))
            (outlet_counts (outlets_of D.Disk O.Sink) (outlets disk.new out.new))) }
        ensures takes { (read : List EntryView) → length read + 1 < 2 ^ 64 → gathers self.now gathered.old read
            → OnOk result (TakesEntry (outlets_of D.Disk O.Sink)
            (standing_at (query self.now) (kept_by shelf.old).way read number) (gathers self.now gathered.new)
            (outlets disk.old out.old) (outlets disk.new out.new)) }
        ensures stops { (read : List EntryView) → gathers self.now gathered.old read → IfErr result (λ cause.
            EntryStops (outlets_of D.Disk O.Sink) (standing_at (query self.now) (kept_by shelf.old).way read number)
            cause (outlets disk.old out.old) (outlets disk.new out.new)) };

    /// Puts the last text, and answers what is told beside it. Memory is taken before the text, and none where there
    /// is no text, or where that is refused.
    fn last<O: Sink>(
        &self,
        alloc: Global,
        gathered: Self::Gathered,
        shelf: &Shelf,
        out: &mut O,
    ) -> Result<Option<Note>, Cause>
        ensures takes { (read : List EntryView) → gathers self.now gathered read
            → OnOk result (PutsText O.Sink ((query self.now).last (kept_by shelf.now).way read) out.old out.new) }
        ensures tells { (read : List EntryView) → gathers self.now gathered read
            → IfOk result (λ note. note ≡ (query self.now).note read) }
        ensures stops { (read : List EntryView) → gathers self.now gathered read → IfErr result (λ cause.
            TextStops O.Sink ((query self.now).last (kept_by shelf.now).way read) cause out.old out.new) }
        ensures sure { (read : List EntryView) → gathers self.now gathered read
            → (query self.now).last (kept_by shelf.now).way read ≡ Ok [] → IfErr result (λ _. ⊥) }
        ensures refuses { (read : List EntryView) (refusal : Refusal) → gathers self.now gathered read
            → (query self.now).last (kept_by shelf.now).way read ≡ Err refusal
            → result ≡ Err (Cause.Refused refusal) };

    /// It sees the images that files have, or none.
    ghost sight: { (command : Self) → SeesImages (query command).sees };
}
