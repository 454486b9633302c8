//! Commands that read whole files.
ghost use Rattle.std.specs.Prelude.{◌≡◌, ◌≢◌, Err, IfErr, IfOk};
ghost use Rattle.lr_image.specs.Images.{HasOutcome};

use crate::opened::Opened;
use crate::range::Range;
use crate::reads::ReadsEntries;
use lr_bits::{MissionFile, NoMemory};
use lr_causes::{Cause, Note};
use lr_disk::Disk;
use lr_image::{Image, ImageFault, image_of};
use lr_io::Sink;
use lr_refusals::file_or_gone;
use lr_shelf::{Shelf, Stored};
use std::alloc::Global;

/// A command that reads whole files and looks at the images of some, and is refused at one whose checksum is wrong.
pub trait ReadsFiles {
    ghost use Rattle.std.specs.Prelude.{◌≡◌, ◌+◌, ◌<◌, ◌≤◌, ◌^◌, ℕ, Ok, Err, List, [], ◌∷◌, ◌++◌, length};
    ghost use Rattle.std.specs.Prelude.{IfOk, IfErr, IfSome, OnOk};
    ghost use Rattle.lr_causes.specs.declared.cause.Refusal.{Refusal};
    ghost use Rattle.lr_shelf.specs.Kept.{kept_by};
    ghost use Rattle.lr_cmd_shelf.specs.declared.opened.Opened.{Opened};
    ghost use Rattle.lr_cmd_shelf.specs.Files.{FileQuery};
    ghost use Rattle.lr_cmd_shelf.specs.Sights.{SeesIf, SeesImages};
    ghost use Rattle.lr_cmd_shelf.specs.Steps.{PutsText, TextStops};

    /// What it gathers of the files.
    type Gathered: Drop;

    /// What it asks.
    ghost query: { Self → FileQuery };

    /// What was gathered of these files.
    ghost gathers: { Self → Self.Gathered → List Opened → Type 0 };

    /// The entries that it reads of this many, if no number is refused.
    fn range(&self, count: u64) -> Option<Range>
        ensures is { result ≡ (query self.now).range count }
        ensures ordered { IfSome result (λ range. range.from ≤ range.to) }
        ensures inside { IfSome result (λ range. range.to ≤ count) };

    /// Takes the memory at opening.
    fn start(&self, alloc: Global) -> Result<Self::Gathered, NoMemory>
        ensures { IfOk result (λ gathered. gathers self.now gathered []) };

    /// Whether it looks at the image of this file.
    fn looks(&self, alloc: Global, stored: &Stored) -> Result<bool, NoMemory>
        ensures { IfOk result (λ looks. SeesIf looks stored.now.file ((query self.now).sees stored.now)) };

    /// Puts the text of a file. Memory is taken before the text.
    fn file<O: Sink>(
        &self,
        alloc: Global,
        number: u64,
        opened: &Opened,
        gathered: &mut Self::Gathered,
        out: &mut O,
    ) -> Result<(), Cause>
        ensures puts { (read : List Opened) → gathers self.now gathered.old read
            → OnOk result (PutsText O.Sink ((query self.now).fate read number opened.now) out.old out.new) }
        ensures gathered { (read : List Opened) → length read + 1 < 2 ^ 64 → gathers self.now gathered.old read
            → OnOk result (gathers self.now gathered.new (read ++ opened.now ∷ [])) }
        ensures stops { (read : List Opened) → gathers self.now gathered.old read → IfErr result (λ cause.
            TextStops O.Sink ((query self.now).fate read number opened.now) cause out.old out.new) };

    /// Puts the text of an entry that is gone. Memory is taken before the text, and none where that is refused.
    fn gone_entry<O: Sink>(&self, alloc: Global, number: u64, out: &mut O) -> Result<(), Cause>
        ensures puts { OnOk result (PutsText O.Sink ((query self.now).gone number) out.old out.new) }
        ensures stops { IfErr result (λ cause.
            TextStops O.Sink ((query self.now).gone number) cause out.old out.new) }
        ensures refuses { (refusal : Refusal) → (query self.now).gone number ≡ Err refusal
            → result ≡ Err (Cause.Refused refusal) };

    /// Puts the last text, and answers what is told beside it. Memory is taken before the text, and none where there
    /// is no text, or where that is refused.
    fn last<O: Sink>(
        &self,
        alloc: Global,
        gathered: Self::Gathered,
        shelf: &Shelf,
        out: &mut O,
    ) -> Result<Option<Note>, Cause>
        ensures puts { (read : List Opened) → gathers self.now gathered read
            → OnOk result (PutsText O.Sink ((query self.now).last (kept_by shelf.now).way read) out.old out.new) }
        ensures tells { (read : List Opened) → gathers self.now gathered read
            → IfOk result (λ note. note ≡ (query self.now).note read) }
        ensures stops { (read : List Opened) → gathers self.now gathered read → IfErr result (λ cause.
            TextStops O.Sink ((query self.now).last (kept_by shelf.now).way read) cause out.old out.new) }
        ensures sure { (read : List Opened) → gathers self.now gathered read
            → (query self.now).last (kept_by shelf.now).way read ≡ Ok [] → IfErr result (λ _. ⊥) }
        ensures refuses { (read : List Opened) (refusal : Refusal) → gathers self.now gathered read
            → (query self.now).last (kept_by shelf.now).way read ≡ Err refusal
            → result ≡ Err (Cause.Refused refusal) };

    /// It sees the images that files have, or none.
    ghost sight: { (command : Self) → SeesImages (query command).sees };
}

/// What was found of an image, unless memory was refused for that.
fn outcome_by(found: Result<Image, ImageFault>) -> Result<Result<Image, ImageFault>, NoMemory>
    ensures outcome { IfOk result (λ outcome. (outcome ≡ found) × (found ≢ Err ImageFault.NoMemory)) }
    ensures refused { IfErr result (λ _. found ≡ Err ImageFault.NoMemory) }
{
    match found {
        Err(ImageFault::NoMemory) => Err(NoMemory),
        outcome => Ok(outcome),
    }
}

/// The image of a file, or the first fault for which it has none.
fn outcome_of(alloc: Global, file: &MissionFile) -> Result<Result<Image, ImageFault>, NoMemory>
    ensures { IfOk result (HasOutcome file.now) }
{
    outcome_by(image_of(alloc, file))
}

/// A file, with its image or its first fault if the command looks at that.
fn open<C: ReadsFiles>(alloc: Global, command: &C, stored: Stored) -> Result<Opened, NoMemory>
    ensures same { IfOk result (λ opened. opened.stored ≡ stored) }
    ensures seen { IfOk result (λ opened. (C.query command.now).sees stored opened.image) }
{
    if !command.looks(alloc, &stored)? {
        return Ok(Opened {
            stored,
            image: None,
        });
    }
    let outcome = outcome_of(alloc, &stored.file)?;
    Ok(Opened {
        stored,
        image: Some(outcome),
    })
}

/// Reads each entry as a file, and refuses one with a wrong checksum.
#[derive(Drop)]
pub struct Files<C>(pub C);

impl<C: ReadsFiles> ReadsEntries for Files<C> {
    ghost use Rattle.lr_cmd_shelf.specs.Files.{query_of_files, files_of};

    type Gathered = C::Gathered;

    ghost query = { λ s. query_of_files (C.query s.0) };

    ghost gathers = { λ s gathered read. C.gathers s.0 gathered (files_of read) };

    ghost sight = { λ s. C.sight s.0 };

    fn range(&self, count: u64) -> Option<Range> {
        self.0.range(count)
    }

    fn start(&self, alloc: Global) -> Result<C::Gathered, NoMemory> {
        self.0.start(alloc)
    }

    fn entry<D: Disk, O: Sink>(
        &self,
        number: u64,
        gathered: &mut C::Gathered,
        shelf: &mut Shelf,
        disk: &mut D,
        out: &mut O,
    ) -> Result<(), Cause> {
        let alloc = shelf.allocator();
        match file_or_gone(shelf.get(disk, number)) {
            Ok(Some(stored)) => match open(alloc, &self.0, stored) {
                Ok(opened) => self.0.file(alloc, number, &opened, gathered, out),
                Err(NoMemory) => Err(Cause::NoMemory),
            },
            Ok(None) => self.0.gone_entry(alloc, number, out),
            Err(cause) => Err(cause),
        }
    }

    fn last<O: Sink>(
        &self,
        alloc: Global,
        gathered: C::Gathered,
        shelf: &Shelf,
        out: &mut O,
    ) -> Result<Option<Note>, Cause> {
        self.0.last(alloc, gathered, shelf, out)
    }
}
