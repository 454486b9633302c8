//! Files onto the shelf, each acknowledged by its line.
ghost use Rattle.std.specs.Prelude.{◌≡◌, ◌==◌, ◌<◌, ◌+◌, ◌^◌, ◌++◌, ◌∷◌, [], ℕ, List, not, slice_get, OnOk, IfErr};
ghost use Rattle.lr_bits.specs.declared.outcome.Outcome.{Outcome as Outcome'};
ghost use Rattle.lr_layers.specs.Standing.{MendingLayersStandFor};
ghost use Rattle.lr_reading.specs.Arrivals.{HasWholeFrame};
ghost use Rattle.lr_cmd_receive.specs.Noted.{noted_file, noted_with};
ghost use Rattle.lr_cmd_receive.specs.Shelved.{
  AddsNotedFiles,
  Gains,
  GainsNoMore,
  HasShelved,
  StopsShelving,
  one_more,
  shelf_in,
};
ghost use Rattle.lr_causes.specs.Outside.{outlets, outlets_of};

use crate::lines::noted_line;
use lr_bits::{Bytes, NoMemory, Outcome, Placed};
use lr_causes::{Cause, put_text};
use lr_disk::Disk;
use lr_io::Sink;
use lr_layers::Layers;
use lr_refusals::shelf_answer;
use lr_shelf::{Shelf, is_item};

/// Shelves one file: its line is composed, the file is appended, and then the line is put. The line tells the number of
/// fillers where that is noted.
fn shelve<D: Disk, O: Sink>(
    placed: &Placed,
    fillers: Option<u16>,
    shelf: &mut Shelf,
    disk: &mut D,
    out: &mut O,
) -> Result<(), Cause>
    ensures shelved { OnOk result (HasShelved (outlets_of D.Disk O.Sink) (noted_file placed.now fillers ∷ [])
        (shelf_in shelf.old (outlets disk.old out.old)) (shelf_in shelf.new (outlets disk.new out.new))) }
    ensures stopped { IfErr result (λ cause. StopsShelving (outlets_of D.Disk O.Sink) cause
        (noted_file placed.now fillers ∷ [])
        (shelf_in shelf.old (outlets disk.old out.old)) (outlets disk.new out.new)) }
{
    is_item(&placed.file, placed.origin);
    let alloc = shelf.allocator();
    let mut line = Bytes::new(alloc);
    noted_line(alloc, shelf.len(), &placed.file, fillers, &mut line)?;
    match shelf_answer(shelf.append(disk, placed)) {
        Err(cause) => Err(cause),
        Ok(_) => put_text(line.as_slice(), out),
    }
}

/// The number at this place, if there is one.
fn number_at(numbers: &[u16], place: usize) -> Option<u16>
    ensures { result ≡ slice_get numbers.now place }
{
    numbers.get(place).copied()
}

/// Shelves files, one after another. Of the first ones the numbers of fillers are noted.
fn shelve_all<D: Disk, O: Sink>(
    files: &[Placed],
    fillers: &[u16],
    shelf: &mut Shelf,
    disk: &mut D,
    out: &mut O,
) -> Result<(), Cause>
    ensures shelved { OnOk result (HasShelved (outlets_of D.Disk O.Sink) (noted_with files.now fillers.now)
        (shelf_in shelf.old (outlets disk.old out.old)) (shelf_in shelf.new (outlets disk.new out.new))) }
    ensures stopped { IfErr result (λ cause. StopsShelving (outlets_of D.Disk O.Sink) cause
        (noted_with files.now fillers.now) (shelf_in shelf.old (outlets disk.old out.old))
        (outlets disk.new out.new)) }
{
    for (place, placed) in files.iter().enumerate() {
        shelve(placed, number_at(fillers, place), shelf, disk, out)?;
    }
    Ok(())
}

/// The files that end with an outcome, and how many fillers each has, if images are mended.
#[derive(Drop)]
pub(crate) struct Ended {
    pub files: Vec<Placed>,
    pub fillers: Vec<u16>,
}

/// Takes the files that end with the next outcome, in place of those of the one before. Where images are mended, the
/// numbers of their fillers are noted.
fn take_files(
    outcome: &Outcome,
    layers: &mut Layers,
    mends: bool,
    ended: &mut Ended,
) -> Result<(), NoMemory>
    requires few { layers.old.numbers.restored + layers.old.numbers.lost < 2 ^ 48 }
    requires mends { mends ≡ not (layers.old.files.images.most == 0) }
    ensures stands { (mend : ℕ) (outcomes : List Outcome') → MendingLayersStandFor mend layers.old outcomes
        → OnOk result (MendingLayersStandFor mend layers.new (outcomes ++ outcome.now ∷ [])) }
    ensures adds { (mend : ℕ) (outcomes : List Outcome') → MendingLayersStandFor mend layers.old outcomes
        → OnOk result (AddsNotedFiles (one_more mend outcomes outcome.now)
        (noted_with ended.new.files.items ended.new.fillers.items)) }
{
    ended.files.clear();
    ended.fillers.clear();
    if mends {
        layers.push_mended(outcome, &mut ended.files, &mut ended.fillers)
    } else {
        layers.push_outcome(outcome, &mut ended.files)
    }
}

/// Shelves the files that end with the next outcome.
pub(crate) fn shelve_outcome<D: Disk, O: Sink>(
    outcome: &Outcome,
    layers: &mut Layers,
    mends: bool,
    ended: &mut Ended,
    shelf: &mut Shelf,
    disk: &mut D,
    out: &mut O,
) -> Result<(), Cause>
    requires few { layers.old.numbers.restored + layers.old.numbers.lost < 2 ^ 48 }
    requires mends { mends ≡ not (layers.old.files.images.most == 0) }
    ensures stands { (mend : ℕ) (outcomes : List Outcome') → MendingLayersStandFor mend layers.old outcomes
        → OnOk result (MendingLayersStandFor mend layers.new (outcomes ++ outcome.now ∷ [])) }
    ensures gained { (mend : ℕ) (outcomes : List Outcome') → MendingLayersStandFor mend layers.old outcomes
        → OnOk result (Gains (outlets_of D.Disk O.Sink) (one_more mend outcomes outcome.now)
        (shelf_in shelf.old (outlets disk.old out.old)) (shelf_in shelf.new (outlets disk.new out.new))) }
    ensures stopped { (mend : ℕ) (outcomes : List Outcome') → MendingLayersStandFor mend layers.old outcomes
        → HasWholeFrame outcome.now
        → IfErr result (λ cause. GainsNoMore (outlets_of D.Disk O.Sink) cause (one_more mend outcomes outcome.now)
        (shelf_in shelf.old (outlets disk.old out.old)) (outlets disk.new out.new)) }
{
    take_files(outcome, layers, mends, ended)?;
    shelve_all(&ended.files, &ended.fillers, shelf, disk, out)
}
