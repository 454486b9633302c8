//! The one loop over the entries of a shelf.
ghost use Rattle.std.specs.Prelude.{◌≡◌, false, [], IfErr, IfOk};
ghost use Rattle.lr_cmd_shelf.specs.Queries.{query_on};
ghost use Rattle.lr_shelf.specs.Kept.{kept_by};
ghost use Rattle.lr_causes.specs.Causes.{done_with};
ghost use Rattle.lr_causes.specs.Outside.{outlets, outlets_of};
ghost use Rattle.lr_cmd_shelf.specs.Runs.{GathersOn, GathersOver};

use crate::reads::ReadsEntries;
use lr_causes::{Cause, Note, Refusal};
use lr_disk::Disk;
use lr_io::Sink;
use lr_refusals::shelf_answer;
use lr_shelf::Shelf;
use std::alloc::Global;

/// Takes the entries of a shelf that was loaded, and then puts the last text. It answers what is told beside it.
fn take_entries<C: ReadsEntries, D: Disk, O: Sink>(
    alloc: Global,
    command: &C,
    gathered: C::Gathered,
    shelf: &mut Shelf,
    disk: &mut D,
    out: &mut O,
) -> Result<Option<Note>, Cause>
    requires fresh { C.gathers command.now gathered [] }
    requires working { (kept_by shelf.old).failed ≡ false }
    ensures takes { IfOk result (λ note. GathersOn (outlets_of D.Disk O.Sink) (C.gathers command.now) (done_with note)
        (outlets disk.old out.old) (outlets disk.new out.new)
        (query_on (C.query command.now) (kept_by shelf.old).way)) }
    ensures stops { IfErr result (λ cause. GathersOn (outlets_of D.Disk O.Sink) (C.gathers command.now) cause
        (outlets disk.old out.old) (outlets disk.new out.new)
        (query_on (C.query command.now) (kept_by shelf.old).way)) }
{
    let count = shelf.len();
    let Some(range) = command.range(count) else {
        return Err(Cause::Refused(Refusal::NoSuchFile { count }));
    };
    let mut gathered = gathered;
    for number in range.from..range.to {
        command.entry(number, &mut gathered, shelf, disk, out)?;
    }
    command.last(alloc, gathered, shelf, out)
}

/// Runs a command over the shelf on the disk: takes the memory at opening, loads the shelf, compares the numbers, takes
/// the entries in order, and puts the last text. The first event decides. Where it is done, what was gathered is that
/// of all entries that were read.
pub fn run_entries<C: ReadsEntries, D: Disk, O: Sink>(
    alloc: Global,
    command: &C,
    disk: &mut D,
    out: &mut O,
) -> Cause
    ensures { GathersOver (outlets_of D.Disk O.Sink) (C.gathers command.now) result
        (outlets disk.old out.old) (outlets disk.new out.new) (C.query command.now) }
{
    let gathered = match command.start(alloc) {
        Ok(gathered) => gathered,
        Err(error) => return Cause::from(error),
    };
    let mut shelf = match shelf_answer(Shelf::load(alloc, disk)) {
        Ok(shelf) => shelf,
        Err(cause) => return cause,
    };
    match take_entries(alloc, command, gathered, &mut shelf, disk, out) {
        Ok(note) => Cause::done_with(note),
        Err(cause) => cause,
    }
}
