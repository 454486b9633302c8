//! `discard`: a file is discarded.
ghost use Rattle.lr_causes.specs.Outside.{outlets, outlets_of};
ghost use Rattle.lr_cmd_shelf.specs.Adding.{RunsAdding};
ghost use Rattle.lr_cmd_shelf.specs.Discard.{discard_query};

use lr_bits::Bytes;
use lr_catalog::discard_line;
use lr_causes::{Cause, put_text};
use lr_disk::Disk;
use lr_io::Sink;
use lr_refusals::shelf_answer;
use lr_shelf::Shelf;
use std::alloc::Global;

/// Discards the file of this number on the disk, and then puts a line that says so. The line is composed first, so that
/// want of memory leaves the disk as it was. Refused, in this order: no shelf, no such file, discarded, capacity.
pub fn discard<D: Disk, O: Sink>(alloc: Global, number: u64, disk: &mut D, out: &mut O) -> Cause
    ensures { RunsAdding (outlets_of D.Disk O.Sink) (discard_query number) result
        (outlets disk.old out.old) (outlets disk.new out.new) }
{
    let mut line = Bytes::new(alloc);
    if let Err(error) = discard_line(alloc, number, &mut line) {
        return Cause::from(error);
    }
    let mut shelf = match shelf_answer(Shelf::load(alloc, disk)) {
        Ok(shelf) => shelf,
        Err(cause) => return cause,
    };
    if let Err(cause) = shelf_answer(shelf.discard(disk, number)) {
        return cause;
    }
    match put_text(line.as_slice(), out) {
        Ok(()) => Cause::Done,
        Err(cause) => cause,
    }
}
