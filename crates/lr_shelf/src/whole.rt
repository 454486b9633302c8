//! Records that are read in one piece.
ghost use Rattle.std.specs.Prelude.{◌≡◌, ◌<◌, false, Some, length, IfOk, IfErr, MatchBool};
ghost use Rattle.lr_disk.specs.Reads.{OnlyReads};
ghost use Rattle.lr_shelf_format.specs.Way.{HasRecord, Sound};
ghost use Rattle.lr_shelf.specs.Calls.{ReadsDisk};
ghost use Rattle.lr_shelf.specs.Pieces.{IsExamined, IsReadWhole};
ghost use Rattle.lr_shelf.specs.Read.{Finds, IsFindRefusal};

use crate::error::ShelfError;
use crate::read::read_front;
use lr_bits::Failed;
use lr_disk::Disk;
use lr_shelf_format::{Checksums, Entry, OPEN_GATE, Stored, record_in, stored_in, sums_of};
use std::alloc::Global;

/// Reads the gate of the entry and its item to the front of the buffer. False where the gate isn't open, or the item
/// isn't there whole.
fn read_whole<D: Disk>(disk: &mut D, buffer: &mut [u8], entry: Entry) -> Result<bool, Failed>
    requires { entry.extent < length buffer.old }
    ensures reads { OnlyReads D.Disk disk.old disk.new result }
    ensures whole { D.tells disk.old → IfOk result (λ whole. MatchBool whole
        (IsReadWhole (D.contents disk.old) entry buffer.new)
        (HasRecord (D.contents disk.old) entry → ⊥)) }
{
    let size = 1 + entry.extent as usize;
    let read = read_front(disk, entry.gate, buffer, size)?;
    if read < size || buffer[0] != OPEN_GATE {
        return Ok(false);
    }
    Ok(true)
}

/// The checksums of the record of the entry, if one stands there.
pub(crate) fn sums_in_one<D: Disk>(
    disk: &mut D,
    buffer: &mut [u8],
    entry: Entry,
) -> Result<Option<Checksums>, Failed>
    requires { entry.extent < length buffer.old }
    ensures reads { OnlyReads D.Disk disk.old disk.new result }
    ensures found { D.tells disk.old → IfOk result (IsExamined (D.contents disk.old) entry) }
{
    if !read_whole(disk, buffer, entry)? {
        return Ok(None);
    }
    let item = &buffer[1..1 + entry.extent as usize];
    if record_in(item).is_none() {
        return Ok(None);
    }
    Ok(Some(sums_of(item)))
}

/// The file of the entry, and its origin.
pub(crate) fn stored_at<D: Disk>(
    alloc: Global,
    disk: &mut D,
    buffer: &mut [u8],
    entry: Entry,
) -> Result<Stored, ShelfError>
    requires room { entry.extent < length buffer.old }
    requires stays { entry.gone ≡ false }
    ensures reads { ReadsDisk D.Disk disk.old disk.new result }
    ensures stored { IfOk result (λ stored. Finds D.Disk entry disk.old (Some (Sound stored))) }
    ensures refused { IfErr result (IsFindRefusal D.Disk entry disk.old) }
{
    let at = entry.gate;
    if !read_whole(disk, buffer, entry)? {
        return Err(ShelfError::NotAShelf { at });
    }
    let item = &buffer[1..1 + entry.extent as usize];
    let Some(head) = record_in(item) else {
        return Err(ShelfError::NotAShelf { at });
    };
    let Checksums { stored, computed } = sums_of(item);
    if stored != computed {
        return Err(ShelfError::Crc { stored, computed });
    }
    Ok(stored_in(alloc, item, head)?)
}
