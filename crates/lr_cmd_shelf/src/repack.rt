//! `repack`: the image of a file is coded anew, and the file with it is added to the shelf.
ghost use Rattle.std.specs.Prelude.{◌≡◌, IfErr, IfOk};
ghost use Rattle.lr_rice_coder.specs.Coded.{IsBlockSize};
ghost use Rattle.lr_causes.specs.Outside.{outlets, outlets_of};
ghost use Rattle.lr_cmd_shelf.specs.Adding.{RunsAdding};
ghost use Rattle.lr_cmd_shelf.specs.Repack.{IsNotRepacked, IsRepackOf, origin_kept};
ghost use Rattle.lr_cmd_shelf.specs.Repack.{coded_by, refusal_cause, repack_query, repack_refusal};

use lr_bits::{Bytes, MissionFile, Origin, Placed};
use lr_catalog::repack_line;
use lr_causes::{Cause, CodingFault, Refusal, put_text};
use lr_disk::Disk;
use lr_io::Sink;
use lr_refusals::{image_cause, shelf_answer};
use lr_rice_coder::RepackFault;
use lr_shelf::{Shelf, Stored};
use std::alloc::Global;

/// A file that was coded anew, and the line that tells it.
#[derive(Drop)]
struct Repacked {
    placed: Placed,
    line: Bytes,
}

/// The origin of the new file: that of the old one, or three zeros if version 1 stored it.
fn origin_kept(origin: Option<Origin>) -> Origin
    ensures { result ≡ origin_kept origin }
{
    match origin {
        Some(origin) => origin,
        None => Origin {
            first: 0,
            last: 0,
            corrected: 0,
        },
    }
}

/// The cause of a file that isn't coded anew.
fn coding_cause(fault: RepackFault) -> Cause
    ensures { result ≡ refusal_cause (repack_refusal fault) }
{
    match fault {
        RepackFault::Image(fault) => image_cause(fault),
        RepackFault::Depth { .. } => Cause::Refused(Refusal::CannotRepack(CodingFault::Depth)),
        RepackFault::Line { .. } => Cause::Refused(Refusal::CannotRepack(CodingFault::Line)),
        RepackFault::Header { .. } => Cause::Refused(Refusal::CannotRepack(CodingFault::Header)),
        RepackFault::File { .. } => Cause::Refused(Refusal::CannotRepack(CodingFault::File)),
        RepackFault::NoMemory => Cause::NoMemory,
    }
}

/// The file that was coded anew, or the cause of its fault. So want of memory comes of that coding's alone.
fn coded(answer: Result<MissionFile, RepackFault>) -> Result<MissionFile, Cause>
    ensures { result ≡ coded_by answer }
{
    match answer {
        Ok(file) => Ok(file),
        Err(fault) => Err(coding_cause(fault)),
    }
}

/// A file of the shelf, coded anew, and the line that the new one has the number `place`. The old one is let go.
fn code_stored(
    alloc: Global,
    number: u64,
    place: u64,
    block: u32,
    stored: Stored,
) -> Result<Repacked, Cause>
    requires { IsBlockSize block }
    ensures ok { IfOk result (IsRepackOf number place block stored) }
    ensures err { IfErr result (IsNotRepacked block stored) }
{
    let file = match coded(lr_rice_coder::repack(alloc, &stored.file, block)) {
        Ok(file) => file,
        Err(cause) => return Err(cause),
    };
    let before = stored.file.bytes().len() as u64;
    let after = file.bytes().len() as u64;
    let mut line = Bytes::new(alloc);
    repack_line(alloc, number, place, before, after, &mut line)?;
    let origin = origin_kept(stored.origin);
    let placed = Placed { file, origin };
    Ok(Repacked { placed, line })
}

/// Codes the image of the file of this number anew, in blocks of 8, 16, 32 or 64 samples, adds the new file with the
/// origin of the old one, and then puts a line with the numbers and the bytes of both. Refused, in this order: no
/// shelf, no such file, discarded, no item of a file there, a wrong checksum, no image, no coding, capacity.
pub fn repack<D: Disk, O: Sink>(
    alloc: Global,
    number: u64,
    block: u32,
    disk: &mut D,
    out: &mut O,
) -> Cause
    requires { IsBlockSize block }
    ensures { RunsAdding (outlets_of D.Disk O.Sink) (repack_query number block) result
        (outlets disk.old out.old) (outlets disk.new out.new) }
{
    let mut shelf = match shelf_answer(Shelf::load(alloc, disk)) {
        Ok(shelf) => shelf,
        Err(cause) => return cause,
    };
    let stored = match shelf_answer(shelf.get(disk, number)) {
        Ok(stored) => stored,
        Err(cause) => return cause,
    };
    let made = match code_stored(alloc, number, shelf.len(), block, stored) {
        Ok(made) => made,
        Err(cause) => return cause,
    };
    if let Err(cause) = shelf_answer(shelf.append(disk, &made.placed)) {
        return cause;
    }
    match put_text(made.line.as_slice(), out) {
        Ok(()) => Cause::Done,
        Err(cause) => cause,
    }
}
