//! Files whose images are coded anew.

ghost use Rattle.std.specs.Prelude.{◌≡◌, ◌<◌, ◌≤◌, ◌+◌, ◌^◌, ◌++◌, ◌∷◌, [], All, IfErr, IfOk, OnOk, length};
ghost use Rattle.lr_bits.specs.File.{counter_of};
ghost use Rattle.lr_bits.specs.Sizes.{most_body_bytes, most_file_bytes};
ghost use Rattle.lr_rice.specs.CodedLines.{form_of};
ghost use Rattle.lr_rice_coder.specs.Coded.{IsBlockSize, IsFault};
ghost use Rattle.lr_rice_coder.specs.Fronts.{
  AppendsLines,
  AppendsRow,
  HoldsLines,
  IsCodedImage,
  CodingFails,
  MakesFile,
};
ghost use Rattle.lr_rice_coder.specs.Fronts.{MakingFails, front_with, picture_with};
ghost use Rattle.lr_rice_coder.specs.Refusals.{HasRepackFaultOrMemory};
ghost use Rattle.lr_rice_coder.specs.Repacked.{HaveOneImage, IsRepacked, KeepsName};

use crate::header::{NEW_BYTES, first_body, other_records};
use crate::{CodeFault, RepackFault, code_line};
use lr_bits::{Bytes, Lengths, MOST_BODY_BYTES, MOST_FILE_BYTES, MissionFile, NoMemory};
use lr_headers::{Records, Structure};
use lr_image::{Image, ImageFault, image_of};
use std::alloc::Global;

/// The fewest bits of a pixel that is coded.
const LEAST_BITS: u8 = 5;

/// The file with its image coded anew, in blocks of 8, 16, 32 or 64 samples: the transport header and the header in the
/// first body, and then each line in a body of its own.
pub fn repack(alloc: Global, file: &MissionFile, block: u32) -> Result<MissionFile, RepackFault>
    requires { IsBlockSize block }
    ensures ok { IfOk result (IsRepacked file.now block) }
    ensures err { IfErr result (HasRepackFaultOrMemory file.now block) }
    ensures image { IfOk result (HaveOneImage file.now) }
    ensures name { IfOk result (KeepsName file.now) }
{
    let image = match image_of(alloc, file) {
        Ok(image) => image,
        Err(ImageFault::NoMemory) => return Err(RepackFault::NoMemory),
        Err(fault) => return Err(RepackFault::Image(fault)),
    };
    let bits = image.bits();
    if bits < LEAST_BITS {
        return Err(RepackFault::Depth { bits });
    }
    let Ok(records) = Records::read(alloc, file.proper()) else {
        return Err(RepackFault::NoMemory);
    };
    let Some(structure) = records.structure() else {
        unreachable!();
    };
    let Ok(others) = other_records(alloc, file.proper(), &records) else {
        return Err(RepackFault::NoMemory);
    };
    code_image(alloc, file, structure, image, block, others.as_slice())
}

/// The file with this image, coded anew, whose header has these other records. The image is let go once its lines are
/// coded.
fn code_image(
    alloc: Global,
    file: &MissionFile,
    structure: Structure,
    image: Image,
    block: u32,
    others: &[u8],
) -> Result<MissionFile, RepackFault>
    requires { IsCodedImage structure image.pixels block }
    ensures ok { IfOk result (MakesFile file.now structure image.pixels
        (record { block = block; others = others.now })) }
    ensures err { IfErr result (MakingFails (picture_with structure image.pixels) block others.now) }
{
    let first = NEW_BYTES + others.len();
    let lines = match coded_lines(alloc, structure, image, block, first) {
        Ok(lines) => lines,
        Err(fault) => return Err(fault),
    };
    if first > MOST_BODY_BYTES {
        let length = first as u64;
        return Err(RepackFault::Header { length });
    }
    let total = first + lines.size;
    if total > MOST_FILE_BYTES {
        let length = total as u64;
        return Err(RepackFault::File { length });
    }
    let LineBytes { lengths, bytes, .. } = lines;
    let all = bytes.as_slice();
    let Ok(whole) = file_bytes(alloc, file, structure, block as u8, others, all) else {
        return Err(RepackFault::NoMemory);
    };
    let channel = file.vc();
    let application = file.apid();
    match MissionFile::build(channel, application, lengths, whole) {
        Some(new) => Ok(new),
        None => unreachable!(),
    }
}

/// The bytes of the file: the first body, and after it those of the lines.
fn file_bytes(
    alloc: Global,
    file: &MissionFile,
    structure: Structure,
    block: u8,
    others: &[u8],
    lines: &[u8],
) -> Result<Bytes, NoMemory>
    requires others { length others.now < 2 ^ 31 }
    requires lines { length lines.now < 2 ^ 31 }
    ensures ok { IfOk result (λ bytes.
        bytes ≡ front_with (counter_of file.now) structure block others.now (length lines.now) ++ lines.now) }
    ensures counter { counter_of file.now < 65536 }
{
    let counter = file.counter();
    let mut bytes = first_body(alloc, counter, structure, block, others, lines.len())?;
    bytes.extend(lines)?;
    Ok(bytes)
}

/// The lines of an image as they are coded. Lengths and bytes are held as long as a file has room for them; after that
/// only the number of bytes is.
#[derive(Drop)]
pub(crate) struct LineBytes {
    /// How many bytes the first body has, and each line.
    lengths: Lengths,
    /// The bytes of the lines.
    bytes: Bytes,
    /// How many bytes all lines have.
    size: usize,
}

/// The lines of the image, coded, where the first body has `first` bytes.
fn coded_lines(
    alloc: Global,
    structure: Structure,
    image: Image,
    block: u32,
    first: usize,
) -> Result<LineBytes, RepackFault>
    requires { IsCodedImage structure image.pixels block }
    ensures ok { IfOk result (HoldsLines (picture_with structure image.pixels) block first) }
    ensures err { IfErr result (CodingFails (picture_with structure image.pixels) block) }
{
    let Ok(lengths) = lengths_from(alloc, first) else {
        return Err(RepackFault::NoMemory);
    };
    let bytes = Bytes::new(alloc);
    let mut lines = LineBytes {
        lengths,
        bytes,
        size: 0,
    };
    let room = room_after(first);
    match code_lines(alloc, structure, image.pixels(), block, room, &mut lines) {
        Ok(()) => Ok(lines),
        Err(fault) => Err(fault),
    }
}

/// The length of the first body, if a body can have it.
fn lengths_from(alloc: Global, first: usize) -> Result<Lengths, NoMemory>
    ensures { IfOk result (λ lengths. first ≤ most_body_bytes → lengths ≡ first ∷ []) }
{
    let mut lengths = Lengths::new(alloc);
    if first <= MOST_BODY_BYTES {
        lengths.push(first as u16)?;
    }
    Ok(lengths)
}

/// How many bytes all lines may have after a first body of `first` bytes: none where this is too long for a body.
fn room_after(first: usize) -> usize
    ensures { first ≤ most_body_bytes → first + result ≡ most_file_bytes }
{
    if first <= MOST_BODY_BYTES {
        MOST_FILE_BYTES - first
    } else {
        0
    }
}

/// Appends the coding of each line of the image, and holds as many bytes as there is room for.
fn code_lines(
    alloc: Global,
    structure: Structure,
    pixels: &[u16],
    block: u32,
    room: usize,
    lines: &mut LineBytes,
) -> Result<(), RepackFault>
    requires image { IsCodedImage structure pixels.now block }
    requires none { lines.old.bytes ≡ [] }
    requires empty { lines.old.size ≡ 0 }
    ensures ok { OnOk result (AppendsLines (picture_with structure pixels.now) block room lines.old lines.new) }
    ensures err { IfErr result (CodingFails (picture_with structure pixels.now) block) }
{
    let columns = usize::from(structure.columns);
    for line in 0..structure.lines {
        let start = usize::from(line) * columns;
        let row = &pixels[start..start + columns];
        match code_row(alloc, row, structure.bits, block, &mut lines.bytes) {
            Ok(length) => {
                let Ok(()) = hold(lines, length, room) else {
                    return Err(RepackFault::NoMemory);
                };
            }
            Err(CodeFault::Long) => {
                let line = u32::from(line);
                return Err(RepackFault::Line { line });
            }
            Err(CodeFault::NoMemory) => return Err(RepackFault::NoMemory),
        }
    }
    Ok(())
}

/// Counts the last line, of this many bytes, and holds it if there is room for all lines so far.
fn hold(lines: &mut LineBytes, length: u16, room: usize) -> Result<(), NoMemory>
    requires { lines.old.size < 2 ^ 63 }
    ensures size { OnOk result (lines.new.size ≡ lines.old.size + length) }
    ensures lengths { OnOk result
        (lines.new.size ≤ room → lines.new.lengths ≡ lines.old.lengths ++ length ∷ []) }
    ensures bytes { OnOk result (lines.new.size ≤ room → lines.new.bytes ≡ lines.old.bytes) }
{
    lines.size += usize::from(length);
    if lines.size > room {
        lines.bytes.truncate(0);
        return Ok(());
    }
    lines.lengths.push(length)
}

/// Appends the coding of a line, and answers how many bytes it has.
fn code_row(
    alloc: Global,
    row: &[u16],
    bits: u8,
    block: u32,
    out: &mut Bytes,
) -> Result<u16, CodeFault>
    requires bits { (5 ≤ bits) × (bits ≤ 16) }
    requires block { IsBlockSize block }
    requires columns { (1 ≤ length row.now) × (length row.now ≤ 65535) }
    requires small { All (λ sample. sample < 2 ^ bits) row.now }
    ensures ok { IfOk result (AppendsRow (form_of bits block (length row.now)) row.now out.old out.new) }
    ensures fault { IfErr result (IsFault (form_of bits block (length row.now)) row.now) }
{
    let before = out.as_slice().len();
    match code_line(alloc, row, u32::from(bits), block, out) {
        Ok(()) => Ok((out.as_slice().len() - before) as u16),
        Err(fault) => Err(fault),
    }
}
