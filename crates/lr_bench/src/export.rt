//! An image on a shelf in memory, written as PGM many times over.

use crate::lines::{Shape, number_at, shape_of};
use crate::shelf::Trouble;
use crate::sums::{sum_with, sum_with_bytes};
use lr_bits::{Bytes, Lengths, MissionFile, Origin, Placed};
use lr_cmd_shelf::export::export;
use lr_disk::MemDisk;
use lr_io::MemSink;
use lr_shelf::Shelf;
use lr_trials_coding::windows::next_state;
use std::alloc::Global;
use std::io::Read;

/// The columns of the image, and the bytes of a body. It has as many lines.
const COLUMNS: usize = 1_024;

/// The room of the shelf, and of the text.
pub(crate) const ROOM: u64 = 1 << 26;

/// The most calls on the disk. A round needs fewer than ten.
const CALLS: u64 = 1 << 16;

/// How many bytes at the front and at the end of a text are summed.
const SUMMED: usize = 64;

/// Ten bytes of transport header, and the header of an image of 8 bits that isn't compressed.
const HEADER: [u8; 35] = [
    0, 1, 0, 0, 0, 0, 0, 0, 0, 0, 0, 0, 16, 0, 0, 0, 0, 25, 0, 0, 0, 0, 0, 0, 0, 0, 1, 0, 9, 8, 4,
    0, 4, 0, 0,
];

/// How many times the lines on standard input are in a coded image.
const PIECES: u32 = 32;

/// The header of an image of coded lines, with its transport header, if its numbers have room there.
fn coded_header(shape: Shape) -> Option<[u8; 42]> {
    let each = u8::try_from(shape.lines).ok()?;
    let lines = u16::try_from(shape.lines * PIECES).ok()?;
    let mut header = [0; 42];
    header[..35].copy_from_slice(&HEADER);
    header[17] = 32;
    header[29] = shape.bits as u8;
    header[30..32].copy_from_slice(&(shape.columns as u16).to_be_bytes());
    header[32..34].copy_from_slice(&lines.to_be_bytes());
    header[34..40].copy_from_slice(&[1, 0x83, 0, 7, 0, 49]);
    header[40] = shape.block as u8;
    header[41] = each;
    Some(header)
}

/// A file of an image in which this coded piece stands many times.
pub(crate) fn coded_file(
    alloc: Global,
    shape: Shape,
    piece: &[u8],
) -> Result<MissionFile, Trouble> {
    let (Some(header), Ok(length)) = (coded_header(shape), u16::try_from(piece.len())) else {
        return Err(Trouble::NoFile);
    };
    let mut lengths = Lengths::new(alloc);
    let mut bytes = Bytes::new(alloc);
    lengths.push(42)?;
    bytes.extend(&header)?;
    for _ in 0..PIECES {
        lengths.push(length)?;
        bytes.extend(piece)?;
    }
    MissionFile::build(0, 100, lengths, bytes).ok_or(Trouble::NoFile)
}

/// A file of this image, whose pixels are drawn, in a body for each line.
pub(crate) fn image_file(alloc: Global) -> Result<MissionFile, Trouble> {
    let mut lengths = Lengths::new(alloc);
    let mut bytes = Bytes::new(alloc);
    lengths.push(HEADER.len() as u16)?;
    bytes.extend(&HEADER)?;
    let mut state = 1;
    let mut line = [0; COLUMNS];
    for _ in 0..COLUMNS {
        for pixel in line.iter_mut() {
            state = next_state(state);
            *pixel = (state >> 56) as u8;
        }
        lengths.push(COLUMNS as u16)?;
        bytes.extend(&line)?;
    }
    MissionFile::build(0, 100, lengths, bytes).ok_or(Trouble::NoFile)
}

/// A shelf in memory with these files.
pub(crate) fn shelf_with(alloc: Global, files: Vec<MissionFile>) -> Result<MemDisk, Trouble> {
    let origin = Origin {
        first: 0,
        last: 0,
        corrected: 0,
    };
    let mut disk = MemDisk::of(alloc, Vec::new(alloc), ROOM, CALLS)?;
    Shelf::init(&mut disk, ROOM)?;
    let mut shelf = Shelf::load(alloc, &mut disk)?;
    for file in files {
        shelf.append(&mut disk, &Placed { file, origin })?;
    }
    Ok(disk)
}

/// A shelf in memory with this file.
fn with_file(alloc: Global, file: MissionFile) -> Result<MemDisk, Trouble> {
    let mut files = Vec::new(alloc);
    files.push(file).map_err(|_| Trouble::Memory)?;
    shelf_with(alloc, files)
}

/// The status of each round, how long the text is, and its ends.
fn checksum_of(alloc: Global, disk: &mut MemDisk, rounds: u32) -> Result<u64, Trouble> {
    let mut sum = 0;
    for _ in 0..rounds {
        let mut out = MemSink::of(alloc, Vec::new(alloc), ROOM as usize)?;
        let status = export(alloc, 0, disk, &mut out).status();
        let text = out.as_slice();
        sum = sum_with(sum, u64::from(status));
        sum = sum_with(sum, text.len() as u64);
        sum = sum_with_bytes(sum, &text[..text.len().min(SUMMED)]);
        sum = sum_with_bytes(sum, &text[text.len().saturating_sub(SUMMED)..]);
    }
    Ok(sum)
}

/// Exports an image of 1,024 columns and lines, where the name says so.
pub fn run(rt: &(impl Print + AllocGlobal), name: &str, rounds: u32) -> Result<(), Trouble> {
    if name != "export" {
        return Ok(());
    }
    let alloc = rt.alloc();
    let mut disk = with_file(alloc, image_file(alloc)?)?;
    let sum = checksum_of(alloc, &mut disk, rounds)?;
    Ok(println!(rt; "export {rounds} {sum:016x}")?)
}

/// The words are BITS BLOCK COLUMNS LINES ROUNDS: an image in which the lines on standard input stand 32 times is
/// exported this many times.
pub fn run_lossless(rt: &HostRuntime, words: &[String]) -> Result<(), Trouble> {
    let (Some(shape), Some(rounds)) = (shape_of(words), number_at(words, 4)) else {
        return Ok(eprintln!(rt; "usage: export-lossless BITS BLOCK COLUMNS LINES ROUNDS")?);
    };
    let alloc = rt.alloc();
    let mut coded = Vec::new(alloc);
    rt.stdin().read_to_end(&mut coded)?;
    let mut disk = with_file(alloc, coded_file(alloc, shape, &coded)?)?;
    let sum = checksum_of(alloc, &mut disk, rounds)?;
    Ok(println!(rt; "export-lossless {rounds} {sum:016x}")?)
}
