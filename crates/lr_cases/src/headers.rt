//! Drawn mission files, whose headers are read and printed.

use crate::draw::Draw;
use lr_bits::{Bytes, NoMemory};
use lr_catalog::header_lines;
use lr_headers::{HeaderFault, Records};
use std::alloc::Global;

pub const HEADERS: u32 = 300;

/// The kinds of records that are drawn most.
const KINDS: [u8; 10] = [1, 2, 3, 4, 5, 6, 7, 128, 131, 0];

/// How many headers have a fault of each kind, how many records the others have, and a checksum of what they all say.
#[derive(Clone, Copy)]
pub struct Tally {
    pub ended: u32,
    pub not_primary: u32,
    pub short: u32,
    pub overrun: u32,
    pub length: u32,
    pub records: u64,
    pub checksum: u64,
}

/// The length of a record of this kind, which mostly is the right one.
fn drawn_length(draw: &mut Draw, kind: u8) -> u16 {
    let short = 3 + draw.below(9);
    let length = match draw.byte() {
        0..=9 => draw.below(4),
        10..=29 => draw.below(24),
        _ => match kind {
            1 => 9,
            2 => 51,
            5 => 10,
            128 => 17,
            131 => 7,
            _ => short,
        },
    };
    (length % 256) as u16
}

/// Appends a record, with as many bytes after its head as its length says.
fn add_record(draw: &mut Draw, bytes: &mut Bytes) -> Result<(), NoMemory> {
    let drawn = draw.byte();
    let kind = if drawn < 240 {
        KINDS[usize::from(drawn % 10)]
    } else {
        drawn
    };
    let length = drawn_length(draw, kind);
    bytes.extend(&[kind])?;
    bytes.extend(&length.to_be_bytes())?;
    let fill = if draw.byte() < 16 {
        Some(draw.byte())
    } else {
        None
    };
    for _ in 3..length.max(3) {
        let byte = match fill {
            Some(byte) => byte,
            None => draw.byte(),
        };
        bytes.extend(&[byte])?;
    }
    Ok(())
}

/// Some records, mostly without a fault.
fn drawn_records(alloc: Global, draw: &mut Draw) -> Result<Bytes, NoMemory> {
    let mut records = Bytes::new(alloc);
    for _ in 0..draw.below(7) {
        add_record(draw, &mut records)?;
    }
    Ok(records)
}

/// A primary record, of a header that goes on for this many bytes. Mostly it has no fault.
fn add_primary(draw: &mut Draw, rest: u32, bytes: &mut Bytes) -> Result<(), NoMemory> {
    let drawn = draw.byte();
    let kind = if drawn < 6 { drawn } else { 0 };
    let length = if draw.byte() < 250 {
        16
    } else {
        draw.below(32)
    };
    let size = rest.saturating_add(16);
    let end = if draw.byte() < 40 {
        draw.below(size.saturating_add(3).max(1))
    } else {
        size
    };
    bytes.extend(&[kind, 0, (length % 32) as u8, draw.byte()])?;
    bytes.extend(&end.to_be_bytes())?;
    for _ in 0..8 {
        bytes.extend(&[draw.byte()])?;
    }
    Ok(())
}

/// A mission file proper, whose header mostly has no fault.
fn drawn_proper(alloc: Global, draw: &mut Draw) -> Result<Bytes, NoMemory> {
    let records = drawn_records(alloc, draw)?;
    let mut proper = Bytes::new(alloc);
    let rest = u32::try_from(records.as_slice().len()).unwrap_or(0);
    add_primary(draw, rest, &mut proper)?;
    proper.extend(records.as_slice())?;
    for _ in 0..draw.below(5) {
        proper.extend(&[draw.byte()])?;
    }
    if draw.byte() < 20 {
        let size = u32::try_from(proper.as_slice().len()).unwrap_or(0);
        proper.truncate(draw.below(size.max(1)) as usize);
    }
    Ok(proper)
}

/// Appends what the first records of a kind say, or a number that none of them says.
fn add_first(records: &Records<'_>, text: &mut Bytes) -> Result<(), NoMemory> {
    text.extend(&[0, u8::from(records.is_encrypted())])?;
    match records.segment() {
        Some(segment) => {
            text.extend(&segment.columns.to_be_bytes())?;
            text.extend(&segment.lines.to_be_bytes())?;
        }
        None => text.extend(&[0xFF, 0xFF])?,
    }
    match records.lossless() {
        Some(lossless) => text.extend(&lossless.flags.to_be_bytes())?,
        None => text.extend(&[0xFF, 0xFE])?,
    }
    match records.structure() {
        Some(structure) => text.extend(&structure.columns.to_be_bytes()),
        None => text.extend(&[0xFF, 0xFD]),
    }
}

fn count(number: &mut u32) {
    *number = number.saturating_add(1);
}

/// Reads the header of a drawn file, and takes what it says into the tally.
fn add_header(alloc: Global, draw: &mut Draw, tally: &mut Tally) -> Result<(), NoMemory> {
    let proper = drawn_proper(alloc, draw)?;
    let mut text = Bytes::new(alloc);
    header_lines(alloc, proper.as_slice(), &mut text)?;
    match Records::read(alloc, proper.as_slice()) {
        Ok(records) => {
            tally.records = tally.records.saturating_add(records.count() as u64);
            add_first(&records, &mut text)?;
        }
        Err(HeaderFault::Ended { .. }) => count(&mut tally.ended),
        Err(HeaderFault::NotPrimary) => count(&mut tally.not_primary),
        Err(HeaderFault::ShortRecord { .. }) => count(&mut tally.short),
        Err(HeaderFault::Overrun { .. }) => count(&mut tally.overrun),
        Err(HeaderFault::WrongLength { .. }) => count(&mut tally.length),
        Err(HeaderFault::NoMemory) => return Err(NoMemory),
    }
    for byte in text.as_slice() {
        tally.checksum = tally
            .checksum
            .wrapping_mul(65_599)
            .wrapping_add(u64::from(*byte));
    }
    Ok(())
}

/// Draws all headers.
pub fn add_headers(alloc: Global) -> Result<Tally, NoMemory> {
    let mut draw = Draw::new(5);
    let mut tally = Tally {
        ended: 0,
        not_primary: 0,
        short: 0,
        overrun: 0,
        length: 0,
        records: 0,
        checksum: 0,
    };
    for _ in 0..HEADERS {
        add_header(alloc, &mut draw, &mut tally)?;
    }
    Ok(tally)
}
