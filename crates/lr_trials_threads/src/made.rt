//! Bundles of test streams, and shelves in memory.
ghost use Rattle.std.specs.Prelude.{◌≡◌, ◌≤◌, false, length, IfOk};
ghost use Rattle.lr_shelf.specs.Kept.{kept_by};

use lr_bits::{Bytes, FRAME_SYMBOLS};
use lr_disk::MemDisk;
use lr_downlinks::{Bundle, MOST_BUNDLE_BYTES, MOST_DOWNLINKS};
use lr_make::Maker;
use lr_shelf::Shelf;
use std::alloc::Global;
use std::test::Fail;

/// Each symbol in a byte.
fn write_bytes(symbols: &[i8; FRAME_SYMBOLS], bytes: &mut [u8; FRAME_SYMBOLS]) {
    for i in 0..FRAME_SYMBOLS {
        bytes[i] = symbols[i].cast_unsigned();
    }
}

/// A test stream: its start, and how many frames it has.
#[derive(Clone, Copy)]
pub struct Stream {
    pub start: u64,
    pub frames: u32,
}

/// Appends the symbols of a stream, their number before them.
fn put_stream(bytes: &mut Bytes, stream: Stream) -> Result<(), Fail> {
    let size = u64::from(stream.frames) * FRAME_SYMBOLS as u64;
    bytes.extend(&size.to_be_bytes())?;
    let mut maker = Maker::new(stream.start, 0)?;
    let mut symbols = [0; FRAME_SYMBOLS];
    let mut part = [0; FRAME_SYMBOLS];
    for _ in 0..stream.frames {
        maker.next_symbols(&mut symbols)?;
        write_bytes(&symbols, &mut part);
        bytes.extend(&part)?;
    }
    Ok(())
}

/// A bundle of these streams, at most sixteen.
pub fn bundle_of(alloc: Global, streams: &[Stream]) -> Result<Bundle, Fail> {
    let mut bytes = Bytes::new(alloc);
    bytes.extend(&[streams.len().min(MOST_DOWNLINKS) as u8])?;
    for stream in streams {
        put_stream(&mut bytes, *stream)?;
    }
    if bytes.as_slice().len() > MOST_BUNDLE_BYTES {
        return Err(Fail::from("too long"));
    }
    match Bundle::read(bytes) {
        Ok(bundle) => Ok(bundle),
        Err(_) => Err(Fail::from("no bundle")),
    }
}

/// The room for what the disk has, and for all bytes that are written to it.
const ROOM: u64 = 400_000;

/// How many calls the disk allows.
const CALLS: u64 = 4_000;

/// An empty shelf of this capacity and 20 bytes.
pub fn shelf_of(alloc: Global, capacity: u32) -> Result<(MemDisk, Shelf), Fail>
    ensures { IfOk result (λ made. (kept_by made.1).failed ≡ false) }
{
    let mut disk = MemDisk::of(alloc, Vec::new(alloc), ROOM, CALLS)?;
    let made = Shelf::init(&mut disk, 20 + u64::from(capacity));
    if made.is_err() {
        return Err(Fail::from("no shelf was made"));
    }
    match Shelf::load(alloc, &mut disk) {
        Ok(shelf) => Ok((disk, shelf)),
        Err(_) => Err(Fail::from("no shelf was loaded")),
    }
}
