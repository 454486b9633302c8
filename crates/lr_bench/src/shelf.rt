//! Small files that are put on a new shelf, and shelves that are loaded and verified.

use lr_bits::{Bytes, Lengths, MissionFile, NoMemory, Origin, Placed};
use lr_cmd_shelf::verify::verify;
use lr_disk::{Disk, FileDisk, MemDisk};
use lr_io::SureSink;
use lr_shelf::{Shelf, ShelfError};
use std::alloc::{AllocError, Global};
use std::{fs, io};

const PATH: &str = "shelf.bench";

const CAPACITY: u64 = 1 << 40;

/// The room of a shelf in memory.
const ROOM: u64 = 1 << 16;

/// How many files a shelf in memory has that is loaded.
const MANY: u64 = 100_000;

/// The bytes that are written for a small file: its item and the gates before and after it, each as it is written.
const FILE_BYTES: u64 = 68;

/// How many calls of its disk a load of such a shelf makes at most.
const LOAD_CALLS: u64 = 1_000;

/// Why the work stopped.
#[derive(Debug, Drop)]
pub enum Trouble {
    NoFile,
    Memory,
    Input(io::Error),
    Shelf(ShelfError),
}

impl From<AllocError> for Trouble {
    fn from(_: AllocError) -> Self {
        Trouble::Memory
    }
}

impl From<NoMemory> for Trouble {
    fn from(_: NoMemory) -> Self {
        Trouble::Memory
    }
}

impl From<io::Error> for Trouble {
    fn from(error: io::Error) -> Self {
        Trouble::Input(error)
    }
}

impl From<ShelfError> for Trouble {
    fn from(error: ShelfError) -> Self {
        Trouble::Shelf(error)
    }
}

/// A file of one body of 26 bytes, from the first frame.
fn small_file(alloc: Global) -> Result<Placed, Trouble> {
    let mut lengths = Lengths::new(alloc);
    lengths.push(26)?;
    let mut bytes = Bytes::new(alloc);
    bytes.extend(&[0xA5; 26])?;
    let Some(file) = MissionFile::build(0, 100, lengths, bytes) else {
        return Err(Trouble::NoFile);
    };
    let origin = Origin {
        first: 0,
        last: 0,
        corrected: 0,
    };
    Ok(Placed { file, origin })
}

/// Makes a shelf of `count` files.
fn filled_shelf<D: Disk>(alloc: Global, disk: &mut D, count: u64) -> Result<Shelf, Trouble> {
    let placed = small_file(alloc)?;
    Shelf::init(disk, CAPACITY)?;
    let mut shelf = Shelf::load(alloc, disk)?;
    for _ in 0..count {
        shelf.append(disk, &placed)?;
    }
    Ok(shelf)
}

/// Puts files on a new shelf in memory, and answers where it ends, in bytes.
pub fn put_on_new_shelf(alloc: Global, files: &[Placed]) -> Result<u64, Trouble> {
    let mut disk = MemDisk::of(alloc, Vec::new(alloc), ROOM, ROOM)?;
    Shelf::init(&mut disk, CAPACITY)?;
    let mut shelf = Shelf::load(alloc, &mut disk)?;
    for placed in files {
        shelf.append(&mut disk, placed)?;
    }
    Ok(shelf.end())
}

fn in_file(rt: &HostRuntime, count: u64) -> Result<Shelf, Trouble> {
    let mut options = fs::OpenOptions::new();
    options.read(true).write(true).create(true).truncate(true);
    let mut disk = FileDisk::of(options.open(rt, PATH)?);
    filled_shelf(rt.alloc(), &mut disk, count)
}

fn in_memory(alloc: Global, count: u64) -> Result<Shelf, Trouble> {
    let mut disk = MemDisk::of(alloc, Vec::new(alloc), ROOM, ROOM)?;
    filled_shelf(alloc, &mut disk, count)
}

fn loaded_shelf(rt: &HostRuntime) -> Result<Shelf, Trouble> {
    let mut options = fs::OpenOptions::new();
    options.read(true).write(true);
    let mut disk = FileDisk::of(options.open(rt, PATH)?);
    Ok(Shelf::load(rt.alloc(), &mut disk)?)
}

/// A disk in memory with a shelf of this many files, which allows this many calls.
fn many(alloc: Global, files: u64, calls: u64) -> Result<MemDisk, Trouble> {
    let room = files.saturating_mul(FILE_BYTES).saturating_add(100);
    let appends = files.saturating_mul(4).saturating_add(100);
    let mut made = MemDisk::of(alloc, Vec::new(alloc), room, appends)?;
    filled_shelf(alloc, &mut made, files)?;
    let bytes = made.as_slice().to_vec(alloc)?;
    if bytes.len() as u64 > room {
        return Err(Trouble::NoFile);
    }
    Ok(MemDisk::of(alloc, bytes, room, calls)?)
}

/// Loads a shelf in memory this often.
fn load_again(alloc: Global, rounds: u64) -> Result<Shelf, Trouble> {
    let mut disk = many(alloc, MANY, rounds.saturating_mul(LOAD_CALLS))?;
    let mut shelf = Shelf::load(alloc, &mut disk)?;
    for _ in 1..rounds {
        shelf = Shelf::load(alloc, &mut disk)?;
    }
    Ok(shelf)
}

/// Verifies a shelf in memory of this many files, and prints how many calls of the disk its load and its files took.
fn count_reads(rt: &HostRuntime, files: u64) -> Result<(), Trouble> {
    let alloc = rt.alloc();
    let calls = files.saturating_mul(4).saturating_add(2 * LOAD_CALLS);
    let mut disk = many(alloc, files, calls)?;
    Shelf::load(alloc, &mut disk)?;
    let load = disk.calls();
    let status = verify(alloc, &mut disk, &mut SureSink::new()).status();
    let reads = disk.calls().saturating_sub(load).saturating_sub(load);
    Ok(println!(rt; "verify {files} files status {status} load {load} calls reads {reads}")?)
}

/// Does what one of the names says, where it is of a shelf: puts `rounds` files on a shelf in memory or in a file,
/// loads the one in that file, loads one in memory `rounds` times, or verifies one of `rounds` files in memory.
pub fn run(rt: &HostRuntime, name: &str, rounds: u64) -> Result<(), Trouble> {
    let shelf = match name {
        "shelf-memory" | "all" => in_memory(rt.alloc(), rounds)?,
        "shelf-file" => in_file(rt, rounds)?,
        "shelf-load" => loaded_shelf(rt)?,
        "shelf-loads" => load_again(rt.alloc(), rounds)?,
        "shelf-verify" => return count_reads(rt, rounds),
        _ => return Ok(()),
    };
    let files = shelf.len();
    let end = shelf.end();
    Ok(println!(rt; "shelf {rounds} files {files} end {end}")?)
}
