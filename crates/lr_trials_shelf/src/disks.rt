//! Shelves on files, on files that move few bytes a call, and disks at their limits.
use crate::shared::{
    add_first, append, at, check, disk, file, fill, holds, holds_first, holds_two, init, load,
};
use lr_bits::{Origin, Placed};
use lr_disk::{Disk, FileDisk, MemDisk, MemFile, SureDisk};
use lr_shelf::{Shelf, ShelfError};
use std::alloc::Global;
use std::fs::{self, File};
use std::io;
use std::test::Fail;

fn write<D: Disk>(disk: &mut D, at: u64, bytes: &[u8]) -> bool {
    !bytes.is_empty() && at < 1000 && bytes.len() < 1000 && disk.write_at(at, bytes).is_ok()
}

fn sync<D: Disk>(disk: &mut D) -> bool {
    disk.sync().is_ok()
}

fn length<D: Disk>(disk: &mut D) -> Option<u64> {
    disk.length().ok()
}

fn cut<D: Disk>(disk: &mut D, length: u64) -> bool {
    disk.cut(length).is_ok()
}

/// A room of four bytes, and five calls.
fn limits_are_kept(alloc: Global) -> Result<bool, Fail> {
    let mut made = MemDisk::of(alloc, Vec::new(alloc), 4, 5)?;
    Ok(
        write(&mut made, 1, &[7, 8])
            && !write(&mut made, 0, &[9, 9, 9])
            && length(&mut made) == Some(3)
            && made.as_slice() == [0, 7, 8].as_slice()
            && sync(&mut made)
            && cut(&mut made, 1)
            && !sync(&mut made),
    )
}

fn a_sure_disk_is_empty(alloc: Global) -> bool {
    let mut sure = SureDisk::new();
    matches!(load(alloc, &mut sure), Err(ShelfError::NotAShelf { at: 0 }))
        && init(&mut sure, 20).is_ok()
}

/// An empty file, which is open to be read and written.
fn opened_file(rt: &HostRuntime, path: &str) -> io::Result<File> {
    let mut options = fs::OpenOptions::new();
    options.read(true).write(true).create(true).truncate(true);
    options.open(rt, path)
}

/// A file of 200,000 bytes, which is more than one piece.
fn large(alloc: Global) -> Result<Placed, Fail> {
    let origin = Origin {
        first: 0,
        last: 2,
        corrected: 0,
    };
    let file = file(alloc, 1, 2, 5, &[0xA5; 40_000])?;
    Ok(Placed { file, origin })
}

/// Adds the large file and the first one.
fn add_large(alloc: Global, real: &mut FileDisk) -> Result<bool, Fail> {
    let placed = large(alloc)?;
    let mut shelf = load(alloc, real)?;
    let added = append(&mut shelf, real, &placed)? == 0;
    Ok(added && add_first(alloc, &mut shelf, real)? == 1)
}

/// Whether the first file is the large one.
fn holds_large(alloc: Global, shelf: &mut Shelf, real: &mut FileDisk) -> Result<bool, Fail> {
    let placed = large(alloc)?;
    Ok(check(shelf, real, 0).is_ok() && holds(shelf, real, 0, &placed))
}

fn is_shelf_of_large(alloc: Global, real: &mut FileDisk) -> Result<bool, Fail> {
    init(real, 1 << 20)?;
    let added = add_large(alloc, real)?;
    let mut again = load(alloc, real)?;
    Ok(
        added
            && at(&again) == (2, 200_136, 1 << 20)
            && holds_large(alloc, &mut again, real)?
            && holds_first(alloc, &mut again, real, 1)?,
    )
}

/// A cut past the end leaves the file as it is, and one below the end shortens it.
fn is_cut(real: &mut FileDisk) -> bool {
    cut(real, 1 << 30)
        && length(real) == Some(200_136)
        && cut(real, 100)
        && length(real) == Some(100)
        && sync(real)
}

fn a_file_is_a_shelf(rt: &HostRuntime) -> Result<bool, Fail> {
    let path = "lr_trials_shelf.tmp";
    let mut real = FileDisk::of(opened_file(rt, path)?);
    let is_shelf = is_shelf_of_large(rt.alloc(), &mut real)? && is_cut(&mut real);
    fs::remove_file(rt, path)?;
    Ok(is_shelf)
}

/// Whether a shelf of both files is made on this disk.
fn is_shelf_on<D: Disk>(alloc: Global, slow: &mut D) -> Result<bool, Fail> {
    init(slow, 1000)?;
    fill(alloc, slow)?;
    holds_two(alloc, slow)
}

/// A shelf on a file that moves at most this many bytes a call.
fn is_shelf_of_two(alloc: Global, most: usize) -> Result<bool, Fail> {
    if most == 0 {
        return Err(Fail::from("nothing is moved"));
    }
    let memory = disk(alloc, &[])?;
    let mut slow = FileDisk::of(MemFile::of(memory, most));
    is_shelf_on(alloc, &mut slow)
}

/// What is asked of a disk.
#[derive(Clone, Copy, Debug)]
enum Ask {
    Length,
    Read,
    Write,
    Cut,
    Sync,
}

const HELD: [u8; 3] = [7, 8, 9];

/// Whether this is done on a disk of three bytes.
fn is_done<D: Disk>(disk: &mut D, ask: Ask) -> bool {
    let mut into = [0; 3];
    match ask {
        Ask::Length => length(disk) == Some(3),
        Ask::Read => disk.read(0, &mut into).ok() == Some(3) && into == HELD,
        Ask::Write => write(disk, 0, &HELD),
        Ask::Cut => cut(disk, 2),
        Ask::Sync => sync(disk),
    }
}

/// That this fails where the file fails in its call of this number, is then asked for nothing more, and is done when it
/// is asked again. The file moves one byte a call.
fn fails_at_once(alloc: Global, ask: Ask, number: u64) -> Result<(), Fail> {
    let mut memory = disk(alloc, &HELD)?;
    memory.fail_at(number);
    let mut slow = FileDisk::of(MemFile::of(memory, 1));
    let done = is_done(&mut slow, ask);
    let last = slow.file().disk().calls().checked_sub(1);
    let again = is_done(&mut slow, ask);
    if !done && last == Some(number) && again {
        return Ok(());
    }
    Err(Fail::new(format_args!(
        "{ask:?}, call {number} fails: done {done}, last call {last:?}, done again {again}"
    )))
}

#[test]
fn disks_have_limits(rt: HostRuntime) -> Result<(), Fail> {
    assert!(rt; limits_are_kept(rt.alloc())?);
    assert!(rt; a_sure_disk_is_empty(rt.alloc()));
    Ok(())
}

#[test]
fn a_file_of_the_system_is_a_shelf(rt: HostRuntime) -> Result<(), Fail> {
    assert!(rt; a_file_is_a_shelf(&rt)?);
    Ok(())
}

#[test]
fn an_error_of_a_file_ends_the_call(rt: HostRuntime) -> Result<(), Fail> {
    let alloc = rt.alloc();
    fails_at_once(alloc, Ask::Length, 0)?;
    fails_at_once(alloc, Ask::Sync, 0)?;
    for number in 0..2 {
        fails_at_once(alloc, Ask::Cut, number)?;
    }
    for number in 0..3 {
        fails_at_once(alloc, Ask::Read, number)?;
        fails_at_once(alloc, Ask::Write, number)?;
    }
    Ok(())
}

#[test]
fn a_file_may_move_few_bytes_a_call(rt: HostRuntime) -> Result<(), Fail> {
    assert!(rt; is_shelf_of_two(rt.alloc(), 1)?);
    assert!(rt; is_shelf_of_two(rt.alloc(), 7)?);
    Ok(())
}
