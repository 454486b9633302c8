//! Files, disks, calls and answers that the tests share.
use lr_bits::{Bytes, Lengths, MissionFile, Origin, Placed};
use lr_disk::{Disk, MemDisk};
use lr_shelf::{Shelf, ShelfError, Stored};
use lr_shelf_format::{LEAST_CAPACITY, MOST_CAPACITY};
use lr_trials_support::bytes_with;
use std::alloc::Global;
use std::test::Fail;

/// The body of the first file. That of the second is its first ten bytes.
pub(crate) static BODY: [u8; 26] = [
    0, 1, 2, 3, 4, 5, 6, 7, 8, 9, 0x0A, 0x0B, 0x0C, 0x0D, 0x0E, 0x0F, 0x10, 0x11, 0x12, 0x13, 0x14,
    0x15, 0x16, 0x17, 0x18, 0x19,
];

/// A file of this many bodies, each of these bytes.
pub(crate) fn file(
    alloc: Global,
    vc: u8,
    apid: u16,
    bodies: u32,
    body: &[u8],
) -> Result<MissionFile, Fail> {
    let length = u16::try_from(body.len()).ok().ok_or("too long")?;
    let mut lengths = Lengths::new(alloc);
    let mut bytes = Bytes::new(alloc);
    for _ in 0..bodies {
        lengths.push(length)?;
        bytes.extend(body)?;
    }
    Ok(MissionFile::build(vc, apid, lengths, bytes).ok_or("no file")?)
}

/// The first file, of the outcomes 9 to 300 with 70,000 changed bytes.
pub(crate) fn first(alloc: Global) -> Result<Placed, Fail> {
    let origin = Origin {
        first: 9,
        last: 300,
        corrected: 70_000,
    };
    let file = file(alloc, 0, 100, 1, &BODY)?;
    Ok(Placed { file, origin })
}

/// The second file, of the outcome 0, in which nothing was changed.
pub(crate) fn second(alloc: Global) -> Result<Placed, Fail> {
    let origin = Origin {
        first: 0,
        last: 0,
        corrected: 0,
    };
    let file = file(alloc, 5, 7, 1, &BODY[..10])?;
    Ok(Placed { file, origin })
}

/// A disk of these bytes, with room and calls enough.
pub(crate) fn disk(alloc: Global, bytes: &[u8]) -> Result<MemDisk, Fail> {
    Ok(lr_trials_support::disk(alloc, bytes, 20_000)?)
}

/// An empty shelf of this capacity.
pub(crate) fn empty(alloc: Global, capacity: u64) -> Result<MemDisk, Fail> {
    let mut made = disk(alloc, &[])?;
    init(&mut made, capacity)?;
    Ok(made)
}

/// A shelf of both files, which ends at 138.
pub(crate) fn with_two(alloc: Global) -> Result<MemDisk, Fail> {
    let mut made = empty(alloc, 1000)?;
    fill(alloc, &mut made)?;
    Ok(made)
}

/// Adds both files.
pub(crate) fn fill<D: Disk>(alloc: Global, made: &mut D) -> Result<(), Fail> {
    let mut shelf = load(alloc, made)?;
    add_first(alloc, &mut shelf, made)?;
    add_second(alloc, &mut shelf, made)?;
    Ok(())
}

/// The same, with one byte changed.
pub(crate) fn with_byte(alloc: Global, place: usize, byte: u8) -> Result<MemDisk, Fail> {
    let whole = with_two(alloc)?;
    disk(alloc, &bytes_with(alloc, whole.as_slice(), place, byte)?)
}

/// What a call of a shelf answers.
pub(crate) type Answered<T> = Result<T, ShelfError>;

// ---- calls

pub(crate) fn init<D: Disk>(disk: &mut D, capacity: u64) -> Answered<()> {
    if capacity < LEAST_CAPACITY || capacity > MOST_CAPACITY {
        return Err(ShelfError::Failed);
    }
    Shelf::init(disk, capacity)
}

pub(crate) fn load<D: Disk>(alloc: Global, disk: &mut D) -> Answered<Shelf> {
    Shelf::load(alloc, disk)
}

pub(crate) fn append<D: Disk>(shelf: &mut Shelf, disk: &mut D, placed: &Placed) -> Answered<u64> {
    shelf.append(disk, placed)
}

/// Adds the first file, and answers its number.
pub(crate) fn add_first<D: Disk>(
    alloc: Global,
    shelf: &mut Shelf,
    disk: &mut D,
) -> Result<u64, Fail> {
    let placed = first(alloc)?;
    Ok(append(shelf, disk, &placed)?)
}

/// The same of the second file.
pub(crate) fn add_second<D: Disk>(
    alloc: Global,
    shelf: &mut Shelf,
    disk: &mut D,
) -> Result<u64, Fail> {
    let placed = second(alloc)?;
    Ok(append(shelf, disk, &placed)?)
}

pub(crate) fn discard<D: Disk>(shelf: &mut Shelf, disk: &mut D, number: u64) -> Answered<()> {
    shelf.discard(disk, number)
}

pub(crate) fn get<D: Disk>(shelf: &mut Shelf, disk: &mut D, number: u64) -> Answered<Stored> {
    shelf.get(disk, number)
}

pub(crate) fn check<D: Disk>(shelf: &mut Shelf, disk: &mut D, number: u64) -> Answered<()> {
    shelf.check(disk, number)
}

// ---- answers

pub(crate) fn is_disk<T: Drop>(answer: Answered<T>) -> bool {
    matches!(answer, Err(ShelfError::Disk))
}

pub(crate) fn is_failed<T: Drop>(answer: Answered<T>) -> bool {
    matches!(answer, Err(ShelfError::Failed))
}

pub(crate) fn is_past<T: Drop>(answer: Answered<T>, files: u64) -> bool {
    matches!(answer, Err(ShelfError::NoSuchFile { count }) if count == files)
}

pub(crate) fn is_not_empty(answer: Answered<()>, size: u64) -> bool {
    matches!(answer, Err(ShelfError::NotEmpty { length }) if length == size)
}

/// What a shelf says of itself: how many files it has, where it ends, and its capacity.
pub(crate) fn at(shelf: &Shelf) -> (u64, u64, u64) {
    (shelf.len(), shelf.end(), shelf.capacity())
}

pub(crate) fn is_same(one: &MissionFile, other: &MissionFile) -> bool {
    one.vc() == other.vc()
        && one.apid() == other.apid()
        && one.lengths() == other.lengths()
        && one.bytes() == other.bytes()
}

/// Whether the file was stored with its origin.
fn is_stored(stored: &Stored, placed: &Placed) -> bool {
    let expected = placed.origin;
    is_same(&stored.file, &placed.file)
        && matches!(
            stored.origin,
            Some(origin)
                if origin.first == expected.first
                    && origin.last == expected.last
                    && origin.corrected == expected.corrected
        )
}

/// Whether the file of this number is this one, with its origin.
pub(crate) fn holds<D: Disk>(
    shelf: &mut Shelf,
    disk: &mut D,
    number: u64,
    placed: &Placed,
) -> bool {
    match get(shelf, disk, number) {
        Ok(stored) => is_stored(&stored, placed),
        Err(_) => false,
    }
}

/// Whether the file of this number is the first one.
pub(crate) fn holds_first<D: Disk>(
    alloc: Global,
    shelf: &mut Shelf,
    disk: &mut D,
    number: u64,
) -> Result<bool, Fail> {
    let placed = first(alloc)?;
    Ok(holds(shelf, disk, number, &placed))
}

/// Whether it is the second one.
pub(crate) fn holds_second<D: Disk>(
    alloc: Global,
    shelf: &mut Shelf,
    disk: &mut D,
    number: u64,
) -> Result<bool, Fail> {
    let placed = second(alloc)?;
    Ok(holds(shelf, disk, number, &placed))
}

/// Whether two files have the right checksum, and there is no third.
fn checks_two<D: Disk>(shelf: &mut Shelf, disk: &mut D) -> bool {
    check(shelf, disk, 0).is_ok()
        && check(shelf, disk, 1).is_ok()
        && is_past(get(shelf, disk, 2), 2)
}

/// Whether both files are on the shelf, and no third.
pub(crate) fn holds_two<D: Disk>(alloc: Global, disk: &mut D) -> Result<bool, Fail> {
    let mut shelf = load(alloc, disk)?;
    Ok(
        checks_two(&mut shelf, disk)
            && holds_first(alloc, &mut shelf, disk, 0)?
            && holds_second(alloc, &mut shelf, disk, 1)?,
    )
}
