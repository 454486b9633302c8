//! Images of the shelf that are coded anew.
use crate::calls::{Call, add, ended, ends};
use crate::entries::with_capacity;
use crate::image_files::file_of;
use lr_bits::{Origin, Placed};
use lr_disk::MemDisk;
use lr_shelf::Shelf;
use lr_trials_support::{BOTH_OK, OLD_SHELF, bytes_with, disk, is_number};
use std::alloc::Global;
use std::test::Fail;

/// What stands after the header of a shelf of version 1 with one file: an image of 8 bits, 8 columns and 2 lines that
/// isn't compressed, in one body of 51 bytes. The shelf ends at 87.
static IMAGE: [u8; 68] = [
    1, 0, 0, 0x64, 0, 0, 0, 1, 0, 0, 0, 0x33, 0, 0x33, 0, 7, 0, 0, 0, 0, 0, 0, 0, 1, 0, 0, 0x10, 0,
    0, 0, 0, 0x19, 0, 0, 0, 0, 0, 0, 0, 2, 1, 0, 9, 8, 0, 8, 0, 2, 0, 5, 5, 5, 5, 5, 5, 5, 5, 5, 6,
    4, 5, 5, 5, 5, 5, 0x8E, 0x72, 0,
];

const ONE_FILE: &str = "file 0 ok\n";

/// The line of a shelf on which it was coded anew in blocks of 8, and the image of both files.
const LINE: &str = "repacked 0 as 1 bytes 51 to 48\n";

static PICTURE: [u8; 27] =
    *b"P5\n8 2\n255\n\x05\x05\x05\x05\x05\x05\x05\x05\x05\x06\x04\x05\x05\x05\x05\x05";

/// A shelf of this capacity with the image, with one byte of it changed.
fn image_shelf(alloc: Global, capacity: u64, place: usize, byte: u8) -> Result<MemDisk, Fail> {
    let bytes = with_capacity(alloc, capacity, &IMAGE)?;
    Ok(disk(alloc, &bytes_with(alloc, &bytes, place, byte)?, 1_000)?)
}

/// Whether the file of this number is coded anew with this status, and this is put.
fn puts(
    alloc: Global,
    number: u64,
    made: &mut MemDisk,
    status: u8,
    text: &str,
) -> Result<bool, Fail> {
    let wanted = (status, text.as_bytes());
    ends(alloc, "repack", made, Call::Repack(number), 1_000, wanted)
}

/// Whether the shelf has this many good files.
fn has_files(alloc: Global, made: &mut MemDisk, text: &str) -> Result<bool, Fail> {
    ends(
        alloc,
        "after it",
        made,
        Call::Verify,
        1_000,
        (0, text.as_bytes()),
    )
}

/// Whether the image of the file of this number is the one.
fn shows_picture(alloc: Global, made: &mut MemDisk, number: u64) -> Result<bool, Fail> {
    ends(
        alloc,
        "after it",
        made,
        Call::Export(number),
        1_000,
        (0, &PICTURE),
    )
}

/// Whether the run over a disk of which one call fails, counted from the run's first, ends with status 4, puts nothing,
/// and leaves one file or two.
fn stops_at(alloc: Global, after: u64) -> Result<bool, Fail> {
    let case = format!(in alloc; "call {after} fails")?;
    let mut made = image_shelf(alloc, 1_000, 1_000, 0)?;
    made.fail_at(after);
    ends(alloc, &case, &mut made, Call::Repack(0), 1_000, (4, b""))?;
    let left = ended(alloc, &mut made, Call::Verify, 1_000)?;
    let has_one = left.out.as_slice() == ONE_FILE.as_bytes();
    let files = if has_one { ONE_FILE } else { BOTH_OK };
    ends(
        alloc,
        &case,
        &mut made,
        Call::Verify,
        1_000,
        (0, files.as_bytes()),
    )
}

/// Whether a second file with the image of the first one is added.
fn image_is_coded_anew(alloc: Global) -> Result<bool, Fail> {
    let mut made = image_shelf(alloc, 1_000, 1_000, 0)?;
    Ok(
        puts(alloc, 0, &mut made, 0, LINE)?
            && has_files(alloc, &mut made, BOTH_OK)?
            && shows_picture(alloc, &mut made, 0)?
            && shows_picture(alloc, &mut made, 1)?,
    )
}

#[test]
fn the_new_file_has_the_image_of_the_old_one(rt: HostRuntime) -> Result<(), Fail> {
    assert!(rt; image_is_coded_anew(rt.alloc())?);
    Ok(())
}

/// Whether the file of this number came from these outcomes, with this many changed bytes.
fn came_from(alloc: Global, made: &mut MemDisk, number: u64, wanted: Origin) -> Result<bool, Fail> {
    let origin = Shelf::load(alloc, made)?
        .get(made, number)?
        .origin
        .ok_or("no origin")?;
    Ok(
        is_number("the first outcome", origin.first, wanted.first)?
            && is_number("the last outcome", origin.last, wanted.last)?
            && is_number("the changed bytes", origin.corrected, wanted.corrected)?,
    )
}

const NO_ORIGIN: Origin = Origin {
    first: 0,
    last: 0,
    corrected: 0,
};

/// The outcomes 3 and 4, with 5 changed bytes.
const LATER: Origin = Origin {
    first: 3,
    last: 4,
    corrected: 5,
};

/// Adds the image once more, of those outcomes.
fn add_again(alloc: Global, made: &mut MemDisk) -> Result<(), Fail> {
    let mut shelf = Shelf::load(alloc, made)?;
    let file = shelf.get(made, 0)?.file;
    let origin = LATER;
    shelf.append(made, &Placed { file, origin })?;
    Ok(())
}

fn origin_stays(alloc: Global) -> Result<bool, Fail> {
    let mut made = image_shelf(alloc, 1_000, 1_000, 0)?;
    let old = puts(alloc, 0, &mut made, 0, LINE)? && came_from(alloc, &mut made, 1, NO_ORIGIN)?;
    add_again(alloc, &mut made)?;
    let line = "repacked 2 as 3 bytes 51 to 48\n";
    let new = puts(alloc, 2, &mut made, 0, line)? && came_from(alloc, &mut made, 3, LATER)?;
    Ok(old && new)
}

#[test]
fn the_origin_stays_and_is_zero_for_an_old_file(rt: HostRuntime) -> Result<(), Fail> {
    assert!(rt; origin_stays(rt.alloc())?);
    Ok(())
}

/// Whether a run over these bytes is refused with this status.
fn is_refused(alloc: Global, bytes: &[u8], status: u8) -> Result<bool, Fail> {
    puts(alloc, 0, &mut disk(alloc, bytes, 1_000)?, status, "")
}

/// Whether a number that isn't there and a discarded one are refused, and the shelf stays.
fn missing_is_refused(alloc: Global) -> Result<bool, Fail> {
    let mut made = image_shelf(alloc, 1_000, 1_000, 0)?;
    let missing = puts(alloc, 1, &mut made, 7, "")? && has_files(alloc, &mut made, ONE_FILE)?;
    let _ = ended(alloc, &mut made, Call::Discard(0), 1_000)?;
    Ok(missing && puts(alloc, 0, &mut made, 13, "")?)
}

#[test]
fn what_is_refused_leaves_the_shelf(rt: HostRuntime) -> Result<(), Fail> {
    let alloc = rt.alloc();
    assert!(rt; is_refused(alloc, b"no shelf", 6)?);
    // A text is no image.
    assert!(rt; is_refused(alloc, &OLD_SHELF, 8)?);
    // Another byte of the image has another checksum.
    assert!(rt; puts_with(alloc, 1_000, 80, 12, "")?);
    assert!(rt; missing_is_refused(alloc)?);
    Ok(())
}

/// Whether a run on a shelf of this capacity, with another byte at a place, ends with this status and puts this text.
fn puts_with(
    alloc: Global,
    capacity: u64,
    place: usize,
    status: u8,
    text: &str,
) -> Result<bool, Fail> {
    puts(
        alloc,
        0,
        &mut image_shelf(alloc, capacity, place, 9)?,
        status,
        text,
    )
}

/// Whether a shelf that is too small for the new file stays as it is.
fn small_shelf_stays(alloc: Global) -> Result<bool, Fail> {
    let mut full = image_shelf(alloc, 179, 1_000, 0)?;
    Ok(puts(alloc, 0, &mut full, 10, "")? && has_files(alloc, &mut full, ONE_FILE)?)
}

#[test]
fn the_new_file_has_to_have_room(rt: HostRuntime) -> Result<(), Fail> {
    assert!(rt; small_shelf_stays(rt.alloc())?);
    assert!(rt; puts_with(rt.alloc(), 180, 1_000, 0, LINE)?);
    Ok(())
}

/// An image of 4 bits, 2 columns and 1 line.
static NIBBLES: [u8; 36] = [
    0, 7, 0, 0, 0, 0, 0, 0, 0, 1, 0x00, 0x00, 0x10, 0x00, 0x00, 0x00, 0x00, 0x19, 0, 0, 0, 0, 0, 0,
    0, 2, 0x01, 0x00, 0x09, 4, 0, 2, 0, 1, 0, 0x12,
];

/// Whether an image of 4 bits is refused with a status of its own.
fn four_bits_are_refused(alloc: Global) -> Result<bool, Fail> {
    let mut made = image_shelf(alloc, 1_000, 1_000, 0)?;
    add(alloc, &mut made, file_of(alloc, &[&NIBBLES])?)?;
    Ok(puts(alloc, 1, &mut made, 16, "")? && has_files(alloc, &mut made, BOTH_OK)?)
}

#[test]
fn four_bits_have_a_status_of_their_own(rt: HostRuntime) -> Result<(), Fail> {
    assert!(rt; four_bits_are_refused(rt.alloc())?);
    Ok(())
}

/// Whether an output that fails ends it in its line, and both files are there.
fn output_ends_it(alloc: Global) -> Result<bool, Fail> {
    let mut made = image_shelf(alloc, 1_000, 1_000, 0)?;
    ends(
        alloc,
        "little room",
        &mut made,
        Call::Repack(0),
        9,
        (5, b"repacked "),
    )?;
    has_files(alloc, &mut made, BOTH_OK)
}

/// Calls of the disk that fail, each in a run of its own.
static FAILING: [u64; 6] = [0, 5, 6, 7, 8, 9];

#[test]
fn an_output_or_a_disk_that_fails_ends_it(rt: HostRuntime) -> Result<(), Fail> {
    assert!(rt; output_ends_it(rt.alloc())?);
    for call in &FAILING {
        stops_at(rt.alloc(), *call)?;
    }
    Ok(())
}
