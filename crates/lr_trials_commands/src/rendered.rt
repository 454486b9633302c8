//! The images of shelves, whoever reads them.
ghost use Rattle.std.specs.Prelude.{◌≤◌};
ghost use Rattle.lr_gatecore.specs.declared.sizes.TheConstants.{MOST_SEATS};

use crate::calls::add;
use crate::image_files::{ENCRYPTED, coded_file, field_of, file_of, plain_file};
use lr_bits::MissionFile;
use lr_causes::{Cause, line_for};
use lr_cmd_render::{render, render_alone};
use lr_disk::MemDisk;
use lr_io::MemSink;
use lr_shelf::Shelf;
use lr_trials_support::{
    BAD_CHECKSUM, CODED, End, FIRST_LINE, LINES_OF_FIVE, OUTPUT_FAILED, SECOND_LINE, bytes_with,
    disk, is_number, is_text,
};
use std::alloc::Global;
use std::sync::Wait;
use std::test::Fail;
use std::thread::Threads;

/// The room of a disk and of an output, in bytes.
const ROOM: usize = 400_000;

/// How many bytes the data field of the large image has: 300 lines of 250 pixels of 8 bits.
const FIELD_BYTES: usize = 75_000;

/// What a run is to come to, where the output has this much room: its status and line, and what is put.
#[derive(Clone, Copy)]
struct Wanted<'t>(usize, End<'t>, &'t [u8]);

/// Whether a run that ended for this cause, and put this, came to this. Where it didn't, the failure says what differs.
fn came_to(workers: u32, cause: Cause, out: &MemSink, wanted: Wanted<'_>) -> Result<bool, Fail> {
    let Wanted(_, End(status, line), text) = wanted;
    let (came, right) = (u64::from(cause.status()), u64::from(status));
    Ok(
        is_number(format_args!("{workers} workers: the status"), came, right)?
            && is_text(
                format_args!("{workers} workers: err"),
                line_for(cause).as_bytes(),
                line.as_bytes(),
            )?
            && is_text(format_args!("{workers} workers: out"), out.as_slice(), text)?,
    )
}

fn sink(alloc: Global, wanted: Wanted<'_>) -> Result<MemSink, Fail> {
    Ok(MemSink::of(alloc, Vec::new(alloc), wanted.0)?)
}

/// Whether a run on the caller's thread comes to this.
fn ends_alone(alloc: Global, disk: &mut MemDisk, wanted: Wanted<'_>) -> Result<bool, Fail> {
    let mut out = sink(alloc, wanted)?;
    let cause = render_alone(alloc, disk, &mut out);
    came_to(0, cause, &out, wanted)
}

/// Whether a run by this many workers comes to this.
fn ends_by<R: Threads + Wait + Sync>(
    rt: &R,
    alloc: Global,
    workers: u32,
    disk: &mut MemDisk,
    wanted: Wanted<'_>,
) -> Result<bool, Fail>
    requires { (1 ≤ workers) × (workers ≤ MOST_SEATS) }
{
    let mut out = sink(alloc, wanted)?;
    let cause = render(rt, alloc, workers, disk, &mut out);
    came_to(workers, cause, &out, wanted)
}

/// Whether all runs come to this, however many work.
fn ends<R: Threads + Wait + Sync>(
    rt: &R,
    alloc: Global,
    disk: &mut MemDisk,
    wanted: Wanted<'_>,
) -> Result<bool, Fail> {
    Ok(
        ends_alone(alloc, disk, wanted)?
            && ends_by(rt, alloc, 1, disk, wanted)?
            && ends_by(rt, alloc, 2, disk, wanted)?
            && ends_by(rt, alloc, 8, disk, wanted)?
            && ends_by(rt, alloc, 64, disk, wanted)?,
    )
}

/// A shelf of no files.
fn empty_shelf(alloc: Global) -> Result<MemDisk, Fail> {
    let mut made = disk(alloc, &[], 10_000)?;
    Shelf::init(&mut made, ROOM as u64)?;
    Ok(made)
}

/// Two files: one of two coded lines, and the same without the flag that they need.
fn with_coded(alloc: Global) -> Result<MemDisk, Fail> {
    let mut flagless = CODED;
    flagless[39] = 17;
    let mut disk = empty_shelf(alloc)?;
    add(alloc, &mut disk, coded_file(alloc)?)?;
    add(
        alloc,
        &mut disk,
        file_of(alloc, &[&flagless, &FIRST_LINE, &SECOND_LINE])?,
    )?;
    Ok(disk)
}

/// A file that has no image: its header isn't whole.
fn no_image(alloc: Global) -> Result<MissionFile, Fail> {
    file_of(alloc, &[&CODED[..20]])
}

/// Seven files: one that has no image, a discarded one, a coded image, another discarded one, an encrypted one, one
/// whose packets hold no lines, and a coded image.
fn with_gaps(alloc: Global) -> Result<MemDisk, Fail> {
    let mut disk = empty_shelf(alloc)?;
    add(alloc, &mut disk, no_image(alloc)?)?;
    add(alloc, &mut disk, coded_file(alloc)?)?;
    add(alloc, &mut disk, coded_file(alloc)?)?;
    add(alloc, &mut disk, no_image(alloc)?)?;
    add(
        alloc,
        &mut disk,
        file_of(alloc, &[&ENCRYPTED, &FIRST_LINE, &SECOND_LINE])?,
    )?;
    add(alloc, &mut disk, file_of(alloc, &[&CODED])?)?;
    add(alloc, &mut disk, coded_file(alloc)?)?;
    let mut shelf = Shelf::load(alloc, &mut disk)?;
    shelf.discard(&mut disk, 1)?;
    shelf.discard(&mut disk, 3)?;
    Ok(disk)
}

/// Three coded images, with another byte at this place of the disk. The item of the first one ends before 112, that of
/// the second one stands at 113 to 204, and its first length at 149.
fn with_byte(alloc: Global, place: usize, byte: u8) -> Result<MemDisk, Fail> {
    let mut made = empty_shelf(alloc)?;
    add(alloc, &mut made, coded_file(alloc)?)?;
    add(alloc, &mut made, coded_file(alloc)?)?;
    add(alloc, &mut made, coded_file(alloc)?)?;
    let bytes = bytes_with(alloc, made.as_slice(), place, byte)?;
    Ok(disk(alloc, &bytes, 10_000)?)
}

/// The text of the large image between two others.
fn large_text(alloc: Global) -> Result<Vec<u8>, Fail> {
    let mut text = LINES_OF_FIVE.to_vec(alloc)?;
    text.extend_from_slice(b"P5\n250 300\n255\n")?;
    text.extend_from_slice(&field_of(alloc, FIELD_BYTES)?)?;
    text.extend_from_slice(LINES_OF_FIVE)?;
    Ok(text)
}

#[test]
fn an_empty_shelf_has_no_image(rt: HostRuntime) -> Result<(), Fail> {
    let alloc = rt.alloc();
    let wanted = Wanted(ROOM, End(0, "rendered 0 skipped 0\n"), b"");
    assert!(rt; ends(&rt, alloc, &mut empty_shelf(alloc)?, wanted)?);
    Ok(())
}

#[test]
fn files_without_an_image_are_skipped(rt: HostRuntime) -> Result<(), Fail> {
    let alloc = rt.alloc();
    let wanted = Wanted(ROOM, End(0, "rendered 1 skipped 1\n"), LINES_OF_FIVE);
    assert!(rt; ends(&rt, alloc, &mut with_coded(alloc)?, wanted)?);
    Ok(())
}

#[test]
fn gone_entries_count_for_nothing(rt: HostRuntime) -> Result<(), Fail> {
    let alloc = rt.alloc();
    let mut text = LINES_OF_FIVE.to_vec(alloc)?;
    text.extend_from_slice(LINES_OF_FIVE)?;
    let wanted = Wanted(ROOM, End(0, "rendered 2 skipped 3\n"), &text);
    assert!(rt; ends(&rt, alloc, &mut with_gaps(alloc)?, wanted)?);
    Ok(())
}

#[test]
fn a_damaged_item_ends_the_run(rt: HostRuntime) -> Result<(), Fail> {
    let alloc = rt.alloc();
    let wanted = Wanted(ROOM, End(6, "station: not a shelf at 112\n"), LINES_OF_FIVE);
    assert!(rt; ends(&rt, alloc, &mut with_byte(alloc, 150, 43)?, wanted)?);
    Ok(())
}

#[test]
fn a_wrong_checksum_ends_the_run(rt: HostRuntime) -> Result<(), Fail> {
    let alloc = rt.alloc();
    let wanted = Wanted(ROOM, BAD_CHECKSUM, LINES_OF_FIVE);
    assert!(rt; ends(&rt, alloc, &mut with_byte(alloc, 200, 0)?, wanted)?);
    Ok(())
}

/// The large image is five strips, and the output fails in it.
#[test]
fn large_images_are_put_in_their_place(rt: HostRuntime) -> Result<(), Fail> {
    let alloc = rt.alloc();
    let mut disk = with_coded(alloc)?;
    let large = plain_file(alloc, 8, 250, 300, FIELD_BYTES)?;
    add(alloc, &mut disk, large)?;
    add(alloc, &mut disk, coded_file(alloc)?)?;
    let text = large_text(alloc)?;
    let whole = Wanted(ROOM, End(0, "rendered 3 skipped 1\n"), &text);
    assert!(rt; ends(&rt, alloc, &mut disk, whole)?);
    let cut = Wanted(1_000, OUTPUT_FAILED, text.get(..1_000).unwrap_or(b""));
    assert!(rt; ends(&rt, alloc, &mut disk, cut)?);
    Ok(())
}
