//! `render` writes the pictures of the test stream, the same ones whoever decodes their strips.
use crate::calls::{call, empty_shelf, symbols};
use lr_disk::MemDisk;
use lr_trials_station::call::{called, written_on};
use lr_trials_support::{Call, End, faultless, is_number, is_text};
use std::alloc::Global;
use std::test::Fail;

/// The bytes of six pictures of 64 columns and lines, and of their heads.
const PICTURE_BYTES: usize = 24_654;

/// A call over nothing, with an output that has room for these bytes.
fn with_room(words: &str, out_room: usize) -> Call<'_> {
    Call {
        out_room,
        ..faultless(words, &[], 1)
    }
}

/// The shelf of the 63 files of 64 frames of the test stream.
fn shelf_of_the_test_stream(alloc: Global) -> Result<MemDisk, Fail> {
    let bytes = symbols(alloc, "make 1 64 0", 64)?;
    let mut made = empty_shelf(alloc)?;
    let received = called(alloc, &mut made, &faultless("receive", &bytes, 65_536))?;
    received.has_status("receive", 0)?;
    Ok(made)
}

/// Whether the text of `export` of file 7, which has the first picture, begins the text of `render`.
fn begins_with_the_first(
    alloc: Global,
    case: &str,
    rendered: &[u8],
    disk: &mut MemDisk,
) -> Result<bool, Fail> {
    let first = written_on(alloc, disk, "export 7", PICTURE_BYTES)?;
    let front = &rendered[..rendered.len().min(first.len())];
    is_text(format_args!("{case}: the first picture"), front, &first)
}

#[test]
fn the_pictures_of_the_test_stream_are_rendered_alike(rt: HostRuntime) -> Result<(), Fail> {
    let alloc = rt.alloc();
    let mut disk = shelf_of_the_test_stream(alloc)?;
    let alone = call(&rt, alloc, &with_room("render", PICTURE_BYTES), &mut disk)?;
    let out = alone.out.as_slice();
    assert!(rt; alone.ended_with("render", &[], End(0, "rendered 6 skipped 57\n"))?);
    assert!(rt; is_number("the length of out", out.len() as u64, PICTURE_BYTES as u64)?);
    assert!(rt; begins_with_the_first(alloc, "render", out, &mut disk)?);
    for words in [
        "render --workers 2",
        "render --workers 8",
        "render --workers 64",
    ] {
        call(&rt, alloc, &with_room(words, PICTURE_BYTES), &mut disk)?.is_like(words, &alone)?;
    }
    Ok(())
}

#[test]
fn an_output_without_room_ends_rendering(rt: HostRuntime) -> Result<(), Fail> {
    let alloc = rt.alloc();
    let mut disk = shelf_of_the_test_stream(alloc)?;
    for words in ["render", "render --workers 8"] {
        let printed = call(&rt, alloc, &with_room(words, 5_000), &mut disk)?;
        let out = printed.out.as_slice();
        printed.has_status(words, 5)?;
        assert!(rt; out.len() <= 5_000, "{words}: out has {} bytes", out.len());
        begins_with_the_first(alloc, words, out, &mut disk)?;
    }
    Ok(())
}

#[test]
fn an_empty_shelf_has_no_pictures(rt: HostRuntime) -> Result<(), Fail> {
    let alloc = rt.alloc();
    let given = with_room("render --workers 2", 100);
    let printed = call(&rt, alloc, &given, &mut empty_shelf(alloc)?)?;
    assert!(rt; printed.ended_so(given.words, &[], End(0, "rendered 0 skipped 0\n"))?);
    Ok(())
}
