//! A recording: what becomes of the same symbols in other reads, levels and line codes, and of the shelf that it fills.
use crate::made::{after_silence, shelf};
use lr_bits::FRAME_SYMBOLS;
use lr_disk::MemDisk;
use lr_trials_station::call::{called, printed_on, written, written_on};
use lr_trials_station::steps::HEADER_1000;
use lr_trials_support::{DONE, FIRST_SHELVED, disk, faultless, is_number, is_text, shelf_bytes};
use std::alloc::Global;
use std::test::Fail;

const TURNED: &str = "window 0 at 0 polarity - restored 0 0 0 0\n\
                      symbols 16384 frames 1 restored 1 lost 0 left 0 stop end\n";

/// What `decode` with these words prints of these bytes.
fn decoded_text(alloc: Global, words: &str, bytes: &[u8]) -> Result<Vec<u8>, Fail> {
    let mut none = disk(alloc, &[], 0)?;
    printed_on(alloc, &mut none, &faultless(words, bytes, 4_096))
}

/// The symbols with the opposite sign, every one or every second one.
fn negated_bytes(alloc: Global, bytes: &[u8], every: bool) -> Result<Vec<u8>, Fail> {
    let mut turned = Vec::new(alloc);
    let mut second = false;
    for byte in bytes {
        let turn = every || second;
        turned.push(if turn { byte.wrapping_neg() } else { *byte })?;
        second = !second;
    }
    Ok(turned)
}

/// The symbols at the greatest levels that a byte has.
fn loud(alloc: Global, bytes: &[u8]) -> Result<Vec<u8>, Fail> {
    let mut all = Vec::new(alloc);
    for byte in bytes {
        all.push(if *byte < 128 { 127 } else { 128 })?;
    }
    Ok(all)
}

#[test]
fn signs_and_levels_are_made_up_for(rt: HostRuntime) -> Result<(), Fail> {
    let alloc = rt.alloc();
    let bytes = written(alloc, "make 1 1 0", FRAME_SYMBOLS)?;
    let turned = decoded_text(alloc, "decode", &negated_bytes(alloc, &bytes, true)?)?;
    assert!(rt; is_text("turned", &turned, TURNED.as_bytes())?);
    let louder = decoded_text(alloc, "decode", &loud(alloc, &bytes)?)?;
    assert!(rt; is_text("loud", &louder, &decoded_text(alloc, "decode", &bytes)?)?);
    Ok(())
}

#[test]
fn second_symbols_may_come_uncomplemented(rt: HostRuntime) -> Result<(), Fail> {
    let alloc = rt.alloc();
    let bytes = written(alloc, "make 1 8 0", 8 * FRAME_SYMBOLS)?;
    let other = negated_bytes(alloc, &bytes, false)?;
    let plain = decoded_text(alloc, "decode --g2 plain", &other)?;
    let usual = decoded_text(alloc, "decode", &bytes)?;
    assert!(rt; usual.len() > 300 && is_text("plain", &plain, &usual)?);
    Ok(())
}

/// What `receive` prints of the recording in reads of this size, and the disk that it leaves.
fn received_text(alloc: Global, bytes: &[u8], reads: usize) -> Result<(Vec<u8>, MemDisk), Fail> {
    let mut disk = shelf(alloc)?;
    let text = printed_on(alloc, &mut disk, &faultless("receive", bytes, reads))?;
    Ok((text, disk))
}

#[test]
fn output_and_disk_are_the_same_in_any_reads(rt: HostRuntime) -> Result<(), Fail> {
    let alloc = rt.alloc();
    let bytes = after_silence(alloc)?;
    let (text, disk) = received_text(alloc, &bytes, 4_096)?;
    assert!(rt; text.as_slice().starts_with(FIRST_SHELVED.as_bytes()));
    for reads in [1, 65_536] {
        let (other, other_disk) = received_text(alloc, &bytes, reads)?;
        is_text(format_args!("out in reads of {reads}"), &other, &text)?;
        let left = other_disk.as_slice();
        is_text(
            format_args!("the disk in reads of {reads}"),
            left,
            disk.as_slice(),
        )?;
    }
    Ok(())
}

#[test]
fn the_files_of_a_recording_are_there(rt: HostRuntime) -> Result<(), Fail> {
    let alloc = rt.alloc();
    let (_, mut disk) = received_text(alloc, &after_silence(alloc)?, 65_536)?;
    let file = written_on(alloc, &mut disk, "extract 7", 5_000)?;
    assert!(rt; is_number("the length of file 7", file.len() as u64, 4_121)?);
    let verified = called(alloc, &mut disk, &faultless("verify", &[], 1))?;
    assert!(rt; verified.has_status("verify", 0)?);
    assert!(rt; is_number("the lines of verify", verified.lines() as u64, 63)?);
    Ok(())
}

#[test]
fn an_empty_source_leaves_the_shelf_alone(rt: HostRuntime) -> Result<(), Fail> {
    let alloc = rt.alloc();
    let before = shelf_bytes(alloc, HEADER_1000, &[])?;
    for words in [
        "receive --input symbols",
        "receive --input blocks",
        "receive --input frames",
    ] {
        let mut left = disk(alloc, &before, 1_000)?;
        printed_on(alloc, &mut left, &faultless(words, &[], 1))?;
        is_text(words, left.as_slice(), &before)?;
    }
    Ok(())
}
