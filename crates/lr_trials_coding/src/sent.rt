//! Coded frames, whose markers are damaged.

use crate::finding::finds;
use crate::streams::{after_zeros, leave_hits, part, revalue, sent_symbols, silence, turn};
use lr_bits::{FRAME_SYMBOLS, NoMemory};
use lr_lock::LOCK_SYMBOLS;
use std::alloc::Global;
use std::test::Fail;

const EIGHT: [u64; 8] = [0, 16384, 32768, 49152, 65536, 81920, 98304, 114688];

/// The frames but for the fifth one.
const WITHOUT_FIFTH: [u64; 7] = [0, 16384, 32768, 49152, 81920, 98304, 114688];

/// The hits that are left to the markers of frames 0 to 4, and which frames are found then.
struct Case([u8; 5], &'static [u64]);

static MARKERS: [Case; 6] = [
    Case([52, 52, 52, 52, 52], &EIGHT),
    Case([52, 0, 0, 0, 52], &EIGHT),
    Case([45, 52, 52, 52, 52], &EIGHT),
    Case(
        [44, 52, 52, 52, 52],
        &[16384, 32768, 49152, 65536, 81920, 98304, 114688],
    ),
    Case([52, 36, 36, 36, 36], &WITHOUT_FIFTH),
    Case([52, 36, 36, 36, 37], &EIGHT),
];

/// Whether just these frames are found, at both polarities.
fn finds_case(alloc: Global, case: &Case) -> Result<bool, NoMemory> {
    let Case(hits, places) = case;
    let mut stream = sent_symbols(alloc)?;
    for number in 0..5usize {
        leave_hits(&mut stream, number, hits[number]);
    }
    let upright = finds(alloc, &stream, LOCK_SYMBOLS, true, places)?;
    turn(&mut stream);
    Ok(upright && finds(alloc, &stream, LOCK_SYMBOLS, false, places)?)
}

#[test]
fn markers_are_found_and_missed(rt: HostRuntime) -> Result<(), Fail> {
    for case in &MARKERS {
        let hits = case.0;
        assert!(rt;
            finds_case(rt.alloc(), case)?,
            "other frames are found with the hits {hits:?}"
        );
    }
    Ok(())
}

/// Whether all eight frames are found in pieces of this size, after symbols of 0, where these stand for 1 and 0.
fn eight(alloc: Global, zeros: usize, size: usize, high: i8, low: i8) -> Result<bool, NoMemory> {
    let mut symbols = sent_symbols(alloc)?;
    revalue(&mut symbols, high, low);
    let stream = after_zeros(alloc, zeros, &symbols)?;
    let mut places = EIGHT;
    for number in 0..8usize {
        places[number] = places[number].wrapping_add(zeros as u64);
    }
    finds(alloc, &stream, size, high > low, &places)
}

#[test]
fn frames_are_found_in_pieces_of_any_size(rt: HostRuntime) -> Result<(), Fail> {
    let alloc = rt.alloc();
    assert!(rt; eight(alloc, 0, 1, 100, -100)?);
    assert!(rt; eight(alloc, 0, 4096, 127, -128)?);
    assert!(rt; eight(alloc, 700, LOCK_SYMBOLS, 100, -100)?);
    assert!(rt; eight(alloc, 700, 4096, -128, 127)?);
    Ok(())
}

/// Whether these frames are found where markers 1 to 3 and the whole of frame 4 are silent.
fn finds_beside_silence(alloc: Global, places: &[u64]) -> Result<bool, NoMemory> {
    let mut stream = sent_symbols(alloc)?;
    for number in 1..4usize {
        leave_hits(&mut stream, number, 0);
    }
    silence(&mut stream, 4 * FRAME_SYMBOLS, FRAME_SYMBOLS);
    finds(alloc, &stream, 4096, true, places)
}

/// Whether these frames are found in the first `count` symbols.
fn finds_in_front(alloc: Global, count: usize, places: &[u64]) -> Result<bool, NoMemory> {
    let stream = sent_symbols(alloc)?;
    finds(alloc, part(&stream, 0, count), LOCK_SYMBOLS, true, places)
}

#[test]
fn a_frame_has_all_its_symbols(rt: HostRuntime) -> Result<(), Fail> {
    let alloc = rt.alloc();
    assert!(rt; finds_beside_silence(alloc, &WITHOUT_FIFTH)?);
    assert!(rt; finds_in_front(alloc, 131072, &EIGHT)?);
    assert!(rt; finds_in_front(alloc, 131071, &EIGHT[..7])?);
    Ok(())
}
