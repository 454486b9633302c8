//! Frames that are coded between two markers, and read back.

use crate::kernels::Kernels;
use crate::windows::{LINES, next_state};
use lr_bits::{BLOCK_BYTES, NoMemory, WINDOW_SYMBOLS};
use lr_conv::{LineCode, LineEncoder};
use std::alloc::Global;
use std::test::Fail;

/// A block's bytes, drawn.
fn drawn_block(start: u64) -> [u8; BLOCK_BYTES] {
    let mut state = start;
    let mut bytes = [0; BLOCK_BYTES];
    for place in 0..BLOCK_BYTES {
        state = next_state(state);
        bytes[place] = (state >> 56) as u8;
    }
    bytes
}

/// An encoder that has sent a marker.
fn after_marker(line: LineCode) -> LineEncoder {
    let mut encoder = LineEncoder::new(line);
    for place in 0..32u32 {
        encoder.push(0x1ACF_FC1Du32 >> (31 - place) & 1 == 1);
    }
    encoder
}

/// Appends the symbols of the first bits of a byte, the most significant first.
fn push_bits(
    window: &mut Vec<i8>,
    encoder: &mut LineEncoder,
    byte: u8,
    bits: u8,
) -> Result<(), NoMemory> {
    for place in 0..bits.min(8) {
        let (first, second) = encoder.push(byte >> (7 - place) & 1 == 1);
        window.push(if first { 90 } else { -90 })?;
        window.push(if second { 90 } else { -90 })?;
    }
    Ok(())
}

/// The window of a block between two markers.
fn window_of(alloc: Global, line: LineCode, block: &[u8]) -> Result<Vec<i8>, NoMemory> {
    let mut window = Vec::new(alloc);
    let mut encoder = after_marker(line);
    for byte in block {
        push_bits(&mut window, &mut encoder, *byte, 8)?;
    }
    push_bits(&mut window, &mut encoder, 0x1A, 6)?;
    Ok(window)
}

/// Turns the sign of one symbol in every `apart`.
fn turn_some(window: &mut [i8], apart: usize) {
    for (place, symbol) in window.iter_mut().enumerate() {
        if place.checked_rem(apart) == Some(1) {
            *symbol = symbol.saturating_neg();
        }
    }
}

/// That all kernels read a block back from its window, of which one symbol in every `apart` is turned.
fn comes_back(
    alloc: Global,
    kernels: &mut Kernels,
    line: LineCode,
    apart: usize,
) -> Result<(), Fail> {
    let block = drawn_block(apart as u64);
    let mut window = window_of(alloc, line, &block)?;
    turn_some(&mut window, apart);
    let length = window.len();
    if length == WINDOW_SYMBOLS && kernels.bytes_of(line, &window) == Some(block) {
        return Ok(());
    }
    let LineCode { marks, inverted } = line;
    Err(Fail::new(format_args!(
        "marks {marks}, inverted {inverted}, one in {apart} of {length} turned: another block"
    )))
}

#[test]
fn blocks_come_back(rt: HostRuntime) -> Result<(), Fail> {
    let mut kernels = Kernels::new(rt.alloc())?;
    for line in LINES {
        comes_back(rt.alloc(), &mut kernels, line, 20_000)?;
        comes_back(rt.alloc(), &mut kernels, line, 25)?;
    }
    Ok(())
}
