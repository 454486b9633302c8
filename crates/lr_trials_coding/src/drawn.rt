//! Drawn streams: noise with twelve markers in it, each with some damage.

use crate::finding::{Found, sum_with, windows};
use crate::streams::BEFORE_TAIL;
use crate::windows::next_state;
use lr_bits::{FRAME_SYMBOLS, NoMemory};
use lr_conv::{MARKER_TAIL, TAIL_SYMBOLS};
use std::alloc::Global;
use std::test::Fail;

/// A draw is the top byte of a state.
fn draw_of(state: u64) -> u8 {
    (state >> 56) as u8
}

/// A marker, and what is damaged of it: a number of its symbols, from one on, each seven after the one before.
#[derive(Clone, Copy)]
struct Marker {
    place: usize,
    positive: bool,
    damaged: usize,
    first: usize,
}

fn put_marker(symbols: &mut [i8], marker: Marker) {
    for i in 0..TAIL_SYMBOLS {
        let at = marker.place.saturating_add(BEFORE_TAIL + i);
        if at < symbols.len() {
            symbols[at] = if MARKER_TAIL[i] == marker.positive {
                90
            } else {
                -90
            };
        }
    }
}

fn damage(symbols: &mut [i8], marker: Marker) {
    for j in 0..marker.damaged {
        let turn = marker.first.wrapping_add(j.wrapping_mul(7)) % TAIL_SYMBOLS;
        let at = marker.place.saturating_add(BEFORE_TAIL + turn);
        if at < symbols.len() {
            symbols[at] = if j % 2 == 0 {
                0
            } else {
                symbols[at].saturating_neg()
            };
        }
    }
}

/// Draws the marker after a state at a place, and puts it there. Answers the next state, and how many symbols further
/// on the next marker stands.
fn put_drawn(symbols: &mut [i8], place: usize, state: u64) -> (u64, usize) {
    let polarity = next_state(state);
    let damaged = next_state(polarity);
    let first = next_state(damaged);
    let slip = next_state(first);
    let marker = Marker {
        place,
        positive: draw_of(polarity) >= 64,
        damaged: usize::from(draw_of(damaged) % 24),
        first: usize::from(draw_of(first)),
    };
    put_marker(symbols, marker);
    damage(symbols, marker);
    let slips = if draw_of(slip) < 32 {
        draw_of(slip) % 8
    } else {
        0
    };
    (slip, FRAME_SYMBOLS + usize::from(slips))
}

/// Noise, and the state after it.
fn noise(alloc: Global, seed: u64) -> Result<(Vec<i8>, u64), NoMemory> {
    let mut state = seed;
    let mut symbols = Vec::new(alloc);
    for _ in 0..13 * FRAME_SYMBOLS {
        state = next_state(state);
        symbols.push((i16::from(draw_of(state)) - 128) as i8)?;
    }
    Ok((symbols, state))
}

/// A drawn stream. How many symbols follow its last frame is drawn from the seed too.
pub(crate) fn drawn_stream(alloc: Global, seed: u64) -> Result<Vec<i8>, NoMemory> {
    let (mut symbols, noisy) = noise(alloc, seed)?;
    let mut state = next_state(noisy);
    let mut place = 8 * usize::from(draw_of(state));
    for _ in 0..12u8 {
        let (next, step) = put_drawn(&mut symbols, place, state);
        state = next;
        place = place.saturating_add(step);
    }
    symbols.truncate(place.saturating_add((seed % 256) as usize));
    Ok(symbols)
}

/// The checksum of windows: of each its place and polarity, and then its symbols.
fn checksum_of(windows: &[Found]) -> u64 {
    let mut sum = 0;
    for window in windows {
        let place = window.place.wrapping_mul(2);
        sum = sum_with(sum, place.wrapping_add(u64::from(window.positive)));
        sum = sum_with(sum, window.sum);
    }
    sum
}

/// The seed of a drawn stream, its length, and the checksum of its windows.
static DRAWN: [(u64, usize, u64); 8] = [
    (1, 197041, 0x2C0EAEB8E6FFE83E),
    (2, 197940, 0xF83AB517FED6E5D5),
    (3, 196795, 0x089257AE01330E30),
    (4, 197716, 0x38CF3313658072B3),
    (5, 198605, 0x5142087C6A183C66),
    (6, 197455, 0x88F388B0F3156C63),
    (7, 198351, 0x497F07D36F8B671F),
    (8, 197211, 0x805BA4C6C520B4AD),
];

#[test]
fn drawn_streams_agree(rt: HostRuntime) -> Result<(), Fail> {
    for (seed, length, checksum) in &DRAWN {
        let stream = drawn_stream(rt.alloc(), *seed)?;
        let count = stream.len();
        assert!(rt;
            count == *length && count < 1_000_000,
            "seed {seed}: {count} symbols"
        );
        let size = 1000 + (*seed % 8) as usize * 9000;
        let came = checksum_of(&windows(rt.alloc(), &stream, size)?);
        assert!(rt; came == *checksum, "seed {seed}: the checksum is {came:x}");
    }
    Ok(())
}
