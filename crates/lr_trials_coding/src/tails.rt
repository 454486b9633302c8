//! The marker's symbols in each line code.

use crate::windows::LINES;
use lr_conv::{Encoder, LineCode, LineEncoder, MARKER_TAIL, TAIL_SYMBOLS, marker_tail};

const MARKER: u32 = 0x1ACF_FC1D;

/// The tails of the four line codes.
const TAILS: [u64; 4] = [
    0x81C971AA73D3E,
    0xD49C24FF2686B,
    0x45E57A6687523,
    0x10B02F33D2076,
];

/// The symbols of a tail as a number, the first symbol as the most significant bit.
fn number_of(tail: &[bool; TAIL_SYMBOLS]) -> u64 {
    let mut number = 0;
    for symbol in tail {
        number = number << 1 | u64::from(*symbol);
    }
    number
}

/// The last 52 of the 64 symbols.
fn last_52(symbols: u64) -> u64 {
    symbols & 0xF_FFFF_FFFF_FFFF
}

/// The 64 symbols of a marker that an encoder of a line code sends first.
fn coded_marker(line: LineCode) -> u64 {
    let mut encoder = LineEncoder::new(line);
    let mut symbols = 0;
    for place in 0..32u32 {
        let (first, second) = encoder.push(MARKER >> (31 - place) & 1 == 1);
        symbols = symbols << 2 | u64::from(first) << 1 | u64::from(second);
    }
    symbols
}

/// The same after the six bits of a state, in the standard's code.
fn coded_after(state: u8) -> u64 {
    let mut encoder = Encoder::new(state % 64);
    let mut symbols = 0;
    for place in 0..32u32 {
        let (first, second) = encoder.push(MARKER >> (31 - place) & 1 == 1);
        symbols = symbols << 2 | u64::from(first) << 1 | u64::from(second);
    }
    symbols
}

#[test]
fn the_marker_is_coded(rt: HostRuntime) {
    for place in 0..4usize {
        let tail = number_of(&marker_tail(LINES[place]));
        assert!(rt;
            tail == TAILS[place],
            "line code {place}: the tail is {tail:x}"
        );
        let coded = last_52(coded_marker(LINES[place]));
        assert!(rt;
            coded == TAILS[place],
            "line code {place}: the marker ends in {coded:x}"
        );
    }
    assert!(rt; coded_marker(LINES[0]) == 0x56081C971AA73D3E);
}

#[test]
fn the_standards_tail_comes_after_every_state(rt: HostRuntime) {
    assert!(rt; number_of(&MARKER_TAIL) == TAILS[0]);
    assert!(rt; coded_after(0) == 0x56081C971AA73D3E);
    for state in 0..64u8 {
        let tail = last_52(coded_after(state));
        assert!(rt; tail == TAILS[0], "after the state {state}: {tail:x}");
    }
}
