//! Windows of eight bits, whose nearest paths are known from all 256 lists of bits.

use crate::windows::{LINES, next_state, symbol_of};
use lr_conv::LineCode;
use lr_trellis::{TrellisScratch, nearest_bits};
use std::test::Fail;

/// Which values are drawn.
#[derive(Clone, Copy, Debug)]
enum Values {
    All,
    Two,
    Three,
}

/// The value of a draw.
fn value_of(draw: u8, values: Values) -> i8 {
    match values {
        Values::All => symbol_of(draw),
        Values::Two => (draw % 2) as i8 - 1,
        Values::Three => (draw % 3) as i8 - 1,
    }
}

/// A window of eight bits.
fn small_window(start: u64, values: Values) -> [i8; 28] {
    let mut state = start;
    let mut window = [0; 28];
    for place in 0..28usize {
        state = next_state(state);
        window[place] = value_of((state >> 56) as u8, values);
    }
    window
}

/// The eight bits in a byte, the first the most significant.
fn byte_of(bits: &[bool; 8]) -> u8 {
    let mut byte = 0;
    for bit in bits {
        byte = byte << 1 | u8::from(*bit);
    }
    byte
}

/// That ten windows have these nearest paths. Where one has another, the failure says which, and both.
fn agree(
    scratch: &mut TrellisScratch,
    line: LineCode,
    values: Values,
    expected: &[u8; 10],
) -> Result<(), Fail> {
    for place in 0..10usize {
        let window = small_window(place as u64 + 1, values);
        let mut bits = [false; 8];
        nearest_bits(line, &window, scratch, &mut bits);
        let (came, wanted) = (byte_of(&bits), expected[place]);
        if came != wanted {
            let LineCode { marks, inverted } = line;
            return Err(Fail::new(format_args!(
                "window {place} of {values:?}, marks {marks}, inverted {inverted}: {came}, not {wanted}"
            )));
        }
    }
    Ok(())
}

const ALL: [[u8; 10]; 4] = [
    [0x95, 0xD6, 0xB1, 0x05, 0x87, 0x53, 0x0A, 0x94, 0x10, 0x9A],
    [0x43, 0xE2, 0x59, 0x10, 0x7A, 0x3B, 0xDA, 0x6F, 0x7B, 0x4C],
    [0xA2, 0x3D, 0xAA, 0x3B, 0x0F, 0xB1, 0x33, 0x3B, 0x23, 0xFE],
    [0x88, 0xD4, 0x12, 0x98, 0x93, 0xA4, 0x8A, 0x15, 0x81, 0x43],
];

const TWO: [[u8; 10]; 4] = [
    [0x06, 0x00, 0x1F, 0x2C, 0x04, 0xB7, 0x03, 0x2C, 0x16, 0xC5],
    [0x6C, 0x35, 0xDC, 0x44, 0xD2, 0x75, 0x15, 0x36, 0xD5, 0xA4],
    [0xCE, 0xD4, 0xDB, 0xF1, 0x5D, 0x31, 0xD6, 0x85, 0xD5, 0x91],
    [0x6F, 0x78, 0x84, 0xDE, 0x6F, 0x6E, 0x6F, 0xAD, 0x74, 0x78],
];

const THREE: [[u8; 10]; 4] = [
    [0x28, 0x90, 0x58, 0x44, 0x51, 0x9A, 0x3C, 0xF7, 0x2E, 0xDB],
    [0x32, 0x46, 0xA9, 0x39, 0x30, 0x83, 0x41, 0x34, 0x8E, 0x19],
    [0x4E, 0x0C, 0x06, 0xB5, 0x4A, 0x57, 0xE9, 0xB5, 0x0E, 0xE0],
    [0xC7, 0xB1, 0xBD, 0xE4, 0x97, 0xD0, 0x4B, 0x5C, 0x89, 0x43],
];

#[test]
fn the_least_of_all_lists_is_found(rt: HostRuntime) -> Result<(), Fail> {
    let mut scratch = TrellisScratch::new(rt.alloc())?;
    for place in 0..4usize {
        agree(&mut scratch, LINES[place], Values::All, &ALL[place])?;
    }
    Ok(())
}

#[test]
fn ties_go_to_the_least_levels(rt: HostRuntime) -> Result<(), Fail> {
    let mut scratch = TrellisScratch::new(rt.alloc())?;
    for place in 0..4usize {
        agree(&mut scratch, LINES[place], Values::Two, &TWO[place])?;
        agree(&mut scratch, LINES[place], Values::Three, &THREE[place])?;
    }
    Ok(())
}
