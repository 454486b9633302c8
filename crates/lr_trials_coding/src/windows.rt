//! The line codes, and drawn windows.

ghost use Rattle.std.specs.Prelude.{◌≡◌, IfOk, vec_len};

use lr_bits::WINDOW_SYMBOLS;
use lr_conv::LineCode;
use std::alloc::{AllocError, Global};

/// The four line codes: levels and marks, the second symbol inverted and plain.
pub const LINES: [LineCode; 4] = [
    LineCode {
        marks: false,
        inverted: true,
    },
    LineCode {
        marks: false,
        inverted: false,
    },
    LineCode {
        marks: true,
        inverted: true,
    },
    LineCode {
        marks: true,
        inverted: false,
    },
];

/// The next state of the generator that symbols are drawn from. A draw is the top byte of a state.
pub fn next_state(state: u64) -> u64 {
    state
        .wrapping_mul(6364136223846793005)
        .wrapping_add(1442695040888963407)
}

/// The symbol of a draw: the draw less 128, where -128 becomes -127.
pub fn symbol_of(draw: u8) -> i8 {
    if draw == 0 {
        -127
    } else {
        (i16::from(draw) - 128) as i8
    }
}

/// A frame's window, drawn.
pub fn drawn_window(alloc: Global, start: u64) -> Result<Vec<i8>, AllocError>
    ensures { IfOk result (λ v. vec_len v ≡ WINDOW_SYMBOLS) }
{
    let mut state = start;
    let mut symbols = Vec::new(alloc);
    for _ in 0..WINDOW_SYMBOLS {
        state = next_state(state);
        symbols.push(symbol_of((state >> 56) as u8))?;
    }
    Ok(symbols)
}

/// A frame's window of three values, drawn.
pub fn window_of_three(alloc: Global, start: u64, values: &[i8; 3]) -> Result<Vec<i8>, AllocError>
    ensures { IfOk result (λ v. vec_len v ≡ WINDOW_SYMBOLS) }
{
    let mut state = start;
    let mut symbols = Vec::new(alloc);
    for _ in 0..WINDOW_SYMBOLS {
        state = next_state(state);
        symbols.push(values[(state >> 56) as usize % 3])?;
    }
    Ok(symbols)
}
