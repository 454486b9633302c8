//! Noisy windows and their outcomes after one to four passes. The outcomes are those of reference/redecode.py, a slow
//! program of its own, which draws the same windows.

ghost use Rattle.std.specs.Prelude.{◌≤◌, ◌<◌};

use crate::streams::{part, put_byte, put_bytes, silence};
use crate::windows::{LINES, next_state};
use lr_bits::{BLOCK_BYTES, FRAME_BYTES, NoMemory, Outcome, WINDOW_SYMBOLS};
use lr_block::derandomise;
use lr_conv::{LineCode, LineEncoder, MARKER_SYMBOLS, Passes};
use lr_frame::FrameWork;
use lr_lock::{Lock, Window};
use lr_rs::{INFORMATION_BYTES, WORD_BYTES, encode};
use std::alloc::Global;
use std::test::Fail;

/// What is wrong with the words that are sent.
#[derive(Clone, Copy)]
enum Planted {
    Nothing,
    /// Seventeen bytes of the third word are changed.
    Seventeen,
    /// These too, and the second word is seventeen bytes from its codeword and sixteen from another one.
    FalseWord,
}

/// What is wanted of some passes.
#[derive(Clone, Copy, PartialEq, Debug)]
enum Wanted {
    Restored([u8; 4]),
    Lost(u8),
}

use Planted::{FalseWord, Nothing, Seventeen};
use Wanted::{Lost, Restored};

/// A window: how loud its noise is beside symbols of 64, whether only the signs of the symbols are left, so that most
/// steps are ties, and how many symbols are 0 at the end, as past the end of a stream.
#[derive(Clone, Copy)]
struct Case {
    line: usize,
    seed: u64,
    level: u8,
    hard: bool,
    silent: usize,
    planted: Planted,
    wanted: [Wanted; 4],
}

/// Changes seventeen bytes of the third word.
fn change_seventeen(block: &mut [u8; BLOCK_BYTES]) {
    for i in 0..17usize {
        block[28 * i + 2] ^= 0x55;
    }
}

/// Leads the second word over half of the way to a codeword that differs from it in 33 bytes.
fn lead_to_another(block: &mut [u8; BLOCK_BYTES]) {
    let mut information = [0u8; INFORMATION_BYTES];
    information[222] = 1;
    let mut least = [0u8; WORD_BYTES];
    encode(&information, &mut least);
    for i in 222..239usize {
        block[4 * i + 1] ^= least[i];
    }
}

/// The block of four words of 7F, as it is sent.
fn sent_block(planted: Planted) -> [u8; BLOCK_BYTES] {
    let mut block = [0x7F; BLOCK_BYTES];
    match planted {
        Nothing => {}
        Seventeen => change_seventeen(&mut block),
        FalseWord => {
            change_seventeen(&mut block);
            lead_to_another(&mut block);
        }
    }
    derandomise(&mut block);
    block
}

/// A byte of a state, from its lowest one on.
fn byte_of(state: u64, place: u32) -> u32
    requires { place < 8 }
    ensures { result ≤ 255 }
{
    (state >> (8 * place) & 255) as u32
}

/// The sum of the four highest bytes of a state.
fn four_bytes(state: u64) -> u32
    ensures { result ≤ 1020 }
{
    byte_of(state, 7) + byte_of(state, 6) + byte_of(state, 5) + byte_of(state, 4)
}

/// What stands for a symbol of the value 0 in a sum that is never negative.
const MIDDLE: u32 = 4096 + 127;

/// A symbol with noise: a sum of eight bytes less its mean.
fn noisy(one: bool, sum: u32, case: &Case) -> i8 {
    let level = u32::from(case.level);
    let mean = 1020 * level >> 8;
    let sent = if one { MIDDLE + 64 } else { MIDDLE - 64 };
    let value = (sum.wrapping_mul(level) >> 8)
        .wrapping_add(sent)
        .wrapping_sub(mean);
    if case.hard {
        return if value > MIDDLE { 1 } else { -1 };
    }
    if value <= MIDDLE - 127 {
        return -127;
    }
    if value >= MIDDLE + 127 {
        return 127;
    }
    let low = (value - (MIDDLE - 127)) as u8;
    (i16::from(low) - 127) as i8
}

/// The symbols of a marker without noise, and those of the window after it.
fn drawn_stream(alloc: Global, line: LineCode, case: &Case) -> Result<Vec<i8>, NoMemory> {
    let mut encoder = LineEncoder::new(line);
    let mut symbols = Vec::new(alloc);
    put_bytes(&mut symbols, &mut encoder, &[0x1A, 0xCF, 0xFC, 0x1D])?;
    put_bytes(&mut symbols, &mut encoder, &sent_block(case.planted))?;
    put_byte(&mut symbols, &mut encoder, 0x1A)?;
    symbols.truncate(MARKER_SYMBOLS + WINDOW_SYMBOLS);
    let mut state = case.seed;
    for at in MARKER_SYMBOLS..symbols.len() {
        let first = next_state(state);
        state = next_state(first);
        let sum = four_bytes(first).wrapping_add(four_bytes(state));
        symbols[at] = noisy(symbols[at] > 0, sum, case);
    }
    let end = symbols.len();
    silence(&mut symbols, end.saturating_sub(case.silent), case.silent);
    Ok(symbols)
}

/// The outcome of the frame at the stream's start after some passes.
fn outcome_after(
    alloc: Global,
    line: LineCode,
    passes: Passes,
    stream: &[i8],
) -> Result<Outcome, NoMemory> {
    let mut lock = Lock::new(alloc, line)?;
    let mut window = Window::with_passes(alloc, line, passes)?;
    lock.feed(part(stream, 0, lock.room()));
    lock.finish();
    lock.next_window(&mut window);
    Ok(FrameWork::new(alloc)?.outcome(&window))
}

/// What is said of an outcome.
fn said_of(outcome: &Outcome) -> Wanted {
    match outcome {
        Outcome::Restored(corrected, _) => Restored(corrected.0),
        Outcome::Lost(word) => Lost(*word),
    }
}

const PASSES: [Passes; 4] = [Passes::One, Passes::Two, Passes::Three, Passes::Four];

/// That a window has the outcomes that are wanted. Where one is another, the failure says which.
fn agree(alloc: Global, number: usize, case: &Case) -> Result<(), Fail> {
    let line = LINES[case.line % 4];
    let stream = drawn_stream(alloc, line, case)?;
    for place in 0..4usize {
        let came = said_of(&outcome_after(alloc, line, PASSES[place], &stream)?);
        let wanted = case.wanted[place];
        if came != wanted {
            return Err(Fail::new(format_args!(
                "case {number} after {place} further passes: {came:?}, not {wanted:?}"
            )));
        }
    }
    Ok(())
}

const CASES: [Case; 17] = [
    Case {
        line: 0,
        seed: 1,
        level: 64,
        hard: false,
        silent: 0,
        planted: Nothing,
        wanted: [
            Restored([2, 2, 5, 5]),
            Restored([2, 2, 5, 5]),
            Restored([2, 2, 5, 5]),
            Restored([2, 2, 5, 5]),
        ],
    },
    Case {
        line: 1,
        seed: 30,
        level: 68,
        hard: false,
        silent: 0,
        planted: Nothing,
        wanted: [
            Lost(3),
            Restored([15, 14, 14, 17]),
            Restored([15, 14, 14, 17]),
            Restored([15, 14, 14, 17]),
        ],
    },
    Case {
        line: 2,
        seed: 4,
        level: 67,
        hard: false,
        silent: 0,
        planted: Nothing,
        wanted: [
            Lost(1),
            Restored([16, 18, 19, 16]),
            Restored([16, 18, 19, 16]),
            Restored([16, 18, 19, 16]),
        ],
    },
    Case {
        line: 3,
        seed: 17,
        level: 67,
        hard: false,
        silent: 0,
        planted: Nothing,
        wanted: [
            Lost(0),
            Restored([17, 14, 12, 18]),
            Restored([17, 14, 12, 18]),
            Restored([17, 14, 12, 18]),
        ],
    },
    Case {
        line: 0,
        seed: 5,
        level: 68,
        hard: false,
        silent: 0,
        planted: Nothing,
        wanted: [Lost(0), Lost(0), Lost(0), Lost(0)],
    },
    Case {
        line: 0,
        seed: 213,
        level: 69,
        hard: false,
        silent: 0,
        planted: Nothing,
        wanted: [
            Lost(1),
            Lost(2),
            Restored([16, 23, 24, 17]),
            Restored([16, 23, 24, 17]),
        ],
    },
    Case {
        line: 2,
        seed: 1571,
        level: 68,
        hard: false,
        silent: 0,
        planted: Nothing,
        wanted: [
            Lost(1),
            Lost(2),
            Restored([16, 22, 24, 19]),
            Restored([16, 22, 24, 19]),
        ],
    },
    Case {
        line: 1,
        seed: 5,
        level: 68,
        hard: false,
        silent: 0,
        planted: Nothing,
        wanted: [
            Lost(1),
            Restored([15, 19, 18, 19]),
            Restored([15, 19, 18, 19]),
            Restored([15, 19, 18, 19]),
        ],
    },
    Case {
        line: 3,
        seed: 19,
        level: 67,
        hard: false,
        silent: 0,
        planted: Nothing,
        wanted: [
            Lost(1),
            Restored([15, 20, 20, 21]),
            Restored([15, 20, 20, 21]),
            Restored([15, 20, 20, 21]),
        ],
    },
    Case {
        line: 3,
        seed: 7,
        level: 54,
        hard: true,
        silent: 0,
        planted: Nothing,
        wanted: [
            Lost(0),
            Restored([18, 17, 16, 19]),
            Restored([18, 17, 16, 19]),
            Restored([18, 17, 16, 19]),
        ],
    },
    Case {
        line: 0,
        seed: 12,
        level: 60,
        hard: false,
        silent: 1000,
        planted: Nothing,
        wanted: [Lost(1), Lost(2), Lost(2), Lost(2)],
    },
    Case {
        line: 0,
        seed: 1183,
        level: 60,
        hard: false,
        silent: 860,
        planted: Nothing,
        wanted: [Lost(0), Lost(0), Lost(3), Restored([18, 17, 15, 19])],
    },
    Case {
        line: 0,
        seed: 42,
        level: 60,
        hard: false,
        silent: 900,
        planted: Nothing,
        wanted: [
            Lost(0),
            Lost(1),
            Restored([17, 18, 15, 17]),
            Restored([17, 18, 15, 17]),
        ],
    },
    Case {
        line: 0,
        seed: 1,
        level: 60,
        hard: false,
        silent: 16332,
        planted: Nothing,
        wanted: [
            Restored([0, 0, 0, 0]),
            Restored([0, 0, 0, 0]),
            Restored([0, 0, 0, 0]),
            Restored([0, 0, 0, 0]),
        ],
    },
    Case {
        line: 1,
        seed: 1,
        level: 20,
        hard: false,
        silent: 0,
        planted: Seventeen,
        wanted: [Lost(2), Lost(2), Lost(2), Lost(2)],
    },
    Case {
        line: 0,
        seed: 1,
        level: 20,
        hard: false,
        silent: 0,
        planted: FalseWord,
        wanted: [Lost(2), Lost(2), Lost(2), Lost(2)],
    },
    Case {
        line: 3,
        seed: 2,
        level: 20,
        hard: false,
        silent: 0,
        planted: FalseWord,
        wanted: [Lost(2), Lost(2), Lost(2), Lost(2)],
    },
];

#[test]
fn frames_are_redecoded(rt: HostRuntime) -> Result<(), Fail> {
    let cases = CASES;
    for number in 0..cases.len() {
        agree(rt.alloc(), number, &cases[number])?;
    }
    Ok(())
}

/// Whether the frame of a window is whole after all passes.
fn is_whole(alloc: Global, case: &Case) -> Result<bool, NoMemory> {
    let line = LINES[case.line % 4];
    let stream = drawn_stream(alloc, line, case)?;
    let outcome = outcome_after(alloc, line, Passes::Four, &stream)?;
    Ok(match &outcome {
        Outcome::Restored(_, frame) => *frame == [0x7F; FRAME_BYTES],
        Outcome::Lost(_) => false,
    })
}

#[test]
fn a_redecoded_frame_is_what_was_sent(rt: HostRuntime) -> Result<(), Fail> {
    let cases = CASES;
    assert!(rt; is_whole(rt.alloc(), &cases[1])?);
    assert!(rt; is_whole(rt.alloc(), &cases[5])?);
    Ok(())
}
