//! The forms of the input, and the limits of an intake.

use lr_conv::{LineCode, Passes};
use lr_gatecore::MOST_SEATS;

/// The most bytes that a call takes from the source where no word gives another number.
pub const MOST_BYTES: u64 = 1_099_511_627_776;

/// The most that work on windows, the caller among them.
pub const MOST_WORKERS: u64 = MOST_SEATS;

/// Units of a fixed number of bytes, one after another.
#[derive(Clone, Copy)]
pub enum UnitForm {
    /// Blocks of 1,020 bytes as they are received.
    Blocks,
    /// Transfer frames of 892 bytes.
    Frames,
}

/// How soft symbols are decoded: their line code, and how many passes are made over the window of a frame.
#[derive(Clone, Copy)]
pub struct Decoding {
    pub line: LineCode,
    pub passes: Passes,
}

/// What the source gives. Blocks and frames have no line code, and are not redecoded.
#[derive(Clone, Copy)]
pub enum Input {
    /// Soft symbols that are decoded so, each in a byte that is read as a signed one.
    Symbols(Decoding),
    /// Blocks or frames, one after another.
    Units(UnitForm),
}

/// Why no more of the input is taken: at its end, at the stated limit, or at a fault of the source.
#[derive(Clone, Copy)]
pub enum Stop {
    End,
    Limit,
    Fault,
}

/// The form in which the test stream is written.
#[derive(Clone, Copy)]
pub enum Output {
    /// Soft symbols under the standard's line code, each in a byte that is read as a signed one.
    Symbols,
    /// Blocks or frames, one after another.
    Units(UnitForm),
}
