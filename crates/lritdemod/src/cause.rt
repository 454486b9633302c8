//! Why the program ends before its input does.

use std::alloc::AllocError;

/// A cause, by its status.
#[derive(Clone, Copy, Debug, PartialEq, Eq)]
pub(crate) enum Cause {
    /// An option that can't be, which was named on standard error.
    Usage,
    /// The input failed. All that was read before is demodulated.
    Input,
    /// The output failed.
    Output,
    /// Memory was refused.
    NoMemory,
}

const USAGE: u8 = 2;

const INPUT: u8 = 3;

const OUTPUT: u8 = 5;

const NO_MEMORY: u8 = 9;

impl Cause {
    /// The status that the program ends with: those of `lritstation`.
    pub(crate) fn status(self) -> u8 {
        match self {
            Cause::Usage => USAGE,
            Cause::Input => INPUT,
            Cause::Output => OUTPUT,
            Cause::NoMemory => NO_MEMORY,
        }
    }
}

impl From<AllocError> for Cause {
    fn from(_error: AllocError) -> Cause {
        Cause::NoMemory
    }
}
