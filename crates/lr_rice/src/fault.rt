//! Why lines can't be decoded.

ghost use Rattle.std.specs.Prelude.{◌≡◌};
ghost use Rattle.lr_rice.specs.LineFaults.{fault_in};

use thiserror::Error;

/// Why an item of a line can't be read.
#[derive(Clone, Copy)]
pub enum Cause {
    /// Too few bits are left for it.
    Ended,
    /// The mapped value is greater than the greatest sample.
    OutOfRange,
    /// The zero block has more blocks than are left in its segment.
    RunPastSegment,
}

/// Why lines can't be decoded: what the first item is, in the order of the bits, that can't be read, and in which line.
#[derive(Clone, Copy, Debug, Error)]
pub enum RiceFault {
    /// Too few bits are left.
    #[error("line {line} ends before it is whole")]
    Ended { line: u32 },
    /// A mapped value is greater than the greatest sample.
    #[error("line {line} has a value above the greatest")]
    OutOfRange { line: u32 },
    /// A zero block has more blocks than are left in its segment.
    #[error("line {line} has a zero block that passes its segment")]
    RunPastSegment { line: u32 },
    /// No memory was left.
    #[error("no memory was left")]
    NoMemory,
}

impl Cause {
    /// The fault of this cause in this line.
    pub(crate) fn in_line(self, line: u32) -> RiceFault
        ensures { result ≡ fault_in line self }
    {
        match self {
            Cause::Ended => RiceFault::Ended { line },
            Cause::OutOfRange => RiceFault::OutOfRange { line },
            Cause::RunPastSegment => RiceFault::RunPastSegment { line },
        }
    }
}
