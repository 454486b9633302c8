//! Why a file has no header.

use thiserror::Error;

/// Why a header isn't read: what is wrong at the first place from which its records can't go on.
#[derive(Clone, Copy, Debug, Error)]
pub enum HeaderFault {
    /// The file ends before its header does.
    #[error("the file ends after {at} bytes, before its header does")]
    Ended { at: u64 },
    /// The first record isn't of kind 0, or it isn't of 16 bytes.
    #[error("the first record is not the primary one")]
    NotPrimary,
    /// The length is below 3, the bytes of kind and length.
    #[error("the record at {at} has fewer than 3 bytes")]
    ShortRecord { at: u64 },
    /// The record would pass the header's end.
    #[error("the record at {at} passes the end of the header")]
    Overrun { at: u64 },
    /// Records of this kind have another length.
    #[error("a record of kind {kind} has {length} bytes")]
    WrongLength { kind: u8, length: u16 },
    /// No memory was left.
    #[error("no memory was left")]
    NoMemory,
}
