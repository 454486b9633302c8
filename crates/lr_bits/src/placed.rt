//! A mission file and where it comes from: its first and its last frame, and how many bytes were corrected in these.

use crate::MissionFile;

/// Where a file came from. Places count the outcomes of the input from 0.
#[derive(Clone, Copy)]
pub struct Origin {
    /// The place of the outcome in which the file's first packet ends.
    pub first: u64,
    /// The place of the outcome in which its last packet ends.
    pub last: u64,
    /// How many bytes were changed in all restored outcomes from the first place to the last, both included.
    pub corrected: u64,
}

/// A file, and where it came from.
#[derive(Drop)]
pub struct Placed {
    pub file: MissionFile,
    pub origin: Origin,
}
