//! The numbers of what was read.

use lr_forms::Stop;

/// What was read: how many bytes were taken, how many windows or units came of them, how many bytes are left that are
/// no whole unit, and why no more were taken.
#[derive(Clone, Copy)]
pub struct ReadCounts {
    pub symbols: u64,
    pub frames: u64,
    pub left: u64,
    pub stop: Stop,
}
