//! How many images were put, and how many files were skipped.

/// How many images were put so far, and how many files were skipped since they have none.
#[derive(Clone, Copy)]
pub(crate) struct Tally {
    pub images: u64,
    pub skipped: u64,
}
