//! What a command says on `err` though it is done.

/// What is told on `err` of work that is done.
#[derive(Clone, Copy)]
pub enum Note {
    /// This many segments were put together, this many were skipped since they have no image, and this many pixels of
    /// the whole image are covered by none.
    Assembled {
        added: u64,
        skipped: u64,
        uncovered: u64,
    },
    /// This many images were put, and this many files were skipped since they have none.
    Rendered {
        images: u64,
        skipped: u64,
    },
}
