//! How large a ring is.

/// The numbers of a ring's cells and of its workers.
#[derive(Clone, Copy, Drop)]
pub struct RingSize {
    pub cells: u32,
    pub workers: u32,
}
