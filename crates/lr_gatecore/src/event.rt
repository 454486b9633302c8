//! The events of a ring.

/// What may happen to the ring next.
#[derive(Clone, Copy)]
pub enum Event {
    /// The next job is put.
    Put,
    /// A worker claims the job of a cell.
    Claim { worker: u32, cell: u32 },
    /// A worker finishes the job that it claimed.
    Finish { worker: u32 },
    /// The result of the oldest job is taken.
    Take,
    /// No job is put from now on.
    Stop,
}
