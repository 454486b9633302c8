//! What the slot of a cell holds: a job, or its result.

/// What lies in a cell: nothing, a job, or what was made of one.
#[derive(Drop)]
pub enum SlotValue<J, D> {
    Empty,
    /// A job that waits for a worker.
    Given(J),
    /// What came of a job.
    Made(D),
}
