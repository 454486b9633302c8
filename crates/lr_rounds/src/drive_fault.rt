//! Why a run over the ring was not led to its end.

/// Why a job source was not led to its end.
#[derive(Drop)]
pub enum DriveFault<E> {
    /// There was no memory for threads, and nothing was given or kept.
    NoMemory,
    /// The job source stopped.
    Stopped(E),
}
