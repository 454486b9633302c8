//! What the proofs say of the seats. No value of these types is made.

use std::collections::LinkedList;

/// A load of a word, or an exchange: its word, the value that an exchange expects, and the value found.
pub struct Read {
    pub word: u64,
    pub expected: Option<u64>,
    pub found: u64,
}

/// A cell, the number of its job, and the job.
pub struct Held<J> {
    pub cell: u64,
    pub job: u64,
    pub what: J,
}

/// What a seat knows. The fields from `stocked` to `jobs` are the conductor's alone.
pub struct View<J> {
    /// 0 for the conductor, and n for the n-th seat that was split off.
    pub number: u64,
    /// The seat was joined into another.
    pub spent: bool,
    /// The conductor picked all cells up.
    pub stocked: bool,
    /// `stop` was called.
    pub stopped: bool,
    /// The slot of the oldest job is out, and its cell isn't free yet.
    pub taking: bool,
    /// How many jobs were taken.
    pub taken: u64,
    /// How many seats were split off.
    pub split_off: u64,
    /// The jobs that were put, in their order.
    pub jobs: LinkedList<J>,
    /// The cell that the seat holds with a job.
    pub held: Option<Held<J>>,
    /// The numbers of the jobs that the seat finished.
    pub finished: LinkedList<u64>,
    /// What the seat loaded and exchanged, in order.
    pub reads: LinkedList<Read>,
}
