//! Threads that work beside a body: each takes turns at a seat of the gate until the gate is stopped.
//!
//! `with_pool` starts a thread for each worker seat, runs a `Body` on the caller's thread, stops the gate, and takes
//! the threads in again. What the body promises of the conductor, its `conducts`, holds of what comes back. The calls
//! here may wait; those of the gate don't. No proof says that a thread runs, or who does which job.
#![tactic(auto)]

mod body;
mod pool;

pub use body::{Body, Conducted};
pub use pool::{Pooled, Refused, with_pool};
