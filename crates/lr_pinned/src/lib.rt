//! The nearest path of a frame's window among the bit strings that agree with pins: where some of a frame's bits are
//! known, the path of maximum likelihood that has them (state pinning, over the convolutional code of CCSDS 131.0-B,
//! section 3.3).
//!
//! A pin of a bit is the bit that is known, or none. `Pinned` in specs/ says what agrees, and that the nearest path
//! that agrees is the least of all lists of bits that do, with the same rule for ties as in `lr_trellis`; without pins
//! it is the nearest path (`without_pins`). There is always one (`nearest_pinned`), and never a second
//! (`one_pinned_path`).
//!
//! The kernel is the plain trellis of 64 states of `lr_trellis`. A step whose bit is known closes half of the states:
//! it adds more than any path costs to the cost of each state whose newest bit is another one. So a path that misses a
//! pin costs more than each that has all of them. `nearest_pinned` borrows the words of decisions from its caller, and
//! takes no memory.
#![tactic(auto)]

mod closing;
mod decode;
mod forward;
mod laws;

pub use decode::nearest_pinned;
pub use laws::{one_pinned_path, some_path_agrees, without_pins};
