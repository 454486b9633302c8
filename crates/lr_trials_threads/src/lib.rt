//! Trials of the ring, of its machine, its pool and the rounds that lead jobs through it, on one thread and beside
//! workers; and of runs over several recordings: faults of bundles, and what comes onto the shelf.
#![tactic(auto)]

#[cfg(test)]
mod alone;
#[cfg(test)]
mod beside;
#[cfg(test)]
mod bundles;
mod draining;
#[cfg(test)]
mod machine;
#[cfg(test)]
mod made;
#[cfg(test)]
mod one_seat;
#[cfg(test)]
mod rendezvous;
mod roll;
#[cfg(test)]
mod runs;
mod works;

pub use draining::next_result;
pub use roll::{Refused, Roll};
pub use works::{Meeting, Same};
