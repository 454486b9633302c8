//! The running ring: cells with a word and a slot each, through which a conductor hands jobs to workers and takes what
//! they make of them, in order.
//!
//! A `Gate` is shared by its seats: one `Conductor`, which puts the jobs and takes the results, and the `WorkerSeat`s.
//! A cell's word tells its job's number and stage (`Words` in specs/). Each seat has a view, which is there for the
//! proofs alone: what it holds, which jobs it finished, what it read; the conductor's also has the jobs, and how many
//! were taken.
//!
//! `Shows` is the rule that holds between any two atomic steps, whoever makes them: the table shows a state of the
//! machine of `lr_gatecore`. `a_ring_shows_the_machine` says it cell by cell, `steps_of_a_ring_are_moves` which steps
//! are which moves, and `words_tell_the_machine` that the other steps are none. `Steps` says what each step makes of
//! its seat's view, and `Seats` what each call does. A call says of each cell that it passed over which word it loaded
//! there (`Reads`).
//!
//! No call waits, and none but `build` takes memory.
#![tactic(auto)]

mod build;
mod conductor;
mod gate;
mod laws;
mod plays;
mod round;
mod slot_value;
mod view;
mod worker;

pub use gate::{Conductor, Gate, RingFull, Tally, Turn, WorkerSeat};
pub use laws::{a_ring_shows_the_machine, steps_of_a_ring_are_moves, words_tell_the_machine};
pub use plays::Law;
pub use slot_value::SlotValue;
pub use view::{Held, Read, View};
