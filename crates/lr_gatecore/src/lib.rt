//! The work that is done job by job, and the machine of the ring that hands the jobs round.
//!
//! `Machine` in specs/ defines the machine as plain data: which jobs were put and taken, the stage of each, and which
//! moves are allowed. A `GateCore` is this machine running alone, on one thread; the ring of `lr_gate` shows it while
//! many threads run. `jobs_go_in_order` says what holds of it over every list of events, `moves_lead_to_states` that
//! it stays in its states, and `moves_are_one` that a list of events leads to one machine.
#![tactic(auto)]

mod event;
mod gate_core;
mod laws;
mod ring_size;
mod sizes;
mod stage;
mod work;

pub use event::Event;
pub use gate_core::GateCore;
pub use laws::{jobs_go_in_order, moves_are_one, moves_lead_to_states};
pub use ring_size::RingSize;
pub use sizes::{MOST_CELLS, MOST_HANDS, MOST_JOBS, MOST_SEATS, WORD_BASE};
pub use stage::Stage;
pub use work::Work;
