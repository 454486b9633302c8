//! The forms in which symbols, blocks and frames come in and go out, and the greatest numbers of bytes and of workers
//! that a call takes. Words, reading and the commands share them. What a form means is said where it is read or
//! written.
#![tactic(auto)]

mod forms;

pub use forms::{Decoding, Input, MOST_BYTES, MOST_WORKERS, Output, Stop, UnitForm};
