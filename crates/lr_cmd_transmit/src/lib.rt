//! The command that sends files of a shelf: `transmit`.
//!
//! It asks a shelf for the files of some entries and puts the symbols that they are sent as, each in a byte, frame by
//! frame. `Transmit` in specs/ says which symbols these are, and `Received` that a receiver of them finds the files.
#![tactic(auto)]

pub mod transmit;
