//! The station for a program that isn't Rattle: a page, C, Python. `lr_run` runs one command over bytes that the caller
//! lends, and hands back what it put, what it told and the shelf's bytes afterwards. The caller's part, of pointers,
//! lengths and rooms apart, is in `packaging/lritstation.h`.
#![tactic(auto)]

mod run;
mod source;
#[cfg(test)]
mod tests;

pub use run::{Counts, NO_ROOM, lr_run};
pub use source::LentSource;
