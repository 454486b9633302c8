//! From the input to what comes of it: one road for all commands that read but `downlinks`.
//!
//! What comes of the input is a list of arrivals (`Arrivals` in specs/): of symbols the outcome of the window of each
//! frame, of blocks and frames that of each whole unit. A `Reader` takes all memory that reading needs when it is made.
//! It leads a `Consumer` through the arrivals, however the reads of the source are cut, and takes no byte more than it
//! was allowed. A consumer knows nothing of how they come; `TakesAll` and `TakesSome` (`Runs`) say how far it was led.
//!
//! Windows are the jobs of a ring. The rounds that lead them are those of `lr_rounds`; here is the job source,
//! `WindowSource`. It fills a spare window with the next frame and gives it, and hands what became of a window to the
//! consumer. What it says of itself is `StandsAt` (`WindowSources`): the windows given are those of the frames so far,
//! in their order, and the consumer took what became of the first ones. The order of the arrivals comes from this
//! alone, and not from who finished first. On one thread reading returns (`read_windows`); beside workers it may wait
//! (`read_by_all`).
#![tactic(auto)]

mod arrival;
mod consumer;
mod intake;
mod laws;
mod next;
mod outcome;
mod read_counts;
mod reader;
mod reader_parts;
mod symbol_parts;
mod symbols;
mod unit_loop;
mod units;
mod window_source;
mod windows;

pub use arrival::{Arrival, Position};
pub use consumer::Consumer;
pub use laws::{arrivals_are_whole, outcomes_are_of_arrivals};
pub use read_counts::ReadCounts;
pub use reader::Reader;
