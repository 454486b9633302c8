//! The commands that put mission files onto a shelf, that make one, or that make the test stream.
//!
//! `receive` puts the mission files of its input onto the shelf, each acknowledged by its line; its contract is
//! `ReceiveRun`. It is a `Consumer` of what comes of the input (`lr_reading`). A command reads with several threads,
//! and its `.._alone` on the caller's; both are its `.._with`, and only the call that reads differs.
//!
//! `init` makes an empty shelf (`InitRun`), `make` writes the test stream (`MakeEnds`), and `trial` receives that
//! stream onto a shelf that it makes (`TrialRun`). Each says for every cause what became of source, disk and `out`.
#![tactic(auto)]

mod lines;
mod new_shelf;
mod receive_counts;
mod reception;
mod shelve;
mod shelver;
mod test_stream;
mod trial_run;
mod withdrawal;

pub use new_shelf::init;
pub use reception::{receive, receive_alone};
pub use test_stream::make;
pub use trial_run::{trial, trial_alone};
