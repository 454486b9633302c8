//! The commands that print lines of what they read.
//!
//! `frames`, `packets` and `decode` print lines of the bytes that they read, and a last line of them all; their
//! contract is `Prints`. Each of them is a `Consumer` of what comes of the input (`lr_reading`). `decode` reads with
//! several threads and `decode_alone` on the caller's; both are `decode_with`, and only the call that reads differs.
#![tactic(auto)]

mod frame_lines;
mod outcome_lines;
mod packet_count;
mod packet_lines;

pub use frame_lines::frames;
pub use outcome_lines::{decode, decode_alone};
pub use packet_lines::packets;
