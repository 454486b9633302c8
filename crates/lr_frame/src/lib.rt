//! From the window of a frame to its outcome: the nearest path of the window's symbols, and what becomes of its block
//! (CCSDS 131.0-B, sections 3.3, 4 and the pseudo-randomiser).
//!
//! A window is 16,332 symbols of a line code. Its nearest path is 8,160 bits, in 1,020 bytes, and these are the block.
//! Where the window asks for several passes, a frame that the first one loses is redecoded (`lr_redecode`). `Outcomes`
//! in specs/ names the outcome of a window, of one pass and redecoded, and those of all frames of a list of symbols.
//! `FrameWork` has the room that this takes, some 80,000 bytes, and works through one window after another. A `Hand`
//! is whatever decodes windows as it does (`done_of` in `Hands`), and `Hired` makes it the work of a ring.
#![tactic(auto)]

mod hand;
mod laws;
mod work;

pub use hand::{Hand, Hired};
pub use laws::{
    given_outcomes_stay, one_pass_is_plain, restored_frames_are_whole, restored_outcomes_stay,
};
pub use work::{FrameDone, FrameWork};
