//! The lock, a frame synchroniser: where the frames stand in a stream of symbols, and what a decoder is shown of each.
//! The standard calls the marker an attached sync marker (ASM), and a marker with its block a CADU.
//!
//! A lock is of a line code, which decides what the marker's symbols are. A symbol is a signed byte; above 0 it leans
//! to 1 and below 0 to 0 at the positive polarity, and the other way round at the negative one. A frame is 16,384
//! symbols, the 64 symbols of its marker (CCSDS 131.0-B, section 9.3) and those of its block. Only the marker's symbols
//! 12 to 63, its tail, are the same after whatever bits were sent before it, or each symbol's complement, so a marker
//! is known by these 52: the hits of a polarity at a place are those of them that lean to the tail's bit.
//!
//! `Frames` in specs/ defines the frames of a list of symbols. A search goes to the first place with `ACQUIRING_HITS`
//! hits of one polarity; right after a frame `HOLDING_HITS` hits keep the lock, and `FLYWHEEL_MISSES` markers in
//! succession may be missed before a new search begins. Each symbol of a frame must be there. There is one such list,
//! named by `frames_of` (`frames_are_one`), and more symbols only add to its end (`prefix_stays`).
//!
//! `Windows` defines the window of a frame: the 16,332 symbols after its marker, the last twelve of them the next
//! marker's first ones, each times the sign of the polarity.
//!
//! A `Lock` is fed the stream in pieces of any size and gives the windows in order. It keeps at most 65,536 symbols,
//! and takes memory only when it is made. `LockStandsFor` in `Standing` ties it to all symbols fed and all frames
//! given.
#![tactic(auto)]

mod frame;
mod laws;
mod lock;
mod marker;
mod planes;
mod search;
mod sizes;
mod step;
mod window;

pub use frame::Frame;
pub use laws::{frames_are_one, given_are_prefix, given_windows_stay, prefix_stays, window_stays};
pub use lock::Lock;
pub use sizes::{
    ACQUIRING_HITS, FLYWHEEL_MISSES, HOLDING_HITS, LOCK_SYMBOLS, TAIL_START, WINDOW_END,
};
pub use step::Step;
pub use window::Window;
