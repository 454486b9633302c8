//! The convolutional code of a frame's symbols, and the symbols of the marker in front of it.
//!
//! The code has rate 1/2 and constraint length 7 (CCSDS 131.0-B, section 3.3): each level gives two symbols, the sums
//! of five of the last seven levels modulo 2. Levels come in the order in which they are sent, and so do symbols. A
//! `LineCode` says what differs between transmitters: whether a level is the bit itself or is changed by a 1, and
//! whether the second symbol is complemented. In the standard's code, `STANDARD`, levels are bits and the second symbol
//! is complemented.
//!
//! `Levels` defines the levels of a list of bits, and `Convolution` the code of a list of levels by index: the level
//! that stands a number of places before another in six earlier levels and the list after them. `LineEncoder` begins
//! after six levels 0, and gives that code for every list of bits that it has taken. `Encoder` does so for the
//! standard's code, after any six bits.
//!
//! `Marker` defines the attached sync marker 1A CF FC 1D and its tail, the last 52 of its symbols. These depend on no
//! earlier level but the last one, which complements them all where bits are changes of level. So a receiver can look
//! for them, as `marker_tail` of its line code or as the constant `MARKER_TAIL`, in any stream.
//!
//! `Symbols` defines the value of a soft symbol, as a receiver reads it. `Passes` is how often a receiver decodes it.
#![tactic(auto)]

mod encoder;
mod line;
mod marker;
mod passes;
mod sums;

pub use encoder::Encoder;
pub use line::{LineCode, LineEncoder, STANDARD};
pub use marker::{MARKER_SYMBOLS, MARKER_TAIL, TAIL_SYMBOLS, marker_tail, marker_tail_is_coded};
pub use passes::Passes;
