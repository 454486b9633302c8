//! The nearest path of a frame's window: maximum likelihood decoding of the convolutional code of CCSDS 131.0-B,
//! section 3.3, between two markers. The kernel is a Viterbi decoder over a frame as a whole.
//!
//! A window is a list of symbols, signed bytes of which a positive one leans to 1 and -128 is read as -127: two symbols
//! for each bit of the frame, and twelve for the first six bits of the next marker. Out come the frame's bits, in the
//! order in which they were sent, or packed into bytes, the first bit of a byte as its most significant one.
//!
//! A path is of a line code: its bits are the levels of the trellis, or their changes, and the second symbol of each
//! pair is complemented or not.
//!
//! `Path` defines what a list of bits costs against a window, and that the nearest path is the least of all lists, ties
//! included: among those of equal cost it is the one whose levels are least when read from the last to the first.
//! `nearest_path` names it, and there is exactly one (`one_nearest_path`). The kernel here is the plain trellis of 64
//! states, one pass over the window and one way back over a word of decisions for each step. `start_costs`,
//! `pair_costs`, `decision_word` and `read_bytes` are for another kernel, whose forward pass keeps the same decisions;
//! `step`, `end_state`, `bit_of`, `bits_back` and `bytes_back` for one with other costs.
#![tactic(auto)]

mod costs;
mod decode;
mod ending;
mod scratch;
mod steps;
mod way_back;

pub use costs::{STEP_COST, pair_costs};
pub use decode::{nearest, nearest_bits, one_nearest_path, read_bytes};
pub use ending::end_state;
pub use scratch::{MOST_STEPS, TrellisScratch};
pub use steps::{FAR, decision_word, start_costs, step};
pub use way_back::{bit_of, bits_back, bytes_back};
