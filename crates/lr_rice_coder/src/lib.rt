//! Lossless coding (CCSDS 121.0-B, with the unit delay predictor): from samples of 5 to 16 bits to the shortest string
//! of bits that codes them, and from a mission file with an image to one whose lines are coded.
//!
//! `code_line` appends the bytes of a line. `Shortest` in specs/ says which string that is, `Coded` which bytes it
//! fills, and `Laws` that it codes the line, that no other coding of the same mapped values is shorter, and that it is
//! read back as the line. `repack` codes a file anew: `Repacked` says which file that is and what stays, and
//! `Refusals` which files are refused, and in which order. `Writing`, `Costs` and `Fronts` have what private contracts
//! alone cite.
#![tactic(auto)]

mod block;
mod cost;
mod fault;
mod files;
mod header;
mod laws;
mod line;
mod values;
mod writer;

pub use fault::{CodeFault, RepackFault};
pub use files::repack;
pub use laws::{
    coded_is_decoded, coded_lines_are_one, decoding_gives_the_line, fillings_are_whole,
    no_coding_is_shorter, repacked_keeps_image, repacked_keeps_name, repacked_tells_lengths,
    repacks_are_one, shortest_codes_line,
};
pub use line::code_line;
