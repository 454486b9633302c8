//! Losslessly coded lines (CCSDS 121.0-B, with the unit delay predictor): from a string of bits to samples of 5 to 16
//! bits.
//!
//! A line is one reference interval of blocks, each in one of the options of `BlockOption`; the string of a line is
//! that of its blocks, one after another, and lines follow each other without padding. `CodedLines` in specs/ says
//! which strings code which samples, `LineFaults` which fault a string has where it codes none, and `Laws` that there
//! is one reading, and how many samples it has. `Samples` has what private contracts alone cite.
//!
//! `decode_into` writes the samples of lines into places that the caller has, and takes no memory; `decode_lines`
//! appends them to pixels. The one engine is `decode_line`.
#![tactic(auto)]

mod choice;
mod fault;
mod laws;
mod line;
mod lines;
mod part;
mod samples;
mod site;
mod values;

pub use choice::BlockOption;
pub use fault::{Cause, RiceFault};
pub use laws::{
    faults_are_one, lines_are_one, lines_are_read, lines_are_whole, lines_have_no_fault,
};
pub use line::SEGMENT_BLOCKS;
pub use lines::{decode_into, decode_lines};
