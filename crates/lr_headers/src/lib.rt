//! The header of a mission file proper: records that tile its first bytes, and what they say (CGMS 03, the header
//! records).
//!
//! `Records::read` reads it. Records of the kinds 128 and 131 are read by rules of this project's own, where they have
//! the right length. Numbers stand most significant byte first. `Tiling` says which records a header has and which
//! fault a file has that has no header, `Headers` gives the one or the other as a function, `Fields` says what a
//! record's contents say, `Laws` that there is one reading, and `Stamps` how a time stamp is written.
#![tactic(auto)]

mod contents;
mod entry;
mod fault;
mod fields;
mod kinds;
mod laws;
mod numbers;
mod records;
mod stamp;

pub use contents::Content;
pub use entry::Entry;
pub use fault::HeaderFault;
pub use fields::{Lossless, Navigation, Segment, Stamp, Structure};
pub use kinds::{
    ANCILLARY_KIND, ANNOTATION_KIND, IMAGE_FUNCTION_KIND, KEY_KIND, LOSSLESS_BYTES, LOSSLESS_KIND,
    NAVIGATION_BYTES, NAVIGATION_KIND, PRIMARY_BYTES, SEGMENT_BYTES, SEGMENT_KIND, STAMP_BYTES,
    STAMP_KIND, STRUCTURE_BYTES, STRUCTURE_KIND,
};
pub use laws::{
    header_faults_are_one, headers_are_one, headers_are_read, headers_have_no_fault,
    stamp_texts_are_one, stamps_have_texts,
};
pub use records::Records;
pub use stamp::stamp_text;
