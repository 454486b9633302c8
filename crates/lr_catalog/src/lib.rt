//! The printed lines, each as a definition over numbers and lists of bytes, and the call that composes it.
//!
//! Every line ends with one line feed, words stand one space apart, and numbers are decimal without leading zeros. Each
//! call appends exactly its line to the bytes that it is given, or leaves them as they were where memory is refused.
#![tactic(auto)]

mod discards;
mod entries;
mod files;
mod frames;
mod hex;
mod outcomes;
mod packets;
mod records;
mod repacks;
mod stop;
mod summary;
mod texts;

pub use discards::{discard_line, gone_line};
pub use entries::{file_line, shelf_line};
pub use files::{check_line, shelved_line};
pub use frames::frame_line;
pub use outcomes::{block_line, window_line};
pub use packets::packet_line;
pub use records::{header_lines, record_line};
pub use repacks::repack_line;
pub use summary::{DecodeSums, ReceiveSums, Summary, summary_line};
