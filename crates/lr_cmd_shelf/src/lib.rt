//! The commands that read the entries of a shelf, and those that add an item to it: `discard` and `repack`.
//!
//! A command that reads the entries of a shelf says what it asks of them, `Query`: their range, what it sees of images,
//! what becomes of each entry, a last text, and what it tells of its work. What it does to `out` and to the disk
//! follows from that by one definition, `RunsOver` of `specs/Runs`, and one loop, `run_entries`, does it. A command
//! that reads whole files implements `ReadsFiles` and is run by `Files`, which reads the images; one that looks at the
//! entries in another way implements `ReadsEntries`. A command that adds an item says what it decides of the bytes, an
//! `Addition` or a refusal, and which refusals it may have: `AdditionQuery`. What it does to `out` and to the disk
//! follows from that by `RunsAdding` of `specs/Adding`, for `repack` and for `discard` alike.
#![tactic(auto)]

pub mod assemble;
pub mod discard;
pub mod export;
pub mod extract;
mod files;
mod gathering;
mod gone;
mod laws;
pub mod list;
mod one_file;
mod opened;
mod pgm;
mod range;
mod reads;
pub mod repack;
mod run;
pub mod show;
pub mod verify;

pub use files::{Files, ReadsFiles};
pub use laws::{
    begun_texts_come_first, bytes_have_an_answer, bytes_have_one_answer, export_has_reasons,
    extract_has_reasons, one_file_puts_one_text, show_has_reasons, verify_has_reasons,
};
pub use opened::Opened;
pub use pgm::put_pgm;
pub use range::Range;
pub use reads::ReadsEntries;
pub use run::run_entries;
