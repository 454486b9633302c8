//! What the tests of several crates share: frames, shelves and printed lines that are given, the parts of a call of the
//! station, and what a test says where something else came than it wanted.
#![tactic(auto)]

mod call;
mod differing;
mod ends;
mod frames;
mod images;
mod shelves;
mod short;
mod words;

pub use call::{Call, NEVER, Parts, Printed, faultless, parts_of};
pub use differing::{is_number, is_text};
pub use ends::{
    AFTER_SILENCE, ALL_FRAMES, BAD_CHECKSUM, BOTH_OK, DISCARDED_0, DISK_FAILED, DONE, End,
    FIRST_SHELVED, GONE, NEW_ALONE, NO_MEMORY, NO_SHELF_AT_19, NO_THIRD_FILE, NOT_IMAGE,
    OLD_AND_NEW, OUTPUT_FAILED, RECEIVED_7, RECEIVED_BOTH, RECEIVED_ONE, SECOND_OK, SOURCE_FAILED,
    USAGE,
};
pub use frames::{FILE_7, FILE_8, frames_of, put_frame};
pub use images::{CODED, FIRST_LINE, LINES_OF_FIVE, SECOND_LINE};
pub use shelves::{ITEM_7, ITEM_8, ITEM_8_FROM_0, OLD_SHELF, bytes_with, disk, shelf_bytes};
pub use short::ShortSource;
pub use words::words_of;
