//! The bytes of a shelf file, versions 1 and 2: a header of 19 bytes, and after it gates and items in turn.
//!
//! Numbers stand with their first byte highest. A shelf begins with 5A hex, `LRSHELF`, the version 01 or 02, the
//! capacity (8 bytes, 20 to 2^40) and the checksum of the bytes 1 to 16 (2 bytes, as of packets). At place 19 stands
//! the first gate, a byte. A gate is open where it is 01, and closed where it is anything else; 00 is what is written
//! for it. After an open gate stands an item, and after the item the next gate; what follows a closed gate is no part
//! of the shelf. An item is an Old one, a file as version 1 wrote it; an Add, a file with its origin; or a Discard of
//! an earlier file. An Old item is a channel (1 byte, below 64), an application (2, below 2,047), the number of bodies
//! (4, 1 to 1,048,576), the number of bytes (4, 10 to 67,108,864), the length of each body (2 each, below 65,535), the
//! bytes, and the checksum of all of it before that. An Add has 80 hex in front, and the origin (three numbers of 8
//! bytes) before the lengths. A Discard is 81 hex, the number of the file (8) and their checksum.
//!
//! The definitions that the layer above rests on are `StandsForShelf` of `specs/ShelfBytes` (the items that bytes stand
//! for), the walk from gate to gate of `specs/Walk`, and of `specs/Way` `IsWay` (the entries that a walk gives, each
//! with its gate, its extent and whether it is gone) and `IsFound` (what stands at an entry: a file, two checksums that
//! differ, or that it is gone).
#![tactic(auto)]

mod entry;
mod header;
mod item;
mod old;
mod read;
mod reading;
mod record;
mod stored;

pub use entry::Entry;
pub use header::{
    FIRST_GATE, HEADER_BYTES, LEAST_CAPACITY, MOST_CAPACITY, OPEN_GATE, header_of, read_header,
};
pub use item::{ITEM_BYTES, ItemHead, discard_of, read_item};
pub use old::{old_header_of, old_record_of};
pub use read::{Checksums, record_in, stored_in, sum_of, sums_of};
pub use reading::{
    bytes_have_one_way, entry_is_found, entry_is_found_once, shelf_has_its_way,
    shelf_has_one_reading, shelf_is_one_walk,
};
pub use record::{
    ADD_FRONT_BYTES, CHECKSUM_BYTES, HEAD_BYTES, LENGTH_BYTES, OLD_FRONT_BYTES, RecordHead, extent,
    record_of,
};
pub use stored::Stored;
