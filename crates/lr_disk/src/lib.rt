//! A disk that may fail, and what a crash of it may leave: in memory, as a file, and one that keeps nothing.
//!
//! A disk holds bytes at places from 0 on. Its calls give its length, read, write a range, cut the end off, and sync.
//! Each disk has a count of its own faults, a number of 64 bits that never falls, and a call fails only where the
//! count rises. Besides, a disk may tell its contents and its crash images: the lists of bytes that a crash now may
//! leave, and those that a crash at some moment since an earlier one might have left. What a call says of them holds
//! for a disk that tells them, and whether it does never changes. `MemDisk` tells them, and `SureDisk` tells nothing.
//! `FileDisk` is a disk over a file and tells what the file tells: an open file of the system tells nothing, and
//! `MemFile` tells what the disk in it tells. A call of `FileDisk` succeeds only where the file gave no error, and
//! fails at the first one. The definitions that the layer above rests on are `Torn`, `Written`, `Only` and
//! `LeavesOnly` of `specs/Disk`, and `IsUnwritten` and `OnlyReads` of `specs/Reads`.
#![tactic(auto)]

mod disk;
mod file;
mod mem;
mod mem_file;
mod past;
mod random_access;
mod stop;
mod sure;

pub use disk::Disk;
pub use file::FileDisk;
pub use mem::{MemDisk, images_keep_the_rest, keepers_are_images};
pub use mem_file::MemFile;
pub use random_access::RandomAccessFile;
pub use sure::SureDisk;
