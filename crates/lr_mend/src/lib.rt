//! Mission files of good packets, mended: where some packets of an image are missing, fillers stand in for them, so
//! that a file comes of those that are there, and the file is marked.
//!
//! Good packets come one by one, of all channels and applications. An image opens with a packet with flags 1 whose body
//! has the whole header of an image that can be read (`Openings`). Where counts are missing before a later packet, and
//! the image stays at the number of fillers that is allowed, fillers come before it, up to as many as the image needs
//! to be whole: packets with these counts, and as their body a copy of a neighbour's where lines are coded, else as
//! many zeros. The layer above rests on `MendedFiles.mended_files`, the files of all packets, of which
//! `Mending.mended_packets` says what is mended, `Seams` which packets of a file are fillers, and `Marks` how a file
//! with fillers is marked. Where no fillers are allowed they are those of `lr_file`.
#![tactic(auto)]

mod gap;
mod image;
mod laws;
mod marks;
mod mended;
mod mender;
mod opening;
mod seams;

pub use gap::Gap;
pub use laws::{
    a_packet_adds_its_fillers, a_packet_adds_mended_files, files_are_among_mended, files_stay,
    fillers_are_few, mended_packets_go_on, no_file_is_mended, nothing_is_mended,
    one_file_ends_a_gap, packets_stay,
};
pub use marks::{MarkedFile, mark};
pub use mended::{Ended, MendedFiles};
pub use mender::{MOST_FILLERS, Mender};
