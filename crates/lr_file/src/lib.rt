//! Mission files, joined from the good packets of LRIT and HRIT (CGMS 03, the transport layer; the sequence flags and
//! counts of space packets, CCSDS 133.0-B, section 4.1.3.4). CGMS 03 calls a file with
//! its transport header a TP_File, and what comes after that header an S_PDU.
//!
//! Good packets come one by one, of all channels and applications, and the file that ends with a packet leaves with
//! it. A file is one packet with flags 3, or neighbours of one channel and application with flags 1, any number of 0,
//! and 2, whose counts follow one another modulo 16,384; it has at most 1,048,576 bodies, of 10 to 67,108,864 bytes
//! together. What the first ten bytes declare isn't looked at. The layer above rests on `Files.files_of_packets`, the
//! files of a whole list of packets, and on `Files.file_at`, the one that ends with a packet; `Standing` says what
//! `Files` keeps of the packets so far.
#![tactic(auto)]

mod files;
mod laws;
mod open_file;
mod part;

pub use files::Files;
pub use laws::{
    a_packet_adds_its_file, files_are_some, files_fit_the_packets, files_keep_their_order,
    one_file_ends_with_a_packet, one_file_is_open,
};
pub use part::{Part, part_of};
