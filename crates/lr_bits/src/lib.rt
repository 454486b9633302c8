//! Bits and numbers in bytes, the sizes of the services, and the plain types that the other crates share.
//!
//! Everywhere the first bit of a byte is its most significant one, and the first byte of a number is its most
//! significant one, as in the CCSDS and CGMS documents. The definitions that other crates cite stand in `Bits`
//! (lists of bits, and the number that a field of bits writes), in `Faults` (when a count of faults rose, and
//! what a call that can fail does to it), in `Packet`, in `Crc` (the checksum of packets, as the remainder of a
//! division of polynomials), in `File` (a mission file as a list of bodies, and what its bytes say) and in `Pixels`.
//! Each size that several crates use stands once, in `sizes`, with its unit in its name.
#![tactic(auto)]

mod bits;
mod borrows;
mod bytes;
mod crc;
mod lengths;
mod mission;
mod outcome;
mod packet;
mod pixels;
mod placed;
mod reader;
mod refusals;
mod remainders;
mod sizes;

pub use bits::field;
pub use borrows::take_back;
pub use bytes::Bytes;
pub use crc::{CRC_OF_NO_BYTES, crc_after, crc_is_the_remainder, crc16};
pub use lengths::Lengths;
pub use mission::MissionFile;
pub use outcome::{Corrected, Outcome};
pub use packet::{RawPacket, SHORTEST_PACKET_BYTES};
pub use pixels::Pixels;
pub use placed::{Origin, Placed};
pub use reader::{BitReader, Ended};
pub use refusals::{Failed, NoMemory};
pub use sizes::{
    BLOCK_BYTES, CHANNELS, FILL_CHANNEL, FRAME_BYTES, FRAME_COUNTS, FRAME_SYMBOLS,
    IDLE_APPLICATION, MOST_BODY_BYTES, MOST_FILE_BODIES, MOST_FILE_BYTES, NO_PACKET_START,
    PACKET_HEADER_BYTES, SEQUENCE_COUNTS, TRANSPORT_HEADER_BYTES, WINDOW_SYMBOLS, ZONE_BYTES,
};
