//! Space packets (CCSDS 133.0-B) as LRIT and HRIT send them: the fields of the header, and the check of a packet.
//!
//! A packet comes as `RawPacket`, bytes with their virtual channel. `head` gives the fields of its six header bytes,
//! most significant bit first, each in its width. `check` gives the first rule that the packet breaks, or its body:
//! the data field without the checksum in its last two bytes (CGMS 03). The layers above rest on `Verdict.verdict_of`,
//! which says what becomes of each packet, and on `Verdict.good_packets`, the good ones of a list in their order.
#![tactic(auto)]

mod packet;
mod reading;

pub use packet::{GoodPacket, PacketFault, PacketHead};
pub use reading::{check, good_packets_are_joined, head};
