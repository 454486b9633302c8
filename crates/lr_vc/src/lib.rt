//! Transfer frames of 892 bytes, and the space packets in their zones (CCSDS 732.0-B, CCSDS 133.0-B). Services call
//! such a frame a VCDU, and the standard its zone an M_PDU packet zone.
//!
//! A frame comes as bytes, most significant bit first, and leaves as its fields, in a type that keeps each of them
//! within its width; the only refusal is a version that isn't 1. `Frame.frame_of` says both, by the table of fields
//! there.
//!
//! Frames then come one by one, and packets leave in the order of the frames in which they end. The layer above rests
//! on `Packets.packets_of`, the packets of a whole list of frames: `Runs` cuts each channel into runs, `Packets` reads
//! the joined zones of a run, and `Standing` says what `Channels` keeps of the frames so far. Channel 63 is fill.
#![tactic(auto)]

mod channel;
mod channels;
mod frame;
mod laws;
mod zone;

pub use channels::{Channels, MOST_ENDING_PACKETS};
pub use frame::{BadVersion, TransferFrame};
pub use laws::{
    frames_add_their_packets, packets_fit_the_zones, packets_keep_their_order, starts_go_on,
};
