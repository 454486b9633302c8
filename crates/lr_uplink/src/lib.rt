//! Files to symbols: mission files are cut into packets, zones and frames, and their blocks are coded.
//!
//! An `Uplink` is loaded with one file after another. It gives their frames, of 892 bytes, one by one (`Packets` and
//! `Sent` in specs/ say what they are), and codes the block that is sent for each frame to 16,384 symbols, each 100 or
//! -100. Each file begins a new frame of its channel, and an idle packet fills its last zone. The counters of frames
//! and the counts of packets go on from file to file. `Standing` says what an uplink stands for, and `Received` that a
//! receiver of the symbols finds the files that were loaded, also where up to sixteen bytes in each word of a block are
//! wrong.
//!
//! Blocks are made of frames, made wrong and randomised outside (`encode_block` and `derandomise` of `lr_block`).
#![tactic(auto)]

mod frames;
mod laws;
mod packet;
mod packet_counts;
mod sending;
mod uplink;

pub use laws::{files_are_received, sent_files_are_received, zones_agree};
pub use uplink::{Uplink, UplinkFault};
