//! Laws of what is sent and then received. They speak of definitions alone, so that each function here is empty.
//!
//! `Sent` says how blocks are sent one after another under a line code, and that their symbols have just their frames
//! as outcomes, with up to sixteen wrong bytes in each word. `Carried` says how the frames of a channel carry packets,
//! and that each packet which comes of such frames is one of those. `Made` has both of the test stream, and how much
//! room its files need.
#![tactic(auto)]

mod laws;

pub use laws::{
    blocks_are_received, fill_is_fill, made_files_fit, packets_were_sent, sent_is_received,
    sent_is_redecoded, stream_is_received,
};
