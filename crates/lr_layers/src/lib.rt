//! From the outcomes of blocks to mission files, by the layers between them.
//!
//! An outcome is a restored frame of 892 bytes, or a lost block, which is simply absent. Frames of version 1 are read
//! as packets (CCSDS 732.0-B, 133.0-B), the good ones among them are joined to files (CGMS 03), and the files leave in
//! the order of their last packets. The layer above rests on `Origins.placed_of_outcomes`, the files with their
//! origins, which composes the definitions of the layers, and on `Laws`: the files of the first outcomes are the first
//! files. Where packets of images are missing, fillers may stand in for them (`lr_mend`): then the files are those of
//! `Origins.marked_of_outcomes`, each with the number of its fillers.
#![tactic(auto)]

mod counts;
mod frames;
mod laws;
mod layers;
mod packets;
mod starts;

pub use counts::Counts;
pub use laws::{
    files_are_some, files_fit_the_packets, files_go_on, files_have_origins,
    files_start_with_their_first_packets,
};
pub use layers::Layers;
pub use lr_mend::MOST_FILLERS;
