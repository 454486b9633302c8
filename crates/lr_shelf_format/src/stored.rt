//! A file of a shelf.
use lr_bits::{MissionFile, Origin};

/// A file of a shelf, and where it came from, unless it was stored by version 1.
#[derive(Drop)]
pub struct Stored {
    pub file: MissionFile,
    pub origin: Option<Origin>,
}
