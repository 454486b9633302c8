//! What comes of the input.
use lr_bits::Outcome;

/// Where the frame of a window stands in the stream of symbols.
#[derive(Clone, Copy)]
pub struct Position {
    /// The symbols in front of its marker's first one.
    pub place: u64,
    /// Whether a symbol above 0 stands for a 1.
    pub positive: bool,
}

/// What became of a window or of a unit.
#[derive(Drop)]
pub struct Arrival {
    /// Where the frame of a window stands. A unit has no such place.
    pub position: Option<Position>,
    pub outcome: Outcome,
}
