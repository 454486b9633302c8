//! Entries of a shelf.
/// Where an entry of a shelf stands, which is an Old or an Add item.
#[derive(Clone, Copy)]
pub struct Entry {
    /// The place of its gate.
    pub gate: u64,
    /// How many bytes its item has.
    pub extent: u32,
    /// Whether a later item discards it.
    pub gone: bool,
}
