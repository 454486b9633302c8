//! What the last line of a run tells.
use lr_layers::Counts;
use lr_reading::ReadCounts;

/// What the last line of `receive` tells: what was read, and what the layers counted.
#[derive(Clone, Copy)]
pub(crate) struct ReceiveCounts {
    pub totals: ReadCounts,
    pub counts: Counts,
}
