//! What a run over a bundle gives.
ghost use Rattle.std.specs.Prelude.{◌+◌, ◌<◌, length, ◌^◌};

use lr_bits::Bytes;

/// Why a run ended.
#[derive(Clone, Copy)]
pub enum RunEnd {
    /// All files of all downlinks stand on the shelf.
    All,
    /// The disk failed, and its count of faults rose. The shelf has to be loaded again.
    Disk,
    /// No memory was left.
    NoMemory,
    /// With the next file of the least downlink that has one left the shelf would end here, which is past its capacity.
    Capacity { needed: u64, capacity: u64 },
}

/// The files that were appended to a shelf, in their order.
#[derive(Drop)]
pub struct Run {
    /// How many entries the shelf had before.
    pub base: u64,
    /// The downlink of each file, a byte each.
    pub order: Bytes,
    /// Why no more files were appended.
    pub result: RunEnd,
    pub ghost numbered: { base + length order < 2 ^ 64 },
}
