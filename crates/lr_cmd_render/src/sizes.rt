//! How many images, and strips of them, go through a ring.

use lr_gatecore::MOST_JOBS;

/// An image has fewer strips than this: it has at most 65,535 lines, and a strip has one at least.
pub const MOST_STRIPS: u64 = 65_536;

/// A shelf whose images are put has fewer entries than this, so there is a job for each strip. A ring of 64 seats has
/// 2^40 of them. Where a shelf has as many, its entries alone take 16 TiB of memory, and it is answered as if memory
/// were refused.
pub const MOST_ENTRIES: u64 = MOST_JOBS / MOST_STRIPS;
