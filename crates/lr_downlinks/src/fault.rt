//! Why a bundle of recordings is refused.

use thiserror::Error;

/// Why bytes are no bundle.
#[derive(Clone, Copy, Debug, Error)]
pub enum BundleFault {
    /// The bytes end before the bundle does; there are this many.
    #[error("the bundle ends early, after {at} bytes")]
    Ended { at: u64 },
    /// The first byte is this number of streams, which isn't 1 to 16.
    #[error("a bundle has 1 to 16 streams, not {count}")]
    Count { count: u8 },
    /// The bundle ends at this place, and bytes follow.
    #[error("bytes follow the end of the bundle at {at}")]
    Rest { at: u64 },
}
