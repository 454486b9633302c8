//! The limits of a bundle.

/// The most streams of a bundle.
pub const MOST_DOWNLINKS: usize = 16;

/// The most bytes of a bundle.
pub const MOST_BUNDLE_BYTES: usize = 268_435_456;

/// The most symbols of a stream whose files are asked for.
pub const MOST_STREAM_SYMBOLS: u64 = 1_099_511_627_776;
