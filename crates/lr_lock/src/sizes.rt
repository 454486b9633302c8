//! Sizes of the lock.

use lr_bits::WINDOW_SYMBOLS;
use lr_conv::{MARKER_SYMBOLS, TAIL_SYMBOLS};

/// The symbols that a lock keeps at most.
pub const LOCK_SYMBOLS: usize = 65_536;

/// The symbols from a frame's first one to the last one of its window, which is of the next frame's marker.
pub const WINDOW_END: usize = MARKER_SYMBOLS + WINDOW_SYMBOLS;

/// The symbols of a marker in front of its tail.
pub const TAIL_START: usize = MARKER_SYMBOLS - TAIL_SYMBOLS;

/// The hits at which a search locks.
pub const ACQUIRING_HITS: u32 = 45;

/// The hits at which a marker is seen right after a frame.
pub const HOLDING_HITS: u32 = 37;

/// The misses in succession that still give a frame.
pub const FLYWHEEL_MISSES: u8 = 3;
