//! Sizes of the demodulator.

/// The samples of a block, and the places of a spectrum.
pub const BLOCK_SAMPLES: usize = 16_384;

/// Half a block.
pub(crate) const HALF_BLOCK: usize = 8_192;

/// The stages of a spectrum of a block: 2 to this power are its samples.
pub(crate) const STAGES: u32 = 14;

/// The samples that wait for their symbols, at most.
pub(crate) const HELD_SAMPLES: usize = 32_768;

/// The lanes of a vector of floats.
pub(crate) const LANES: usize = 8;

/// The vectors of a block.
pub(crate) const BLOCK_VECTORS: usize = 2_048;

/// The places of a sample at which there is a matched filter.
pub(crate) const PLACES: usize = 64;

/// The samples under the widest filter.
pub(crate) const MOST_TAPS: usize = 512;

/// From a filter's first tap to that of the next one: not a power of two, so that rows don't share lines of the cache.
pub(crate) const ROW_TAPS: usize = 528;

/// The taps of all filters.
pub(crate) const BANK_TAPS: usize = 33_792;

/// The bytes at the front of a recording in which the head of a WAV file is looked for.
pub const WAVE_HEAD_BYTES: usize = 65_536;
