//! Sizes of words (CCSDS 131.0-B, section 4).

/// The bytes of a word.
pub const WORD_BYTES: usize = 255;

/// The bytes of information, with which a word begins.
pub const INFORMATION_BYTES: usize = 223;

/// The check bytes after them. A remainder has as many coefficients, and a word as many syndromes.
pub const CHECK_BYTES: usize = WORD_BYTES - INFORMATION_BYTES;
