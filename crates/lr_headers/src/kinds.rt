//! The kinds of header records that are read, and how many bytes each has with its kind and its length (CGMS 03, the
//! header records). The kinds 128 and 131, and what they say, are this project's own readings.

/// The bytes of the primary record, whose kind is 0.
pub const PRIMARY_BYTES: u16 = 16;

/// The kind of image structure records, and their bytes.
pub const STRUCTURE_KIND: u8 = 1;

pub const STRUCTURE_BYTES: u16 = 9;

/// The kind of image navigation records, and their bytes.
pub const NAVIGATION_KIND: u8 = 2;

pub const NAVIGATION_BYTES: u16 = 51;

/// The kind of image data functions, which are text.
pub const IMAGE_FUNCTION_KIND: u8 = 3;

/// The kind of annotations, which are text.
pub const ANNOTATION_KIND: u8 = 4;

/// The kind of time stamp records, and their bytes.
pub const STAMP_KIND: u8 = 5;

pub const STAMP_BYTES: u16 = 10;

/// The kind of ancillary texts.
pub const ANCILLARY_KIND: u8 = 6;

/// The kind of key records.
pub const KEY_KIND: u8 = 7;

/// The kind of segment records, and the bytes of those that are read.
pub const SEGMENT_KIND: u8 = 128;

pub const SEGMENT_BYTES: u16 = 17;

/// The kind of lossless records, and the bytes of those that are read.
pub const LOSSLESS_KIND: u8 = 131;

pub const LOSSLESS_BYTES: u16 = 7;
