//! What the records of a header say (CGMS 03, the header records).

/// The image structure record: how many bits a pixel has, how many columns and lines there are, and how the data field
/// is compressed: 0 not at all, 1 without loss, 2 with loss.
#[derive(Clone, Copy)]
pub struct Structure {
    pub bits: u8,
    pub columns: u16,
    pub lines: u16,
    pub compression: u8,
}

/// The image navigation record: the name of the projection, and the scaling factors and offsets of columns and lines.
#[derive(Clone, Copy)]
pub struct Navigation {
    pub name: [u8; 32],
    pub column_factor: i32,
    pub line_factor: i32,
    pub column_offset: i32,
    pub line_offset: i32,
}

/// The time stamp record. In the form 40 hexadecimal these are days from 1 January 1958 and milliseconds of the day.
#[derive(Clone, Copy)]
pub struct Stamp {
    pub form: u8,
    pub days: u16,
    pub milliseconds: u32,
}

/// A record of kind 128 and 17 bytes: which part of which image the file has. Columns and lines count from 0, and
/// `columns` and `lines` are the greatest counts of the whole image.
#[derive(Clone, Copy)]
pub struct Segment {
    /// The number of the image.
    pub image: u16,
    /// The number of the segment in its image.
    pub number: u16,
    /// The column of the whole image at which the segment begins.
    pub start_column: u16,
    /// The line of the whole image at which the segment begins.
    pub start_line: u16,
    /// How many segments the image has.
    pub segments: u16,
    pub columns: u16,
    pub lines: u16,
}

/// A record of kind 131 and 7 bytes: how lines are coded without loss. `block` counts the samples of a block, and
/// `lines` the lines of a packet.
#[derive(Clone, Copy)]
pub struct Lossless {
    /// The options of the coding. The flag of value 32 is the unit delay predictor.
    pub flags: u16,
    pub block: u8,
    pub lines: u8,
}
