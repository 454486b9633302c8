//! A coded image that is given.

/// Ten bytes of transport header, then the header of an image of 8 columns and 2 lines, coded without loss.
pub const CODED: [u8; 42] = [
    0, 1, 0, 0, 0, 0, 0, 0, 1, 48, 0, 0, 16, 0, 0, 0, 0, 32, 0, 0, 0, 0, 0, 0, 0, 48, 1, 0, 9, 8,
    0, 8, 0, 2, 1, 131, 0, 7, 0, 49, 8, 1,
];

/// A coded line of eight pixels of 5, and one of 5 6 4 5 5 5 5 5.
pub const FIRST_LINE: [u8; 2] = [0x00, 0x58];

pub const SECOND_LINE: [u8; 4] = [0x40, 0xAA, 0xFA, 0x00];

/// The image of those two lines as PGM.
pub const LINES_OF_FIVE: &[u8] =
    b"P5\n8 2\n255\n\x05\x05\x05\x05\x05\x05\x05\x05\x05\x06\x04\x05\x05\x05\x05\x05";
