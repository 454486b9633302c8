//! Packets of a few images, by names.
ghost use Rattle.std.specs.Prelude.{◌≤◌, length};
ghost use Rattle.lr_bits.specs.Sizes.{most_body_bytes};

use lr_packet::GoodPacket;

/// A transport header of ten bytes, a primary record of an image with a header of 25 bytes, and its structure: 8 bits,
/// 3 columns, 4 lines, no compression. So it wants four bodies of three bytes.
pub static IMAGE: [u8; 35] = [
    0, 1, 0, 0, 0, 0, 0, 0, 1, 64, 0, 0, 16, 0, 0, 0, 0, 25, 0, 0, 0, 0, 0, 0, 0, 96, 1, 0, 9, 8,
    0, 3, 0, 4, 0,
];

/// The same of 100 lines.
static LONG: [u8; 35] = [
    0, 1, 0, 0, 0, 0, 0, 0, 1, 64, 0, 0, 16, 0, 0, 0, 0, 25, 0, 0, 0, 0, 0, 0, 0, 96, 1, 0, 9, 8,
    0, 3, 0, 100, 0,
];

/// The same of a text, whose file type is 2.
static TEXT: [u8; 35] = [
    0, 1, 0, 0, 0, 0, 0, 0, 1, 64, 0, 0, 16, 2, 0, 0, 0, 25, 0, 0, 0, 0, 0, 0, 0, 96, 1, 0, 9, 8,
    0, 3, 0, 4, 0,
];

/// The same of an image with compression 2, as a JPEG has.
static JPEG: [u8; 35] = [
    0, 1, 0, 0, 0, 0, 0, 0, 1, 64, 0, 0, 16, 0, 0, 0, 0, 25, 0, 0, 0, 0, 0, 0, 0, 96, 1, 0, 9, 8,
    0, 3, 0, 4, 2,
];

/// The same of an image with compression 1, whose header has no lossless record.
static NO_RECORD: [u8; 35] = [
    0, 1, 0, 0, 0, 0, 0, 0, 1, 64, 0, 0, 16, 0, 0, 0, 0, 25, 0, 0, 0, 0, 0, 0, 0, 96, 1, 0, 9, 8,
    0, 3, 0, 4, 1,
];

/// An image that isn't coded, but encrypted: a key record of 7 bytes, whose key isn't 0.
static ENCRYPTED: [u8; 42] = [
    0, 1, 0, 0, 0, 0, 0, 0, 1, 64, 0, 0, 16, 0, 0, 0, 0, 32, 0, 0, 0, 0, 0, 0, 0, 96, 1, 0, 9, 8,
    0, 3, 0, 4, 0, 7, 0, 7, 0, 0, 0, 1,
];

/// The same with a key of 0, so it isn't encrypted.
static CLEAR: [u8; 42] = [
    0, 1, 0, 0, 0, 0, 0, 0, 1, 64, 0, 0, 16, 0, 0, 0, 0, 32, 0, 0, 0, 0, 0, 0, 0, 96, 1, 0, 9, 8,
    0, 3, 0, 4, 0, 7, 0, 7, 0, 0, 0, 0,
];

/// An image of 4 lines with compression 1, whose header has 32 bytes with a lossless record: two lines a packet. So it
/// wants two bodies, whatever their lengths.
static CODED: [u8; 42] = [
    0, 1, 0, 0, 0, 0, 0, 0, 1, 64, 0, 0, 16, 0, 0, 0, 0, 32, 0, 0, 0, 0, 0, 0, 0, 96, 1, 0, 9, 8,
    0, 3, 0, 4, 1, 131, 0, 7, 0, 49, 16, 2,
];

/// The same of 8 lines, which wants four.
static CODED_LONG: [u8; 42] = [
    0, 1, 0, 0, 0, 0, 0, 0, 1, 64, 0, 0, 16, 0, 0, 0, 0, 32, 0, 0, 0, 0, 0, 0, 0, 96, 1, 0, 9, 8,
    0, 3, 0, 8, 1, 131, 0, 7, 0, 49, 16, 2,
];

/// The body of this name: a header in upper case, or else of an image's data.
fn body(name: char) -> &'static [u8]
    ensures { length result.now ≤ most_body_bytes }
{
    match name {
        'I' => &IMAGE,
        'B' => &LONG,
        'T' => &TEXT,
        'J' => &JPEG,
        'N' => &NO_RECORD,
        'E' => &ENCRYPTED,
        'K' => &CLEAR,
        'C' => &CODED,
        'D' => &CODED_LONG,
        // A header that ends in the next body, and that body's front.
        'H' => &IMAGE[..34],
        'h' => &IMAGE[34..],
        'a' => b"aaa",
        'b' => b"bbb",
        'c' => b"ccc",
        'd' => b"d",
        'l' => b"aaabbbcccddd",
        '0' => &[0, 0, 0],
        'o' => &[0, 0, 0, 0, 0, 0, 0, 0, 0, 0, 0, 0],
        ' ' => &[],
        _ => b"zzz",
    }
}

/// A packet: its channel, application, flags and count, and the name of its body.
#[derive(Clone, Copy)]
pub struct Piece(pub u8, pub u16, pub u8, pub u16, pub char);

/// The good packet of a piece.
pub fn packet(piece: Piece) -> GoodPacket<'static> {
    let Piece(vc, apid, flags, count, name) = piece;
    GoodPacket {
        vc: vc % 64,
        apid: apid % 2047,
        flags: flags % 4,
        count: count % 16_384,
        body: body(name),
    }
}
