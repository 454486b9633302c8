//! The items of a few streams, by their checksums.

use lr_bits::{BLOCK_BYTES, FRAME_BYTES, FRAME_SYMBOLS, crc16};
use lr_make::Maker;
use std::test::Fail;

/// What comes next of a stream.
#[derive(Clone, Copy, Debug)]
enum Item {
    /// A frame, a block or the symbols of a frame, each as a byte, with this checksum.
    Frame(u16),
    Block(u16),
    Symbols(u16),
    /// A frame that begins with these bytes.
    Begins([u8; 24]),
}

/// The start of a stream, how many bytes are wrong in each word, and its first items.
struct Stream(u64, u8, &'static [Item]);

/// The byte of a symbol of 100 or -100, and 0 for any other.
fn byte_of(symbol: i8) -> u8 {
    match symbol {
        100 => 100,
        -100 => 156,
        _ => 0,
    }
}

/// The checksum of symbols, each as a byte.
pub(crate) fn checksum_of(symbols: &[i8; FRAME_SYMBOLS]) -> u16 {
    let mut bytes = [0u8; FRAME_SYMBOLS];
    for place in 0..FRAME_SYMBOLS {
        bytes[place] = byte_of(symbols[place]);
    }
    crc16(&bytes)
}

/// That this checksum came of an item.
fn is_sum(item: &Item, came: u16, wanted: u16) -> Result<(), Fail> {
    if came == wanted {
        return Ok(());
    }
    Err(Fail::new(format_args!("{item:?}: the checksum is {came}, and not {wanted}")))
}

/// That the next item of a stream is this one.
fn is_next(maker: &mut Maker, item: &Item) -> Result<(), Fail> {
    let mut frame = [0u8; FRAME_BYTES];
    match item {
        Item::Frame(checksum) => {
            maker.next_frame(&mut frame)?;
            is_sum(item, crc16(&frame), *checksum)
        }
        Item::Block(checksum) => {
            let mut block = [0u8; BLOCK_BYTES];
            maker.next_block(&mut block)?;
            is_sum(item, crc16(&block), *checksum)
        }
        Item::Symbols(checksum) => {
            let mut symbols = [0i8; FRAME_SYMBOLS];
            maker.next_symbols(&mut symbols)?;
            is_sum(item, checksum_of(&symbols), *checksum)
        }
        Item::Begins(bytes) => {
            maker.next_frame(&mut frame)?;
            let front = &frame[..24];
            if front == bytes.as_slice() {
                return Ok(());
            }
            Err(Fail::new(format_args!("{item:?}: it begins with {front:?}")))
        }
    }
}

/// That each stream has its items. Where one hasn't, the failure has the item, and what came.
fn hold(streams: &[Stream]) -> Result<(), Fail> {
    for Stream(start, wrong, items) in streams {
        let mut maker = Maker::new(*start, (*wrong).min(16))?;
        for item in *items {
            is_next(&mut maker, item)?;
        }
    }
    Ok(())
}

static HEADERS: [Stream; 1] = [Stream(
    1,
    0,
    &[
        Item::Begins([
            0x41, 0xC0, 0, 0, 0, 0, 0, 0, 0, 0x64, 0x40, 0, 0, 0x24, 0, 0, 0, 0, 0, 0, 0, 0, 0x80,
            0xC8,
        ]),
        Item::Begins([
            0x41, 0xC0, 0, 0, 1, 0, 0, 0x17, 0x1D, 0xA5, 0x72, 0xD3, 0xFF, 0x3A, 0x25, 0xDC, 0xCD,
            0xF7, 0x21, 0xC2, 0x93, 0, 0x9B, 0x2C,
        ]),
        Item::Begins([
            0x41, 0xC5, 0, 0, 0, 0, 0, 0, 0, 0xC8, 0xC0, 0, 0, 0xEE, 0, 0, 0, 0, 0, 0, 0, 0, 7,
            0x18,
        ]),
        Item::Begins([
            0x41, 0xFF, 0, 0, 0, 0, 7, 0xFE, 0, 0, 0, 0, 0, 0, 0, 0, 0, 0, 0, 0, 0, 0, 0, 0,
        ]),
    ],
)];

static FRAMES: [Stream; 1] = [Stream(
    1,
    0,
    &[
        Item::Frame(0x57E8),
        Item::Frame(0xA3B9),
        Item::Frame(0xB43D),
        Item::Frame(0x6D0B),
        Item::Frame(0xDBEA),
        Item::Frame(0x3E70),
        Item::Frame(0x7439),
        Item::Frame(0x133C),
        Item::Frame(0x6251),
        Item::Frame(0xBFE7),
    ],
)];

static BLOCKS: [Stream; 2] = [
    Stream(1, 0, &[Item::Block(0x49EB), Item::Block(0x0429)]),
    Stream(1, 16, &[Item::Block(0x957A), Item::Block(0xD8B8)]),
];

static SYMBOLS: [Stream; 1] = [Stream(
    1,
    0,
    &[
        Item::Symbols(0x5154),
        Item::Symbols(0x7104),
        Item::Symbols(0x30C1),
    ],
)];

static IN_TURN: [Stream; 1] = [Stream(
    1,
    16,
    &[
        Item::Frame(0x57E8),
        Item::Symbols(0xECBB),
        Item::Block(0x94B7),
        Item::Symbols(0xB32C),
        Item::Frame(0xDBEA),
    ],
)];

static GREATEST: [Stream; 1] = [Stream(
    18_446_744_073_709_551_615,
    3,
    &[
        Item::Frame(0x0510),
        Item::Block(0x37DC),
        Item::Symbols(0xFCB0),
        Item::Block(0x04BF),
    ],
)];

#[test]
fn frames_begin_with_their_headers() -> Result<(), Fail> {
    hold(&HEADERS)
}

#[test]
fn frames_have_their_checksums() -> Result<(), Fail> {
    hold(&FRAMES)
}

#[test]
fn blocks_have_their_checksums() -> Result<(), Fail> {
    hold(&BLOCKS)
}

#[test]
fn symbols_have_their_checksums() -> Result<(), Fail> {
    hold(&SYMBOLS)
}

#[test]
fn each_call_moves_on_by_one_frame() -> Result<(), Fail> {
    hold(&IN_TURN)
}

#[test]
fn the_greatest_start_wraps() -> Result<(), Fail> {
    hold(&GREATEST)
}
