//! The symbols of a file's frame, with wrong bytes, under each line code.

use crate::sent_files::{SHORT, file_of};
use crate::test_streams::checksum_of;
use lr_bits::{BLOCK_BYTES, FRAME_BYTES, FRAME_SYMBOLS, NoMemory, Placed};
use lr_block::{derandomise, encode_block};
use lr_conv::LineCode;
use lr_frame::FrameWork;
use lr_layers::Layers;
use lr_lock::{Lock, Window};
use lr_trials_coding::windows::LINES;
use lr_uplink::Uplink;
use std::alloc::Global;
use std::test::Fail;

/// The block of a frame, with sixteen wrong bytes in each word.
fn wrong_block(frame: &[u8; FRAME_BYTES]) -> [u8; BLOCK_BYTES] {
    let mut block = [0u8; BLOCK_BYTES];
    encode_block(frame, &mut block);
    for i in 0..BLOCK_BYTES {
        if (i / 4) % 15 == 0 && i / 4 < 240 {
            block[i] ^= 0x5A;
        }
    }
    derandomise(&mut block);
    block
}

/// The symbols of the one frame of a short file. `None`: no frame was given.
fn symbols_of(alloc: Global, line: LineCode) -> Result<Option<[i8; FRAME_SYMBOLS]>, NoMemory> {
    let mut uplink = Uplink::new(alloc, line)?;
    let Some(file) = file_of(alloc, 0, &SHORT)? else {
        return Ok(None);
    };
    let mut frame = [0u8; FRAME_BYTES];
    let mut symbols = [0i8; FRAME_SYMBOLS];
    if uplink.load(file).is_err() || !uplink.next_frame(&mut frame) {
        return Ok(None);
    }
    uplink.symbols(&wrong_block(&frame), &mut symbols);
    Ok(Some(symbols))
}

/// The files that a receiver finds in the symbols of one frame.
fn received(
    alloc: Global,
    line: LineCode,
    symbols: &[i8; FRAME_SYMBOLS],
) -> Result<Vec<Placed>, NoMemory> {
    let mut files = Vec::new(alloc);
    let mut lock = Lock::new(alloc, line)?;
    let mut window = Window::new(alloc, line)?;
    let mut work = FrameWork::new(alloc)?;
    let mut layers = Layers::new(alloc);
    if symbols.len() > lock.room() {
        return Ok(files);
    }
    lock.feed(symbols);
    lock.finish();
    lock.next_window(&mut window);
    let outcome = work.outcome(&window);
    layers.push_outcome(&outcome, &mut files)?;
    Ok(files)
}

/// Whether the short file is received, and its symbols have this checksum.
fn short_file_is_received(alloc: Global, line: LineCode, checksum: u16) -> Result<bool, NoMemory> {
    let Some(symbols) = symbols_of(alloc, line)? else {
        return Ok(false);
    };
    let files = received(alloc, line, &symbols)?;
    Ok(
        checksum_of(&symbols) == checksum
            && files.len() == 1
            && files.first().is_some_and(|one| one.file.bytes() == SHORT.as_slice()
                && one.origin.corrected == 64),
    )
}

#[test]
fn a_file_is_received_under_each_line_code(rt: HostRuntime) -> Result<(), Fail> {
    assert!(rt; short_file_is_received(rt.alloc(), LINES[0], 0x145E)?);
    assert!(rt; short_file_is_received(rt.alloc(), LINES[1], 0x29DD)?);
    assert!(rt; short_file_is_received(rt.alloc(), LINES[2], 0x681D)?);
    assert!(rt; short_file_is_received(rt.alloc(), LINES[3], 0x559E)?);
    Ok(())
}
