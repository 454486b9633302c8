//! `transmit`, and what `receive` makes of its symbols.
use crate::trial::tried_disk;
use lr_bits::{Bytes, FRAME_SYMBOLS, Lengths, MissionFile, Origin, Placed};
use lr_disk::MemDisk;
use lr_shelf::Shelf;
use lr_trials_station::call::{called, written_on};
use lr_trials_station::steps::{HEADER_1000, Step, hold, hold_on};
use lr_trials_support::{
    BAD_CHECKSUM, DISCARDED_0, DONE, End, ITEM_7, ITEM_8, NO_THIRD_FILE, OUTPUT_FAILED, USAGE,
    disk, faultless, is_number, is_text, shelf_bytes,
};
use std::alloc::Global;
use std::test::Fail;

const ONE_FILE: &str = "shelved 0 vc 0 apid 100 counter 7 bytes 26 packets 1\n\
                        symbols 16384 frames 1 restored 1 lost 0 packets 1 files 1 left 0 stop end\n";

const LONG_FILE: &str =
    "symbols 32768 frames 2 restored 2 lost 0 packets 1 files 1 left 0 stop end\n";

/// A shelf of the capacity 1,000 with these items.
fn shelf_of(alloc: Global, items: &[&[u8]]) -> Result<MemDisk, Fail> {
    Ok(disk(alloc, &shelf_bytes(alloc, HEADER_1000, items)?, 1_000)?)
}

/// The symbols that these words put of a shelf, which must be those of this many frames.
fn symbols_of(
    alloc: Global,
    shelf: &mut MemDisk,
    words: &str,
    frames: usize,
) -> Result<Vec<u8>, Fail> {
    let symbols = written_on(alloc, shelf, words, 40 * FRAME_SYMBOLS)?;
    is_number(
        words,
        symbols.len() as u64,
        frames.saturating_mul(FRAME_SYMBOLS) as u64,
    )?;
    Ok(symbols)
}

/// Whether the first file of two is sent with this many wrong bytes and received.
fn is_received(alloc: Global, words: &str) -> Result<bool, Fail> {
    let bytes = shelf_bytes(alloc, HEADER_1000, &[ITEM_7, ITEM_8])?;
    let mut shelf = disk(alloc, &bytes, 1_000)?;
    let symbols = symbols_of(alloc, &mut shelf, words, 1)?;
    let call = faultless("receive", &symbols, 1_000);
    called(alloc, &mut shelf_of(alloc, &[])?, &call)?.ended_so(words, ONE_FILE.as_bytes(), DONE)?;
    is_text("the shelf", shelf.as_slice(), &bytes)
}

#[test]
fn a_file_that_is_sent_is_received(rt: HostRuntime) -> Result<(), Fail> {
    assert!(rt; is_received(rt.alloc(), "transmit 0 1 0")?);
    assert!(rt; is_received(rt.alloc(), "transmit 0 1 16")?);
    Ok(())
}

/// A shelf with one file of one body of this many bytes.
fn shelf_of_body(alloc: Global, vc: u8, size: u16) -> Result<MemDisk, Fail> {
    let mut made = shelf_of(alloc, &[])?;
    let mut lengths = Lengths::new(alloc);
    lengths.push(size)?;
    let mut bytes = Bytes::new(alloc);
    for _ in 0..size {
        bytes.extend(&[7])?;
    }
    let file = MissionFile::build(vc, 100, lengths, bytes).ok_or("no file")?;
    let origin = Origin {
        first: 0,
        last: 0,
        corrected: 0,
    };
    let mut shelf = Shelf::load(alloc, &mut made)?;
    shelf.append(&mut made, &Placed { file, origin })?;
    Ok(made)
}

/// Whether the symbols of that file are two frames, of which one file is received.
fn long_file_is_received(alloc: Global) -> Result<bool, Fail> {
    let mut shelf = shelf_of_body(alloc, 0, 873)?;
    let symbols = symbols_of(alloc, &mut shelf, "transmit 0 1 0", 2)?;
    let call = faultless("receive", &symbols, 1_000);
    called(alloc, &mut shelf_of(alloc, &[])?, &call)?.ended_with(
        "two frames",
        LONG_FILE.as_bytes(),
        DONE,
    )
}

#[test]
fn an_idle_packet_goes_on_in_the_next_frame(rt: HostRuntime) -> Result<(), Fail> {
    assert!(rt; long_file_is_received(rt.alloc())?);
    Ok(())
}

/// A shelf for two of these files.
const SMALL: Step = Step::Call("init 9000", "shelf capacity 9000\n", DONE);

/// A shelf that received two files of this one, which are sent under another line code.
fn sent_again(alloc: Global, shelf: &mut MemDisk) -> Result<MemDisk, Fail> {
    let words = "transmit 7 9 16 --line nrz-m --g2 plain";
    let symbols = written_on(alloc, shelf, words, 40 * FRAME_SYMBOLS)?;
    let mut other = hold_on(alloc, disk(alloc, &[], 1_000)?, &[SMALL], 0)?;
    let call = faultless("receive --line nrz-m --g2 plain", &symbols, 1_000);
    let last = b" lost 0 packets 66 files 2 left 0 stop end\n";
    called(alloc, &mut other, &call)?.ended_with(call.words, last, DONE)?;
    Ok(other)
}

#[test]
fn files_of_a_trial_are_sent_under_another_line_code(rt: HostRuntime) -> Result<(), Fail> {
    let alloc = rt.alloc();
    let mut shelf = tried_disk(alloc)?;
    let mut other = sent_again(alloc, &mut shelf)?;
    for (sent, received) in [("extract 7", "extract 0"), ("extract 8", "extract 1")] {
        let before = written_on(alloc, &mut shelf, sent, 5_000)?;
        let after = written_on(alloc, &mut other, received, 5_000)?;
        is_text(sent, &after, &before)?;
    }
    Ok(())
}

/// The words are refused with a status of their own.
static FILL: [Step; 1] = [Step::Call(
    "transmit 0 1 0",
    "",
    End(15, "station: cannot send: fill\n"),
)];

#[test]
fn a_file_of_the_channel_of_fill_is_refused(rt: HostRuntime) -> Result<(), Fail> {
    let _ = hold_on(rt.alloc(), shelf_of_body(rt.alloc(), 63, 26)?, &FILL, 0)?;
    Ok(())
}

const TWO: Step = Step::Shelf(&[ITEM_7, ITEM_8]);

const DISCARDED: Step = Step::Call("discard 0", DISCARDED_0, DONE);

/// The checksum of a file is wrong, or there are fewer files than that.
static NOT_SENT: [&[Step]; 2] = [
    &[
        TWO,
        Step::Byte(70, 1),
        Step::Call("transmit 0 2 0", "", BAD_CHECKSUM),
    ],
    &[
        TWO,
        DISCARDED,
        Step::Call("transmit 0 3 0", "", NO_THIRD_FILE),
    ],
];

#[test]
fn gone_files_are_left_out_and_bad_ones_refused(rt: HostRuntime) -> Result<(), Fail> {
    let alloc = rt.alloc();
    hold(alloc, &NOT_SENT)?;
    let mut second = hold_on(alloc, disk(alloc, &[], 1_000)?, &[TWO, DISCARDED], 2)?;
    let _ = symbols_of(alloc, &mut second, "transmit 0 2 0", 1)?;
    Ok(())
}

static OUTPUT_FAILS: [&[Step]; 1] = [&[
    TWO,
    Step::OutHas(0),
    Step::Call("transmit 0 1 0", "", OUTPUT_FAILED),
]];

static OTHERS: [&[Step]; 1] = [&[
    TWO,
    Step::Call("transmit 0 1", "", USAGE),
    Step::Call("transmit 0 1 17", "", USAGE),
    Step::Call("transmit 0 1 0 --workers 2", "", USAGE),
    Step::Call("transmit 0 1 0 --line nrz", "", USAGE),
]];

#[test]
fn an_output_that_fails_got_a_front_of_the_symbols(rt: HostRuntime) -> Result<(), Fail> {
    hold(rt.alloc(), &OUTPUT_FAILS)
}

#[test]
fn other_words_of_transmit_are_refused(rt: HostRuntime) -> Result<(), Fail> {
    hold(rt.alloc(), &OTHERS)
}
