//! `decode --input blocks` and `receive --input blocks`.
use crate::call::called;
use crate::steps::HEADER_1000;
use lr_bits::{BLOCK_BYTES, FRAME_BYTES};
use lr_block::{derandomise, encode_block};
use lr_trials_support::{DONE, FILE_7, disk, faultless, shelf_bytes};
use std::alloc::Global;
use std::test::Fail;

/// A block as it is sent.
#[derive(Clone, Copy)]
enum Sent {
    /// The bytes 40, which are a block of four codewords.
    Whole,
    /// The same with seventeen wrong bytes in the first word.
    Damaged,
    /// That of a frame with one file.
    File,
}

/// These blocks, as many bytes after them, and what is printed of them.
struct Case {
    blocks: &'static [Sent],
    more: usize,
    out: &'static str,
}

static DECODED: [Case; 4] = [
    Case {
        blocks: &[Sent::Whole],
        more: 0,
        out: "block 0 restored 0 0 0 0\n\
              symbols 1020 frames 1 restored 1 lost 0 left 0 stop end\n",
    },
    Case {
        blocks: &[Sent::Damaged],
        more: 0,
        out: "block 0 lost 0\n\
              symbols 1020 frames 1 restored 0 lost 1 left 0 stop end\n",
    },
    Case {
        blocks: &[Sent::Whole],
        more: 5,
        out: "block 0 restored 0 0 0 0\n\
              symbols 1025 frames 1 restored 1 lost 0 left 5 stop end\n",
    },
    Case {
        blocks: &[Sent::Damaged, Sent::Whole],
        more: 0,
        out: "block 0 lost 0\n\
              block 1 restored 0 0 0 0\n\
              symbols 2040 frames 2 restored 1 lost 1 left 0 stop end\n",
    },
];

static RECEIVED: [Case; 3] = [
    Case {
        blocks: &[Sent::File],
        more: 0,
        out: "shelved 0 vc 0 apid 100 counter 7 bytes 26 packets 1\n\
              symbols 1020 frames 1 restored 1 lost 0 packets 1 files 1 left 0 stop end\n",
    },
    Case {
        blocks: &[Sent::Damaged],
        more: 0,
        out: "symbols 1020 frames 1 restored 0 lost 1 packets 0 files 0 left 0 stop end\n",
    },
    Case {
        blocks: &[Sent::Damaged, Sent::File],
        more: 0,
        out: "shelved 0 vc 0 apid 100 counter 7 bytes 26 packets 1\n\
              symbols 2040 frames 2 restored 1 lost 1 packets 1 files 1 left 0 stop end\n",
    },
];

fn sent_block() -> [u8; BLOCK_BYTES] {
    let mut block = [0x40; BLOCK_BYTES];
    derandomise(&mut block);
    block
}

fn damaged_block() -> [u8; BLOCK_BYTES] {
    let mut block = sent_block();
    for (place, byte) in block.iter_mut().enumerate() {
        if place % 60 == 56 {
            *byte ^= 0xFF;
        }
    }
    block
}

fn block_of_file() -> [u8; BLOCK_BYTES] {
    let mut frame = [0; FRAME_BYTES];
    for (to, from) in frame.iter_mut().zip(FILE_7.iter()) {
        *to = *from;
    }
    let mut block = [0; BLOCK_BYTES];
    encode_block(&frame, &mut block);
    derandomise(&mut block);
    block
}

fn block_of(sent: Sent) -> [u8; BLOCK_BYTES] {
    match sent {
        Sent::Whole => sent_block(),
        Sent::Damaged => damaged_block(),
        Sent::File => block_of_file(),
    }
}

/// The bytes of a case.
fn bytes_of(alloc: Global, case: &Case) -> Result<Vec<u8>, Fail> {
    let mut bytes = Vec::new(alloc);
    for sent in case.blocks {
        bytes.extend_from_slice(&block_of(*sent))?;
    }
    let end = bytes.len().saturating_add(case.more);
    bytes.resize(end, 7)?;
    Ok(bytes)
}

/// That these words, over this disk, print of each case what they must, in reads of each size.
fn cases_hold(alloc: Global, words: &str, shelf: &[u8], cases: &[Case]) -> Result<(), Fail> {
    for (number, case) in cases.iter().enumerate() {
        for reads in [1, 1_020, 4_096] {
            let bytes = bytes_of(alloc, case)?;
            let name = format!(in alloc; "case {number}, reads of {reads}")?;
            let mut made = disk(alloc, shelf, if shelf.is_empty() { 0 } else { 1_000 })?;
            called(alloc, &mut made, &faultless(words, &bytes, reads))?.ended_so(
                &name,
                case.out.as_bytes(),
                DONE,
            )?;
        }
    }
    Ok(())
}

// No call on the disk would succeed.
#[test]
fn each_block_has_its_line_however_the_reads_are_cut(rt: HostRuntime) -> Result<(), Fail> {
    cases_hold(rt.alloc(), "decode --input blocks", &[], &DECODED)
}

// Onto an empty shelf.
#[test]
fn a_block_gives_the_files_of_its_frame(rt: HostRuntime) -> Result<(), Fail> {
    let shelf = shelf_bytes(rt.alloc(), HEADER_1000, &[])?;
    cases_hold(rt.alloc(), "receive --input blocks", &shelf, &RECEIVED)
}
