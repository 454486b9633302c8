//! `Mender` is given packets of images, of which some are missing.
use crate::mended_packets::{Piece, packet};
use lr_bits::NoMemory;
use lr_mend::{MOST_FILLERS, Mender};
use lr_packet::GoodPacket;
use std::alloc::Global;
use std::test::Fail;

/// Packets, the most fillers, and the fillers that come, each with the place of the packet before which it comes.
struct Case(&'static [Piece], u16, &'static [(usize, Piece)]);

fn is_filler(found: &GoodPacket, wanted: Piece) -> bool {
    let wanted = packet(wanted);
    found.vc == wanted.vc
        && found.apid == wanted.apid
        && found.flags == wanted.flags
        && found.count == wanted.count
        && found.body == wanted.body
}

/// How many of the wanted fillers have come with those before this packet, if they are the next of them.
fn after_gap(
    mender: &Mender,
    packet: &GoodPacket,
    place: usize,
    case: &Case,
    from: usize,
) -> Option<usize> {
    let mut at = from;
    let mut gap = mender.gap_before(packet);
    for _ in 0..16_384 {
        let Some(filler) = gap.next() else {
            return Some(at);
        };
        let (before, wanted) = case.2.get(at)?;
        if *before != place || !is_filler(&filler, *wanted) || at > 9_999 {
            return None;
        }
        at += 1;
    }
    None
}

fn holds(alloc: Global, case: &Case) -> Result<bool, NoMemory> {
    let mut mender = Mender::new(alloc, case.1.min(MOST_FILLERS));
    let mut at = 0;
    for (place, piece) in case.0.iter().enumerate() {
        let packet = packet(*piece);
        let Some(next) = after_gap(&mender, &packet, place, case, at) else {
            return Ok(false);
        };
        at = next;
        mender.push(&packet)?;
    }
    Ok(at == case.2.len())
}

/// That the packets of each case are mended by its fillers.
fn hold(alloc: Global, cases: &[Case]) -> Result<(), Fail> {
    for (place, case) in cases.iter().enumerate() {
        if !holds(alloc, case)? {
            return Err(Fail::new(format_args!("case {place} is mended by other fillers")));
        }
    }
    Ok(())
}

/// Missing packets between others are made of zeros, and of copies where lines are coded.
static BETWEEN: [Case; 5] = [
    Case(
        &[
            Piece(13, 313, 1, 100, 'I'),
            Piece(13, 313, 0, 101, 'a'),
            Piece(13, 313, 0, 103, 'c'),
            Piece(13, 313, 2, 104, 'z'),
        ],
        16,
        &[(2, Piece(13, 313, 0, 102, '0'))],
    ),
    // The last packet is there, so the fillers before it don't end the image.
    Case(
        &[
            Piece(13, 313, 1, 0, 'I'),
            Piece(13, 313, 0, 1, 'a'),
            Piece(13, 313, 2, 4, 'z'),
        ],
        2,
        &[
            (2, Piece(13, 313, 0, 2, '0')),
            (2, Piece(13, 313, 0, 3, '0')),
        ],
    ),
    Case(
        &[
            Piece(13, 313, 1, 0, 'D'),
            Piece(13, 313, 0, 1, 'd'),
            Piece(13, 313, 0, 4, 'a'),
        ],
        16,
        &[
            (2, Piece(13, 313, 0, 2, 'd')),
            (2, Piece(13, 313, 0, 3, 'd')),
        ],
    ),
    // The last body is empty, so there is nothing to make a filler of.
    Case(
        &[
            Piece(13, 313, 1, 0, 'I'),
            Piece(13, 313, 0, 1, ' '),
            Piece(13, 313, 0, 3, 'c'),
        ],
        16,
        &[],
    ),
    // One that has all its pixels, and a later packet is lost: one filler ends it.
    Case(
        &[
            Piece(13, 313, 1, 0, 'I'),
            Piece(13, 313, 0, 1, 'l'),
            Piece(13, 313, 2, 3, 'z'),
        ],
        16,
        &[(2, Piece(13, 313, 2, 2, 'o'))],
    ),
];

/// After the header a gap is made of what comes after it.
static AFTER_THE_HEADER: [Case; 5] = [
    Case(
        &[
            Piece(13, 313, 1, 16_382, 'I'),
            Piece(13, 313, 0, 1, 'c'),
            Piece(13, 313, 2, 2, 'z'),
        ],
        16,
        &[
            (1, Piece(13, 313, 0, 16_383, '0')),
            (1, Piece(13, 313, 0, 0, '0')),
        ],
    ),
    Case(
        &[
            Piece(13, 313, 1, 5, 'D'),
            Piece(13, 313, 0, 7, 'd'),
            Piece(13, 313, 0, 8, 'a'),
        ],
        16,
        &[(1, Piece(13, 313, 0, 6, 'd'))],
    ),
    // Only the header and the last packet came: no body is one of between.
    Case(
        &[Piece(13, 313, 1, 7, 'I'), Piece(13, 313, 2, 9, 'z')],
        16,
        &[],
    ),
    // Only the header came, and the next body is of another image: where lines are coded none is made of it.
    Case(
        &[Piece(13, 313, 1, 5, 'C'), Piece(13, 313, 0, 60, 'd')],
        16,
        &[],
    ),
    Case(
        &[Piece(13, 313, 1, 5, 'I'), Piece(13, 313, 0, 60, 'c')],
        16,
        &[
            (1, Piece(13, 313, 0, 6, '0')),
            (1, Piece(13, 313, 0, 7, '0')),
            (1, Piece(13, 313, 0, 8, '0')),
            (1, Piece(13, 313, 2, 9, '0')),
        ],
    ),
];

/// A lost end is made before the next file.
static ENDS: [Case; 5] = [
    Case(
        &[
            Piece(13, 313, 1, 5, 'I'),
            Piece(13, 313, 0, 6, 'a'),
            Piece(13, 313, 0, 7, 'b'),
            Piece(13, 313, 1, 10, 'I'),
            Piece(13, 313, 0, 11, 'c'),
            Piece(13, 313, 0, 13, 'a'),
        ],
        2,
        &[
            (3, Piece(13, 313, 0, 8, '0')),
            (3, Piece(13, 313, 2, 9, '0')),
            (5, Piece(13, 313, 0, 12, '0')),
        ],
    ),
    // The header of the next image is missing too. This one takes the three that it needs, and what comes is of none.
    Case(
        &[
            Piece(13, 313, 1, 5, 'I'),
            Piece(13, 313, 0, 6, 'a'),
            Piece(13, 313, 0, 11, 'b'),
            Piece(13, 313, 0, 13, 'c'),
        ],
        3,
        &[
            (2, Piece(13, 313, 0, 7, '0')),
            (2, Piece(13, 313, 0, 8, '0')),
            (2, Piece(13, 313, 2, 9, '0')),
        ],
    ),
    // A coded packet counts as one, and has two of the four lines.
    Case(
        &[
            Piece(13, 313, 1, 5, 'C'),
            Piece(13, 313, 0, 6, 'd'),
            Piece(13, 313, 3, 9, 'T'),
        ],
        1,
        &[(2, Piece(13, 313, 2, 7, 'd'))],
    ),
    // The image needs three more, and only one is missing; and after the header alone no body could be.
    Case(
        &[
            Piece(13, 313, 1, 5, 'I'),
            Piece(13, 313, 0, 6, 'a'),
            Piece(13, 313, 3, 8, 'T'),
            Piece(13, 313, 1, 9, 'I'),
            Piece(13, 313, 1, 99, 'I'),
        ],
        16,
        &[],
    ),
    // The input ends: nothing is made.
    Case(
        &[
            Piece(13, 313, 1, 5, 'I'),
            Piece(13, 313, 0, 6, 'a'),
            Piece(13, 313, 0, 7, 'b'),
        ],
        16,
        &[],
    ),
];

/// An image gets no more fillers than it may have.
static FEW: [Case; 3] = [
    // Two of three are used up, and the next gap of two is too wide; the image is closed, and its later gap stays.
    Case(
        &[
            Piece(13, 313, 1, 0, 'B'),
            Piece(13, 313, 0, 1, 'a'),
            Piece(13, 313, 0, 4, 'b'),
            Piece(13, 313, 0, 7, 'c'),
            Piece(13, 313, 2, 9, 'z'),
        ],
        3,
        &[
            (2, Piece(13, 313, 0, 2, '0')),
            (2, Piece(13, 313, 0, 3, '0')),
        ],
    ),
    // With four it goes on, and the last gap is the one that is too wide.
    Case(
        &[
            Piece(13, 313, 1, 0, 'B'),
            Piece(13, 313, 0, 1, 'a'),
            Piece(13, 313, 0, 4, 'b'),
            Piece(13, 313, 0, 7, 'c'),
            Piece(13, 313, 2, 9, 'z'),
        ],
        4,
        &[
            (2, Piece(13, 313, 0, 2, '0')),
            (2, Piece(13, 313, 0, 3, '0')),
            (3, Piece(13, 313, 0, 5, '0')),
            (3, Piece(13, 313, 0, 6, '0')),
        ],
    ),
    Case(
        &[
            Piece(13, 313, 1, 0, 'I'),
            Piece(13, 313, 0, 1, 'a'),
            Piece(13, 313, 2, 3, 'z'),
        ],
        0,
        &[],
    ),
];

/// A count that goes back closes the image, which needs three more, and none is made.
static GOING_BACK: [Case; 5] = [
    // A packet that comes twice.
    Case(
        &[
            Piece(13, 313, 1, 0, 'I'),
            Piece(13, 313, 0, 1, 'a'),
            Piece(13, 313, 0, 1, 'a'),
            Piece(13, 313, 2, 3, 'z'),
        ],
        3,
        &[],
    ),
    // By 1,024 at most: with 15,359 missing it is a gap.
    Case(
        &[
            Piece(13, 313, 1, 0, 'I'),
            Piece(13, 313, 0, 1, 'a'),
            Piece(13, 313, 0, 15_362, 'b'),
        ],
        3,
        &[],
    ),
    Case(
        &[
            Piece(13, 313, 1, 0, 'I'),
            Piece(13, 313, 0, 1, 'a'),
            Piece(13, 313, 2, 15_362, 'b'),
        ],
        3,
        &[],
    ),
    Case(
        &[
            Piece(13, 313, 1, 0, 'I'),
            Piece(13, 313, 0, 1, 'a'),
            Piece(13, 313, 0, 15_361, 'b'),
        ],
        3,
        &[
            (2, Piece(13, 313, 0, 2, '0')),
            (2, Piece(13, 313, 0, 3, '0')),
            (2, Piece(13, 313, 2, 4, '0')),
        ],
    ),
    // The next file may begin with any count.
    Case(
        &[
            Piece(13, 313, 1, 0, 'I'),
            Piece(13, 313, 0, 1, 'a'),
            Piece(13, 313, 3, 1, 'T'),
        ],
        3,
        &[
            (2, Piece(13, 313, 0, 2, '0')),
            (2, Piece(13, 313, 0, 3, '0')),
            (2, Piece(13, 313, 2, 4, '0')),
        ],
    ),
];

/// Two channels, of which each has its own image, and two applications.
static SEVERAL: [Case; 2] = [
    Case(
        &[
            Piece(13, 313, 1, 0, 'I'),
            Piece(14, 313, 1, 9, 'D'),
            Piece(13, 313, 0, 1, 'a'),
            Piece(14, 313, 0, 10, 'd'),
            Piece(13, 313, 0, 3, 'c'),
            Piece(14, 313, 0, 12, 'd'),
        ],
        1,
        &[
            (4, Piece(13, 313, 0, 2, '0')),
            (5, Piece(14, 313, 0, 11, 'd')),
        ],
    ),
    Case(
        &[
            Piece(13, 313, 1, 0, 'I'),
            Piece(13, 614, 1, 0, 'T'),
            Piece(13, 313, 0, 1, 'a'),
            Piece(13, 614, 0, 9, 'b'),
            Piece(13, 313, 2, 3, 'z'),
        ],
        16,
        &[(4, Piece(13, 313, 0, 2, '0'))],
    ),
];

/// Only images that can be read are mended.
static KINDS: [Case; 6] = [
    // A text.
    Case(
        &[
            Piece(13, 614, 1, 0, 'T'),
            Piece(13, 614, 0, 1, 'a'),
            Piece(13, 614, 2, 3, 'z'),
        ],
        16,
        &[],
    ),
    // A JPEG.
    Case(
        &[
            Piece(13, 614, 1, 0, 'J'),
            Piece(13, 614, 0, 1, 'a'),
            Piece(13, 614, 2, 3, 'z'),
        ],
        16,
        &[],
    ),
    // Compression 1 without a lossless record.
    Case(
        &[
            Piece(13, 614, 1, 0, 'N'),
            Piece(13, 614, 0, 1, 'a'),
            Piece(13, 614, 2, 3, 'z'),
        ],
        16,
        &[],
    ),
    // An encrypted image, and one with a key of 0, which is none.
    Case(
        &[
            Piece(13, 614, 1, 0, 'E'),
            Piece(13, 614, 0, 1, 'a'),
            Piece(13, 614, 2, 3, 'z'),
        ],
        16,
        &[],
    ),
    Case(
        &[
            Piece(13, 614, 1, 0, 'K'),
            Piece(13, 614, 0, 1, 'a'),
            Piece(13, 614, 2, 3, 'z'),
        ],
        16,
        &[(2, Piece(13, 614, 0, 2, '0'))],
    ),
    // A header whose end lies in the second body.
    Case(
        &[
            Piece(13, 614, 1, 0, 'H'),
            Piece(13, 614, 0, 1, 'h'),
            Piece(13, 614, 0, 2, 'a'),
            Piece(13, 614, 2, 4, 'z'),
        ],
        16,
        &[],
    ),
];

#[test]
fn gaps_of_images_are_filled(rt: HostRuntime) -> Result<(), Fail> {
    let alloc = rt.alloc();
    hold(alloc, &BETWEEN)?;
    hold(alloc, &AFTER_THE_HEADER)?;
    hold(alloc, &ENDS)?;
    hold(alloc, &FEW)?;
    hold(alloc, &GOING_BACK)?;
    hold(alloc, &SEVERAL)?;
    hold(alloc, &KINDS)
}
