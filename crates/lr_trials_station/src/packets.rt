//! `packets` prints a line for each packet.
use crate::steps::{Piece, Step, hold, hold_in};
use lr_trials_support::DONE;
use std::test::Fail;

/// A packet of application 100 whose body is `123456789`, and an idle one after it.
const ONE: &[u8] = b"\x40\x40\x00\x00\x00\x00\x00\x00\
\x00\x64\xC0\x00\x00\x0A123456789\x29\xB1\x07\xFF\xC0\x00\x03\x5C";

/// The same with a wrong checksum.
const WRONG: &[u8] = b"\x40\x40\x00\x00\x00\x00\x00\x00\
\x00\x64\xC0\x00\x00\x0A123456789\x29\xB0\x07\xFF\xC0\x00\x03\x5C";

/// The first of two frames: an idle packet, its zeros, and the front of a packet that goes on in the second.
const IDLE: Piece = Piece::Bytes(b"\x40\x40\xFF\xFF\xFF\x00\x00\x00\x07\xFF\xC0\x00\x03\x6A");

const ZEROS: Piece = Piece::Same(875, 0);

const FRONT: Piece = Piece::Bytes(b"\x00\x64\xC0");

/// The second, and the same with other counters and another pointer: the rest of the packet, and an idle one after it.
const SECOND: &[u8] = b"\x40\x40\x00\x00\x00\x00\x00\x0E\
\x00\x00\x0A123456789\x29\xB1\x07\xFF\xC0\x00\x03\x5F";

const AFTER_A_GAP: &[u8] = b"\x40\x40\x00\x00\x01\x00\x00\x0E\
\x00\x00\x0A123456789\x29\xB1\x07\xFF\xC0\x00\x03\x5F";

const REPEATED: &[u8] = b"\x40\x40\xFF\xFF\xFF\x00\x00\x0E\
\x00\x00\x0A123456789\x29\xB1\x07\xFF\xC0\x00\x03\x5F";

const IDLE_ALONE: &[u8] = b"\x40\x40\x00\x00\x00\x00\x07\xFE\
\x00\x00\x0A123456789\x29\xB1\x07\xFF\xC0\x00\x03\x5F";

/// No call on the disk would succeed.
const NO_DISK: Step = Step::Allows(0);

static CUT: [&[Step]; 1] = [&[
    NO_DISK,
    Step::Reads(&[Piece::Frame(ONE)]),
    Step::Call(
        "packets",
        "packet 0 vc 0 apid 100 flags 3 count 0 length 11 ok\n\
         packet 1 vc 0 apid 2047 flags 3 count 0 length 861 fault idle\n\
         frames 1 packets 2 good 1 left 0 stop end\n",
        DONE,
    ),
    Step::Reads(&[IDLE, ZEROS, FRONT, Piece::Frame(SECOND)]),
    Step::Call(
        "packets",
        "packet 0 vc 0 apid 2047 flags 3 count 0 length 875 fault idle\n\
         packet 1 vc 0 apid 100 flags 3 count 0 length 11 ok\n\
         packet 2 vc 0 apid 2047 flags 3 count 0 length 864 fault idle\n\
         frames 2 packets 3 good 1 left 0 stop end\n",
        DONE,
    ),
    Step::Reads(&[Piece::Frame(WRONG)]),
    Step::Call(
        "packets",
        "packet 0 vc 0 apid 100 flags 3 count 0 length 11 fault crc stored 29B0 computed 29B1\n\
         packet 1 vc 0 apid 2047 flags 3 count 0 length 861 fault idle\n\
         frames 1 packets 2 good 0 left 0 stop end\n",
        DONE,
    ),
]];

const BROKEN: &str = "packet 0 vc 0 apid 2047 flags 3 count 0 length 875 fault idle\n\
                      packet 1 vc 0 apid 2047 flags 3 count 0 length 864 fault idle\n\
                      frames 2 packets 2 good 0 left 0 stop end\n";

static DROPPED: [&[Step]; 1] = [&[
    NO_DISK,
    Step::Reads(&[IDLE, ZEROS, FRONT, Piece::Frame(AFTER_A_GAP)]),
    Step::Call("packets", BROKEN, DONE),
    Step::Reads(&[IDLE, ZEROS, FRONT, Piece::Frame(REPEATED)]),
    Step::Call("packets", BROKEN, DONE),
    Step::Reads(&[IDLE, ZEROS, FRONT, Piece::Frame(IDLE_ALONE)]),
    Step::Call(
        "packets",
        "packet 0 vc 0 apid 2047 flags 3 count 0 length 875 fault idle\n\
         frames 2 packets 1 good 0 left 0 stop end\n",
        DONE,
    ),
]];

#[test]
fn each_packet_has_its_line_however_the_reads_are_cut(rt: HostRuntime) -> Result<(), Fail> {
    hold_in(rt.alloc(), &[1, 892, 893], &CUT)
}

#[test]
fn a_gap_or_another_pointer_drops_an_open_packet(rt: HostRuntime) -> Result<(), Fail> {
    hold(rt.alloc(), &DROPPED)
}
