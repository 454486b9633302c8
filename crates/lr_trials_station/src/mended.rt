//! `receive --mend` mends an image that lacks a packet.
use crate::steps::{FRAMES, MADE, Piece, READS_7, Step, hold_in};
use lr_trials_support::DONE;
use std::test::Fail;

/// The four packets of an image of 3 columns and 4 lines that came: its header, and three lines. The packet with the
/// count 102 is missing, between the second one and the third. And an idle packet.
const LACKING: &[u8] = b"\x40\x40\x00\x00\x00\x00\x00\x00\
\x00\x64\x40\x64\x00\x24\x00\x05\x00\x00\x00\x00\x00\x00\x01\x28\
\x00\x00\x10\x00\x00\x00\x00\x19\x00\x00\x00\x00\x00\x00\x00\x60\x01\x00\x09\x08\x00\x03\x00\x04\x00\xAA\x3A\
\x00\x64\x00\x65\x00\x04abc\x51\x4A\
\x00\x64\x00\x67\x00\x04ghi\xAD\x6B\
\x00\x64\x80\x68\x00\x04jkl\xEA\xCC\
\x07\xFF\xC0\x00\x03\x21";

const READS_LACKING: Step = Step::Reads(&[Piece::Frame(LACKING)]);

/// Without the option the image never appears, and with it a filler stands in for the packet: black, and told in the
/// header. A file that lacks nothing has none.
static MENDED: [&[Step]; 3] = [
    &[
        MADE,
        READS_LACKING,
        Step::Call(
            FRAMES,
            "symbols 892 frames 1 restored 1 lost 0 packets 4 files 0 left 0 stop end\n",
            DONE,
        ),
    ],
    &[
        MADE,
        READS_LACKING,
        Step::Call(
            "receive --input frames --mend 1",
            "shelved 0 vc 0 apid 100 counter 5 bytes 72 packets 5 mended 1\n\
             symbols 892 frames 1 restored 1 lost 0 packets 4 files 1 left 0 stop end\n",
            DONE,
        ),
        Step::Writes("export 0", b"P5\n3 4\n255\nabc\0\0\0ghijkl"),
        Step::Call(
            "show 0",
            "file 0 vc 0 apid 100 counter 5 bytes 72 packets 5 declared 296 real 496 differs type 0 frames 0 0 \
             corrected 0\n\
             record 0 length 16 primary type 0 header 50 bits 96\n\
             record 1 length 9 image bits 8 columns 3 lines 4 compression 0\n\
             record 6 length 25 text gomtasil mended 2 of 5\n",
            DONE,
        ),
    ],
    &[
        MADE,
        READS_7,
        Step::Call(
            "receive --mend 1023 --input frames",
            "shelved 0 vc 0 apid 100 counter 7 bytes 26 packets 1 mended 0\n\
             symbols 892 frames 1 restored 1 lost 0 packets 1 files 1 left 0 stop end\n",
            DONE,
        ),
    ],
];

#[test]
fn an_image_that_lacks_a_packet_is_mended(rt: HostRuntime) -> Result<(), Fail> {
    hold_in(rt.alloc(), &[892, 100], &MENDED)
}
