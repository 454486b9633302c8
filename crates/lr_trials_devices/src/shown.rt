//! `list` and `show` of files whose headers have records of many kinds, and each fault. The frame and the texts are
//! those of `reference/headers.py`.
use lr_trials_station::steps::{FRAMES, Piece, Step, hold};
use lr_trials_support::{DONE, End};
use std::test::Fail;

/// A frame with six files. The header of the first has records of the kinds 0 to 7, 128 and 131, and such ones of
/// another length; those of the others have a fault each.
const SIX_FILES: &[u8] = b"\x40\x40\x00\x00\x00\x00\x00\x00\
\x00\x64\xC0\x00\x01\x03\x00\x00\x00\x00\x00\x00\x00\x00\x07\xC0\
\x00\x00\x10\x00\x00\x00\x00\xF8\x00\x00\x00\x00\x00\x00\x06\x40\
\x01\x00\x09\x08\x00\x40\x01\x00\x02\
\x02\x00\x33GEOS\x00(-75.2) \x1F \x00\x00\x00\x00\x00\x00\x00\x00\x00\x00\x00\x00\x00\x00\x00\x00\x00\
\x01\x38\x4A\x63\xFE\xC7\xB5\x9D\x00\x00\x15\x7C\xFF\xFF\xFF\xFF\
\x02\x00\x33\x00\x00\x00\x00\x00\x00\x00\x00\x00\x00\x00\x00\x00\x00\x00\x00\x00\x00\x00\x00\x00\x00\x00\x00\
\x00\x00\x00\x00\x00\x00\x00\x00\x00\x00\x00\x00\x00\x00\x00\x00\x00\x00\x00\x00\x00\x00\x00\x00\
\x03\x00\x0F$HALFTONE:=8\x04\x00\x09\x1F \\~\x7F\xFF\x04\x00\x03\x06\x00\x03\
\x05\x00\x0A\x40\x11\x1F\x05\x26\x5B\xFF\x05\x00\x0A\x41\x00\x07\x00\x00\x00\x09\x07\x00\x04\x01\
\x80\x00\x11\x00\x01\x00\x02\x00\x03\x00\x04\x00\x05\x00\x06\x01\x00\
\x80\x00\x10\x00\x00\x00\x00\x00\x00\x00\x00\x00\x00\x00\x00\x00\
\x83\x00\x07\x00\x31\x10\x01\x83\x00\x08\x00\x00\x00\x00\x00\
\x00\x00\x10\x00\x00\x00\x00\x00\x00\x00\x00\x00\x00\x00\x00\x00\xC8\x00\x03\xDC\x57\
\x00\x64\xC0\x01\x00\x1A\x00\x01\x00\x00\x00\x00\x00\x00\x00\x78\
\x00\x00\x10\x02\x00\x00\x00\x10\x00\x00\x00\x00\x00\x00\x06\x04\x5D\
\x00\x64\xC0\x02\x00\x1B\x00\x02\x00\x00\x00\x00\x00\x00\x00\x80\
\x01\x00\x10\x02\x00\x00\x00\x10\x00\x00\x00\x00\x00\x00\x06\x40\x1E\xA7\
\x00\x64\xC0\x03\x00\x21\x00\x03\x00\x00\x00\x00\x00\x00\x00\xB0\
\x00\x00\x10\x02\x00\x00\x00\x16\x00\x00\x00\x00\x00\x00\x06\x40\x09\x00\x03\x04\x00\x02\x9D\x2B\
\x00\x64\xC0\x04\x00\x20\x00\x04\x00\x00\x00\x00\x00\x00\x00\xA8\
\x00\x00\x10\x02\x00\x00\x00\x15\x00\x00\x00\x00\x00\x00\x06\x40\x09\x00\x03\x04\x00\x1C\x3F\
\x00\x64\xC0\x05\x00\x26\x00\x05\x00\x00\x00\x00\x00\x00\x00\xD8\
\x00\x00\x10\x02\x00\x00\x00\x1B\x00\x00\x00\x00\x00\x00\x06\x40\x05\x00\x0B\x00\x00\x00\x00\x00\x00\x00\x00\x8B\x56\
\x07\xFF\xC0\x00\x01\xA4";

const RECEIVED: &str = "shelved 0 vc 0 apid 100 counter 0 bytes 258 packets 1\n\
                        shelved 1 vc 0 apid 100 counter 1 bytes 25 packets 1\n\
                        shelved 2 vc 0 apid 100 counter 2 bytes 26 packets 1\n\
                        shelved 3 vc 0 apid 100 counter 3 bytes 32 packets 1\n\
                        shelved 4 vc 0 apid 100 counter 4 bytes 31 packets 1\n\
                        shelved 5 vc 0 apid 100 counter 5 bytes 37 packets 1\n\
                        symbols 892 frames 1 restored 1 lost 0 packets 6 files 6 left 0 stop end\n";

const LISTED: &str = "\
    file 0 vc 0 apid 100 counter 0 bytes 258 packets 1 declared 1984 real 1984 same type 0 frames 0 0 corrected 0\n\
    file 1 vc 0 apid 100 counter 1 bytes 25 packets 1 declared 120 real 120 same type fault frames 0 0 corrected 0\n\
    file 2 vc 0 apid 100 counter 2 bytes 26 packets 1 declared 128 real 128 same type fault frames 0 0 corrected 0\n\
    file 3 vc 0 apid 100 counter 3 bytes 32 packets 1 declared 176 real 176 same type fault frames 0 0 corrected 0\n\
    file 4 vc 0 apid 100 counter 4 bytes 31 packets 1 declared 168 real 168 same type fault frames 0 0 corrected 0\n\
    file 5 vc 0 apid 100 counter 5 bytes 37 packets 1 declared 216 real 216 same type fault frames 0 0 corrected 0\n\
    files 6 used 675 capacity 1000\n";

/// An empty text and an empty name leave their space.
const EACH_KIND: &str = "\
    file 0 vc 0 apid 100 counter 0 bytes 258 packets 1 declared 1984 real 1984 same type 0 frames 0 0 corrected 0\n\
    record 0 length 16 primary type 0 header 248 bits 1600\n\
    record 1 length 9 image bits 8 columns 64 lines 256 compression 2\n\
    record 2 length 51 navigation GEOS\\x00(-75.2) \\x1F 20466275 -20466275 5500 -1\n\
    record 2 length 51 navigation  0 0 0 0\n\
    record 3 length 15 text $HALFTONE:=8\n\
    record 4 length 9 text \\x1F \\x5C~\\x7F\\xFF\n\
    record 4 length 3 text \n\
    record 6 length 3 text \n\
    record 5 length 10 stamp 1970-01-01T23:59:59.999Z\n\
    record 5 length 10 stamp form 65 days 7 milliseconds 9\n\
    record 7 length 4 key\n\
    record 128 length 17 segment 1 2 3 4 5 6 256\n\
    record 128 length 16 other\n\
    record 131 length 7 lossless flags 49 block 16 lines 1\n\
    record 131 length 8 other\n\
    record 0 length 16 other\n\
    record 200 length 3 other\n";

const ENDED: &str = "\
    file 1 vc 0 apid 100 counter 1 bytes 25 packets 1 declared 120 real 120 same type fault frames 0 0 corrected 0\n\
    header fault ended 15\n";

const NOT_PRIMARY: &str = "\
    file 2 vc 0 apid 100 counter 2 bytes 26 packets 1 declared 128 real 128 same type fault frames 0 0 corrected 0\n\
    header fault not-primary\n";

const SHORT: &str = "\
    file 3 vc 0 apid 100 counter 3 bytes 32 packets 1 declared 176 real 176 same type fault frames 0 0 corrected 0\n\
    header fault short 19\n";

const OVERRUN: &str = "\
    file 4 vc 0 apid 100 counter 4 bytes 31 packets 1 declared 168 real 168 same type fault frames 0 0 corrected 0\n\
    header fault overrun 19\n";

const WRONG_LENGTH: &str = "\
    file 5 vc 0 apid 100 counter 5 bytes 37 packets 1 declared 216 real 216 same type fault frames 0 0 corrected 0\n\
    header fault length 5 11\n";

static SHOWN: [&[Step]; 1] = [&[
    Step::Call("init 1000", "shelf capacity 1000\n", DONE),
    Step::Reads(&[Piece::Frame(SIX_FILES)]),
    Step::Call(FRAMES, RECEIVED, DONE),
    Step::Call("list", LISTED, DONE),
    Step::Call("show 0", EACH_KIND, DONE),
    Step::Call("show 1", ENDED, DONE),
    Step::Call("show 2", NOT_PRIMARY, DONE),
    Step::Call("show 3", SHORT, DONE),
    Step::Call("show 4", OVERRUN, DONE),
    Step::Call("show 5", WRONG_LENGTH, DONE),
    Step::Call("show 6", "", End(7, "station: no such file, count 6\n")),
]];

#[test]
fn each_file_is_listed_and_shown_with_its_header(rt: HostRuntime) -> Result<(), Fail> {
    hold(rt.alloc(), &SHOWN)
}
