//! How calls end, and the printed lines that the tests of several crates want.

/// How a call ends: its status, and the line on `err`.
#[derive(Clone, Copy)]
pub struct End<'a>(pub u8, pub &'a str);

pub const DONE: End<'static> = End(0, "");

pub const USAGE: End<'static> = End(2, "station: usage: SHELF COMMAND [WORDS]\n");

pub const SOURCE_FAILED: End<'static> = End(3, "station: source failed\n");

pub const DISK_FAILED: End<'static> = End(4, "station: disk failed\n");

pub const OUTPUT_FAILED: End<'static> = End(5, "station: output failed\n");

pub const NO_SHELF_AT_19: End<'static> = End(6, "station: not a shelf at 19\n");

pub const NO_THIRD_FILE: End<'static> = End(7, "station: no such file, count 2\n");

pub const NOT_IMAGE: End<'static> = End(8, "station: cannot export: not-image\n");

pub const NO_MEMORY: End<'static> = End(9, "station: no memory\n");

pub const BAD_CHECKSUM: End<'static> = End(12, "station: bad checksum\n");

pub const GONE: End<'static> = End(13, "station: discarded\n");

/// The first file of a shelf is discarded.
pub const DISCARDED_0: &str = "discarded 0\n";

/// `verify` of two good files, and of two of which the first is discarded.
pub const BOTH_OK: &str = "file 0 ok\n\
                           file 1 ok\n";

pub const SECOND_OK: &str = "file 0 discarded\n\
                             file 1 ok\n";

/// The frame of the file 7 is received onto an empty shelf, and then those of the files 7 and 8.
pub const RECEIVED_7: &str = "shelved 0 vc 0 apid 100 counter 7 bytes 26 packets 1\n\
                              symbols 892 frames 1 restored 1 lost 0 packets 1 files 1 left 0 stop end\n";

pub const RECEIVED_BOTH: &str = "shelved 0 vc 0 apid 100 counter 7 bytes 26 packets 1\n\
                                 shelved 1 vc 0 apid 100 counter 8 bytes 26 packets 1\n\
                                 symbols 1784 frames 2 restored 2 lost 0 packets 2 files 2 left 0 stop end\n";

/// The first of two frames is received, and then the source fails.
pub const RECEIVED_ONE: &str = "shelved 0 vc 0 apid 100 counter 7 bytes 26 packets 1\n\
                                symbols 892 frames 1 restored 1 lost 0 packets 1 files 1 left 0 stop fault\n";

/// `list` of the shelf of version 1 that received its file once more, and then discarded the first one.
pub const OLD_AND_NEW: &str = "\
    file 0 vc 0 apid 100 counter 7 bytes 26 packets 1 declared 136 real 128 differs type 2 frames none\n\
    file 1 vc 0 apid 100 counter 7 bytes 26 packets 1 declared 136 real 128 differs type 2 frames 0 0 corrected 0\n\
    files 2 used 129 capacity 200\n";

pub const NEW_ALONE: &str = "\
    file 0 discarded\n\
    file 1 vc 0 apid 100 counter 7 bytes 26 packets 1 declared 136 real 128 differs type 2 frames 0 0 corrected 0\n\
    files 2 used 141 capacity 200\n";

/// The last line of 64 frames of the test stream, without and with 700 symbols of 0 before them, and the first file.
pub const ALL_FRAMES: &str =
    "symbols 1048576 frames 64 restored 64 lost 0 packets 452 files 63 left 0 stop end\n";

pub const AFTER_SILENCE: &str =
    "symbols 1049276 frames 64 restored 64 lost 0 packets 452 files 63 left 0 stop end\n";

pub const FIRST_SHELVED: &str = "shelved 0 vc 5 apid 200 counter 0 bytes 237 packets 1\n";
