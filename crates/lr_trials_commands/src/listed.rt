//! `list` and `show`, on a shelf of version 1 that goes on.
use crate::calls::Call;
use crate::entries::{Case, Start, hold};
use lr_trials_support::{NEW_ALONE, OLD_AND_NEW};
use std::test::Fail;

const LAST_SHOWN: &str = "\
    file 1 vc 0 apid 100 counter 7 bytes 26 packets 1 declared 136 real 128 differs type 2 frames 0 0 corrected 0\n\
    record 0 length 16 primary type 2 header 16 bits 0\n";

static LISTED: [Case; 2] = [
    Case(Start::Two, Call::List, 0, OLD_AND_NEW),
    Case(Start::WithoutFirst, Call::List, 0, NEW_ALONE),
];

static NOT_LISTED: [Case; 3] = [
    Case(Start::Byte(0, 0), Call::List, 6, ""),
    Case(Start::Byte(58, 1), Call::List, 12, ""),
    Case(
        Start::Byte(19, 0),
        Call::List,
        0,
        "files 0 used 20 capacity 200\n",
    ),
];

static SHOWN: [Case; 5] = [
    Case(Start::Two, Call::Show(1), 0, LAST_SHOWN),
    Case(Start::Two, Call::Show(2), 7, ""),
    Case(Start::WithoutFirst, Call::Show(0), 13, ""),
    Case(Start::Byte(58, 1), Call::Show(0), 12, ""),
    Case(
        Start::Old,
        Call::Show(0),
        0,
        "file 0 vc 0 apid 100 counter 7 bytes 26 packets 1 declared 136 real 128 differs type 2 frames none\n\
         record 0 length 16 primary type 2 header 16 bits 0\n",
    ),
];

#[test]
fn each_entry_has_its_line(rt: HostRuntime) -> Result<(), Fail> {
    hold(rt.alloc(), &LISTED)
}

#[test]
fn a_list_ends_where_it_is_refused(rt: HostRuntime) -> Result<(), Fail> {
    hold(rt.alloc(), &NOT_LISTED)
}

#[test]
fn a_file_is_shown_with_its_header(rt: HostRuntime) -> Result<(), Fail> {
    hold(rt.alloc(), &SHOWN)
}
