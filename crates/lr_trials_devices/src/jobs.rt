//! What the station is asked to do while devices fail, and what it may leave.
use crate::trouble::Trouble;
use lr_disk::MemDisk;
use lr_trials_station::call::called;
use lr_trials_station::steps::FRAMES;
use lr_trials_support::{
    Call, DISCARDED_0, FILE_7, FILE_8, ITEM_7, ITEM_8, Printed, RECEIVED_BOTH, disk, faultless,
    frames_of, shelf_bytes,
};
use std::alloc::Global;
use std::test::Fail;

/// What `list` prints of a shelf with both files.
const BOTH: &str = "\
    file 0 vc 0 apid 100 counter 7 bytes 26 packets 1 declared 136 real 128 differs type 2 frames 0 0 corrected 0\n\
    file 1 vc 0 apid 100 counter 8 bytes 26 packets 1 declared 136 real 128 differs type 2 frames 1 1 corrected 0\n\
    files 2 used 154 capacity 65536\n";

/// What it prints of an empty shelf, of one with the first file, and of one with both.
const RECEIVED: [&str; 3] = [
    "files 0 used 20 capacity 65536\n",
    "\
        file 0 vc 0 apid 100 counter 7 bytes 26 packets 1 declared 136 real 128 differs type 2 frames 0 0 corrected 0\n\
        files 1 used 87 capacity 65536\n",
    BOTH,
];

/// What it prints of both files, and of both when the first one is discarded.
const DISCARDED: [&str; 2] = [
    BOTH,
    "\
        file 0 discarded\n\
        file 1 vc 0 apid 100 counter 8 bytes 26 packets 1 declared 136 real 128 differs type 2 frames 1 1 corrected 0\n\
        files 2 used 166 capacity 65536\n",
];

/// What it prints of the first files of the test stream, which have 278 bytes each on a shelf.
const TRIED: [&str; 4] = [
    "files 0 used 20 capacity 1048576\n",
    "\
        file 0 vc 5 apid 200 counter 0 bytes 237 packets 1 declared 1816 real 1816 same type 2 frames 2 2 corrected 0\n\
        files 1 used 298 capacity 1048576\n",
    "\
        file 0 vc 5 apid 200 counter 0 bytes 237 packets 1 declared 1816 real 1816 same type 2 frames 2 2 corrected 0\n\
        file 1 vc 5 apid 200 counter 1 bytes 237 packets 1 declared 1816 real 1816 same type 2 frames 2 2 corrected 0\n\
        files 2 used 576 capacity 1048576\n",
    "\
        file 0 vc 5 apid 200 counter 0 bytes 237 packets 1 declared 1816 real 1816 same type 2 frames 2 2 corrected 0\n\
        file 1 vc 5 apid 200 counter 1 bytes 237 packets 1 declared 1816 real 1816 same type 2 frames 2 2 corrected 0\n\
        file 2 vc 5 apid 200 counter 2 bytes 237 packets 1 declared 1816 real 1816 same type 2 frames 2 2 corrected 0\n\
        files 3 used 854 capacity 1048576\n",
];

/// The header of a shelf of the capacity 65,536, up to the first gate. It is that of `reference/shelf.py`.
pub(crate) const HEADER_65536: &[u8] = b"\x5ALRSHELF\x02\x00\x00\x00\x00\x00\x01\x00\x00\xFB\x41";

/// The station's work on a disk.
pub(crate) struct Job {
    pub(crate) words: &'static str,
    /// The items of the shelf that is there before, if there is one.
    items: Option<&'static [&'static [u8]]>,
    /// The words that make the shelf, where the job makes one, or nothing.
    making: &'static str,
    /// What the job prints where nothing fails.
    pub(crate) text: &'static str,
    /// What `list` may print of the shelf that the job leaves, in the order in which it gets there.
    lists: &'static [&'static str],
    /// How far it gets where nothing fails: the place of the last of these.
    pub(crate) whole: usize,
    /// Whether each step adds an entry.
    pub(crate) adds: bool,
}

/// Two files are received onto an empty shelf.
pub(crate) static RECEIVE: Job = Job {
    words: FRAMES,
    items: Some(&[]),
    making: "",
    text: RECEIVED_BOTH,
    lists: &RECEIVED,
    whole: 2,
    adds: true,
};

/// An empty disk becomes a shelf.
pub(crate) static INIT: Job = Job {
    words: "init 65536",
    items: None,
    making: "init 65536",
    text: "shelf capacity 65536\n",
    lists: &["files 0 used 20 capacity 65536\n"],
    whole: 0,
    adds: true,
};

/// The first of two files is discarded.
pub(crate) static DISCARD: Job = Job {
    words: "discard 0",
    items: Some(&[ITEM_7, ITEM_8]),
    making: "",
    text: DISCARDED_0,
    lists: &DISCARDED,
    whole: 1,
    adds: false,
};

/// Three frames are tried on an empty disk, of which the last has three files.
pub(crate) static TRIAL: Job = Job {
    words: "trial 1 3 0",
    items: None,
    making: "init 1048576",
    text: "symbols 49152 frames 3 restored 3 lost 0 packets 27 files 3 left 0 stop end\n",
    lists: &TRIED,
    whole: 3,
    adds: true,
};

/// How many calls a disk allows.
const CALLS: u64 = 400;

/// The disk that a job begins with.
pub(crate) fn disk_before(alloc: Global, job: &Job) -> Result<MemDisk, Trouble> {
    let items = job.items;
    let Some(items) = items else {
        return Ok(disk(alloc, &[], CALLS)?);
    };
    Ok(disk(alloc, &shelf_bytes(alloc, HEADER_65536, items)?, CALLS)?)
}

/// The same bytes on another disk.
pub(crate) fn left_on(alloc: Global, made: &MemDisk) -> Result<MemDisk, Trouble> {
    Ok(disk(alloc, made.as_slice(), CALLS)?)
}

/// What comes of a job whose source and `out` fail once at these places, over the frames of both files.
pub(crate) fn run(
    alloc: Global,
    made: &mut MemDisk,
    job: &Job,
    source_fails: u64,
    out_fails: u64,
) -> Result<Printed, Trouble> {
    let bytes = frames_of(alloc, &[FILE_7, FILE_8])?;
    let call = Call {
        source_fails,
        out_fails,
        ..faultless(job.words, &bytes, usize::MAX)
    };
    Ok(called(alloc, made, &call)?)
}

/// Makes the shelf where the job should have made it and hadn't yet.
fn make(alloc: Global, job: &Job, left: &mut MemDisk) -> Result<(), Trouble> {
    if job.making.is_empty() {
        return Ok(());
    }
    let status = called(alloc, left, &faultless(job.making, &[], 1))?.status;
    match status {
        0 | 11 => Ok(()),
        9 => Err(Trouble::Memory),
        _ => Err(Trouble::Failed(Fail::new(format_args!("{}: no shelf: {status}", job.words)))),
    }
}

/// How far the job got, by the shelf on this disk: the place of what `list` prints of it.
pub(crate) fn progress(
    alloc: Global,
    case: &str,
    job: &Job,
    left: &mut MemDisk,
) -> Result<usize, Trouble> {
    make(alloc, job, left)?;
    let listed = called(alloc, left, &faultless("list", &[], 1))?;
    if listed.status == 9 {
        return Err(Trouble::Memory);
    }
    listed.has_status(case, 0)?;
    let text = str::from_utf8(listed.out.as_slice()).unwrap_or("no text");
    match job.lists.iter().position(|list| *list == text) {
        Some(reached) => Ok(reached),
        None => Err(Trouble::Failed(Fail::new(format_args!("{case}: the list is {text:?}")))),
    }
}
