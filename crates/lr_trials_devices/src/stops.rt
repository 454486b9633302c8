//! A stop inside each call of the disk in turn.
use crate::jobs::{DISCARD, INIT, Job, RECEIVE, TRIAL, disk_before, progress, run};
use crate::trouble::{Trouble, ended};
use lr_disk::MemDisk;
use lr_trials_station::call::called;
use lr_trials_station::steps::FRAMES;
use lr_trials_support::{DONE, FILE_7, NEVER, faultless, frames_of};
use std::alloc::Global;
use std::test::Fail;

/// The disk that the job leaves where nothing fails, which knows each call.
fn whole(alloc: Global, job: &Job) -> Result<MemDisk, Trouble> {
    let mut made = disk_before(alloc, job)?;
    run(alloc, &mut made, job, NEVER, NEVER)?.ended_so(job.words, job.text.as_bytes(), DONE)?;
    Ok(made)
}

/// What is printed of a further file, after its number.
const NEXT: &str = "vc 0 apid 100 counter 7 bytes 26 packets 1\n\
                    symbols 892 frames 1 restored 1 lost 0 packets 1 files 1 left 0 stop end\n";

/// That a stop inside this call leaves a shelf that the job passes through, and that goes on: a further file is
/// received, and gets its number.
fn is_harmless(
    alloc: Global,
    job: &Job,
    made: &MemDisk,
    call: u64,
    kind: u8,
) -> Result<(), Trouble> {
    if call >= made.calls() || kind > 2 {
        return Err(Trouble::Failed(Fail::from("no such call")));
    }
    let case = format!(in alloc; "{}, a stop of kind {kind} in call {call}", job.words)?;
    let mut left = made.image(alloc, call, kind)?;
    let reached = progress(alloc, &case, job, &mut left)?;
    let number = if job.adds { reached } else { 2 };
    let wanted = format!(in alloc; "shelved {number} {NEXT}")?;
    let bytes = frames_of(alloc, &[FILE_7])?;
    called(alloc, &mut left, &faultless(FRAMES, &bytes, 892))?.ended_so(
        &case,
        wanted.as_bytes(),
        DONE,
    )?;
    Ok(())
}

/// The same, of every call. The kinds are those of `MemDisk::image`.
fn stops(alloc: Global, job: &Job, kind: u8) -> Result<(), Trouble> {
    let made = whole(alloc, job)?;
    for call in 0..made.calls() {
        is_harmless(alloc, job, &made, call, kind)?;
    }
    if made.calls() == 0 {
        return Err(Trouble::Failed(Fail::from("the disk wasn't asked")));
    }
    Ok(())
}

#[test]
fn a_stop_leaves_a_shelf_that_goes_on(rt: HostRuntime) -> Result<(), Fail> {
    let alloc = rt.alloc();
    for kind in 0..3 {
        ended(stops(alloc, &RECEIVE, kind))?;
        ended(stops(alloc, &INIT, kind))?;
        ended(stops(alloc, &DISCARD, kind))?;
        ended(stops(alloc, &TRIAL, kind))?;
    }
    Ok(())
}
