//! Each job with the memory that there is. `trials/memory.sh` refuses each request for memory in turn.
use crate::jobs::{DISCARD, INIT, Job, RECEIVE, TRIAL, disk_before, left_on, progress, run};
use crate::trouble::{Trouble, ended_or_refused};
use lr_trials_support::{DONE, NEVER, NO_MEMORY, is_number};
use std::alloc::Global;
use std::test::Fail;

/// That the job is done, or ends with 9 and leaves what was acknowledged and nothing else. `trial` acknowledges nothing
/// before it is done.
fn ends(alloc: Global, job: &Job) -> Result<(), Trouble> {
    let mut made = disk_before(alloc, job)?;
    let printed = run(alloc, &mut made, job, NEVER, NEVER)?;
    let reached = progress(alloc, job.words, job, &mut left_on(alloc, &made)?)? as u64;
    let text = job.text.as_bytes();
    if printed.status == 0 {
        printed.ended_so(job.words, text, DONE)?;
        is_number(job.words, reached, job.whole as u64)?;
        return Ok(());
    }
    let front = &text[..text.len().min(printed.out.as_slice().len())];
    printed.ended_so(job.words, front, NO_MEMORY)?;
    if !job.text.starts_with("symbols ") {
        is_number(job.words, reached, printed.lines() as u64)?;
    }
    Ok(())
}

#[test]
fn want_of_memory_leaves_received_files(rt: HostRuntime) -> Result<(), Fail> {
    ended_or_refused(ends(rt.alloc(), &RECEIVE))
}

#[test]
fn want_of_memory_leaves_no_shelf_or_an_empty_one(rt: HostRuntime) -> Result<(), Fail> {
    ended_or_refused(ends(rt.alloc(), &INIT))
}

#[test]
fn want_of_memory_discards_nothing(rt: HostRuntime) -> Result<(), Fail> {
    ended_or_refused(ends(rt.alloc(), &DISCARD))
}

#[test]
fn want_of_memory_leaves_tried_files(rt: HostRuntime) -> Result<(), Fail> {
    ended_or_refused(ends(rt.alloc(), &TRIAL))
}
