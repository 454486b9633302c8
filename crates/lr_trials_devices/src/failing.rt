//! The disk, the source or `out` fails once, at each place in turn.
use crate::jobs::{DISCARD, INIT, Job, RECEIVE, TRIAL, disk_before, left_on, progress, run};
use crate::trouble::{Trouble, ended};
use lr_trials_station::call::called;
use lr_trials_station::steps::FRAMES;
use lr_trials_support::{
    Call, DISK_FAILED, End, FILE_7, NEVER, OUTPUT_FAILED, Printed, SOURCE_FAILED, disk, faultless,
    frames_of, is_number, is_text,
};
use std::alloc::Global;
use std::test::Fail;

/// A place at which no job asks any more.
const PAST: u64 = 5_000;

/// The bytes that both frames have, and the distance of the places at which the source fails.
const INPUT: u64 = 1_784;

const STRIDE: u64 = 4;

/// What fails.
#[derive(Clone, Copy)]
enum Device {
    Disk,
    Source,
    Out,
}

/// That a job that was done hadn't asked its device at the place that fails.
fn was_not_asked(case: &str, was_asked: bool) -> Result<bool, Trouble> {
    if was_asked {
        return Err(Trouble::Failed(Fail::new(format_args!("{case}: it was done all the same"))));
    }
    Ok(false)
}

/// That a job ended so, and `out` got a prefix of its text.
fn ended_within(case: &str, job: &Job, printed: &Printed, end: End<'_>) -> Result<(), Fail> {
    let text = job.text.as_bytes();
    let front = &text[..text.len().min(printed.out.as_slice().len())];
    printed.ended_so(case, front, end)?;
    Ok(())
}

/// The call of this number fails on the disk: `out` got a prefix of the text, and each file whose line it has is there.
/// Whether the disk was asked so often.
fn disk_fails(alloc: Global, case: &str, job: &Job, number: u64) -> Result<bool, Trouble> {
    let mut made = disk_before(alloc, job)?;
    made.fail_at(number);
    let printed = run(alloc, &mut made, job, NEVER, NEVER)?;
    if printed.status == 0 {
        return was_not_asked(case, number < made.calls());
    }
    let reached = progress(alloc, case, job, &mut left_on(alloc, &made)?)?;
    ended_within(case, job, &printed, DISK_FAILED)?;
    if printed.lines() > reached {
        return Err(Trouble::Failed(Fail::new(format_args!(
            "{case}: {} lines, and {reached} files",
            printed.lines()
        ))));
    }
    Ok(true)
}

/// `out` fails at this place: it got all that stands before it, and the file of the line that failed is there. Whether
/// so much was put.
fn out_fails(alloc: Global, case: &str, job: &Job, place: u64) -> Result<bool, Trouble> {
    let mut made = disk_before(alloc, job)?;
    let printed = run(alloc, &mut made, job, NEVER, place)?;
    let put = printed.out.as_slice().len() as u64;
    if printed.status == 0 {
        return was_not_asked(case, place < put);
    }
    let wanted = if job.text.starts_with("shelved ") {
        printed.lines().saturating_add(1).min(job.whole)
    } else {
        job.whole
    };
    let reached = progress(alloc, case, job, &mut left_on(alloc, &made)?)?;
    ended_within(case, job, &printed, OUTPUT_FAILED)?;
    is_number(case, put, place)?;
    is_number(case, reached as u64, wanted as u64)?;
    Ok(true)
}

/// What `receive` prints of this many frames, up to the words of its last line.
const LINES: [&str; 3] = [
    "symbols ",
    "shelved 0 vc 0 apid 100 counter 7 bytes 26 packets 1\n\
     symbols ",
    "shelved 0 vc 0 apid 100 counter 7 bytes 26 packets 1\n\
     shelved 1 vc 0 apid 100 counter 8 bytes 26 packets 1\n\
     symbols ",
];

/// The source fails at this place: the files of the frames before it are there, and the last line says so. Whether it
/// was asked there.
fn source_fails(alloc: Global, case: &str, job: &Job, place: u64) -> Result<bool, Trouble> {
    let mut made = disk_before(alloc, job)?;
    let printed = run(alloc, &mut made, job, place, NEVER)?;
    if printed.status == 0 {
        return was_not_asked(case, place <= INPUT);
    }
    let whole = (place / 892).min(2) as usize;
    let reached = progress(alloc, case, job, &mut left_on(alloc, &made)?)?;
    let front = &printed.out.as_slice()[..printed.out.as_slice().len().min(LINES[whole].len())];
    is_text(case, front, LINES[whole].as_bytes())?;
    printed.ended_with(case, b" stop fault\n", SOURCE_FAILED)?;
    is_number(case, printed.lines() as u64, whole as u64 + 1)?;
    is_number(case, reached as u64, whole as u64)?;
    Ok(true)
}

/// The job ends as it should where the device fails at this place. Whether it was asked there.
fn fails(alloc: Global, job: &Job, device: Device, place: u64) -> Result<bool, Trouble> {
    match device {
        Device::Disk => {
            let case = format!(in alloc; "{}, call {place} of the disk fails", job.words)?;
            disk_fails(alloc, &case, job, place)
        }
        Device::Source => {
            let at = place.saturating_mul(STRIDE);
            let case = format!(in alloc; "{}, the source fails at {at}", job.words)?;
            source_fails(alloc, &case, job, at)
        }
        Device::Out => {
            let case = format!(in alloc; "{}, out fails at {place}", job.words)?;
            out_fails(alloc, &case, job, place)
        }
    }
}

/// That the job ends as it should, wherever the device fails. It is asked at one place at least.
fn ends(alloc: Global, job: &Job, device: Device) -> Result<(), Trouble> {
    for place in 0..PAST {
        if !fails(alloc, job, device, place)? {
            return if place > 0 {
                Ok(())
            } else {
                Err(Trouble::Failed(Fail::new(format_args!("{}: no device is asked", job.words))))
            };
        }
    }
    Err(Trouble::Failed(Fail::new(format_args!("{}: it doesn't end", job.words))))
}

#[test]
fn a_disk_that_fails_keeps_what_was_acknowledged(rt: HostRuntime) -> Result<(), Fail> {
    let alloc = rt.alloc();
    ended(ends(alloc, &RECEIVE, Device::Disk))?;
    ended(ends(alloc, &INIT, Device::Disk))?;
    ended(ends(alloc, &DISCARD, Device::Disk))?;
    ended(ends(alloc, &TRIAL, Device::Disk))
}

#[test]
fn an_output_that_fails_takes_nothing_back(rt: HostRuntime) -> Result<(), Fail> {
    let alloc = rt.alloc();
    ended(ends(alloc, &RECEIVE, Device::Out))?;
    ended(ends(alloc, &INIT, Device::Out))?;
    ended(ends(alloc, &DISCARD, Device::Out))?;
    ended(ends(alloc, &TRIAL, Device::Out))
}

#[test]
fn a_source_that_fails_leaves_the_files_of_whole_frames(rt: HostRuntime) -> Result<(), Fail> {
    ended(ends(rt.alloc(), &RECEIVE, Device::Source))
}

/// `err` takes nothing, and the shelf is one byte too small for the file.
#[test]
fn a_line_that_err_refuses_changes_no_status(rt: HostRuntime) -> Result<(), Fail> {
    let alloc = rt.alloc();
    let mut small = disk(alloc, &[], 400)?;
    assert!(rt; called(alloc, &mut small, &faultless("init 86", &[], 1))?.has_status("init", 0)?);
    let bytes = frames_of(alloc, &[FILE_7])?;
    let call = Call {
        err_room: 0,
        ..faultless(FRAMES, &bytes, 892)
    };
    assert!(rt; called(alloc, &mut small, &call)?.ended_so(FRAMES, &[], End(10, ""))?);
    Ok(())
}
