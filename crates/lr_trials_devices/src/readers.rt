//! A source over a reader that fails once.
use crate::jobs::HEADER_65536;
use lr_io::{ReadSource, Source, StdReader};
use lr_station::station_alone;
use lr_trials_station::steps::FRAMES;
use lr_trials_support::{
    FILE_7, FILE_8, RECEIVED_ONE, SOURCE_FAILED, disk, faultless, frames_of, is_number, parts_of,
    shelf_bytes,
};
use std::alloc::Global;
use std::io::{self, ErrorKind, Read};
use std::test::Fail;

/// Bytes that are read, of which one read fails, after this many others. It counts its reads.
#[derive(Drop)]
struct FailsOnce {
    bytes: Vec<u8>,
    at: usize,
    before: u32,
    reads: u32,
}

impl Read for FailsOnce {
    fn read(&mut self, buf: &mut [u8]) -> io::Result<usize> {
        self.reads = self.reads.wrapping_add(1);
        let fails = self.before == 0;
        self.before = self.before.wrapping_sub(1);
        if fails {
            return Err(io::Error::from(ErrorKind::Other));
        }
        let left = self.bytes.get(self.at..).unwrap_or(&[]);
        let count = buf.len().min(left.len());
        buf[..count].copy_from_slice(&left[..count]);
        self.at = self.at.saturating_add(count);
        Ok(count)
    }
}

/// A source of these bytes, of which the second read fails.
fn failing_source(bytes: Vec<u8>) -> ReadSource<StdReader<FailsOnce>> {
    ReadSource::of(StdReader::of(FailsOnce {
        bytes,
        at: 0,
        before: 1,
        reads: 0,
    }))
}

/// How many bytes come next, and the first of them. None where it fails.
fn take<S: Source>(source: &mut S) -> Option<(usize, u8)> {
    let mut piece = [0; 2];
    let count = source.take(&mut piece).ok()?;
    Some((count, piece[0]))
}

/// How often the reader was read.
fn reads(source: &ReadSource<StdReader<FailsOnce>>) -> u32 {
    source.reader().reader().reads
}

/// Three bytes, with a failure between the first two and the third: nothing is lost, and the call that fails reads
/// once.
#[test]
fn a_reader_that_fails_once_loses_nothing(rt: HostRuntime) -> Result<(), Fail> {
    let mut source = failing_source([7, 8, 9].to_vec(rt.alloc())?);
    assert_eq!(rt; take(&mut source), Some((2, 7)));
    assert_eq!(rt; take(&mut source), None);
    assert_eq!(rt; reads(&source), 2);
    assert_eq!(rt; take(&mut source), Some((1, 9)));
    assert_eq!(rt; take(&mut source), Some((0, 0)));
    assert!(rt; ends_the_input(rt.alloc())?);
    Ok(())
}

/// Of two frames the first is read, and then the reader fails: the station doesn't ask again.
fn ends_the_input(alloc: Global) -> Result<bool, Fail> {
    let mut made = disk(alloc, &shelf_bytes(alloc, HEADER_65536, &[])?, 400)?;
    let mut source = failing_source(frames_of(alloc, &[FILE_7, FILE_8])?);
    let mut parts = parts_of(alloc, &faultless(FRAMES, &[], 1))?;
    let status = station_alone(
        alloc,
        &parts.words,
        &mut source,
        &mut made,
        &mut parts.out,
        &mut parts.err,
    );
    Ok(
        parts
            .ended(status)
            .ended_so(FRAMES, RECEIVED_ONE.as_bytes(), SOURCE_FAILED)?
            && is_number("the reads", u64::from(reads(&source)), 2)?,
    )
}
