//! Sinks over writers that keep bytes back, fail to flush, or take few bytes a call.
use lr_io::{Sink, StdWriter, WriteSink, put_all};
use std::fs::{self, File};
use std::io::{self, BufWriter, ErrorKind, Write};
use std::test::Fail;

static PIECE: [u8; 5] = [7, 8, 9, 10, 11];

/// Writes to a file, at most this many bytes a call, and can't flush where it is told so.
#[derive(Drop)]
struct Slow {
    file: File,
    most: usize,
    flushes: bool,
}

impl Write for Slow {
    fn write(&mut self, buf: &[u8]) -> io::Result<usize> {
        let count = buf.len().min(self.most);
        self.file.write(&buf[..count])
    }

    fn flush(&mut self) -> io::Result<()> {
        if self.flushes {
            return Ok(());
        }
        Err(io::Error::from(ErrorKind::Other))
    }
}

/// What the first calls of a writer do.
#[derive(Clone, Copy)]
enum First {
    /// The first write fails.
    WriteFails,
    /// The first write takes nothing.
    WritesNothing,
    /// The first flush fails.
    FlushFails,
}

/// A writer whose first write or flush fails. It counts its writes and its flushes.
#[derive(Drop)]
struct FailsOnce {
    first: First,
    writes: u32,
    flushes: u32,
}

impl Write for FailsOnce {
    fn write(&mut self, buf: &[u8]) -> io::Result<usize> {
        self.writes = self.writes.saturating_add(1);
        match self.first {
            First::WriteFails if self.writes == 1 => Err(io::Error::from(ErrorKind::Other)),
            First::WritesNothing if self.writes == 1 => Ok(0),
            _ => Ok(buf.len()),
        }
    }

    fn flush(&mut self) -> io::Result<()> {
        self.flushes = self.flushes.saturating_add(1);
        match self.first {
            First::FlushFails if self.flushes == 1 => Err(io::Error::from(ErrorKind::Other)),
            _ => Ok(()),
        }
    }
}

fn put<S: Sink>(sink: &mut S, piece: &[u8]) -> bool {
    put_all(sink, piece).is_ok()
}

fn holds(rt: &HostRuntime, path: &str, bytes: &[u8]) -> Result<bool, Fail> {
    Ok(fs::read(rt, path)?.as_slice() == bytes)
}

/// The bytes are in the file while the sink lives.
fn nothing_is_kept_back(rt: &HostRuntime) -> Result<bool, Fail> {
    let path = "lr_trials_shelf_kept.tmp";
    let writer = BufWriter::new(rt.alloc(), fs::create(rt, path)?)?;
    let mut sink = WriteSink::of(StdWriter::of(writer));
    let is_put = put(&mut sink, &PIECE) && holds(rt, path, &PIECE)?;
    let more = put(&mut sink, &PIECE[..2]) && holds(rt, path, &[7, 8, 9, 10, 11, 7, 8])?;
    fs::remove_file(rt, path)?;
    Ok(is_put && more)
}

/// A flush that fails is a failure, though the writer has the bytes.
fn a_flush_may_fail(rt: &HostRuntime) -> Result<bool, Fail> {
    let path = "lr_trials_shelf_flush.tmp";
    let mut sink = WriteSink::of(StdWriter::of(Slow {
        file: fs::create(rt, path)?,
        most: 3,
        flushes: false,
    }));
    let failed = !put(&mut sink, &PIECE) && holds(rt, path, &PIECE[..3])?;
    fs::remove_file(rt, path)?;
    Ok(failed)
}

/// How often the writer was written to, and how often it was flushed.
fn calls(sink: &WriteSink<StdWriter<FailsOnce>>) -> (u32, u32) {
    let writer = sink.writer().writer();
    (writer.writes, writer.flushes)
}

/// Whether a put fails once, at the first error, after this many flushes, and the next one writes and flushes once.
fn fails_at_once(first: First, flushes: u32) -> bool {
    let mut sink = WriteSink::of(StdWriter::of(FailsOnce {
        first,
        writes: 0,
        flushes: 0,
    }));
    let failed = sink.put(&PIECE).is_err() && calls(&sink) == (1, flushes);
    failed && sink.put(&PIECE).is_ok() && calls(&sink) == (2, flushes.saturating_add(1))
}

/// A writer that takes few bytes a call gets all of them in turn.
fn short_writes_go_on(rt: &HostRuntime) -> Result<bool, Fail> {
    let path = "lr_trials_shelf_short.tmp";
    let mut sink = WriteSink::of(StdWriter::of(Slow {
        file: fs::create(rt, path)?,
        most: 2,
        flushes: true,
    }));
    let is_put = put(&mut sink, &PIECE) && holds(rt, path, &PIECE)?;
    fs::remove_file(rt, path)?;
    Ok(is_put)
}

#[test]
fn bytes_are_in_the_file_while_the_sink_lives(rt: HostRuntime) -> Result<(), Fail> {
    assert!(rt; nothing_is_kept_back(&rt)?);
    Ok(())
}

#[test]
fn a_flush_that_fails_is_told(rt: HostRuntime) -> Result<(), Fail> {
    assert!(rt; a_flush_may_fail(&rt)?);
    Ok(())
}

#[test]
fn an_error_of_a_writer_ends_the_put(rt: HostRuntime) {
    assert!(rt; fails_at_once(First::WriteFails, 0));
    assert!(rt; fails_at_once(First::WritesNothing, 0));
    assert!(rt; fails_at_once(First::FlushFails, 1));
}

#[test]
fn a_writer_of_few_bytes_gets_all(rt: HostRuntime) -> Result<(), Fail> {
    assert!(rt; short_writes_go_on(&rt)?);
    Ok(())
}
