//! The parts of a call of the station in memory, and what comes of it.
use crate::differing::{is_number, is_text};
use crate::ends::End;
use crate::short::ShortSource;
use crate::words::words_of;
use lr_bits::NoMemory;
use lr_io::{MemSink, MemSource};
use std::alloc::Global;
use std::test::Fail;

/// A place that no source and no sink of these tests reaches.
pub const NEVER: u64 = 1_000_000_000;

/// What a call is given: its words and bytes, the length of its reads, the places at which source and `out` fail once,
/// and the room of `out` and of `err`. With no text there is no word.
#[derive(Clone, Copy)]
pub struct Call<'a> {
    pub words: &'a str,
    pub bytes: &'a [u8],
    pub reads: usize,
    pub source_fails: u64,
    pub out_fails: u64,
    pub out_room: usize,
    pub err_room: usize,
}

/// A call of these words over these bytes, in which nothing fails.
pub fn faultless<'a>(words: &'a str, bytes: &'a [u8], reads: usize) -> Call<'a> {
    Call {
        words,
        bytes,
        reads,
        source_fails: NEVER,
        out_fails: NEVER,
        out_room: 20_000,
        err_room: 100,
    }
}

/// The parts of a call, but for its disk.
#[derive(Drop)]
pub struct Parts {
    pub words: Vec<String>,
    pub source: ShortSource,
    pub out: MemSink,
    pub err: MemSink,
}

/// The parts of this call.
pub fn parts_of(alloc: Global, call: &Call<'_>) -> Result<Parts, NoMemory> {
    let bytes = call.bytes.to_vec(alloc)?;
    let source = MemSource::of(bytes, Vec::new(alloc), vec![in alloc; call.source_fails]?);
    let words = if call.words.is_empty() {
        Vec::new(alloc)
    } else {
        words_of(alloc, call.words)?
    };
    Ok(Parts {
        words,
        source: ShortSource::of(source, call.reads),
        out: MemSink::of(alloc, vec![in alloc; call.out_fails]?, call.out_room)?,
        err: MemSink::of(alloc, Vec::new(alloc), call.err_room)?,
    })
}

/// What came of a call.
#[derive(Drop)]
pub struct Printed {
    pub status: u8,
    pub out: MemSink,
    pub err: MemSink,
}

impl Parts {
    /// What came of the call that had these parts and ended with this status.
    pub fn ended(self, status: u8) -> Printed {
        let Parts { out, err, .. } = self;
        Printed { status, out, err }
    }
}

impl Printed {
    /// Whether it ended so, with this text. Where it didn't, the failure says in which case, and what differs.
    pub fn ended_so(&self, case: &str, out: &[u8], end: End<'_>) -> Result<bool, Fail> {
        let End(status, line) = end;
        Ok(
            self.has_status(case, status)?
                && is_text(format_args!("{case}: out"), self.out.as_slice(), out)?
                && is_text(
                    format_args!("{case}: err"),
                    self.err.as_slice(),
                    line.as_bytes(),
                )?,
        )
    }

    /// Whether it ended so, and its text ends with this one.
    pub fn ended_with(&self, case: &str, out: &[u8], end: End<'_>) -> Result<bool, Fail> {
        let End(status, line) = end;
        let all = self.out.as_slice();
        let last = &all[all.len().saturating_sub(out.len())..];
        Ok(
            self.has_status(case, status)?
                && is_text(format_args!("{case}: the end of out"), last, out)?
                && is_text(
                    format_args!("{case}: err"),
                    self.err.as_slice(),
                    line.as_bytes(),
                )?,
        )
    }

    /// Whether it ended with this status.
    pub fn has_status(&self, case: &str, status: u8) -> Result<bool, Fail> {
        is_number(
            format_args!("{case}: the status"),
            u64::from(self.status),
            u64::from(status),
        )
    }

    /// Whether the other call has the same status, and printed the same.
    pub fn is_like(&self, case: &str, other: &Printed) -> Result<bool, Fail> {
        let (out, err) = (other.out.as_slice(), other.err.as_slice());
        Ok(
            self.has_status(case, other.status)?
                && is_text(format_args!("{case}: out"), self.out.as_slice(), out)?
                && is_text(format_args!("{case}: err"), self.err.as_slice(), err)?,
        )
    }

    /// How many lines were put on `out`, without one that has no end.
    pub fn lines(&self) -> usize {
        self.out
            .as_slice()
            .iter()
            .filter(|byte| **byte == b'\n')
            .count()
    }
}
