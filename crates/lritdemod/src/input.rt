//! The input: the head of a WAV file where it has one, and samples.

ghost use Rattle.std.specs.Prelude.{◌≡◌, ◌≤◌, length};

use lr_demod::{WAVE_HEAD_BYTES, WaveFault, WaveHead, is_wave, wave_head};
use std::alloc::{AllocError, Global};
use std::io::{self, ErrorKind, Read};

/// The bytes by which a WAV file is known.
const FRONT_BYTES: usize = 12;

/// How a read went on.
#[derive(Clone, Copy, Debug, PartialEq, Eq)]
pub(crate) enum After {
    /// There may be more.
    More,
    /// The input has ended.
    End,
    /// The input failed.
    Failed,
}

/// How many bytes were read, and what came after them.
#[derive(Clone, Copy)]
pub(crate) struct Filled {
    pub(crate) count: usize,
    pub(crate) after: After,
}

/// A reader, and the first bytes of it, which were looked at.
#[derive(Drop)]
pub(crate) struct Input<R: Read + Drop> {
    reader: R,
    front: Vec<u8>,
    /// The bytes of the front that were read, those of them that were taken, and what came after them.
    held: usize,
    taken: usize,
    after: After,
    /// The bytes that are still to be taken, where there is an end to them.
    left: Option<u64>,
}

/// Reads on where a call was interrupted.
fn read_once<R: Read>(reader: &mut R, bytes: &mut [u8]) -> io::Result<usize>
    ensures { Rattle.std.specs.Prelude.IfOk result (λ n. n ≤ length bytes.old) }
{
    match reader.read(bytes) {
        Err(error) if error.kind() == ErrorKind::Interrupted => reader.read(bytes),
        other => other,
    }
}

/// Reads until the bytes are full, or the input has ended or failed.
fn fill<R: Read>(reader: &mut R, bytes: &mut [u8]) -> Filled
    ensures { result.count ≤ length bytes.old }
{
    let mut have = 0;
    for _ in 0..bytes.len() {
        let here = have.min(bytes.len());
        match read_once(reader, &mut bytes[here..]) {
            Ok(0) => {
                return Filled {
                    count: here,
                    after: if here < bytes.len() {
                        After::End
                    } else {
                        After::More
                    },
                };
            }
            Ok(count) => have = here + count,
            Err(_) => {
                return Filled {
                    count: here,
                    after: After::Failed,
                };
            }
        }
    }
    Filled {
        count: have.min(bytes.len()),
        after: After::More,
    }
}

/// Copies the first bytes, and answers how many.
fn copy(from: &[u8], into: &mut [u8]) -> usize
    ensures into { result ≤ length into.old }
    ensures from { result ≤ length from.now }
{
    let count = from.len().min(into.len());
    for k in 0..count {
        into[k] = from[k];
    }
    count
}

impl<R: Read + Drop> Input<R> {
    /// The input of this reader.
    pub(crate) fn new(alloc: Global, reader: R) -> Result<Input<R>, AllocError> {
        Ok(Input {
            reader,
            front: vec![in alloc; 0u8; WAVE_HEAD_BYTES]?,
            held: 0,
            taken: 0,
            after: After::More,
            left: None,
        })
    }

    /// Reads on into the front, up to its first `end` bytes.
    fn look(&mut self, end: usize) {
        let end = end.min(self.front.len());
        let start = self.held.min(end);
        let filled = fill(&mut self.reader, &mut self.front[start..end]);
        self.held = start.saturating_add(filled.count);
        self.after = filled.after;
    }

    /// Looks for the head of a WAV file. Where there is one, what is taken then are its samples.
    pub(crate) fn take_head(&mut self) -> Result<Option<WaveHead>, WaveFault> {
        self.look(FRONT_BYTES);
        let held = self.held.min(self.front.len());
        if !is_wave(&self.front[..held]) {
            return Ok(None);
        }
        self.look(WAVE_HEAD_BYTES);
        let held = self.held.min(self.front.len());
        let head = wave_head(&self.front[..held])?;
        self.taken = head.start;
        self.left = head.bytes;
        Ok(Some(head))
    }

    /// Takes from the front what is there, and then from the reader.
    fn take_unbounded(&mut self, bytes: &mut [u8]) -> Filled
        ensures { result.count ≤ length bytes.old }
    {
        let held = self.held.min(self.front.len());
        let taken = self.taken.min(held);
        let count = copy(&self.front[taken..held], bytes);
        self.taken = taken + count;
        if count == bytes.len() || self.after != After::More {
            let after = if taken + count < held {
                After::More
            } else {
                self.after
            };
            return Filled { count, after };
        }
        let filled = fill(&mut self.reader, &mut bytes[count..]);
        Filled {
            count: count + filled.count,
            after: filled.after,
        }
    }

    /// Takes bytes until these are full, or there are no more.
    pub(crate) fn take(&mut self, bytes: &mut [u8]) -> Filled
        ensures { result.count ≤ length bytes.old }
    {
        let Some(left) = self.left else {
            return self.take_unbounded(bytes);
        };
        let room = left.min(bytes.len() as u64) as usize;
        let filled = self.take_unbounded(&mut bytes[..room]);
        let rest = left - filled.count as u64;
        self.left = Some(rest);
        Filled {
            count: filled.count,
            after: if rest == 0 { After::End } else { filled.after },
        }
    }
}
