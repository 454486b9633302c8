//! Readers that count their calls and their errors, over readers of std, which don't.
ghost use Rattle.std.specs.Prelude.{◌≡◌, ◌<◌, ◌≤◌, List, ℕ, Option, length, IfOk};
ghost use Rattle.std.specs.Io.KnownBytes.{ReadConsumes};
ghost use Rattle.lr_bits.specs.Faults.{FailsAtOnce, OneMore};

use std::io::{self, Read};

/// What a source needs of a reader.
pub trait Reader {
    /// How many reads it was asked for.
    ghost calls: { Self → ℕ };

    /// How many errors it gave.
    ghost errors: { Self → ℕ };

    /// The bytes that reads will give from here on, where they are known.
    ghost remaining: { Self → Option (List ℕ) };

    /// Moves the next bytes to the front of `into`, and answers how many. Where it fails nothing was taken.
    fn read(&mut self, into: &mut [u8]) -> io::Result<usize>
        requires { 0 < length into.old }
        ensures within { IfOk result (λ n. n ≤ length into.new) }
        ensures bytes { ReadConsumes (remaining self.old) (remaining self.new) result into.new }
        ensures calls { OneMore (calls self.old) (calls self.new) }
        ensures errors { FailsAtOnce (errors self.old) (errors self.new) result };
}

/// A reader of std, how many reads it was asked for, and how many errors it gave.
#[derive(Drop)]
pub struct StdReader<T: Read> {
    reader: T,
    calls: u64,
    errors: u64,
}

impl<T: Read> StdReader<T> {
    ghost use Rattle.std.specs.Prelude.{◌≡◌};
    ghost use Rattle.lr_io.specs.Streams.{std_reader_in, calls_read, errors_read};

    /// This reader, with counts of 0.
    pub fn of(reader: T) -> Self
        ensures reader { std_reader_in result ≡ reader }
        ensures calls { calls_read result ≡ 0 }
        ensures errors { errors_read result ≡ 0 }
    {
        StdReader {
            reader,
            calls: 0,
            errors: 0,
        }
    }

    /// The reader of std.
    pub fn reader(&self) -> &T
        ensures { result.now ≡ std_reader_in self.now }
    {
        &self.reader
    }
}

/// Each call asks the reader of std once, which is trusted.
impl<T: Read> Reader for StdReader<T> {
    ghost calls = { λ r. r.calls };

    ghost errors = { λ r. r.errors };

    ghost remaining = { λ r. T.remaining r.reader };

    fn read(&mut self, into: &mut [u8]) -> io::Result<usize> {
        self.calls = self.calls.saturating_add(1);
        match self.reader.read(into) {
            Ok(count) => Ok(count),
            Err(error) => {
                self.errors = self.errors.saturating_add(1);
                Err(error)
            }
        }
    }
}
