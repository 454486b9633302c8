//! Writers that count their errors and tell whether they keep bytes back, over writers of std, which don't.
ghost use Rattle.std.specs.Prelude.{◌≡◌, ◌<◌, ◌≤◌, List, ℕ, Option, length, IfOk, OnOk};
ghost use Rattle.std.specs.Io.KnownBytes.{Keeps, WriteAppends};
ghost use Rattle.lr_bits.specs.Faults.{FailsAtOnce, WritesAtOnce};

use std::io::{self, Write};

/// What a sink needs of a writer.
pub trait Writer {
    /// How many of its calls gave an error or wrote nothing.
    ghost errors: { Self → ℕ };

    /// Whether it keeps no bytes back: nothing was written since a flush that answered `Ok`.
    ghost flushed: { Self → Type 0 };

    /// The bytes that it holds, where they are known.
    ghost contents: { Self → Option (List ℕ) };

    /// Writes the first bytes of the piece, and answers how many. Where it fails nothing was written.
    fn write(&mut self, piece: &[u8]) -> io::Result<usize>
        requires { 0 < length piece.now }
        ensures within { IfOk result (λ n. n ≤ length piece.now) }
        ensures bytes { WriteAppends (contents self.old) (contents self.new) result piece.now }
        ensures errors { WritesAtOnce (errors self.old) (errors self.new) result };

    /// Hands on the bytes that it keeps back.
    fn flush(&mut self) -> io::Result<()>
        ensures bytes { Keeps (contents self.old) (contents self.new) }
        ensures errors { FailsAtOnce (errors self.old) (errors self.new) result }
        ensures flushed { OnOk result (flushed self.new) };
}

/// A writer of std, how many of its calls gave an error or wrote nothing, and whether nothing was written since a flush
/// that answered `Ok`.
#[derive(Drop)]
pub struct StdWriter<T: Write> {
    writer: T,
    errors: u64,
    is_flushed: bool,
}

impl<T: Write> StdWriter<T> {
    ghost use Rattle.std.specs.Prelude.{◌≡◌};
    ghost use Rattle.lr_io.specs.Streams.{std_writer_in, errors_written};

    /// This writer, with a count of 0. It may keep bytes back.
    pub fn of(writer: T) -> Self
        ensures writer { std_writer_in result ≡ writer }
        ensures errors { errors_written result ≡ 0 }
    {
        StdWriter {
            writer,
            errors: 0,
            is_flushed: false,
        }
    }

    /// The writer of std.
    pub fn writer(&self) -> &T
        ensures { result.now ≡ std_writer_in self.now }
    {
        &self.writer
    }
}

/// Each call asks the writer of std once, which is trusted.
impl<T: Write> Writer for StdWriter<T> {
    ghost use Rattle.std.specs.Prelude.{IsTrue};

    ghost errors = { λ w. w.errors };

    ghost flushed = { λ w. IsTrue w.is_flushed };

    ghost contents = { λ w. T.contents w.writer };

    fn write(&mut self, piece: &[u8]) -> io::Result<usize> {
        self.is_flushed = false;
        match self.writer.write(piece) {
            Ok(count) if count > 0 => Ok(count),
            other => {
                self.errors = self.errors.saturating_add(1);
                other
            }
        }
    }

    fn flush(&mut self) -> io::Result<()> {
        match self.writer.flush() {
            Ok(()) => {
                self.is_flushed = true;
                Ok(())
            }
            Err(error) => {
                self.errors = self.errors.saturating_add(1);
                Err(error)
            }
        }
    }
}
