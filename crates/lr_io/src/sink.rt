//! Where bytes go: into memory, to a writer, and nowhere.
ghost use Rattle.std.specs.Prelude.{◌≡◌, ◌≤◌, ◌<◌, ◌++◌, List, [], ℕ, length, take, IfOk, OnOk, OnErr, vec_capacity};
ghost use Rattle.lr_bits.specs.Faults.{HasCause, WritesAtOnce};
ghost use Rattle.lr_bits.specs.Telling.{KeepsTelling};
ghost use Rattle.std.specs.Io.KnownBytes.{Appends};
ghost use Rattle.lr_io.specs.Pieces.{AppendsPrefix, PutsPart};

use crate::Writer;
use crate::places::{reach, strike};
use lr_bits::{Failed, NoMemory};
use std::alloc::Global;

/// Where bytes go.
pub trait Sink {
    /// How often it has failed.
    ghost faults: { Self → ℕ };

    /// Whether it tells the bytes that it holds.
    ghost tells: { Self → Type 0 };

    /// The bytes that it holds, where it tells them.
    ghost contents: { Self → List ℕ };

    /// Appends the first bytes of the piece, one at least, and answers how many. It fails exactly where its count
    /// rises, and nothing was appended then.
    fn put(&mut self, piece: &[u8]) -> Result<usize, Failed>
        requires { 0 < length piece.now }
        ensures cause { HasCause (faults self.old) (faults self.new) result }
        ensures some { IfOk result (λ n. 0 < n) }
        ensures within { IfOk result (λ n. n ≤ length piece.now) }
        ensures tell { KeepsTelling (tells self.old) (tells self.new) }
        ensures appended { tells self.old
            → IfOk result (λ n. contents self.new ≡ contents self.old ++ take n piece.now) }
        ensures failed { tells self.old → OnErr result (contents self.new ≡ contents self.old) };
}

/// Appends all bytes. Where it fails a prefix of them that isn't all of them was appended.
pub fn put_all<O: Sink>(sink: &mut O, bytes: &[u8]) -> Result<(), Failed>
    ensures cause { HasCause (O.faults sink.old) (O.faults sink.new) result }
    ensures tell { KeepsTelling (O.tells sink.old) (O.tells sink.new) }
    ensures appended { O.tells sink.old → OnOk result (O.contents sink.new ≡ O.contents sink.old ++ bytes.now) }
    ensures failed { O.tells sink.old → OnErr result (PutsPart bytes.now (O.contents sink.old) (O.contents sink.new)) }
{
    let mut rest = bytes;
    while rest.len() > 0 {
        let count = sink.put(rest)?;
        rest = &rest[count..];
    }
    Ok(())
}

/// A writer as a sink, which writes and flushes each piece. It counts each `Err` and each write of nothing. No error of
/// the writer is passed over, and nothing is tried again after one. As a sink it tells nothing of what it holds, since
/// a flush can fail after a write that did not. What the writer holds, where that tells it, is said of `put` beside the
/// trait's clauses.
#[derive(Drop)]
pub struct WriteSink<T: Writer> {
    writer: T,
    faults: u64,
}

impl<T: Writer> WriteSink<T> {
    ghost use Rattle.std.specs.Prelude.{◌≡◌};
    ghost use Rattle.lr_io.specs.Streams.{write_faults, writer_in};

    /// What goes to this writer.
    pub fn of(writer: T) -> Self
        ensures writer { writer_in result ≡ writer }
        ensures faults { write_faults result ≡ 0 }
    {
        WriteSink { writer, faults: 0 }
    }

    /// The writer.
    pub fn writer(&self) -> &T
        ensures { result.now ≡ writer_in self.now }
    {
        &self.writer
    }
}

/// Writes once, and flushes what was written.
fn write_and_flush<T: Writer>(writer: &mut T, piece: &[u8]) -> std::io::Result<usize>
    requires { 0 < length piece.now }
    ensures within { IfOk result (λ n. n ≤ length piece.now) }
    ensures appended { IfOk result (λ n. Appends (T.contents writer.old) (T.contents writer.new) (take n piece.now)) }
    ensures failed { OnErr result (AppendsPrefix (T.contents writer.old) (T.contents writer.new) piece.now) }
    ensures errors { WritesAtOnce (T.errors writer.old) (T.errors writer.new) result }
    ensures flushed { IfOk result (λ n. 0 < n → T.flushed writer.new) }
{
    let count = writer.write(piece)?;
    if count == 0 {
        return Ok(0);
    }
    writer.flush().and(Ok(count))
}

impl<T: Writer> Sink for WriteSink<T> {
    ghost use Rattle.std.specs.Prelude.{◌≡◌, ◌<◌, ◌≤◌, IfOk, OnOk, OnErr, length, take};
    ghost use Rattle.std.specs.Io.KnownBytes.{Appends};
    ghost use Rattle.lr_bits.specs.Faults.{HasCause, FailsAtOnce};
    ghost use Rattle.lr_io.specs.Pieces.{AppendsPrefix};
    ghost use Rattle.lr_io.specs.Streams.{write_faults, writer_in};

    ghost faults = { write_faults };

    ghost tells = { λ _. ⊥ };

    ghost contents = { λ _. [] };

    /// Where it fails the writer holds some prefix of the piece more, or none of it.
    fn put(&mut self, piece: &[u8]) -> Result<usize, Failed>
        requires { 0 < length piece.now }
        ensures cause { HasCause (write_faults self.old) (write_faults self.new) result }
        ensures some { IfOk result (λ n. 0 < n) }
        ensures within { IfOk result (λ n. n ≤ length piece.now) }

        ensures appended { IfOk result (λ n. Appends (T.contents (writer_in self.old)) (T.contents (writer_in self.new))
            (take n piece.now)) }
        ensures failed { OnErr result (AppendsPrefix (T.contents (writer_in self.old)) (T.contents (writer_in self.new))
            piece.now) }
        ensures errors { FailsAtOnce (T.errors (writer_in self.old)) (T.errors (writer_in self.new)) result }
        ensures flushed { OnOk result (T.flushed (writer_in self.new)) }
    {
        match write_and_flush(&mut self.writer, piece) {
            Ok(count) if count > 0 => Ok(count),
            _ => {
                self.faults = self.faults.saturating_add(1);
                Err(Failed)
            }
        }
    }
}

/// Bytes in memory as a sink with a room. It can be told to fail at stated places. A place is a number of bytes
/// held so far.
#[derive(Drop)]
pub struct MemSink {
    bytes: Vec<u8>,
    room: usize,
    failing: Vec<u64>,
    faults: u64,
    ghost taken: { room ≤ vec_capacity bytes },
    ghost inside: { length bytes.items ≤ room },
}

impl MemSink {
    ghost use Rattle.std.specs.Prelude.{◌≡◌, [], IfOk};
    ghost use Rattle.lr_io.specs.MemSink.{held_by, room_of, failing_places, faults_of};

    /// An empty sink, which takes its room now, with one failed call at each place of `failing`.
    pub fn of(alloc: Global, failing: Vec<u64>, room: usize) -> Result<Self, NoMemory>
        ensures empty { IfOk result (λ sink. held_by sink ≡ []) }
        ensures room { IfOk result (λ sink. room_of sink ≡ room) }
        ensures failing { IfOk result (λ sink. failing_places sink ≡ failing.items) }
        ensures faults { IfOk result (λ sink. faults_of sink ≡ 0) }
    {
        Ok(MemSink {
            bytes: Vec::with_capacity(alloc, room)?,
            room,
            failing,
            faults: 0,
        })
    }

    /// The bytes that were put.
    pub fn as_slice(&self) -> &[u8]
        ensures { result.now ≡ held_by self.now }
    {
        &self.bytes
    }
}

impl Sink for MemSink {
    ghost use Rattle.std.specs.Prelude.{
      ◌≡◌,
      ◌↔◌,
      ◌⊎◌,
      ◌≤◌,
      ◌<◌,
      ◌-◌,
      ◌++◌,
      Contains,
      length,
      min,
      take,
      IfOk,
      OnErr,
      IsErr,
      if◌then◌else◌,
      is_err,
      filter,
      not,
      ◌==◌,
    };
    ghost use Rattle.lr_bits.specs.Faults.{HasCause};
    ghost use Rattle.lr_io.specs.Places.{MovesMost};
    ghost use Rattle.lr_io.specs.MemSink.{held_by, room_of, faults_of, failing_places};

    ghost faults = { λ s. s.faults };

    ghost tells = { λ _. Unit {0} };

    ghost contents = { held_by };

    /// It fails exactly at a stated place that hasn't failed yet and where its room is full. Else it appends the whole
    /// piece, or as many bytes as there is room for, or as stand before the next such place. It takes no memory.
    fn put(&mut self, piece: &[u8]) -> Result<usize, Failed>
        requires { 0 < length piece.now }
        ensures cause { HasCause (faults_of self.old) (faults_of self.new) result }
        ensures some { IfOk result (λ n. 0 < n) }
        ensures within { IfOk result (λ n. n ≤ length piece.now) }
        ensures appended { IfOk result (λ n. held_by self.new ≡ held_by self.old ++ take n piece.now) }
        ensures failed { OnErr result (held_by self.new ≡ held_by self.old) }

        ensures exact { IsErr result ↔ (Contains (failing_places self.old) (length (held_by self.old))
            ⊎ (length (held_by self.old) ≡ room_of self.old)) }
        ensures spent { failing_places self.new ≡ (if is_err result
            then filter (λ p. not (p == length (held_by self.old)))
            (failing_places self.old) else failing_places self.old) }
        ensures room { room_of self.new ≡ room_of self.old }
        ensures most { IfOk result (MovesMost (failing_places self.old) (length (held_by self.old))
            (min (length piece.now) (room_of self.old - length (held_by self.old)))) }
    {
        let place = self.bytes.len() as u64;
        let most = piece.len().min(self.room - self.bytes.len());
        if most == 0 || self.failing.contains(&place) {
            strike(&mut self.failing, place);
            self.faults = self.faults.saturating_add(1);
            return Err(Failed);
        }
        let count = reach(&self.failing, place, most);
        if self.bytes.extend_from_slice(&piece[..count]).is_err() {
            unreachable!();
        }
        Ok(count)
    }
}

/// A sink that never fails. It keeps no bytes and tells none.
#[derive(Drop)]
pub struct SureSink;

impl SureSink {
    /// A sink that takes all bytes and keeps none.
    pub fn new() -> Self {
        SureSink
    }
}

impl Sink for SureSink {
    ghost faults = { λ _. 0 };

    ghost tells = { λ _. ⊥ };

    ghost contents = { λ _. [] };

    fn put(&mut self, piece: &[u8]) -> Result<usize, Failed> {
        Ok(piece.len())
    }
}
