//! Where bytes come from: in memory, and from a reader.
ghost use Rattle.std.specs.Prelude.{◌≡◌, ◌↔◌, ◌≤◌, ◌<◌, ◌++◌, List, [], ℕ, Result, length, take, IfOk, OnErr};
ghost use Rattle.lr_bits.specs.Faults.{HasCause};
ghost use Rattle.lr_bits.specs.Telling.{KeepsTelling};
ghost use Rattle.lr_bits.specs.declared.refusals.Failed.{Failed};

use crate::Reader;
use crate::places::{reach, strike};
use lr_bits::Failed;

/// Bytes that come in pieces.
pub trait Source {
    /// How often it has failed.
    ghost faults: { Self → ℕ };

    /// Whether it tells the bytes that are left.
    ghost tells: { Self → Type 0 };

    /// The bytes that are left, where it tells them.
    ghost left: { Self → List ℕ };

    /// Whether one call may give this answer and make the second of the first. A kind of source may say more by it than
    /// that there was a call, as that its calls are counted, and then a reader of a contract knows which calls there
    /// were, and what they answered.
    ghost asked: { Self → Result ℕ Failed → Self → Type 0 } = { λ _ _ _. Unit {0} };

    /// Moves the next bytes to the front of `into`, and answers how many. A source that tells its bytes moves none only
    /// at its end. It fails exactly where its count rises, and nothing was taken then.
    fn take(&mut self, into: &mut [u8]) -> Result<usize, Failed>
        requires { 0 < length into.old }
        ensures cause { HasCause (faults self.old) (faults self.new) result }
        ensures within { IfOk result (λ n. n ≤ length into.new) }
        ensures tell { KeepsTelling (tells self.old) (tells self.new) }
        ensures moved { tells self.old → IfOk result (λ n. left self.old ≡ take n into.new ++ left self.new) }
        ensures ended { tells self.old → IfOk result (λ n. (n ≡ 0) ↔ (left self.old ≡ [])) }
        ensures failed { tells self.old → OnErr result (left self.new ≡ left self.old) }
        ensures asked { asked self.old result self.new };
}

/// A reader as a source. It tells what is left where each reader of its type does, and counts each `Err`. Each call
/// asks the reader once: no error is passed over, and nothing is tried again after one. Nothing is known of `into`
/// where the reader fails.
#[derive(Drop)]
pub struct ReadSource<T: Reader> {
    reader: T,
    faults: u64,
}

impl<T: Reader> ReadSource<T> {
    ghost use Rattle.std.specs.Prelude.{◌≡◌};
    ghost use Rattle.lr_io.specs.Streams.{read_faults, reader_in};

    /// The bytes that this reader gives.
    pub fn of(reader: T) -> Self
        ensures reader { reader_in result ≡ reader }
        ensures faults { read_faults result ≡ 0 }
    {
        ReadSource { reader, faults: 0 }
    }

    /// The reader.
    pub fn reader(&self) -> &T
        ensures { result.now ≡ reader_in self.now }
    {
        &self.reader
    }
}

impl<T: Reader> Source for ReadSource<T> {
    ghost use Rattle.std.specs.Prelude.{◌≡◌, ◌↔◌, ◌≤◌, ◌<◌, ◌++◌, length, take, IfOk, OnErr};
    ghost use Rattle.lr_bits.specs.Faults.{HasCause, FailsAtOnce};
    ghost use Rattle.lr_io.specs.Streams.{AllTell, ReadsOnce, left_in, read_faults, reader_in};

    ghost faults = { λ s. s.faults };

    ghost tells = { λ _. AllTell T.remaining };

    ghost left = { left_in T.remaining };

    ghost asked = { ReadsOnce T.calls T.errors };

    fn take(&mut self, into: &mut [u8]) -> Result<usize, Failed>
        requires { 0 < length into.old }
        ensures cause { HasCause (read_faults self.old) (read_faults self.new) result }
        ensures within { IfOk result (λ n. n ≤ length into.new) }
        ensures moved { AllTell T.remaining → IfOk result
            (λ n. left_in T.remaining self.old ≡ take n into.new ++ left_in T.remaining self.new) }
        ensures ended { AllTell T.remaining → IfOk result (λ n. (n ≡ 0) ↔ (left_in T.remaining self.old ≡ [])) }
        ensures failed { AllTell T.remaining
            → OnErr result (left_in T.remaining self.new ≡ left_in T.remaining self.old) }
        ensures errors { FailsAtOnce (T.errors (reader_in self.old)) (T.errors (reader_in self.new)) result }
        ensures asked { ReadsOnce T.calls T.errors self.old result self.new }
    {
        match self.reader.read(into) {
            Ok(count) => Ok(count),
            Err(_) => {
                self.faults = self.faults.saturating_add(1);
                Err(Failed)
            }
        }
    }
}

/// Bytes in memory as a source. It can be told to cut its pieces, and to fail, at stated places. A place is a
/// number of bytes moved so far.
#[derive(Drop)]
pub struct MemSource {
    bytes: Vec<u8>,
    at: usize,
    cuts: Vec<u64>,
    failing: Vec<u64>,
    faults: u64,
    ghost inside: { at ≤ length bytes.items },
}

impl MemSource {
    ghost use Rattle.std.specs.Prelude.{◌≡◌};
    ghost use Rattle.lr_io.specs.MemSource.{bytes_moved, left_of, cut_places, failing_places, faults_of};

    /// These bytes, in pieces that end at the cuts, with one failed call at each place of `failing`.
    pub fn of(bytes: Vec<u8>, cuts: Vec<u64>, failing: Vec<u64>) -> Self
        ensures moved { bytes_moved result ≡ 0 }
        ensures left { left_of result ≡ bytes.items }
        ensures cuts { cut_places result ≡ cuts.items }
        ensures failing { failing_places result ≡ failing.items }
        ensures faults { faults_of result ≡ 0 }
    {
        MemSource {
            bytes,
            at: 0,
            cuts,
            failing,
            faults: 0,
        }
    }
}

impl Source for MemSource {
    ghost use Rattle.std.specs.Prelude.{
      ◌≡◌,
      ◌↔◌,
      ◌+◌,
      ◌≤◌,
      ◌<◌,
      ◌++◌,
      Contains,
      length,
      min,
      take,
      IfOk,
      OnErr,
      IsErr,
      [],
      if◌then◌else◌,
      is_err,
      filter,
      not,
      ◌==◌,
    };
    ghost use Rattle.lr_bits.specs.Faults.{HasCause};
    ghost use Rattle.lr_io.specs.Places.{MovesMost};
    ghost use Rattle.lr_io.specs.MemSource.{bytes_moved, left_of, cut_places, faults_of, failing_places};
    ghost use Rattle.lr_io.specs.MemSource.{stopping_places, MayAnswer};

    ghost faults = { λ s. s.faults };

    ghost tells = { λ _. Unit {0} };

    ghost left = { left_of };

    ghost asked = { MayAnswer };

    /// It fails exactly at a stated place that hasn't failed yet. Else it moves all that is wanted or left, or as many
    /// bytes as stand before the next such place or cut. It takes no memory.
    fn take(&mut self, into: &mut [u8]) -> Result<usize, Failed>
        requires { 0 < length into.old }
        ensures cause { HasCause (faults_of self.old) (faults_of self.new) result }
        ensures within { IfOk result (λ n. n ≤ length into.new) }
        ensures moved { IfOk result (λ n. left_of self.old ≡ take n into.new ++ left_of self.new) }
        ensures ended { IfOk result (λ n. (n ≡ 0) ↔ (left_of self.old ≡ [])) }
        ensures failed { OnErr result (left_of self.new ≡ left_of self.old) }

        ensures exact { IsErr result ↔ Contains (failing_places self.old) (bytes_moved self.old) }
        ensures spent { failing_places self.new ≡ (if is_err result
            then filter (λ p. not (p == bytes_moved self.old)) (failing_places self.old) else failing_places self.old) }
        ensures count { IfOk result (λ n. bytes_moved self.new ≡ bytes_moved self.old + n) }
        ensures stays { OnErr result (bytes_moved self.new ≡ bytes_moved self.old) }
        ensures same_cuts { cut_places self.new ≡ cut_places self.old }
        ensures most { IfOk result (MovesMost (stopping_places self.old) (bytes_moved self.old)
            (min (length into.new) (length (left_of self.old)))) }
        ensures untouched { OnErr result (into.new ≡ into.old) }
        ensures asked { MayAnswer self.old result self.new }
    {
        let place = self.at as u64;
        if self.failing.contains(&place) {
            strike(&mut self.failing, place);
            self.faults = self.faults.saturating_add(1);
            return Err(Failed);
        }
        let most = into.len().min(self.bytes.len() - self.at);
        if most == 0 {
            return Ok(0);
        }
        let count = reach(&self.cuts, place, reach(&self.failing, place, most));
        let end = self.at + count;
        into[..count].copy_from_slice(&self.bytes[self.at..end]);
        self.at = end;
        Ok(count)
    }
}

/// Bytes in memory as a source that never fails.
#[derive(Drop)]
pub struct SureSource {
    bytes: Vec<u8>,
    at: usize,
    ghost inside: { at ≤ length bytes.items },
}

impl SureSource {
    ghost use Rattle.std.specs.Prelude.{◌≡◌};
    ghost use Rattle.lr_io.specs.SureSource.{left_of};

    /// These bytes, and then their end.
    pub fn of(bytes: Vec<u8>) -> Self
        ensures { left_of result ≡ bytes.items }
    {
        SureSource { bytes, at: 0 }
    }
}

impl Source for SureSource {
    ghost use Rattle.std.specs.Prelude.{◌≡◌, ◌↔◌, ◌<◌, ◌≤◌, ◌++◌, [], length, min, take, IfOk, IsOk};
    ghost use Rattle.lr_io.specs.SureSource.{left_of};

    ghost faults = { λ _. 0 };

    ghost tells = { λ _. Unit {0} };

    ghost left = { left_of };

    /// It moves all that is wanted or left.
    fn take(&mut self, into: &mut [u8]) -> Result<usize, Failed>
        requires { 0 < length into.old }
        ensures sure { IsOk result }
        ensures within { IfOk result (λ n. n ≤ length into.new) }
        ensures count { IfOk result (λ n. n ≡ min (length into.new) (length (left_of self.old))) }
        ensures moved { IfOk result (λ n. left_of self.old ≡ take n into.new ++ left_of self.new) }
        ensures ended { IfOk result (λ n. (n ≡ 0) ↔ (left_of self.old ≡ [])) }
    {
        let count = into.len().min(self.bytes.len() - self.at);
        let end = self.at + count;
        into[..count].copy_from_slice(&self.bytes[self.at..end]);
        self.at = end;
        Ok(count)
    }
}
