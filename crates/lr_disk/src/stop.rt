//! What a stop leaves of a disk in memory: its calls are made again on the bytes that it had at first.
ghost use Rattle.std.specs.Prelude.{◌≡◌, ◌≤◌, ◌+◌, ◌∷◌, [], length, vec_len, vec_capacity, IfOk};
ghost use Rattle.lr_disk.specs.Mem.{State, after, after_all, at_start, over, reach, span};
ghost use Rattle.lr_disk.specs.Stop.{filled_between};

use crate::past::{Call, extend_within, pad, write_over};
use lr_bits::NoMemory;
use std::alloc::Global;

/// The byte that stands where any byte may stand.
const FILLER: u8 = 0x7F;

/// What calls leave of some bytes: what a crash leaves for sure, what reads give, and the durable bytes with the
/// filler in each range that may hold any bytes.
#[derive(Drop)]
pub(crate) struct Left {
    pub durable: Vec<u8>,
    pub bytes: Vec<u8>,
    pub filled: Vec<u8>,
    pub room: usize,
    ghost few_durable: { length durable.items ≤ room },
    ghost few_bytes: { length bytes.items ≤ room },
    ghost few_filled: { length filled.items ≤ room },
    ghost room_for_durable: { room ≤ vec_capacity durable },
    ghost room_for_bytes: { room ≤ vec_capacity bytes },
    ghost room_for_filled: { room ≤ vec_capacity filled },
}

impl Left {
    ghost use Rattle.lr_disk.specs.Left.{ShowsLeft};
    ghost use Rattle.lr_disk.specs.Stop.{inside, left_of_kind};

    /// The bytes before any call. It takes the room three times.
    pub(crate) fn of(alloc: Global, first: &[u8], room: usize) -> Result<Left, NoMemory>
        requires { length first.now ≤ room }
        ensures shows { IfOk result (ShowsLeft (at_start first.now)) }
        ensures room { IfOk result (λ left. left.room ≡ room) }
    {
        let mut durable = Vec::with_capacity(alloc, room)?;
        extend_within(&mut durable, first);
        let mut bytes = Vec::with_capacity(alloc, room)?;
        extend_within(&mut bytes, first);
        let mut filled = Vec::with_capacity(alloc, room)?;
        extend_within(&mut filled, first);
        Ok(Left {
            durable,
            bytes,
            filled,
            room,
        })
    }

    /// Makes these calls, one after another.
    pub(crate) fn make_all(&mut self, log: &[u8], calls: &[Call])
        requires logged { reach calls.now ≤ length log.now }
        requires small { span calls.now ≤ self.old.room }
        ensures shows { (s : State) → ShowsLeft s self.old → ShowsLeft (after_all log.now calls.now s) self.new }
        ensures room { self.new.room ≡ self.old.room }
    {
        for call in calls {
            self.make(log, *call);
        }
    }

    /// Begins one call more: what it writes or cuts is pending, and what it syncs is pending still.
    pub(crate) fn stop_in(&mut self, log: &[u8], call: Call)
        requires logged { reach (call ∷ []) ≤ length log.now }
        requires small { span (call ∷ []) ≤ self.old.room }
        ensures shows { (s : State) → ShowsLeft s self.old → ShowsLeft (inside log.now call s) self.new }
        ensures room { self.new.room ≡ self.old.room }
    {
        match call {
            Call::Kept | Call::Synced => {}
            Call::Wrote { .. } | Call::Shortened(_) => self.make(log, call),
        }
    }

    /// Makes one call more.
    pub(crate) fn make(&mut self, log: &[u8], call: Call)
        requires logged { reach (call ∷ []) ≤ length log.now }
        requires small { span (call ∷ []) ≤ self.old.room }
        ensures shows { (s : State) → ShowsLeft s self.old → ShowsLeft (after log.now call s) self.new }
        ensures room { self.new.room ≡ self.old.room }
    {
        match call {
            Call::Kept => {}
            Call::Wrote { at, from, count } => {
                let start = from as usize;
                self.write(at as usize, &log[start..start + count as usize]);
            }
            Call::Shortened(to) => {
                self.bytes.truncate(to as usize);
                self.filled.truncate(to as usize);
            }
            Call::Synced => self.sync(),
        }
    }

    /// Writes the bytes at a place.
    fn write(&mut self, at: usize, piece: &[u8])
        requires { at + length piece.now ≤ self.old.room }
        ensures shows { (s : State) → ShowsLeft s self.old → ShowsLeft (over at piece.now s) self.new }
        ensures room { self.new.room ≡ self.old.room }
    {
        let from = at.min(self.filled.len());
        fill_between(&mut self.filled, from, at + piece.len());
        write_over(&mut self.bytes, at, piece);
    }

    /// Makes all bytes durable.
    fn sync(&mut self)
        ensures shows { (s : State) → ShowsLeft s self.old
            → ShowsLeft (record { durable = s.contents; pending = []; contents = s.contents }) self.new }
        ensures room { self.new.room ≡ self.old.room }
    {
        refill(&mut self.durable, &self.bytes);
        refill(&mut self.filled, &self.bytes);
    }

    /// The bytes that a stop of this kind leaves.
    pub(crate) fn kind(self, kind: u8) -> Vec<u8>
        ensures value { (s : State) → ShowsLeft s self → result.items ≡ left_of_kind kind s }
        ensures few { length result.items ≤ self.room }
    {
        match kind {
            0 => self.durable,
            1 => self.bytes,
            _ => self.filled,
        }
    }
}

/// Puts the filler from one place to another.
fn fill_between(file: &mut Vec<u8>, from: usize, to: usize)
    requires order { from ≤ to }
    requires inside { from ≤ length file.old.items }
    requires room { to ≤ vec_capacity file.old }
    ensures items { file.new.items ≡ filled_between from to file.old.items }
    ensures capacity { vec_capacity file.old ≤ vec_capacity file.new }
{
    pad(file, to);
    file[from..to].fill(FILLER);
}

/// Puts these bytes in the place of those that are there.
fn refill(file: &mut Vec<u8>, bytes: &[u8])
    requires { length bytes.now ≤ vec_capacity file.old }
    ensures items { file.new.items ≡ bytes.now }
    ensures capacity { vec_capacity file.old ≤ vec_capacity file.new }
{
    file.truncate(0);
    extend_within(file, bytes);
}
