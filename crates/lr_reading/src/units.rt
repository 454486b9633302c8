//! The input is gathered to units of a fixed number of bytes, however its reads are cut.
ghost use Rattle.lr_bits.specs.Faults.{HasCause};

use crate::next::Next;
use lr_bits::Failed;
use lr_forms::Stop;
use lr_io::Source;
use std::marker::Model;

/// The unit that is gathered, of N bytes.
#[derive(Drop)]
pub(crate) struct UnitFeed<const N: usize> {
    buffer: [u8; N],
    filled: usize,
    taken: u64,
    most: u64,
}

impl<const N: usize> Model for UnitFeed<N> {
    ghost use Rattle.std.specs.Prelude.{take, ◌≤◌};
    ghost use Rattle.lr_bits.specs.declared.sizes.TheConstants.{FRAME_SYMBOLS};
    ghost use Rattle.lr_reading.specs.Gathering.{UnitState};

    ghost Value = { UnitState };

    ghost view = { λ u. record { held = take u.filled u.buffer; taken = u.taken; most = u.most } };

    ghost invariant = { λ u. (u.filled ≤ N) × (N ≤ FRAME_SYMBOLS) × (u.taken ≤ u.most) };
}

impl<const N: usize> UnitFeed<N> {
    ghost use Rattle.std.specs.Prelude.{◌≡◌, ◌<◌, ◌≤◌, ◌+◌, ◌↔◌, [], length, IsTrue, IfOk, OnErr};
    ghost use Rattle.lr_bits.specs.Faults.{HasCause};
    ghost use Rattle.lr_bits.specs.declared.sizes.TheConstants.{FRAME_SYMBOLS};
    ghost use Rattle.lr_reading.specs.Gathering.{Gathers, GathersFor, GathersOn, GathersUpTo};
    ghost use Rattle.lr_reading.specs.Reading.{at_source};

    /// Nothing is held, and at most `most` bytes will be taken.
    pub(crate) fn new(most: u64) -> Self
        requires { N ≤ FRAME_SYMBOLS }
        ensures { result ≡ record { held = []; taken = 0; most = most } }
    {
        UnitFeed {
            buffer: [0; N],
            filled: 0,
            taken: 0,
            most,
        }
    }

    pub(crate) fn len(&self) -> usize
        ensures { result ≡ length self.now.held }
    {
        self.filled
    }

    /// How many bytes were taken in all.
    pub(crate) fn bytes_taken(&self) -> u64
        ensures { result ≡ self.now.taken }
    {
        self.taken
    }

    /// The unit, where it is whole.
    pub(crate) fn unit(&self) -> &[u8; N]
        requires { length self.now.held ≡ N }
        ensures { result.now ≡ self.now.held }
    {
        &self.buffer
    }

    /// Begins the next unit.
    pub(crate) fn clear(&mut self)
        ensures { self.new ≡ record self.old { held = [] } }
    {
        self.filled = 0;
    }

    fn is_whole(&self) -> bool
        ensures { IsTrue result ↔ (N ≤ length self.now.held) }
    {
        self.filled >= N
    }

    /// Whether as many bytes were taken as may be.
    fn is_at_limit(&self) -> bool
        ensures limit { IsTrue result ↔ (self.now.most ≤ self.now.taken) }
        ensures few { self.now.taken ≤ self.now.most }
        ensures short { length self.now.held ≤ N }
    {
        self.taken >= self.most
    }

    /// Takes a piece after what is held, and answers how long it is.
    fn take<S: Source>(&mut self, source: &mut S) -> Result<usize, Failed>
        requires room { length self.old.held < N }
        requires more { self.old.taken < self.old.most }
        ensures cause { HasCause (S.faults source.old) (S.faults source.new) result }
        ensures gathered { Gathers S.Source N (at_source self.old source.old) (at_source self.new source.new) }
        ensures went_on { IfOk result
            (λ n. 0 < n → GathersOn S.Source N (at_source self.old source.old) (at_source self.new source.new)) }
        ensures count { IfOk result (λ n. self.new.taken ≡ self.old.taken + n) }
        ensures ended { IfOk result (λ n. n ≡ 0 → S.tells source.old → S.left source.new ≡ []) }
        ensures failed { OnErr result (self.new ≡ self.old) }
        ensures short { length self.new.held ≤ N }
    {
        let room = N - self.filled;
        let left = self.most - self.taken;
        let most = if left < room as u64 {
            left as usize
        } else {
            room
        };
        let filled = self.filled;
        let buffer = &mut self.buffer[..];
        let count = source.take(&mut buffer[filled..filled + most])?;
        self.filled += count;
        self.taken += count as u64;
        Ok(count)
    }

    /// Takes bytes until the unit is whole, or no more are to be had.
    pub(crate) fn next<S: Source>(&mut self, source: &mut S) -> Next
        ensures gathered { GathersUpTo S.Source N result (at_source self.old source.old)
            (at_source self.new source.new) }
        ensures reason { GathersFor S.Source N result source.old (at_source self.new source.new) }
    {
        // So the proof sees how many bytes the unit holds.
        let _ = &self.buffer;
        while !self.is_whole() {
            if self.is_at_limit() {
                return Next::Ended(Stop::Limit);
            }
            match self.take(source) {
                Ok(0) => return Next::Ended(Stop::End),
                Ok(_) => {}
                Err(Failed) => return Next::Ended(Stop::Fault),
            }
        }
        Next::Whole
    }
}
