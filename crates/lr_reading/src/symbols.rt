//! The symbols of the input are taken to the windows of its frames, however its reads are cut.
ghost use Rattle.std.specs.Prelude.{◌≡◌, ◌↔◌, ◌<◌, ◌≤◌, ◌++◌, [], length, take, IfOk, OnErr};
ghost use Rattle.lr_bits.specs.Faults.{HasCause};
ghost use Rattle.lr_bits.specs.Telling.{KeepsTelling};
ghost use Rattle.lr_lock.specs.declared.sizes.TheConstants.{WINDOW_END};
ghost use Rattle.lr_reading.specs.Feeding.{most_kept};
ghost use Rattle.lr_reading.specs.Reading.{AsksOnce};

use crate::next::Found;
use lr_bits::{FRAME_SYMBOLS, Failed, NoMemory};
use lr_conv::LineCode;
use lr_forms::Stop;
use lr_io::Source;
use lr_lock::{Lock, Step, Window};
use std::alloc::Global;
use std::marker::Model;

/// How many bytes are asked for at a time: those of a frame. Where more were asked for, a pipe would seldom have them.
fn size_within(left: u64) -> usize
    requires left { 0 < left }
    ensures some { 0 < result }
    ensures left { result ≤ left }
    ensures most { result ≤ FRAME_SYMBOLS }
{
    if left < FRAME_SYMBOLS as u64 {
        left as usize
    } else {
        FRAME_SYMBOLS
    }
}

/// Moves at most `size` bytes of the source to the front of `into`.
fn take_within<S: Source>(source: &mut S, into: &mut [u8], size: usize) -> Result<usize, Failed>
    requires some { 0 < size }
    requires room { size ≤ length into.old }
    ensures cause { HasCause (S.faults source.old) (S.faults source.new) result }
    ensures within { IfOk result (λ n. n ≤ size) }
    ensures tell { KeepsTelling (S.tells source.old) (S.tells source.new) }
    ensures moved { S.tells source.old → IfOk result (λ n. S.left source.old ≡ take n into.new ++ S.left source.new) }
    ensures ended { S.tells source.old → IfOk result (λ n. (n ≡ 0) ↔ (S.left source.old ≡ [])) }
    ensures failed { S.tells source.old → OnErr result (S.left source.new ≡ S.left source.old) }
    ensures asked { IfOk result (λ n. AsksOnce S.Source source.old (take n into.new) source.new) }
    ensures refused { OnErr result (AsksOnce S.Source source.old [] source.new) }
    ensures stays { length into.new ≡ length into.old }
{
    source.take(&mut into[..size])
}

/// The lock, and a buffer for what is taken at a time.
#[derive(Drop)]
pub(crate) struct SymbolFeed {
    lock: Lock,
    buffer: Vec<u8>,
    taken: u64,
    most: u64,
    /// Whether the last call of the source gave fewer symbols than a frame has, or there was none yet.
    short: bool,
    /// Why no more is taken, once the lock is finished.
    stop: Stop,
}

impl Model for SymbolFeed {
    ghost use Rattle.std.specs.Prelude.{◌≡◌, ◌≤◌, ◌+◌, ◌^◌, length};
    ghost use Rattle.lr_bits.specs.declared.sizes.TheConstants.{FRAME_SYMBOLS as frame_symbols};
    ghost use Rattle.lr_lock.specs.Thresholds.{lock_symbols};
    ghost use Rattle.lr_reading.specs.Feeding.{FeedState};

    ghost Value = { FeedState };

    ghost view = { λ f. record {
      lock = f.lock;
      taken = f.taken;
      most = f.most;
      short = f.short;
      stop = f.stop;
    } };

    ghost invariant = { λ f. (length f.buffer.items ≡ frame_symbols) × (f.taken ≤ f.most) × (f.most ≤ 2 ^ 61)
        × (f.lock.place + length f.lock.kept ≤ f.taken) × (length f.lock.kept ≤ lock_symbols) };
}

impl SymbolFeed {
    ghost use Rattle.std.specs.Prelude.{
      ◌≡◌,
      ◌<◌,
      ◌≤◌,
      ◌+◌,
      ◌-◌,
      ◌^◌,
      Bool,
      false,
      true,
      is_none,
      IfOk,
      length,
      cond,
    };
    ghost use Rattle.lr_reading.specs.Reading.{at_source};
    ghost use Rattle.lr_reading.specs.Feeding.{
      IsFreshFeed,
      IsStanding,
      steps_left,
      symbols_left,
      FeedsOrStops,
      FedSoFar,
      FeedsOn,
      Feeds,
      Taken,
      symbols_from,
    };
    ghost use Rattle.lr_forms.specs.declared.forms.Decoding.{Decoding};
    ghost use Rattle.lr_reading.specs.declared.next.Found.TheVariants.{Whole, Noise};

    /// The memory that feeding symbols of this line code takes. At most `most` bytes will be taken.
    pub(crate) fn new(alloc: Global, line: LineCode, most: u64) -> Result<Self, NoMemory>
        requires { most ≤ 2 ^ 61 }
        ensures fresh { IfOk result (IsFreshFeed most) }
        ensures line { IfOk result (λ feed. feed.lock.line ≡ line) }
    {
        let lock = Lock::new(alloc, line)?;
        let buffer = vec![in alloc; 0; FRAME_SYMBOLS]?;
        Ok(SymbolFeed {
            lock,
            buffer,
            taken: 0,
            most,
            short: true,
            stop: Stop::End,
        })
    }

    /// How many bytes were taken.
    pub(crate) fn bytes_taken(&self) -> u64
        ensures { result ≡ self.now.taken }
    {
        self.taken
    }

    /// Feeds the lock what the source gives, a frame's symbols at most. Answers why there is nothing to feed, if so.
    fn take<S: Source>(&mut self, source: &mut S) -> Option<Stop>
        requires unfinished { self.old.lock.finished ≡ false }
        requires looked { length self.old.lock.kept < WINDOW_END }
        ensures takes { FeedsOrStops S.Source result (at_source self.old source.old) (at_source self.new source.new) }
    {
        let left = self.most - self.taken;
        if left == 0 {
            return Some(Stop::Limit);
        }
        let size = size_within(left);
        match take_within(source, &mut self.buffer, size) {
            Err(Failed) => Some(Stop::Fault),
            Ok(0) => Some(Stop::End),
            Ok(count) => {
                self.lock.feed_bytes(&self.buffer[..count]);
                self.taken += count as u64;
                self.short = count < FRAME_SYMBOLS;
                None
            }
        }
    }

    /// No more bytes are taken.
    fn finish(&mut self, stop: Stop)
        ensures { self.new ≡ record self.old { lock = record self.old.lock { finished = true }; stop = stop } }
    {
        self.lock.finish();
        self.stop = stop;
    }

    /// Feeds the lock once more, or finishes it. The lock has looked: it keeps no whole window.
    fn more<S: Source>(&mut self, source: &mut S)
        requires unfinished { self.old.lock.finished ≡ false }
        requires looked { length self.old.lock.kept < WINDOW_END }
        ensures feeds { (decoding : Decoding) (so_far : Taken _) (under_way : Bool)
            → FedSoFar (symbols_from S.Source decoding) so_far (at_source self.old source.old)
            → (under_way ≡ true → (is_none self.old.lock.held ≡ false) × (self.old.short ≡ false))
            → FeedsOn (symbols_from S.Source decoding) (under_way ≡ true) (at_source so_far source.old)
            (at_source self.new source.new) }
        ensures standing { IsStanding self.old.lock → IsStanding self.new.lock }
        ensures most { self.new.most ≡ self.old.most }
        ensures line { self.new.lock.line ≡ self.old.lock.line }
        ensures goes_on { steps_left self.new < steps_left self.old }
        ensures fewer { symbols_left self.new ≤ symbols_left self.old }
    {
        if let Some(stop) = self.take(source) {
            self.finish(stop);
        }
    }

    /// Whether the source isn't asked before what is under way was taken: while the lock searches, and where the source
    /// has just given fewer symbols than a frame has, since it may have nothing at hand.
    fn holds_back(&self, under_way: bool) -> bool
        ensures waits { result ≡ true → under_way ≡ true }
        ensures calm { result ≡ false → under_way ≡ true
            → (is_none self.now.lock.held ≡ false) × (self.now.short ≡ false) }
    {
        under_way && (self.short || self.lock.searches())
    }

    /// Takes bytes until the next frame is shown in the window, or there is none. Where windows are under way it takes
    /// none while the lock searches: they aren't to wait for as long as there is noise.
    pub(crate) fn next<S: Source>(
        &mut self,
        source: &mut S,
        window: &mut Window,
        under_way: bool,
    ) -> Found
        requires standing { IsStanding self.old.lock }
        requires line { window.old.line ≡ self.old.lock.line }
        ensures feeds { (decoding : Decoding) (so_far : Taken _) → window.old.passes ≡ decoding.passes
            → FedSoFar (symbols_from S.Source decoding) so_far (at_source self.old source.old)
            → Feeds (symbols_from S.Source decoding) (under_way ≡ true) result (at_source so_far source.old) window.new
            (at_source self.new source.new) }
        ensures standing { IsStanding self.new.lock }
        ensures most { self.new.most ≡ self.old.most }
        ensures line { self.new.lock.line ≡ self.old.lock.line }
        ensures window_line { window.new.line ≡ window.old.line }
        ensures window_passes { window.new.passes ≡ window.old.passes }
        ensures fewer { result ≡ Whole → symbols_left self.new < symbols_left self.old }
        ensures no_more { symbols_left self.new ≤ symbols_left self.old }
        ensures short { result ≡ Whole → length self.new.lock.kept ≤ most_kept }
        ensures looked { result ≡ Noise → length self.new.lock.kept < WINDOW_END }
    {
        'steps: loop {
            match self.lock.next_window(window) {
                Step::Window => return Found::Whole,
                Step::End => return Found::Ended(self.stop),
                Step::More => {
                    if self.holds_back(under_way) {
                        return Found::Noise;
                    }
                    self.more(source);
                }
            }
        }
    }
}
