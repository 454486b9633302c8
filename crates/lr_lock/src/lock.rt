//! The lock, and how it is fed and asked.

ghost use Rattle.std.specs.Prelude.{◌≡◌, ◌≢◌, ◌+◌, ◌-◌, ◌^◌, ◌≤◌, ◌++◌, ℤ, List, [], true, false, length, drop, IfOk};
ghost use Rattle.std.specs.Prelude.{is_none, vec_capacity};
ghost use Rattle.lr_lock.specs.Steps.{Answers};
ghost use Rattle.lr_lock.specs.Standing.{LockStandsFor};
ghost use Rattle.lr_lock.specs.Symbols.{symbol_of, symbols_of};
ghost use Rattle.lr_lock.specs.declared.frame.Frame.{Frame};
ghost use Rattle.lr_lock.specs.Thresholds.{lock_symbols};

use crate::frame::Frame;
use crate::search::find_next;
use crate::sizes::{LOCK_SYMBOLS, WINDOW_END};
use crate::step::Step;
use crate::window::Window;
use lr_bits::{FRAME_SYMBOLS, NoMemory};
use lr_conv::{LineCode, marker_tail};
use std::alloc::Global;
use std::marker::Model;

/// Finds the frames of a stream of symbols that is fed in pieces, and gives their windows in order.
///
/// It has the line code of the symbols, a buffer, of which the first `passed` symbols are done with, and the frame that
/// it stands after, if it doesn't search.
#[derive(Drop)]
pub struct Lock {
    line: LineCode,
    symbols: Vec<i8>,
    passed: usize,
    place: u64,
    held: Option<Frame>,
    finished: bool,
}

impl Model for Lock {
    ghost use Rattle.std.specs.Prelude.{◌+◌, ◌-◌, ◌^◌, ◌≤◌, length, drop, vec_capacity};
    ghost use Rattle.lr_lock.specs.Standing.{LockState};
    ghost use Rattle.lr_lock.specs.Thresholds.{lock_symbols};

    ghost Value = { LockState };

    ghost view = { λ l. record {
      line = l.line;
      place = l.place;
      kept = drop l.passed l.symbols.items;
      held = l.held;
      finished = l.finished;
    } };

    ghost invariant = { λ l. (l.passed ≤ length l.symbols.items) × (length l.symbols.items ≤ lock_symbols) ×
        (lock_symbols ≤ vec_capacity l.symbols) × (l.place + (length l.symbols.items - l.passed) ≤ 2 ^ 62) };
}

/// Lets go of the first symbols.
fn let_go(symbols: &mut Vec<i8>, passed: usize)
    requires { passed ≤ length symbols.old.items }
    ensures items { symbols.new.items ≡ drop passed symbols.old.items }
    ensures capacity { vec_capacity symbols.new ≡ vec_capacity symbols.old }
{
    let left = symbols.len() - passed;
    symbols.copy_within(passed.., 0);
    symbols.truncate(left);
}

/// A byte read as a signed one.
fn symbol_of_byte(byte: u8) -> i8
    ensures { result ≡ symbol_of byte }
{
    byte.cast_signed()
}

/// Writes the bytes, read as signed ones, over as many symbols.
fn write_bytes(symbols: &mut [i8], piece: &[u8])
    requires { length symbols.old ≡ length piece.now }
    ensures { symbols.new ≡ symbols_of piece.now }
{
    for i in 0..piece.len() {
        symbols[i] = symbol_of_byte(piece[i]);
    }
}

/// Puts the bytes, read as signed ones, after the symbols. There is room for them.
fn put_bytes(symbols: &mut Vec<i8>, piece: &[u8])
    requires room { length symbols.old.items + length piece.now ≤ lock_symbols }
    requires capacity { lock_symbols ≤ vec_capacity symbols.old }
    ensures items { symbols.new.items ≡ symbols.old.items ++ symbols_of piece.now }
    ensures capacity { lock_symbols ≤ vec_capacity symbols.new }
{
    let before = symbols.len();
    if symbols.resize(before + piece.len(), 0).is_err() {
        unreachable!();
    }
    write_bytes(&mut symbols[before..], piece);
}

impl Lock {
    /// A lock that searches from the start of a stream of this line code, for the marker of CCSDS 131.0-B, section 9.3.
    pub fn new(alloc: Global, line: LineCode) -> Result<Self, NoMemory>
        ensures stands { IfOk result (λ lock. LockStandsFor lock [] []) }
        ensures line { IfOk result (λ lock. lock.line ≡ line) }
        ensures unfinished { IfOk result (λ lock. lock.finished ≡ false) }
    {
        let symbols = Vec::with_capacity(alloc, LOCK_SYMBOLS)?;
        Ok(Lock {
            line,
            symbols,
            passed: 0,
            place: 0,
            held: None,
            finished: false,
        })
    }

    /// How many symbols may be fed.
    pub fn room(&self) -> usize
        ensures { result + length self.now.kept ≡ lock_symbols }
    {
        LOCK_SYMBOLS - (self.symbols.len() - self.passed)
    }

    /// Whether it searches: it doesn't stand right after a frame.
    pub fn searches(&self) -> bool
        ensures { result ≡ is_none self.now.held }
    {
        self.held.is_none()
    }

    /// The symbols that are kept.
    fn kept_symbols(&self) -> &[i8]
        ensures { result.now ≡ self.now.kept }
    {
        &self.symbols[self.passed..]
    }

    /// Keeps the piece after the symbols that are kept.
    fn append(&mut self, piece: &[i8])
        requires room { length self.old.kept + length piece.now ≤ lock_symbols }
        requires in_all { self.old.place + length self.old.kept + length piece.now ≤ 2 ^ 62 }
        ensures { self.new ≡ record self.old { kept = self.old.kept ++ piece.now } }
    {
        if self.symbols.len() + piece.len() > LOCK_SYMBOLS {
            let_go(&mut self.symbols, self.passed);
            self.passed = 0;
        }
        if self.symbols.extend_from_slice(piece).is_err() {
            unreachable!();
        }
    }

    /// Keeps the bytes, read as signed ones, after the symbols that are kept.
    fn append_bytes(&mut self, piece: &[u8])
        requires room { length self.old.kept + length piece.now ≤ lock_symbols }
        requires in_all { self.old.place + length self.old.kept + length piece.now ≤ 2 ^ 62 }
        ensures { self.new ≡ record self.old { kept = self.old.kept ++ symbols_of piece.now } }
    {
        if self.symbols.len() + piece.len() > LOCK_SYMBOLS {
            let_go(&mut self.symbols, self.passed);
            self.passed = 0;
        }
        put_bytes(&mut self.symbols, piece);
    }

    /// Feeds the next symbols of the stream: at most `room`, and at most 2^62 in all.
    pub fn feed(&mut self, piece: &[i8])
        requires unfinished { self.old.finished ≡ false }
        requires room { length self.old.kept + length piece.now ≤ lock_symbols }
        requires in_all { self.old.place + length self.old.kept + length piece.now ≤ 2 ^ 62 }
        ensures value { self.new ≡ record self.old { kept = self.old.kept ++ piece.now } }
        ensures stands { (fed : List ℤ) (given : List Frame) → LockStandsFor self.old fed given →
            LockStandsFor self.new (fed ++ piece.now) given }
    {
        self.append(piece);
    }

    /// Feeds the next symbols of the stream, each in a byte that is read as a signed one.
    pub fn feed_bytes(&mut self, piece: &[u8])
        requires unfinished { self.old.finished ≡ false }
        requires room { length self.old.kept + length piece.now ≤ lock_symbols }
        requires in_all { self.old.place + length self.old.kept + length piece.now ≤ 2 ^ 62 }
        ensures value { self.new ≡ record self.old { kept = self.old.kept ++ symbols_of piece.now } }
        ensures stands { (fed : List ℤ) (given : List Frame) → LockStandsFor self.old fed given →
            LockStandsFor self.new (fed ++ symbols_of piece.now) given }
    {
        self.append_bytes(piece);
    }

    /// Says that no more symbols will be fed.
    pub fn finish(&mut self)
        ensures value { self.new ≡ record self.old { finished = true } }
        ensures stands { (fed : List ℤ) (given : List Frame) → LockStandsFor self.old fed given →
            LockStandsFor self.new fed given }
    {
        self.finished = true;
    }

    /// Shows the next frame in the window. Until the stream is finished, a frame is given once its window's last
    /// twelve symbols, which are the next marker's, were fed too; where it answers `More`, there is room for 49,141
    /// symbols. At `More` and `End` the window is as it was.
    pub fn next_window(&mut self, window: &mut Window) -> Step
        requires { window.old.line ≡ self.old.line }
        ensures answers { (fed : List ℤ) (given : List Frame) → LockStandsFor self.old fed given →
            Answers (record { before = self.old; later = self.new }) window.new fed given result }
        ensures unchanged { result ≢ Step.Window → window.new ≡ window.old }

        ensures line { self.new.line ≡ self.old.line }
        ensures window_line { window.new.line ≡ window.old.line }
        ensures window_passes { window.new.passes ≡ window.old.passes }
        ensures finished { self.new.finished ≡ self.old.finished }

        ensures fed { self.new.place + length self.new.kept ≡ self.old.place + length self.old.kept }
        ensures passes { length self.new.kept ≤ length self.old.kept }
        ensures shorter { result ≡ Step.Window → length self.new.kept + FRAME_SYMBOLS ≤ length self.old.kept }
    {
        let needed = if self.finished {
            FRAME_SYMBOLS
        } else {
            WINDOW_END
        };
        let tail = marker_tail(self.line);
        let found = find_next(&tail, self.kept_symbols(), self.place, self.held, needed);
        self.passed += found.passed;
        self.place += found.passed as u64;
        match found.frame {
            Some(frame) => {
                window.show(frame, self.kept_symbols());
                self.passed += FRAME_SYMBOLS;
                self.place += FRAME_SYMBOLS as u64;
                self.held = Some(frame);
                Step::Window
            }
            None => {
                self.held = found.held;
                if self.finished { Step::End } else { Step::More }
            }
        }
    }
}
