//! The search for the next frame among the symbols that a lock keeps.

ghost use Rattle.std.specs.Prelude.{◌≡◌, ℕ, ◌+◌, ◌^◌, ◌<◌, ◌≤◌, ℤ, List, length, drop, MatchOption, Option, None, Some};
ghost use Rattle.std.specs.Prelude.{IfSome};
ghost use Rattle.lr_lock.specs.Hits.{hits};
ghost use Rattle.lr_lock.specs.Frames.{HasFewer};
ghost use Rattle.lr_lock.specs.Machine.{IsAt, IsSearching};
ghost use Rattle.lr_lock.specs.Search.{FindsFrame};
ghost use Rattle.lr_lock.specs.Thresholds.{acquiring_hits, lock_symbols};

use crate::frame::Frame;
use crate::marker::polarity_at;
use crate::planes::{masks_of, next_planes, planes_of, polarity_in};
use crate::sizes::{ACQUIRING_HITS, FLYWHEEL_MISSES, HOLDING_HITS, TAIL_START, WINDOW_END};
use lr_bits::FRAME_SYMBOLS;
use lr_conv::{MARKER_SYMBOLS, TAIL_SYMBOLS};

/// What a search tells: how many symbols are passed, and the frame that begins after these. With no frame, the one that
/// is still held.
#[derive(Clone, Copy)]
pub(crate) struct Found {
    pub passed: usize,
    pub frame: Option<Frame>,
    pub held: Option<Frame>,
}

/// A place, and the polarity that has enough hits there. With no polarity, it is the first place from which on there
/// are too few symbols.
#[derive(Clone, Copy)]
struct Hit {
    place: usize,
    positive: Option<bool>,
}

/// The first place from `start` on that has `needed` symbols from it on, and `ACQUIRING_HITS` hits of one polarity.
fn first_hit(tail: &[bool; TAIL_SYMBOLS], symbols: &[i8], start: usize, needed: usize) -> Hit
    requires start { start ≤ length symbols.now }
    requires size { length symbols.now ≤ lock_symbols }
    requires needed { FRAME_SYMBOLS ≤ needed }
    requires small { needed ≤ WINDOW_END }
    ensures from { start ≤ result.place }
    ensures within { result.place ≤ length symbols.now }
    ensures whole { (p : ℕ) → start ≤ p → p < result.place → p + needed ≤ length symbols.now }
    ensures passed { (p : ℕ) → start ≤ p → p < result.place → HasFewer tail.now symbols.now p acquiring_hits }
    ensures ended { MatchOption result.positive (length symbols.now < result.place + needed)
        (λ positive. result.place + needed ≤ length symbols.now) }
    ensures locked { MatchOption result.positive (Unit {0})
        (λ positive. acquiring_hits ≤ hits tail.now symbols.now result.place positive) }
{
    if symbols.len() - start < needed {
        return Hit {
            place: start,
            positive: None,
        };
    }
    let masks = masks_of(tail);
    let mut planes = planes_of(&symbols[start + TAIL_START..start + MARKER_SYMBOLS]);
    let mut place = start;
    while place + needed <= symbols.len() {
        if let Some(positive) = polarity_in(planes, masks, ACQUIRING_HITS) {
            return Hit {
                place,
                positive: Some(positive),
            };
        }
        planes = next_planes(planes, symbols[place + MARKER_SYMBOLS]);
        place += 1;
    }
    Hit {
        place,
        positive: None,
    }
}

/// A frame at this place of the stream, after `passed` symbols.
fn found_frame(passed: usize, place: u64, positive: bool, misses: u8) -> Found
    ensures { result ≡ record {
      passed = passed;
      frame = Some (record { place = place; positive = positive; misses = misses });
      held = None;
    } }
{
    let frame = Frame {
        place,
        positive,
        misses,
    };
    Found {
        passed,
        frame: Some(frame),
        held: None,
    }
}

/// Searches the symbols from `start` on. They stand at `place` of the stream.
fn search_from(
    tail: &[bool; TAIL_SYMBOLS],
    symbols: &[i8],
    place: u64,
    start: usize,
    needed: usize,
) -> Found
    requires start { start ≤ length symbols.now }
    requires size { length symbols.now ≤ lock_symbols }
    requires place { place + length symbols.now ≤ 2 ^ 62 }
    requires needed { FRAME_SYMBOLS ≤ needed }
    requires small { needed ≤ WINDOW_END }
    ensures within { result.passed ≤ length symbols.now }
    ensures whole { IfSome result.frame (λ _. result.passed + needed ≤ length symbols.now) }
    ensures seen { (fed : List ℤ) (last : Option Frame) → place ≤ length fed → symbols.now ≡ drop place fed →
        IsSearching tail.now fed last (place + start) →
        FindsFrame tail.now fed (record { last = last; place = place; needed = needed }) result }
{
    let hit = first_hit(tail, symbols, start, needed);
    match hit.positive {
        Some(positive) => found_frame(hit.place, place + hit.place as u64, positive, 0),
        None => Found {
            passed: hit.place,
            frame: None,
            held: None,
        },
    }
}

/// Looks for the next frame in the symbols. They stand at `place` of the stream.
pub(crate) fn find_next(
    tail: &[bool; TAIL_SYMBOLS],
    symbols: &[i8],
    place: u64,
    held: Option<Frame>,
    needed: usize,
) -> Found
    requires size { length symbols.now ≤ lock_symbols }
    requires place { place + length symbols.now ≤ 2 ^ 62 }
    requires needed { FRAME_SYMBOLS ≤ needed }
    requires small { needed ≤ WINDOW_END }
    ensures within { result.passed ≤ length symbols.now }
    ensures whole { IfSome result.frame (λ _. result.passed + needed ≤ length symbols.now) }
    ensures seen { (fed : List ℤ) (last : Option Frame) → place ≤ length fed → symbols.now ≡ drop place fed →
        IsAt tail.now fed last held place →
        FindsFrame tail.now fed (record { last = last; place = place; needed = needed }) result }
{
    let Some(last) = held else {
        return search_from(tail, symbols, place, 0, needed);
    };
    if symbols.len() < needed {
        return Found {
            passed: 0,
            frame: None,
            held: Some(last),
        };
    }
    match polarity_at(tail, symbols, 0, HOLDING_HITS) {
        Some(positive) => found_frame(0, place, positive, 0),
        None if last.misses < FLYWHEEL_MISSES => found_frame(
            0,
            place,
            last.positive,
            last.misses + 1,
        ),
        None => search_from(tail, symbols, place, 1, needed),
    }
}
