//! The demodulator: a block of samples goes in, and the soft symbols that it completes come out.

ghost use Rattle.std.specs.Prelude.{◌≡◌, ◌≤◌, ◌<◌, ◌*◌, length, vec_len};
ghost use Rattle.lr_demod.specs.declared.sizes.TheConstants.{BLOCK_SAMPLES, HELD_SAMPLES};

use crate::carrier::Search;
use crate::constant::Constant;
use crate::filters::Filters;
use crate::form::{Form, take_samples};
use crate::imbalance::{Imbalance, Moments};
use crate::loops::Loops;
use crate::mixer::mix;
use crate::reception::{Reception, Tally, lock_of};
use crate::settings::Settings;
use crate::sizes::{BLOCK_SAMPLES, HELD_SAMPLES, PLACES};
use crate::sums::{count_beyond, sum_of_products};
use std::alloc::{AllocError, Global};
use std::num::{f32_to_f64_with_nan, nearest_usize_to_f32, nearest_usize_to_f64};

/// The turns of the carrier in a block from which on I and Q have equal shares of the signal.
const MANY_TURNS: f64 = 4.0;

/// The bits of a place's fraction, and those of them that name no filter.
const FRACTION_BITS: u32 = 32;

const UNDER_FILTERS: u32 = 26;

/// Where the next symbol's filter begins: a sample, and a part of 2^-32 after it.
#[derive(Clone, Copy)]
struct Place {
    sample: usize,
    fraction: u32,
}

const FIRST: Place = Place {
    sample: 0,
    fraction: 0,
};

/// What a block gave: how many symbols, and where the next one is.
#[derive(Clone, Copy)]
struct Made {
    symbols: usize,
    next: Place,
}

/// A demodulator at work.
#[derive(Drop)]
pub struct Demodulator {
    rate: f64,
    search: Search,
    filters: Filters,
    loops: Loops,
    constant_i: Constant,
    constant_q: Constant,
    imbalance: Imbalance,
    tally: Tally,
    /// The block.
    i: Vec<f32>,
    q: Vec<f32>,
    /// Samples after the mixer that symbols still need, how many, and where the next symbol begins among them.
    held_i: Vec<f32>,
    held_q: Vec<f32>,
    held: usize,
    next: Place,
    soft: Vec<i8>,
    across: Vec<i8>,
    /// The phase of the mixer, in turns.
    mixer_phase: f64,
    /// Whether a carrier was ever found.
    has_begun: bool,
    ghost i_whole: { vec_len i ≡ BLOCK_SAMPLES },
    ghost q_whole: { vec_len q ≡ BLOCK_SAMPLES },
    ghost held_i_whole: { vec_len held_i ≡ HELD_SAMPLES },
    ghost held_q_whole: { vec_len held_q ≡ HELD_SAMPLES },
    ghost soft_whole: { vec_len soft ≡ BLOCK_SAMPLES },
    ghost across_whole: { vec_len across ≡ BLOCK_SAMPLES },
}

/// Asks the filters once a symbol, as far as the first `count` samples go.
fn make_symbols(
    loops: &mut Loops,
    filters: &Filters,
    i: &[f32],
    q: &[f32],
    count: usize,
    first: Place,
    soft: &mut [i8],
    across: &mut [i8],
) -> Made
    requires i { length i.now ≡ HELD_SAMPLES }
    requires q { length q.now ≡ HELD_SAMPLES }
    requires count { count ≤ HELD_SAMPLES }
    requires across { length across.old ≡ length soft.old }
    ensures { result.symbols ≤ length soft.old }
{
    let width = filters.width();
    let mut made = Made {
        symbols: 0,
        next: first,
    };
    for k in 0..soft.len() {
        let here = made.next.sample.min(HELD_SAMPLES);
        if here + width > count {
            break;
        }
        let place = (made.next.fraction >> UNDER_FILTERS) as usize % PLACES;
        let symbol = filters.filtered(place, &i[here..here + width], &q[here..here + width]);
        let step = loops.step(&symbol);
        soft[k] = step.soft;
        across[k] = step.across;
        let next = made.next.fraction as u64 + step.advance;
        made = Made {
            symbols: k + 1,
            next: Place {
                sample: here + (next >> FRACTION_BITS) as usize,
                fraction: (next & 0xffff_ffff) as u32,
            },
        };
    }
    Made {
        symbols: made.symbols.min(soft.len()),
        next: made.next,
    }
}

/// Moves the values from `from` up to `count` to the front.
fn move_down(values: &mut [f32], from: usize, count: usize)
    requires from { from ≤ count }
    requires count { count ≤ length values.old }
{
    for k in 0..count - from {
        values[k] = values[k + from];
    }
}

impl Demodulator {
    /// A demodulator of these settings; those that make no sense are told by `Settings::refusal`. It takes all its
    /// memory now: one megabyte.
    pub fn new(alloc: Global, settings: &Settings) -> Result<Demodulator, AllocError> {
        let search = Search::new(alloc, settings.rate, settings.range)?;
        let filters = Filters::new(alloc, settings.rate / settings.symbols, settings.roll_off)?;
        let i = vec![in alloc; 0.0f32; BLOCK_SAMPLES]?;
        let q = vec![in alloc; 0.0f32; BLOCK_SAMPLES]?;
        let held_i = vec![in alloc; 0.0f32; HELD_SAMPLES]?;
        let held_q = vec![in alloc; 0.0f32; HELD_SAMPLES]?;
        let soft = vec![in alloc; 0i8; BLOCK_SAMPLES]?;
        let across = vec![in alloc; 0i8; BLOCK_SAMPLES]?;
        Ok(Demodulator {
            rate: settings.rate,
            search,
            filters,
            loops: Loops::new(settings),
            constant_i: Constant::new(),
            constant_q: Constant::new(),
            imbalance: Imbalance::new(),
            tally: Tally::new(),
            i,
            q,
            held_i,
            held_q,
            held: 0,
            next: FIRST,
            soft,
            across,
            mixer_phase: 0.0,
            has_begun: false,
        })
    }

    /// Whether the carrier is held.
    pub fn is_locked(&self) -> bool {
        self.loops.is_locked()
    }

    /// What came in since the last call, and what is held now.
    pub fn take_reception(&mut self) -> Reception {
        let lock = if self.loops.is_locked() {
            Some(lock_of(
                self.loops.ratio(),
                self.loops.carrier_offset(),
                self.loops.clock_error(),
            ))
        } else {
            None
        };
        let reception = self.tally.reception(lock);
        self.tally = Tally::new();
        reception
    }

    /// Takes at most a block of whole samples (further bytes are left), and answers the soft symbols that they
    /// complete. A carrier is sought in whole blocks alone.
    pub fn demodulate(&mut self, form: Form, bytes: &[u8]) -> &[i8]
        ensures { length result.now ≤ BLOCK_SAMPLES }
    {
        let count = take_samples(form, bytes, &mut self.i, &mut self.q);
        self.clean(form, count);
        if !self.loops.is_locked() && count == BLOCK_SAMPLES {
            self.seek();
        }
        if !self.has_begun {
            return &self.soft[..0];
        }
        self.loops.hand_over();
        let symbols = self.make(count);
        &self.soft[..symbols]
    }

    /// The values across the phase of the last block's soft symbols, on the same scale: 0 for a clean signal. A soft
    /// symbol and this value are a point of the constellation. Those after the symbols that it gave are older.
    pub fn across(&self) -> &[i8]
        ensures { length result.now ≡ BLOCK_SAMPLES }
    {
        &self.across
    }

    /// Takes all whole samples, in blocks, and appends the soft symbols that they complete. A carrier is sought in
    /// whole blocks alone. Fails only if memory is refused for the symbols; those of earlier blocks are there then.
    pub fn push(
        &mut self,
        form: Form,
        bytes: &[u8],
        symbols: &mut Vec<i8>,
    ) -> Result<(), AllocError> {
        for block in bytes.chunks(form.size() * BLOCK_SAMPLES) {
            symbols.extend_from_slice(self.demodulate(form, block))?;
        }
        Ok(())
    }

    /// Takes off the block what the receiver did to it.
    fn clean(&mut self, form: Form, count: usize) {
        let limit = form.clipped();
        let clipped = count_beyond(&self.i, limit).wrapping_add(count_beyond(&self.q, limit));
        self.constant_i.remove(&mut self.i, count);
        self.constant_q.remove(&mut self.q, count);
        let moments = Moments {
            i: sum_of_products(&self.i, &self.i),
            q: sum_of_products(&self.q, &self.q),
            product: sum_of_products(&self.i, &self.q),
        };
        self.tally
            .add(count, f32_to_f64_with_nan(moments.i + moments.q), clipped);
        if self.loops.is_locked() && count == BLOCK_SAMPLES && self.is_away() {
            self.imbalance.learn(&moments);
        }
        self.imbalance.correct(&self.i, &mut self.q);
    }

    /// Whether the carrier stands so far from the middle that it turns often in a block.
    fn is_away(&self) -> bool {
        let turns = self.loops.carrier_offset() / self.rate * nearest_usize_to_f64(BLOCK_SAMPLES);
        turns.abs() > MANY_TURNS
    }

    /// Looks for a carrier in the block, and begins with it.
    fn seek(&mut self) {
        let sum = sum_of_products(&self.i, &self.i) + sum_of_products(&self.q, &self.q);
        let power = sum / nearest_usize_to_f32(BLOCK_SAMPLES);
        if let Some(offset) = self.search.find(&self.i, &self.q, power) {
            self.loops.begin(offset * self.rate, power.sqrt());
            if !self.has_begun {
                self.has_begun = true;
                self.held = self.filters.width() / 2;
                self.next = FIRST;
            }
        }
    }

    /// Moves the block's first `count` samples behind those that wait, and answers how many symbols they complete.
    fn make(&mut self, count: usize) -> usize
        requires { count ≤ BLOCK_SAMPLES }
        ensures { result ≤ BLOCK_SAMPLES }
    {
        let each = self.loops.mixer_offset() / self.rate;
        let before = self.held.min(BLOCK_SAMPLES);
        let end = before + BLOCK_SAMPLES;
        mix(
            &self.i,
            &self.q,
            &mut self.held_i[before..end],
            &mut self.held_q[before..end],
            self.mixer_phase,
            each,
        );
        let phase = self.mixer_phase + nearest_usize_to_f64(count) * each;
        self.mixer_phase = phase - phase.floor();
        let held = before + count;
        let made = make_symbols(
            &mut self.loops,
            &self.filters,
            &self.held_i,
            &self.held_q,
            held,
            self.next,
            &mut self.soft,
            &mut self.across,
        );
        self.drop_before(made.next, held);
        made.symbols
    }

    /// Drops the samples before this place, of `held`.
    fn drop_before(&mut self, next: Place, held: usize)
        requires { held ≤ HELD_SAMPLES }
    {
        let from = next.sample.min(held);
        move_down(&mut self.held_i, from, held);
        move_down(&mut self.held_q, from, held);
        self.held = held - from;
        self.next = Place {
            sample: next.sample - from,
            fraction: next.fraction,
        };
    }
}
