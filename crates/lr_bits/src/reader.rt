//! Reading bits in their order, some 57 at a time.

ghost use Rattle.std.specs.Prelude.{
  ◌≡◌,
  ℕ,
  ◌+◌,
  ◌-◌,
  ◌*◌,
  ◌/◌,
  ◌^◌,
  ◌<◌,
  ◌≤◌,
  ◌++◌,
  ◌∷◌,
  [],
  IfOk,
  OnErr,
  All,
  length,
  drop,
  slice_index,
  if◌then◌else◌,
};
ghost use Rattle.lr_bits.specs.Bits.{bits_of, first_bits, number_bits, zeros_and_one};

use std::marker::Model;
use thiserror::Error;

/// Too few bits are left.
#[derive(Clone, Copy, Debug, Error)]
#[error("too few bits are left")]
pub struct Ended;

/// Reads bits in their order. It is seen as the list of the bits that are left.
#[derive(Drop)]
pub struct BitReader<'a> {
    bytes: &'a [u8],
    /// The place of the next bit, counted over all bytes.
    at: u64,
}

impl<'a> Model for BitReader<'a> {
    ghost use Rattle.std.specs.Prelude.{List, ℕ, ◌*◌, ◌<◌, ◌≤◌, ◌^◌, length, drop};
    ghost use Rattle.lr_bits.specs.Bits.{bits_of};

    ghost Value = { List ℕ };

    ghost view = { λ r. drop r.at (bits_of r.bytes.now) };

    ghost invariant = { λ r. (r.at ≤ 8 * length r.bytes.now) × (length r.bytes.now < 2 ^ 61) };
}

/// How many bits `front` shows.
const SHOWN: u64 = 57;

impl<'a> BitReader<'a> {
    ghost use Rattle.lr_bits.specs.declared.reader.TheConstants.{SHOWN};

    /// All bits of these bytes, each byte's most significant one first.
    pub fn new(bytes: &'a [u8]) -> Self
        requires { length bytes.now < 2 ^ 61 }
        ensures { result ≡ bits_of bytes.now }
    {
        BitReader { bytes, at: 0 }
    }

    /// How many bits are left.
    pub fn left(&self) -> u64
        ensures { result ≡ length self.now }
    {
        8 * self.bytes.len() as u64 - self.at
    }

    /// The next bit. `Ended`: none is left.
    pub fn bit(&mut self) -> Result<bool, Ended>
        ensures ok { IfOk result (λ one. self.old ≡ (if one then 1 else 0) ∷ self.new) }
        ensures err { OnErr result ((self.old ≡ []) × (self.new ≡ self.old)) }
    {
        let number = self.bits(1)?;
        Ok(number == 1)
    }

    /// The number that the next `width` bits write, the most significant first. `Ended`: fewer are left, and the reader
    /// is as it was.
    #[inline(always)]
    pub fn bits(&mut self, width: u32) -> Result<u64, Ended>
        requires { width ≤ 64 }
        ensures ok { IfOk result (λ n. self.old ≡ number_bits width n ++ self.new) }
        ensures fits { IfOk result (λ n. n < 2 ^ width) }
        ensures err { OnErr result ((length self.old < width) × (self.new ≡ self.old)) }
    {
        if self.left() < u64::from(width) {
            return Err(Ended);
        }
        if width <= 32 {
            return Ok(self.take(width));
        }
        let high = self.take(width - 32);
        let low = self.take(32);
        Ok(high << 32 | low)
    }

    /// The number of the zeros before the next one. Both are passed. `Ended`: no 1 is left, and the reader is as it
    /// was.
    #[inline(always)]
    pub fn zeros(&mut self) -> Result<u64, Ended>
        ensures ok { IfOk result (λ n. self.old ≡ zeros_and_one n ++ self.new) }
        ensures err { OnErr result (All (λ bit. bit ≡ 0) self.old × (self.new ≡ self.old)) }
    {
        let mut ahead = self.duplicate();
        let mut passed = 0;
        loop {
            let zeros = ahead.zeros_ahead();
            if zeros < SHOWN {
                ahead.skip(zeros + 1);
                *self = ahead;
                return Ok(passed + zeros);
            }
            if ahead.left() <= SHOWN {
                return Err(Ended);
            }
            ahead.skip(SHOWN);
            passed += SHOWN;
        }
    }

    /// The number that the next `width` bits write.
    #[inline(always)]
    fn take(&mut self, width: u32) -> u64
        requires narrow { width ≤ 32 }
        requires enough { width ≤ length self.old }
        ensures value { self.old ≡ number_bits width result ++ self.new }
        ensures fits { result < 2 ^ width }
    {
        let number = self.front() >> 7 >> (SHOWN as u32 - width);
        self.skip(u64::from(width));
        number
    }

    /// Passes `count` bits.
    #[inline(always)]
    fn skip(&mut self, count: u64)
        requires { count ≤ length self.old }
        ensures { self.new ≡ drop count self.old }
    {
        self.at += count;
    }

    /// A reader of the bits that are left. A loop that keeps its reader in a local of its own is faster than one
    /// through a `&mut`.
    #[inline(always)]
    pub fn duplicate(&self) -> BitReader<'a>
        ensures same { result ≡ self.now }
        ensures few { length self.now < 2 ^ 64 }
    {
        BitReader {
            bytes: self.bytes,
            at: self.at,
        }
    }

    /// How many zeros `front` shows before the first one.
    #[inline(always)]
    fn zeros_ahead(&self) -> u64
        ensures zeros { (i : ℕ) → i < result → i < SHOWN → slice_index self.now i ≡ 0 }
        ensures few { result ≤ 64 }
        ensures one { result < SHOWN → slice_index self.now result ≡ 1 }
    {
        u64::from(self.front().leading_zeros())
    }

    /// The next bits, the first of them highest: at least 57 of them, or zeros after the last one.
    #[inline(always)]
    fn front(&self) -> u64
        ensures { number_bits SHOWN (result / 2 ^ 7) ≡ first_bits SHOWN self.now }
    {
        word_at(self.bytes, (self.at / 8) as usize) << (self.at % 8)
    }
}

/// The 64 bits from the byte at this place on, with zeros after the last one.
#[inline(always)]
fn word_at(bytes: &[u8], place: usize) -> u64
    requires { place ≤ length bytes.now }
    ensures { number_bits 64 result ≡ first_bits 64 (bits_of (drop place bytes.now)) }
{
    let rest = &bytes[place..];
    if rest.len() < 8 {
        return last_word(rest);
    }
    u64::from_be_bytes([
        rest[0], rest[1], rest[2], rest[3], rest[4], rest[5], rest[6], rest[7],
    ])
}

/// The bits of the last bytes, fewer than eight, as a number of 64 bits with zeros after them.
#[inline(never)]
fn last_word(rest: &[u8]) -> u64
    requires { length rest.now < 8 }
    ensures { number_bits 64 result ≡ first_bits 64 (bits_of rest.now) }
{
    let mut word = [0; 8];
    word[..rest.len()].copy_from_slice(rest);
    u64::from_be_bytes(word)
}
