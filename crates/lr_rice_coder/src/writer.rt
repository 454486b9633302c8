//! Bits, written one after another.

ghost use Rattle.std.specs.Prelude.{◌≡◌, ◌<◌, ◌≤◌, ◌*◌, ◌^◌, ◌++◌, [], IfOk, OnOk};
ghost use Rattle.lr_bits.specs.Bits.{number_bits, zeros_and_one};
ghost use Rattle.lr_rice_coder.specs.Coded.{ArePaddedBits};
ghost use Rattle.lr_rice_coder.specs.declared.writer.TheConstants.{WORD_BITS};

use lr_bits::NoMemory;
use std::alloc::Global;
use std::marker::Model;

/// The bits of a word, as which bits go to the bytes.
const WORD_BITS: u32 = 32;

/// Writes bits in their order. It is seen as the list of the bits that were written.
#[derive(Drop)]
pub(crate) struct BitWriter {
    bytes: Vec<u8>,
    /// The bits of the next word so far, as a number.
    pending: u64,
    /// How many these are.
    count: u32,
}

impl Model for BitWriter {
    ghost use Rattle.std.specs.Prelude.{List, ℕ, ◌++◌, ◌<◌, ◌^◌};
    ghost use Rattle.lr_bits.specs.Bits.{bits_of, number_bits};
    ghost use Rattle.lr_rice_coder.specs.declared.writer.TheConstants.{WORD_BITS};

    ghost Value = { List ℕ };

    ghost view = { λ w. bits_of w.bytes.items ++ number_bits w.count w.pending };

    ghost invariant = { λ w. (w.count < WORD_BITS) × (w.pending < 2 ^ w.count) };
}

impl BitWriter {
    /// No bits. This takes no memory.
    pub(crate) fn new(alloc: Global) -> Self
        ensures { result ≡ [] }
    {
        BitWriter {
            bytes: Vec::new(alloc),
            pending: 0,
            count: 0,
        }
    }

    /// Writes a number in this many bits.
    #[inline(always)]
    pub(crate) fn number(&mut self, width: u32, number: u64) -> Result<(), NoMemory>
        requires narrow { width ≤ WORD_BITS }
        requires fits { number < 2 ^ width }
        ensures { OnOk result (self.new ≡ self.old ++ number_bits width number) }
    {
        let pending = (self.pending << width) + number;
        let count = self.count + width;
        if count < WORD_BITS {
            self.pending = pending;
            self.count = count;
            return Ok(());
        }
        let rest = count - WORD_BITS;
        let word = (pending >> rest) as u32;
        self.bytes.extend_from_slice(&word.to_be_bytes())?;
        self.pending = pending % (1 << rest);
        self.count = rest;
        Ok(())
    }

    /// Writes this many zeros, and a one.
    #[inline(always)]
    pub(crate) fn sequence(&mut self, zeros: u64) -> Result<(), NoMemory>
        ensures { OnOk result (self.new ≡ self.old ++ zeros_and_one zeros) }
    {
        let mut left = zeros;
        while left >= WORD_BITS as u64 {
            self.number(WORD_BITS, 0)?;
            left -= WORD_BITS as u64;
        }
        self.number(left as u32 + 1, 1)
    }

    /// The bytes of these bits, filled with zeros.
    pub(crate) fn finish(mut self) -> Result<Vec<u8>, NoMemory>
        ensures { IfOk result (λ bytes. ArePaddedBits bytes.items self) }
    {
        let zeros = 7 - (self.count + 7) % 8;
        self.number(zeros, 0)?;
        let BitWriter {
            mut bytes,
            pending,
            mut count,
        } = self;
        while count > 0 {
            count -= 8;
            bytes.push((pending >> count & 0xff) as u8)?;
        }
        Ok(bytes)
    }
}
