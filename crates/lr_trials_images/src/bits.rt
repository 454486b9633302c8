//! Bytes that are written as texts of 0 and 1.

use lr_bits::{Bytes, NoMemory};
use std::alloc::Global;

/// Bytes that are put bit by bit.
#[derive(Drop)]
struct Bits {
    bytes: Bytes,
    byte: u8,
    count: u8,
}

impl Bits {
    fn put(&mut self, bit: bool) -> Result<(), NoMemory> {
        self.byte = self.byte << 1 | u8::from(bit);
        self.count = self.count.wrapping_add(1) % 8;
        if self.count == 0 {
            self.bytes.extend(&[self.byte])?;
        }
        Ok(())
    }

    fn put_word(&mut self, word: &str) -> Result<(), NoMemory> {
        if let Some(Ok(zeros)) = word.strip_prefix("z").map(|count| count.parse::<u32>()) {
            for _ in 0..zeros {
                self.put(false)?;
            }
            return Ok(());
        }
        for letter in word.bytes() {
            self.put(letter == b'1')?;
        }
        Ok(())
    }
}

/// The bytes of a text of words of 0 and 1, filled with zeros. A word such as z31 stands for as many zeros.
pub(crate) fn bytes_of(alloc: Global, text: &str) -> Result<Bytes, NoMemory> {
    let mut bits = Bits {
        bytes: Bytes::new(alloc),
        byte: 0,
        count: 0,
    };
    for word in text.split(' ') {
        bits.put_word(word)?;
    }
    for _ in bits.count..8 {
        if bits.count > 0 {
            bits.put(false)?;
        }
    }
    let Bits { bytes, .. } = bits;
    Ok(bytes)
}
