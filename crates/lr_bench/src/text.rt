//! Where the texts of images go.
ghost use Rattle.std.specs.Prelude.{◌≡◌, ◌<◌, ◌≤◌, [], length};

use crate::shelf::Trouble;
use crate::sums::{sum_with, sum_with_bytes};
use lr_bits::Failed;
use lr_io::Sink;
use std::alloc::Global;

/// How many bytes at the front and at the end of a text are summed.
const SUMMED: usize = 64;

/// Room in memory that is taken once, and written over for each text. It never fails: past its end it goes on at its
/// beginning. As a sink it tells nothing.
#[derive(Drop)]
pub(crate) struct Text {
    bytes: Vec<u8>,
    end: usize,
    ghost some: { 0 < length bytes.items },
    ghost within: { end ≤ length bytes.items },
}

impl Text {
    /// Room for this many bytes.
    pub fn new(alloc: Global, room: usize) -> Result<Text, Trouble>
        requires { 0 < room }
    {
        let bytes = Vec::from_elem(alloc, 0, room).map_err(|_| Trouble::Memory)?;
        Ok(Text { bytes, end: 0 })
    }

    /// Takes all of the text away.
    pub fn clear(&mut self) {
        self.end = 0;
    }

    /// The checksum with how long the text is, and with its ends.
    pub fn sum(&self, sum: u64) -> u64 {
        let text = &self.bytes[..self.end];
        let sum = sum_with(sum, text.len() as u64);
        let sum = sum_with_bytes(sum, &text[..text.len().min(SUMMED)]);
        sum_with_bytes(sum, &text[text.len().saturating_sub(SUMMED)..])
    }
}

impl Sink for Text {
    ghost faults = { λ _. 0 };

    ghost tells = { λ _. ⊥ };

    ghost contents = { λ _. [] };

    fn put(&mut self, piece: &[u8]) -> Result<usize, Failed> {
        if self.end == self.bytes.len() {
            self.end = 0;
        }
        let count = piece.len().min(self.bytes.len() - self.end);
        self.bytes[self.end..self.end + count].copy_from_slice(&piece[..count]);
        self.end += count;
        Ok(count)
    }
}
