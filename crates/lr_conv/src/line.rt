//! Line codes, and the encoder of any of them.

ghost use Rattle.std.specs.Prelude.{◌≡◌, ◌+◌, ◌*◌, ◌%◌, ◌<◌, ◌++◌, ◌∷◌, [], Bool, false, List};
ghost use Rattle.lr_conv.specs.Convolution.{code};
ghost use Rattle.lr_conv.specs.Levels.{level_of, levels, six_zeros};

use crate::sums::{first_symbol, second_symbol};

/// How a transmitter brings bits to symbols.
#[derive(Clone, Copy)]
pub struct LineCode {
    /// Whether a 1 is a change of level (NRZ-M), and not a level (NRZ-L).
    pub marks: bool,
    /// Whether the second symbol of each pair is complemented.
    pub inverted: bool,
}

/// The code of CCSDS 131.0-B, section 3.3: bits are levels, and the second symbol is complemented.
pub const STANDARD: LineCode = LineCode {
    marks: false,
    inverted: true,
};

/// An encoder of a line code that begins after six levels 0. It has the last six levels that it has sent.
#[derive(Drop)]
pub struct LineEncoder {
    line: LineCode,
    /// The last six levels, the newest as the least significant one.
    state: u8,
    ghost six_levels: { state < 64 },
}

/// The level of a bit, after another level.
fn next_level(line: LineCode, level: bool, bit: bool) -> bool
    ensures { result ≡ level_of line level bit }
{
    if line.marks { level != bit } else { bit }
}

impl LineEncoder {
    ghost use Rattle.lr_conv.specs.LineEncoder.{LineEncoderStandsFor};

    /// An encoder after six levels 0.
    pub fn new(line: LineCode) -> LineEncoder
        ensures { LineEncoderStandsFor result line [] }
    {
        LineEncoder { line, state: 0 }
    }

    /// The two symbols of one bit more (CCSDS 131.0-B, section 3.3, over the levels).
    pub fn push(&mut self, bit: bool) -> (bool, bool)
        ensures symbols { (line : LineCode) (bits : List Bool) → LineEncoderStandsFor self.old line bits →
            code line six_zeros (levels line false (bits ++ bit ∷ [])) ≡
            code line six_zeros (levels line false bits) ++ result.0 ∷ result.1 ∷ [] }
        ensures history { (line : LineCode) (bits : List Bool) → LineEncoderStandsFor self.old line bits →
            LineEncoderStandsFor self.new line (bits ++ bit ∷ []) }
    {
        let level = next_level(self.line, self.state % 2 == 1, bit);
        let seven = 2 * self.state + u8::from(level);
        self.state = seven % 64;
        (first_symbol(seven), second_symbol(self.line, seven))
    }
}
