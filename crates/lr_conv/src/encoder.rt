//! The encoder of the standard's code.

ghost use Rattle.std.specs.Prelude.{◌≡◌, ◌+◌, ◌*◌, ◌%◌, ◌<◌, ◌++◌, ◌∷◌, [], Bool, List};
ghost use Rattle.lr_conv.specs.Convolution.{code};

use crate::line::STANDARD;
use crate::sums::{first_symbol, second_symbol};

/// An encoder of the standard's code, in which levels are bits. It has the last six bits that it has taken.
#[derive(Drop)]
pub struct Encoder {
    /// The last six bits, the newest as the least significant one.
    state: u8,
    ghost six_bits: { state < 64 },
}

impl Encoder {
    ghost use Rattle.lr_conv.specs.Encoder.{EncoderStandsFor, past_of};

    /// An encoder after six bits: those of the state, the most significant of them the oldest.
    pub fn new(state: u8) -> Encoder
        requires { state < 64 }
        ensures { EncoderStandsFor result (past_of state) [] }
    {
        Encoder { state }
    }

    /// The two symbols of one bit more (CCSDS 131.0-B, section 3.3).
    pub fn push(&mut self, bit: bool) -> (bool, bool)
        ensures symbols { (past bits : List Bool) → EncoderStandsFor self.old past bits →
            code STANDARD past (bits ++ bit ∷ []) ≡ code STANDARD past bits ++ result.0 ∷ result.1 ∷ [] }
        ensures history { (past bits : List Bool) → EncoderStandsFor self.old past bits →
            EncoderStandsFor self.new past (bits ++ bit ∷ []) }
    {
        let seven = 2 * self.state + u8::from(bit);
        self.state = seven % 64;
        (first_symbol(seven), second_symbol(STANDARD, seven))
    }
}
