//! The sums of the two generators over seven levels.

ghost use Rattle.std.specs.Prelude.{◌≡◌, ◌%◌, ◌==◌, ◌<◌};
ghost use Rattle.lr_conv.specs.Convolution.{first_of_seven, second_of_seven};

use crate::line::LineCode;

/// The levels that each generator adds, the newest of seven as the least significant one.
const FIRST_GENERATOR: u8 = 0b100_1111;

const SECOND_GENERATOR: u8 = 0b110_1101;

/// The first symbol of seven levels.
pub(crate) fn first_symbol(seven: u8) -> bool
    requires { seven < 128 }
    ensures { result ≡ first_of_seven seven }
{
    (seven & FIRST_GENERATOR).count_ones() % 2 == 1
}

/// The second symbol of seven levels.
pub(crate) fn second_symbol(line: LineCode, seven: u8) -> bool
    requires { seven < 128 }
    ensures { result ≡ second_of_seven line seven }
{
    let odd = (seven & SECOND_GENERATOR).count_ones() % 2 == 1;
    odd != line.inverted
}
