//! The nearest path of a window by either kernel.

ghost use Rattle.std.specs.Prelude.{◌≡◌, length};
ghost use Rattle.lr_trellis.specs.Path.{bytes_of_bits, nearest_path};

use crate::scratch::LaneScratch;
use lr_bits::{BLOCK_BYTES, WINDOW_SYMBOLS};
use lr_conv::LineCode;
use lr_trellis::read_bytes;

/// The nearest path of a frame's window of 16,332 symbols: the 8,160 bits of its block, the first bit of each byte the
/// most significant one (CCSDS 131.0-B, section 3.3, decoded by maximum likelihood). A lane has 32 bits, the width of
/// the costs in the definition, so this is the plain kernel in lanes, which `nearest_narrow_lanes` is compared with.
/// It takes no memory.
pub fn nearest_lanes(
    line: LineCode,
    window: &[i8],
    scratch: &mut LaneScratch,
    out: &mut [u8; BLOCK_BYTES],
)
    requires { length window.now ≡ WINDOW_SYMBOLS }
    ensures { out.new ≡ bytes_of_bits (nearest_path line window.now) }
{
    let costs = scratch.decide(line, window);
    read_bytes(line, window, scratch.words.as_slice(), &costs, out);
}

/// The nearest path of a frame's window of 16,332 symbols, each a signed byte: the 8,160 bits of its block in 1,020
/// bytes, the first bit of each byte the most significant one (CCSDS 131.0-B, section 3.3, decoded by maximum
/// likelihood). A lane has sixteen bits, so a vector has twice as many states as that of `nearest_lanes`, and this is
/// the faster of the two. Either may use a scratch after the other. It takes no memory.
pub fn nearest_narrow_lanes(
    line: LineCode,
    window: &[i8],
    scratch: &mut LaneScratch,
    out: &mut [u8; BLOCK_BYTES],
)
    requires { length window.now ≡ WINDOW_SYMBOLS }
    ensures { out.new ≡ bytes_of_bits (nearest_path line window.now) }
{
    let least_costs = scratch.decide_by_narrow_lanes(line, window);
    read_bytes(line, window, scratch.words.as_slice(), &least_costs, out);
}
