//! Nearest paths, and that each window has exactly one.

ghost use Rattle.std.specs.Prelude.{◌≡◌, ◌+◌, ◌*◌, ◌<◌, ◌≤◌, ◌++◌, List, Bool, ℕ, ℤ, length, reverse};
ghost use Rattle.lr_conv.specs.Levels.{levels};
ghost use Rattle.lr_conv.specs.declared.line.LineCode.{LineCode};
ghost use Rattle.lr_trellis.specs.Path.{IsNearestPath, nearest_path, bytes_of_bits};
ghost use Rattle.lr_trellis.specs.Trellis.{is_odd, read_back};
ghost use Rattle.lr_trellis.specs.Words.{IsDecided, decisions};

use crate::costs::pair_costs;
use crate::ending::end_state;
use crate::scratch::{MOST_STEPS, TrellisScratch};
use crate::way_back::{bits_back, bytes_back};
use lr_bits::{BLOCK_BYTES, WINDOW_SYMBOLS};
use lr_conv::LineCode;

/// The nearest path of a frame's window of 16,332 symbols: the 8,160 bits of its block, the first bit of each byte the
/// most significant one (CCSDS 131.0-B, section 3.3, decoded by maximum likelihood). It takes no memory.
pub fn nearest(
    line: LineCode,
    window: &[i8],
    scratch: &mut TrellisScratch,
    out: &mut [u8; BLOCK_BYTES],
)
    requires { length window.now ≡ WINDOW_SYMBOLS }
    ensures { out.new ≡ bytes_of_bits (nearest_path line window.now) }
{
    let costs = scratch.decide(line, window, MOST_STEPS);
    read_bytes(line, window, scratch.words.as_slice(), &costs, out);
}

/// The nearest path of a window of any even length up to a frame's: a bit for each place of `out`. It takes no memory.
pub fn nearest_bits(line: LineCode, window: &[i8], scratch: &mut TrellisScratch, out: &mut [bool])
    requires out { length out.old ≤ 8 * BLOCK_BYTES }
    requires window { length window.now ≡ 2 * length out.old + 12 }
    ensures nearest { IsNearestPath line window.now out.new }
    ensures named { out.new ≡ nearest_path line window.now }
{
    let costs = scratch.decide(line, window, out.len() + 5);
    read_bits(line, window, scratch.words.as_slice(), &costs, out);
}

/// The bits of the nearest path of a window, from the decisions of all its steps but the last, and the least costs
/// after these.
fn read_bits(line: LineCode, window: &[i8], words: &[u64], costs: &[u32; 64], out: &mut [bool])
    requires out { length out.old ≤ 8 * BLOCK_BYTES }
    requires window { length window.now ≡ 2 * length out.old + 12 }
    requires words { length out.old + 5 ≤ length words.now }
    requires decided { IsDecided line window.now (length out.old + 5) words.now costs.now }
    ensures { IsNearestPath line window.now out.new }
{
    let state = last_state(line, window, words, costs, out.len());
    bits_back(line, words, 0, state, out);
}

/// The bytes of the nearest path of a window, from the decisions of all its steps but the last, and the least costs
/// after these.
pub fn read_bytes(line: LineCode, window: &[i8], words: &[u64], costs: &[u32; 64], out: &mut [u8])
    requires out { length out.old ≤ BLOCK_BYTES }
    requires window { length window.now ≡ 2 * (8 * length out.old) + 12 }
    requires words { 8 * length out.old + 5 ≤ length words.now }
    requires decided { IsDecided line window.now (8 * length out.old + 5) words.now costs.now }
    ensures { out.new ≡ bytes_of_bits (nearest_path line window.now) }
{
    let state = last_state(line, window, words, costs, 8 * out.len());
    bytes_back(line, words, state, out);
}

/// The state of the nearest path after its last bit, read back from the end that costs less. The path is what is read
/// back from that state by the decisions.
fn last_state(line: LineCode, window: &[i8], words: &[u64], costs: &[u32; 64], bits: usize) -> usize
    requires bits { bits ≤ 8 * BLOCK_BYTES }
    requires window { length window.now ≡ 2 * bits + 12 }
    requires words { bits + 5 ≤ length words.now }
    requires decided { IsDecided line window.now (bits + 5) words.now costs.now }
    ensures state { result < 64 }
    ensures read { (x : List Bool) (first : ℕ) → length x ≡ bits → first < 64 →
        read_back (decisions words.now) bits result ≡
        reverse (levels line (is_odd first) x) ++ read_back (decisions words.now) 0 first →
        IsNearestPath line window.now x }
{
    let steps = bits + 5;
    let last = pair_costs(line, window[2 * steps], window[2 * steps + 1]);
    let end = end_state(line, costs, &last);
    bits_back(line, words, bits, end, &mut [false; 5])
}

/// That each window of an even number of symbols, of twelve or more, has exactly one nearest path, which `nearest_path`
/// names.
pub fn one_nearest_path()
    ensures there { (line : LineCode) (window : List ℤ) (n : ℕ) → length window ≡ 2 * n + 12 →
        IsNearestPath line window (nearest_path line window) }
    ensures only { (line : LineCode) (window : List ℤ) (x : List Bool) → IsNearestPath line window x →
        x ≡ nearest_path line window }
{}
