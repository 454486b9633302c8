//! Nearest paths that agree with pins.

ghost use Rattle.std.specs.Prelude.{◌≡◌, ◌+◌, ◌*◌, ◌<◌, ◌≤◌, ◌++◌, List, Bool, ℕ, length, reverse};
ghost use Rattle.lr_conv.specs.Levels.{levels};
ghost use Rattle.lr_trellis.specs.Path.{bytes_of_bits};
ghost use Rattle.lr_trellis.specs.Trellis.{is_odd, read_back};
ghost use Rattle.lr_trellis.specs.Words.{decisions};
ghost use Rattle.lr_pinned.specs.Pinned.{IsPinnedPath, pinned_path};
ghost use Rattle.lr_pinned.specs.Steps.{IsPinDecided};

use crate::forward::forward;
use lr_bits::{BLOCK_BYTES, WINDOW_SYMBOLS};
use lr_conv::LineCode;
use lr_trellis::{MOST_STEPS, bits_back, bytes_back, end_state, pair_costs};

/// The nearest path of a frame's window of 16,332 symbols that agrees with a pin for each of its 8,160 bits, in 1,020
/// bytes, the first bit of each byte the most significant one. It takes no memory.
pub fn nearest_pinned(
    line: LineCode,
    window: &[i8],
    pins: &[Option<bool>],
    words: &mut [u64],
    out: &mut [u8; BLOCK_BYTES],
)
    requires window { length window.now ≡ WINDOW_SYMBOLS }
    requires pins { length pins.now ≡ 8 * BLOCK_BYTES }
    requires words { length words.old ≡ MOST_STEPS }
    ensures path { IsPinnedPath line pins.now window.now (pinned_path line pins.now window.now) }
    ensures bytes { out.new ≡ bytes_of_bits (pinned_path line pins.now window.now) }
{
    let costs = forward(line, pins, window, MOST_STEPS, words);
    read_bytes(line, pins, window, words, &costs, out);
}

/// The bytes of the nearest path that agrees, from the decisions of all its steps but the last, and the least costs
/// after these.
fn read_bytes(
    line: LineCode,
    pins: &[Option<bool>],
    window: &[i8],
    words: &[u64],
    costs: &[u32; 64],
    out: &mut [u8],
)
    requires out { length out.old ≤ BLOCK_BYTES }
    requires pins { length pins.now ≡ 8 * length out.old }
    requires window { length window.now ≡ 2 * (8 * length out.old) + 12 }
    requires words { 8 * length out.old + 5 ≤ length words.now }
    requires decided { IsPinDecided line pins.now window.now (8 * length out.old + 5) words.now costs.now }
    ensures path { IsPinnedPath line pins.now window.now (pinned_path line pins.now window.now) }
    ensures bytes { out.new ≡ bytes_of_bits (pinned_path line pins.now window.now) }
{
    let state = last_state(line, pins, window, words, costs);
    bytes_back(line, words, state, out);
}

/// The state of the nearest path that agrees after its last bit, read back from the end that costs less. The path is
/// what is read back from that state by the decisions.
fn last_state(
    line: LineCode,
    pins: &[Option<bool>],
    window: &[i8],
    words: &[u64],
    costs: &[u32; 64],
) -> usize
    requires bits { length pins.now ≤ 8 * BLOCK_BYTES }
    requires window { length window.now ≡ 2 * length pins.now + 12 }
    requires words { length pins.now + 5 ≤ length words.now }
    requires decided { IsPinDecided line pins.now window.now (length pins.now + 5) words.now costs.now }
    ensures state { result < 64 }
    ensures read { (x : List Bool) (first : ℕ) → length x ≡ length pins.now → first < 64 →
        read_back (decisions words.now) (length pins.now) result ≡
        reverse (levels line (is_odd first) x) ++ read_back (decisions words.now) 0 first →
        IsPinnedPath line pins.now window.now x × (x ≡ pinned_path line pins.now window.now) }
{
    let bits = pins.len();
    let steps = bits + 5;
    let last = pair_costs(line, window[2 * steps], window[2 * steps + 1]);
    let end = end_state(line, costs, &last);
    bits_back(line, words, bits, end, &mut [false; 5])
}
