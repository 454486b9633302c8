//! The way back over the words of decisions.

ghost use Rattle.std.specs.Prelude.{◌≡◌, ◌+◌, ◌*◌, ◌/◌, ◌%◌, ◌<◌, ◌≤◌, ◌++◌, length, map, reverse};
ghost use Rattle.std.specs.Int.Digits.{number_from_digits};
ghost use Rattle.lr_conv.specs.Convolution.{bit};
ghost use Rattle.lr_conv.specs.Levels.{bit_of_level, levels};
ghost use Rattle.lr_trellis.specs.Trellis.{is_odd, read_back, state_before};
ghost use Rattle.lr_trellis.specs.Words.{IsReadBack, byte_of_levels, decision_of, decisions, state_back};

use lr_conv::LineCode;

/// The state before another one, by the word of the step between them.
#[inline(always)]
fn older_state(word: u64, state: usize) -> usize
    requires { state < 64 }
    ensures { result ≡ state_before (decision_of word state) state }
{
    let place = state / 2 + 32 * (state % 2);
    state / 2 + 32 * ((word >> place) % 2) as usize
}

/// The bit of a state's newest level.
#[inline(always)]
pub fn bit_of(line: LineCode, state: usize) -> bool
    ensures { result ≡ bit_of_level line (is_odd (state / 2)) (is_odd state) }
{
    let level = state % 2 == 1;
    let before = state / 2 % 2 == 1;
    if line.marks { level != before } else { level }
}

/// The bits that are read back from a state, down to the step `first`, and the state there.
pub fn bits_back(
    line: LineCode,
    words: &[u64],
    first: usize,
    state: usize,
    out: &mut [bool],
) -> usize
    requires state { state < 64 }
    requires words { first + length out.old ≤ length words.now }
    ensures state { result < 64 }
    ensures path { read_back (decisions words.now) (first + length out.old) state ≡
        reverse (levels line (is_odd result) out.new) ++ read_back (decisions words.now) first result }
{
    let mut state = state;
    for i in (0..out.len()).rev() {
        out[i] = bit_of(line, state);
        state = older_state(words[first + i], state);
    }
    state
}

/// The byte of eight bits, the first the most significant.
#[inline(always)]
fn byte_of(bits: &[bool; 8]) -> u8
    ensures { result ≡ number_from_digits 2 (map bit bits.now) }
{
    let mut byte = 0;
    for bit in bits {
        byte = 2 * byte + u8::from(*bit);
    }
    byte
}

/// The bytes that are read back from a state, down to the step `first`, one by one, and the state there.
fn bytes_in_order(
    line: LineCode,
    words: &[u64],
    first: usize,
    state: usize,
    out: &mut [u8],
) -> usize
    requires state { state < 64 }
    requires words { first + 8 * length out.old ≤ length words.now }
    ensures state { result < 64 }
    ensures read { IsReadBack line words.now (record { first = first; after = state; before = result }) out.new }
{
    let mut state = state;
    for k in (0..out.len()).rev() {
        let mut bits = [false; 8];
        state = bits_back(line, words, first + 8 * k, state, &mut bits);
        out[k] = byte_of(&bits);
    }
    state
}

/// The states that some steps lead back to from two states, down to the steps `first` and `first + apart`. The two take
/// turns step by step: each step waits for the one before it on its own way alone.
#[inline(always)]
fn states_back(
    words: &[u64],
    first: usize,
    apart: usize,
    count: usize,
    states: (usize, usize),
) -> (usize, usize)
    requires low { states.0 < 64 }
    requires high { states.1 < 64 }
    requires words { first + apart + count ≤ length words.now }
    ensures low_below { result.0 < 64 }
    ensures high_below { result.1 < 64 }
    ensures low { result.0 ≡ state_back (decisions words.now) first count states.0 }
    ensures high { result.1 ≡ state_back (decisions words.now) (first + apart) count states.1 }
{
    let (mut low, mut high) = states;
    for i in (0..count).rev() {
        low = older_state(words[first + i], low);
        high = older_state(words[first + apart + i], high);
    }
    (low, high)
}

/// The byte of the last eight bits before a state, from the states two and eight steps before it. Six of the eight
/// levels are those of the state two steps before, and the two newest are the state's own.
#[inline(always)]
fn byte_before(line: LineCode, state: usize, two_before: usize, eight_before: usize) -> u8
    requires { two_before < 64 }
    ensures { result ≡ byte_of_levels line (4 * two_before + state % 4) (eight_before % 2) }
{
    let levels = 4 * two_before + state % 4;
    let older = levels / 2 + 128 * (eight_before % 2);
    if line.marks {
        (levels ^ older) as u8
    } else {
        levels as u8
    }
}

/// The bytes of both halves, each read back from a state of its own, and the states before the halves.
fn halves_back(
    line: LineCode,
    words: &[u64],
    states: (usize, usize),
    low: &mut [u8],
    high: &mut [u8],
) -> (usize, usize)
    requires low { states.0 < 64 }
    requires high { states.1 < 64 }
    requires halves { length low.old ≡ length high.old }
    requires words { 16 * length low.old ≤ length words.now }
    ensures low_state { result.0 < 64 }
    ensures high_state { result.1 < 64 }
    ensures low { IsReadBack line words.now (record { first = 0; after = states.0; before = result.0 }) low.new }
    ensures high { IsReadBack line words.now
        (record { first = 8 * length low.old; after = states.1; before = result.1 }) high.new }
{
    let half = low.len();
    let mut states = states;
    for k in (0..half).rev() {
        let two_before = states_back(words, 8 * k + 6, 8 * half, 2, states);
        let eight_before = states_back(words, 8 * k, 8 * half, 6, two_before);
        low[k] = byte_before(line, states.0, two_before.0, eight_before.0);
        high[k] = byte_before(line, states.1, two_before.1, eight_before.1);
        states = eight_before;
    }
    states
}

/// The steps over which a guess is led: 24 times the six levels of a state. A wrong guess costs time and nothing else.
const MEETING_STEPS: usize = 144;

/// The bytes that are read back from a state, and the state before them. The two halves are read at once: the lower one
/// from a guess, the state to which state 0 leads over some steps. Where the upper half leads to another one, the lower
/// half is read once more, from there.
pub fn bytes_back(line: LineCode, words: &[u64], state: usize, out: &mut [u8]) -> usize
    requires state { state < 64 }
    requires words { 8 * length out.old ≤ length words.now }
    ensures state { result < 64 }
    ensures read { IsReadBack line words.now (record { first = 0; after = state; before = result }) out.new }
{
    let half = out.len() / 2;
    if out.len() % 2 == 1 || 8 * half < MEETING_STEPS {
        return bytes_in_order(line, words, 0, state, out);
    }
    let guess = bits_back(line, words, 8 * half, 0, &mut [false; MEETING_STEPS]);
    let (low, high) = out.split_at_mut(half);
    let (before, joint) = halves_back(line, words, (guess, state), low, high);
    if joint == guess {
        return before;
    }
    bytes_in_order(line, words, 0, joint, low)
}
