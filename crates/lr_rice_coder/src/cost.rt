//! How many bits a block takes in each option, and which one is the shortest.
//!
//! Where values are split by one bit more, the sum of their high parts at least halves. So the lengths of the splits
//! fall up to the first shortest one and don't fall after it, and the search looks at two or three of them.

ghost use Rattle.std.specs.Prelude.{◌≡◌, ◌↔◌, ◌<◌, ◌≤◌, ◌*◌, ◌+◌, ◌-◌, ◌/◌, ◌%◌, ◌^◌, true, All, IsTrue, length};
ghost use Rattle.std.specs.Prelude.{slice_index};
ghost use Rattle.lr_rice.specs.CodedLines.{IsOption, pair_number, pairs_string, short_width};
ghost use Rattle.lr_rice.specs.Samples.{IsSingle};
ghost use Rattle.lr_rice_coder.specs.Costs.{IsShortestSplit, highs_sum};
ghost use Rattle.lr_rice_coder.specs.Shortest.{block_values, most_split, shortest_option};

use lr_rice::BlockOption;

/// How many bits an identifier has that isn't of a zero block or a second extension.
#[inline(always)]
pub(crate) fn width_of(bits: u32) -> u32
    ensures value { result ≡ short_width bits }
    ensures least { 3 ≤ result }
    ensures most { result ≤ 4 }
{
    if bits <= 8 { 3 } else { 4 }
}

/// The shortest option of a block in which each value is coded, the first of them where several are.
pub(crate) fn shortest_option(bits: u32, first: bool, places: &[u32]) -> BlockOption
    requires least_bits { 5 ≤ bits }
    requires most_bits { bits ≤ 16 }
    requires some { 2 ≤ length places.now }
    requires few { length places.now ≤ 64 }
    requires even { length places.now % 2 ≡ 0 }
    requires small { All (λ value. value ≤ 65535) places.now }
    requires clear { first ≡ true → slice_index places.now 0 ≡ 0 }
    ensures value { result ≡ shortest_option bits first places.now }
    ensures single { IsSingle result }
    ensures option { IsOption bits result }
{
    let values = &places[usize::from(first)..];
    let count = values.len() as u32;
    let sum = sum_of_highs(0, values);
    let split = shortest_split(most_split(bits), sum, values);
    let length = split.highs + count * (split.low_bits + 1);
    if has_shorter_pairs(first, count, sum, length, places) {
        return BlockOption::SecondExtension;
    }
    if count * bits < length {
        return BlockOption::Uncoded;
    }
    BlockOption::Split(split.low_bits)
}

/// By how many bits values are split at most.
fn most_split(bits: u32) -> u32
    ensures value { result ≡ most_split bits }
    ensures most { result ≤ 13 }
{
    (1 << width_of(bits)) - 3
}

/// By how many bits values are split, and the sum of their high parts.
#[derive(Clone, Copy)]
struct Split {
    low_bits: u32,
    highs: u32,
}

/// The first of the shortest splits by at most `most` bits, where the values have this sum.
fn shortest_split(most: u32, sum: u32, values: &[u32]) -> Split
    requires most { most ≤ 13 }
    requires sum { sum ≡ highs_sum 0 values.now }
    requires some { 1 ≤ length values.now }
    requires few { length values.now ≤ 64 }
    requires small { All (λ value. value ≤ 65535) values.now }
    ensures shortest { IsShortestSplit most values.now result.low_bits }
    ensures highs { result.highs ≡ highs_sum result.low_bits values.now }
    ensures fits { result.highs ≤ length values.now * 65535 }
{
    let count = values.len() as u32;
    let mut low_bits = first_candidate(most, 3 * count, sum);
    let mut highs = sum_of_highs(low_bits, values);
    while low_bits < most {
        let next = sum_of_highs(low_bits + 1, values);
        if highs <= next + count {
            return Split { low_bits, highs };
        }
        low_bits += 1;
        highs = next;
    }
    Split { low_bits, highs }
}

/// A split by so few bits that the one by a bit less is longer: `triple` is three times the number of values, and `sum`
/// their sum.
fn first_candidate(most: u32, triple: u32, sum: u32) -> u32
    requires { most ≤ 13 }
    ensures inside { result ≤ most }
    ensures far { 0 < result → triple ≤ sum / 2 ^ (result - 1) }
{
    let mut low_bits = 0;
    while low_bits < most && sum >> low_bits >= triple {
        low_bits += 1;
    }
    low_bits
}

/// The sum of the high parts of values that are split by this many bits.
fn sum_of_highs(low_bits: u32, values: &[u32]) -> u32
    requires narrow { low_bits < 32 }
    requires few { length values.now ≤ 64 }
    requires small { All (λ value. value ≤ 65535) values.now }
    ensures value { result ≡ highs_sum low_bits values.now }
    ensures fits { result ≤ length values.now * 65535 }
{
    let mut sum = 0;
    for value in values {
        sum += *value >> low_bits;
    }
    sum
}

/// Whether the second extension takes at most this many bits, besides those of a short identifier: as many as a split
/// takes. It takes more than the fundamental sequence where the `count` values have a sum of `count` or more.
fn has_shorter_pairs(first: bool, count: u32, sum: u32, most: u32, places: &[u32]) -> bool
    requires some { 2 ≤ length places.now }
    requires few { length places.now ≤ 64 }
    requires even { length places.now % 2 ≡ 0 }
    requires small { All (λ value. value ≤ 65535) places.now }
    requires clear { first ≡ true → slice_index places.now 0 ≡ 0 }
    requires count { count ≡ length (block_values first places.now) }
    requires sum { sum ≡ highs_sum 0 (block_values first places.now) }
    requires bound { most ≤ sum + count }
    ensures { IsTrue result ↔ (1 + length (pairs_string places.now) ≤ most) }
{
    sum < count && 1 + pairs_length(places) <= u64::from(most)
}

/// How many bits the sequences of the pairs have.
fn pairs_length(places: &[u32]) -> u64
    requires few { length places.now ≤ 64 }
    requires even { length places.now % 2 ≡ 0 }
    requires small { All (λ value. value ≤ 65535) places.now }
    ensures value { result ≡ length (pairs_string places.now) }
    ensures fits { result < 2 ^ 40 }
{
    let mut sum = 0;
    for i in 0..places.len() / 2 {
        sum += number_of(places[2 * i], places[2 * i + 1]) + 1;
    }
    sum
}

/// The number of a pair.
#[inline(always)]
pub(crate) fn number_of(a: u32, b: u32) -> u64
    requires a { a ≤ 65535 }
    requires b { b ≤ 65535 }
    ensures value { result ≡ pair_number a b }
    ensures fits { result < 2 ^ 34 }
{
    let sum = u64::from(a) + u64::from(b);
    sum * (sum + 1) / 2 + u64::from(b)
}
