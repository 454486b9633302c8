//! The mapped values of a block, in each option.

ghost use Rattle.std.specs.Prelude.{◌≡◌, ◌<◌, ◌≤◌, ◌⊎◌, ℕ, ◌+◌, ◌*◌, ◌-◌, ◌/◌, ◌%◌, ◌^◌, ◌++◌, All, IfErr};
ghost use Rattle.std.specs.Prelude.{IsFalse, IsTrue, false, true, List, OnErr, OnOk, length, map, slice_index};
ghost use Rattle.std.specs.List.{flat_map};
ghost use Rattle.lr_bits.specs.Bits.{number_bits, zeros_and_one};
ghost use Rattle.lr_rice.specs.CodedLines.{IsOption, body_string, greatest, pair_number, pairs_string};
ghost use Rattle.lr_rice.specs.LineFaults.{BodyFails, LowBitsFail, NoSequence, PairsFail, SequencesFail, ValuesFail};
ghost use Rattle.lr_rice.specs.declared.fault.Cause.TheVariants.{OutOfRange};
ghost use Rattle.lr_rice.specs.Samples.{IsPlain, IsSingle, ReadsBlock, plain_part, site_of};

use crate::samples::most_of;
use crate::site::Site;
use crate::{BlockOption, Cause};
use lr_bits::{BitReader, Ended};

/// Reads the values of a block: those of all places, where the first place of a line has the value 0.
pub(crate) fn read_block(
    reader: &mut BitReader<'_>,
    site: Site,
    option: BlockOption,
    places: &mut [u64],
) -> Result<(), Cause>
    requires size { length places.old ≡ site.block }
    requires clear { slice_index places.old 0 ≡ 0 }
    requires option { IsOption site.bits option }
    requires single { IsSingle option }
    ensures ok { OnOk result (ReadsBlock (site_of site) option reader.old reader.new places.new) }
    ensures err { IfErr result (λ cause. BodyFails (site_of site) option reader.old cause) }
{
    match option {
        BlockOption::SecondExtension => {
            read_pairs(reader, site.bits, site.first, places)?;
            if site.first {
                places[0] = 0;
            }
            Ok(())
        }
        plain => read_values(
            reader,
            site.bits,
            plain,
            &mut places[usize::from(site.first)..],
        ),
    }
}

/// Reads values that are written each by itself.
fn read_values(
    reader: &mut BitReader<'_>,
    bits: u32,
    option: BlockOption,
    values: &mut [u64],
) -> Result<(), Cause>
    requires most { bits ≤ 16 }
    requires option { IsOption bits option }
    requires plain { IsPlain option }
    ensures ok { OnOk result (reader.old ≡ body_string bits true (plain_part option values.new) ++ reader.new) }
    ensures small { OnOk result (All (λ value. value ≤ greatest bits) values.new) }
    ensures err { IfErr result (λ cause. ValuesFail bits (length values.old) option reader.old cause) }
{
    match option {
        BlockOption::Split(k) => {
            if k == 0 {
                return read_sequences(reader, bits, values);
            }
            let Ok(()) = read_highs(reader, values) else {
                return Err(Cause::Ended);
            };
            read_lows(reader, bits, k, values)
        }
        BlockOption::Uncoded => {
            let Ok(()) = read_numbers(reader, bits, values) else {
                return Err(Cause::Ended);
            };
            Ok(())
        }
        BlockOption::ZeroBlock | BlockOption::SecondExtension => unreachable!(),
    }
}

/// Reads values that are written in this many bits each.
fn read_numbers(reader: &mut BitReader<'_>, width: u32, values: &mut [u64]) -> Result<(), Ended>
    requires { width ≤ 16 }
    ensures ok { OnOk result (reader.old ≡ flat_map (number_bits width) values.new ++ reader.new) }
    ensures fits { OnOk result (All (λ value. value < 2 ^ width) values.new) }
    ensures err { OnErr result (length reader.old < length values.old * width) }
{
    let mut own = reader.duplicate();
    for i in 0..values.len() {
        let Ok(value) = own.bits(width) else {
            return Err(Ended);
        };
        values[i] = value;
    }
    *reader = own;
    Ok(())
}

/// Reads values that are written as sequences.
fn read_sequences(reader: &mut BitReader<'_>, bits: u32, values: &mut [u64]) -> Result<(), Cause>
    requires { bits ≤ 16 }
    ensures ok { OnOk result (reader.old ≡ flat_map zeros_and_one values.new ++ reader.new) }
    ensures small { OnOk result (All (λ value. value ≤ greatest bits) values.new) }
    ensures err { IfErr result (λ cause. SequencesFail bits (length values.old) reader.old cause) }
{
    let most = most_of(bits);
    let mut own = reader.duplicate();
    for i in 0..values.len() {
        let Ok(value) = own.zeros() else {
            return Err(Cause::Ended);
        };
        if value > most {
            return Err(Cause::OutOfRange);
        }
        values[i] = value;
    }
    *reader = own;
    Ok(())
}

/// Reads the high parts of values that are split, which are written as sequences.
fn read_highs(reader: &mut BitReader<'_>, values: &mut [u64]) -> Result<(), Ended>
    ensures ok { OnOk result (reader.old ≡ flat_map zeros_and_one values.new ++ reader.new) }
    ensures err { OnErr result ((highs : List ℕ) × (rest : List ℕ) × (length highs < length values.old)
        × (reader.old ≡ flat_map zeros_and_one highs ++ rest) × NoSequence rest) }
{
    let mut own = reader.duplicate();
    for i in 0..values.len() {
        values[i] = own.zeros()?;
    }
    *reader = own;
    Ok(())
}

/// Reads the low `k` bits of values that are split, whose high parts stand in the places.
fn read_lows(reader: &mut BitReader<'_>, bits: u32, k: u32, values: &mut [u64]) -> Result<(), Cause>
    requires bits { bits ≤ 16 }
    requires k { k ≤ 16 }
    ensures ok { OnOk result (reader.old ≡ flat_map (number_bits k) values.new ++ reader.new) }
    ensures highs { OnOk result (map (λ value. value / 2 ^ k) values.new ≡ values.old) }
    ensures small { OnOk result (All (λ value. value ≤ greatest bits) values.new) }
    ensures err { IfErr result (λ cause. LowBitsFail bits k values.old reader.old cause) }
{
    let most = most_of(bits);
    let mut own = reader.duplicate();
    for i in 0..values.len() {
        let high = values[i];
        let Ok(low) = own.bits(k) else {
            return Err(Cause::Ended);
        };
        if high > most {
            return Err(Cause::OutOfRange);
        }
        let value = (high << k) + low;
        if value > most {
            return Err(Cause::OutOfRange);
        }
        values[i] = value;
    }
    *reader = own;
    Ok(())
}

/// Reads the pairs of a second extension. The first value of a line's first pair isn't tested.
fn read_pairs(
    reader: &mut BitReader<'_>,
    bits: u32,
    first: bool,
    values: &mut [u64],
) -> Result<(), Cause>
    requires bits { bits ≤ 16 }
    requires even { length values.old % 2 ≡ 0 }
    ensures ok { OnOk result (reader.old ≡ pairs_string values.new ++ reader.new) }
    ensures small { OnOk result ((k : ℕ) → k < length values.new → (0 < k) ⊎ IsFalse first
        → slice_index values.new k ≤ greatest bits) }
    ensures err { IfErr result (λ cause. PairsFail bits first (length values.old / 2) reader.old cause) }
{
    let most = most_of(bits);
    for i in 0..values.len() / 2 {
        let Ok(number) = reader.zeros() else {
            return Err(Cause::Ended);
        };
        let (a, b) = pair_of(number);
        let tested = check_pair(most, is_lead(first, i), a, b);
        match tested {
            Ok(()) => {}
            Err(cause) => return Err(cause),
        }
        values[2 * i] = a;
        values[2 * i + 1] = b;
    }
    Ok(())
}

/// Whether the pair is a line's first.
#[inline(always)]
fn is_lead(first: bool, pair: usize) -> bool
    ensures here { pair ≡ 0 → result ≡ first }
    ensures later { 0 < pair → result ≡ false }
{
    first && pair == 0
}

/// Tests both values of a pair, or only the second one of the leading pair.
#[inline(always)]
fn check_pair(most: u64, lead: bool, a: u64, b: u64) -> Result<(), Cause>
    ensures ok { OnOk result ((b ≤ most) × (IsTrue lead ⊎ (a ≤ most))) }
    ensures err { IfErr result (λ cause. ((most < b) ⊎ (IsFalse lead × (most < a))) × (cause ≡ OutOfRange)) }
{
    if b > most {
        return Err(Cause::OutOfRange);
    }
    if lead || a <= most {
        Ok(())
    } else {
        Err(Cause::OutOfRange)
    }
}

/// The pair of this number.
fn pair_of(number: u64) -> (u64, u64)
    ensures { number ≡ pair_number result.0 result.1 }
{
    let mut sum = 0;
    let mut rest = number;
    while rest > sum {
        sum += 1;
        rest -= sum;
    }
    (sum - rest, rest)
}
