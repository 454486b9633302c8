//! Several streams in one list of bytes.
ghost use Rattle.std.specs.Prelude.{◌≡◌, ◌<◌, ◌≤◌, [], All, length, slice_index_or};
ghost use Rattle.lr_downlinks.specs.Bundles.{IsReading};
ghost use Rattle.lr_downlinks.specs.Readings.{FindsEnd, FindsEnds, recording_start};

use crate::fault::BundleFault;
use crate::sizes::{MOST_BUNDLE_BYTES, MOST_DOWNLINKS};
use byteorder::{BigEndian, ByteOrder};
use lr_bits::Bytes;
use std::marker::Model;

/// The bytes in which a stream's length stands.
const LENGTH_BYTES: usize = 8;

/// One to sixteen streams of symbols, a byte each, at most 268,435,456 bytes with their lengths and their number.
/// Contracts see it as the list of the streams.
#[derive(Drop)]
pub struct Bundle {
    bytes: Bytes,
    count: usize,
    /// Where each stream ends. The length of the next one stands from there on.
    ends: [usize; MOST_DOWNLINKS],
}

impl Model for Bundle {
    ghost use Rattle.std.specs.Prelude.{◌≡◌, ◌≤◌, ℕ, List, length, take};
    ghost use Rattle.lr_downlinks.specs.Readings.{IsCutAt, streams_between};

    ghost Value = { List (List ℕ) };

    ghost view = { λ b. streams_between b.bytes 1 (take b.count b.ends) };

    ghost invariant = { λ b. IsCutAt b.bytes b.count b.ends };
}

/// Where the stream ends whose length stands at this place, if it is all there.
fn find_end(bytes: &[u8], at: usize) -> Option<usize>
    requires inside { at ≤ length bytes.now }
    requires few { length bytes.now ≤ MOST_BUNDLE_BYTES }
    ensures { FindsEnd bytes.now at result }
{
    if bytes.len() - at < LENGTH_BYTES {
        return None;
    }
    let first = at + LENGTH_BYTES;
    let size = BigEndian::read_u64(&bytes[at..]);
    if size > (bytes.len() - first) as u64 {
        return None;
    }
    Some(first + size as usize)
}

/// Finds where each stream ends, as many as there is room for. None where the bytes end before that.
fn find_ends(bytes: &[u8], ends: &mut [usize]) -> Option<usize>
    requires some { 1 ≤ length bytes.now }
    requires few { length bytes.now ≤ MOST_BUNDLE_BYTES }
    ensures found { FindsEnds bytes.now ends.new result }
    ensures fit { All (λ b. b < 256) bytes.now }
    ensures size { length ends.new ≡ length ends.old }
{
    let mut at = 1;
    for k in 0..ends.len() {
        at = find_end(bytes, at)?;
        ends[k] = at;
    }
    Some(at)
}

/// Where the length of this stream stands.
fn start_in(ends: &[usize; MOST_DOWNLINKS], downlink: usize) -> usize
    requires { downlink ≤ MOST_DOWNLINKS }
    ensures { result ≡ recording_start 1 ends.now downlink }
{
    if downlink == 0 { 1 } else { ends[downlink - 1] }
}

impl Bundle {
    /// Reads a bundle of at most 268,435,456 bytes. The faults come in the order in which they are listed. This takes
    /// no memory.
    pub fn read(bytes: Bytes) -> Result<Bundle, BundleFault>
        requires { length bytes ≤ MOST_BUNDLE_BYTES }
        ensures reading { IsReading bytes result }
        ensures only { (reading : _) → IsReading bytes reading → result ≡ reading }
    {
        let all = bytes.as_slice();
        let size = all.len();
        let Some(first) = all.first() else {
            return Err(BundleFault::Ended { at: 0 });
        };
        let count = *first;
        if count == 0 || count as usize > MOST_DOWNLINKS {
            return Err(BundleFault::Count { count });
        }
        let count = count as usize;
        let mut ends = [0; MOST_DOWNLINKS];
        match find_ends(all, &mut ends[..count]) {
            None => Err(BundleFault::Ended { at: size as u64 }),
            Some(at) if at < size => Err(BundleFault::Rest { at: at as u64 }),
            Some(_) => Ok(Bundle { bytes, count, ends }),
        }
    }

    /// How many streams there are, 1 to 16.
    pub fn streams(&self) -> usize
        ensures count { result ≡ length self.now }
        ensures some { 1 ≤ result }
        ensures few { result ≤ MOST_DOWNLINKS }
    {
        self.count
    }

    /// The symbols of this stream, a byte each.
    pub fn stream(&self, downlink: usize) -> &[u8]
        requires { downlink < length self.now }
        ensures value { result.now ≡ slice_index_or self.now downlink [] }
        ensures few { length result.now ≤ MOST_BUNDLE_BYTES }
    {
        let start = start_in(&self.ends, downlink);
        let end = self.ends[downlink];
        &self.bytes.as_slice()[start + LENGTH_BYTES..end]
    }
}
