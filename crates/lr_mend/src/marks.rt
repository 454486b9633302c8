//! The mark of a file that has fillers.

ghost use Rattle.std.specs.Prelude.{◌≡◌, ◌≤◌, ◌<◌, ◌+◌, ◌^◌, ◌++◌, false, length, decimal, IfOk, OnOk, IfNone, IfSome};
ghost use Rattle.std.specs.Prelude.{true};
ghost use Rattle.lr_bits.specs.File.{bytes_of};
ghost use Rattle.lr_bits.specs.Sizes.{most_body_bytes};
ghost use Rattle.lr_bits.specs.declared.sizes.TheConstants.{TRANSPORT_HEADER_BYTES};
ghost use Rattle.lr_mend.specs.Marks.{
  can_be_marked,
  first_of,
  goes_on_at,
  header_bytes_in,
  longer_first,
  mark_record,
  mark_text,
  marked,
  marked_bytes,
  marked_with,
  place_text,
  places_text,
};

use crate::mender::MOST_FILLERS;
use byteorder::{BigEndian, ByteOrder};
use lr_bits::{
    Bytes, Lengths, MOST_BODY_BYTES, MOST_FILE_BYTES, MissionFile, NoMemory, TRANSPORT_HEADER_BYTES,
};
use lr_headers::ANCILLARY_KIND;
use std::alloc::Global;

/// A file of mended packets, as it leaves: marked, if it has fillers, and how many it has.
#[derive(Drop)]
pub struct MarkedFile {
    pub file: MissionFile,
    pub fillers: u16,
}

/// Where the primary record says how many bytes the header has: after its kind, its length and the file type.
const SIZE_PLACE: usize = TRANSPORT_HEADER_BYTES + 4;

/// Where that number ends.
const SIZE_END: usize = SIZE_PLACE + 4;

/// Whether the place that follows is the next one.
fn goes_on_at(place: u32, places: &[u32]) -> bool
    ensures { result ≡ goes_on_at place places.now }
{
    match places {
        [next, ..] => u64::from(*next) == u64::from(place) + 1,
        [] => false,
    }
}

/// Appends a number.
fn put_number(alloc: Global, number: u32, out: &mut Bytes) -> Result<(), NoMemory>
    ensures { OnOk result (out.new ≡ out.old ++ decimal number) }
{
    let text = format!(in alloc; "{number}")?;
    out.extend(text.as_bytes())
}

/// Appends what is written of a place: nothing in the middle of a run.
fn put_place(
    alloc: Global,
    before: bool,
    place: u32,
    after: bool,
    out: &mut Bytes,
) -> Result<(), NoMemory>
    ensures { OnOk result (out.new ≡ out.old ++ place_text before place after) }
{
    if !before {
        out.extend(b" ")?;
        return put_number(alloc, place, out);
    }
    if !after {
        out.extend(b"-")?;
        return put_number(alloc, place, out);
    }
    Ok(())
}

/// Appends the places, those of a run by its first and its last one.
fn put_places(alloc: Global, places: &[u32], out: &mut Bytes) -> Result<(), NoMemory>
    ensures { OnOk result (out.new ≡ out.old ++ places_text false places.now) }
{
    let mut before = false;
    let mut left = places;
    while let [place, rest @ ..] = left {
        let after = goes_on_at(*place, rest);
        put_place(alloc, before, *place, after, out)?;
        before = after;
        left = rest;
    }
    Ok(())
}

/// The text that says which packets of an image are fillers, and how many packets it has.
#[tactic(auto, unfolding(crate::specs::Marks::mark_text))]
fn mark_text(alloc: Global, places: &[u32], packets: u32) -> Result<Bytes, NoMemory>
    ensures { IfOk result (λ text. text ≡ mark_text places.now packets) }
{
    let mut text = Bytes::copy_of(alloc, b"gomtasil mended")?;
    put_places(alloc, places, &mut text)?;
    text.extend(b" of ")?;
    put_number(alloc, packets, &mut text)?;
    Ok(text)
}

/// The record with this text.
fn mark_record(alloc: Global, text: &[u8]) -> Result<Bytes, NoMemory>
    requires { length text.now + 3 ≤ 65535 }
    ensures { IfOk result (λ made. made ≡ mark_record text.now) }
{
    let mut mark = Bytes::copy_of(alloc, &[ANCILLARY_KIND])?;
    mark.extend(&(text.len() as u16 + 3).to_be_bytes())?;
    mark.extend(text)?;
    Ok(mark)
}

/// The lengths, of which the first is longer by so much.
fn longer_first(alloc: Global, more: u16, lengths: &[u16]) -> Result<Lengths, NoMemory>
    requires { first_of lengths.now + more ≤ most_body_bytes }
    ensures { IfOk result (λ longer. longer ≡ longer_first more lengths.now) }
{
    let mut longer = Lengths::new(alloc);
    if let [first, rest @ ..] = lengths {
        longer.push(*first + more)?;
        for one in rest {
            longer.push(*one)?;
        }
    }
    Ok(longer)
}

/// The bytes of the file with the record more at the end of its header of this size.
fn marked_bytes(alloc: Global, mark: &[u8], bytes: &[u8], size: usize) -> Result<Bytes, NoMemory>
    requires size { size ≡ header_bytes_in bytes.now }
    requires least { 8 ≤ size }
    requires inside { size + TRANSPORT_HEADER_BYTES ≤ length bytes.now }
    requires few { size + length mark.now < 2 ^ 32 }
    ensures { IfOk result (λ made. made ≡ marked_bytes mark.now bytes.now) }
{
    let end = TRANSPORT_HEADER_BYTES + size;
    let mut made = Bytes::copy_of(alloc, &bytes[..SIZE_PLACE])?;
    made.extend(&((size + mark.len()) as u32).to_be_bytes())?;
    made.extend(&bytes[SIZE_END..end])?;
    made.extend(mark)?;
    made.extend(&bytes[end..])?;
    Ok(made)
}

/// How many bytes the header has of a file that can be marked with this record. `None`: it can't be.
fn header_to_mark(mark: &[u8], file: &MissionFile) -> Option<usize>
    ensures none { IfNone result (can_be_marked mark.now file.now ≡ false) }
    ensures some { IfSome result (λ _. can_be_marked mark.now file.now ≡ true) }
    ensures size { IfSome result (λ size. size ≡ header_bytes_in (bytes_of file.now)) }
{
    let bytes = file.bytes();
    let first = usize::from(file.length(0));
    if bytes.len() < SIZE_END {
        return None;
    }
    let size = BigEndian::read_u32(&bytes[SIZE_PLACE..]) as usize;
    if size < SIZE_END - TRANSPORT_HEADER_BYTES || size + TRANSPORT_HEADER_BYTES > first {
        return None;
    }
    if first + mark.len() > MOST_BODY_BYTES || bytes.len() + mark.len() > MOST_FILE_BYTES {
        return None;
    }
    Some(size)
}

/// The file with this record more, if it can be marked.
fn marked_with(
    alloc: Global,
    mark: &[u8],
    file: &MissionFile,
) -> Result<Option<MissionFile>, NoMemory>
    ensures { IfOk result (λ made. made ≡ marked_with mark.now file.now) }
{
    let Some(size) = header_to_mark(mark, file) else {
        return Ok(None);
    };
    let lengths = longer_first(alloc, mark.len() as u16, file.lengths())?;
    let made = marked_bytes(alloc, mark, file.bytes(), size)?;
    Ok(MissionFile::build(file.vc(), file.apid(), lengths, made))
}

/// The file with a mark, if it has fillers at these places among its packets. `None`: with it the first body or the
/// file passes a limit.
pub fn mark(
    alloc: Global,
    file: MissionFile,
    places: &[u32],
) -> Result<Option<MarkedFile>, NoMemory>
    ensures { IfOk result (λ made. made ≡ marked file places.now) }
{
    if places.is_empty() {
        return Ok(Some(MarkedFile { file, fillers: 0 }));
    }
    let text = mark_text(alloc, places, file.packets())?;
    if text.as_slice().len() + 3 > usize::from(u16::MAX) {
        return Ok(None);
    }
    let mark = mark_record(alloc, text.as_slice())?;
    let Some(file) = marked_with(alloc, mark.as_slice(), &file)? else {
        return Ok(None);
    };
    let fillers = places.len().min(usize::from(MOST_FILLERS)) as u16;
    Ok(Some(MarkedFile { file, fillers }))
}
