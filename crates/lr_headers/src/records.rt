//! The records of a header.

ghost use Rattle.std.specs.Prelude.{ℕ, not, take, ◌==◌, ◌≡◌, ◌+◌, ◌≤◌, ◌<◌, length, None, Some, IfOk, IfErr, IfSome};
ghost use Rattle.std.specs.List.{find, list_any, slice_get};
ghost use Rattle.std.specs.Option.{option_copied, option_map};
ghost use Rattle.lr_headers.specs.Fields.{content_of, contents_of, data_bits, file_type, first_contents, first_sized};
ghost use Rattle.lr_headers.specs.Fields.{is_encrypted, is_key, is_sized, lossless_of, navigation_of, segment_of};
ghost use Rattle.lr_headers.specs.Fields.{stamp_of, structure_of};
ghost use Rattle.lr_headers.specs.Kinds.{primary_bytes};
ghost use Rattle.lr_headers.specs.Tiling.{HasHeaderFaultOrMemory, IsHeaderOf, IsRecord, IsTiled, fault_at, first_fault};
ghost use Rattle.lr_headers.specs.Tiling.{has_wrong_length, header_length};
ghost use Rattle.lr_headers.specs.declared.fault.HeaderFault.{HeaderFault as Fault};

use crate::contents::{content_in, lossless_in, navigation_in, segment_in, stamp_in, structure_in};
use crate::kinds::{
    KEY_KIND, LOSSLESS_BYTES, LOSSLESS_KIND, NAVIGATION_BYTES, NAVIGATION_KIND, PRIMARY_BYTES,
    SEGMENT_BYTES, SEGMENT_KIND, STAMP_BYTES, STAMP_KIND, STRUCTURE_BYTES, STRUCTURE_KIND,
};
use crate::numbers::{u16_at, u32_at, u64_at};
use crate::{Content, Entry, HeaderFault, Lossless, Navigation, Segment, Stamp, Structure};
use std::alloc::Global;
use std::marker::Model;

/// The first record of each header.
const PRIMARY: Entry = Entry {
    kind: 0,
    at: 0,
    length: PRIMARY_BYTES,
};

/// The bytes of a record's kind and length.
const HEAD: usize = 3;

/// The records of a header, and its bytes, which they tile. The bytes are borrowed from the file.
#[derive(Drop)]
pub struct Records<'a> {
    header: &'a [u8],
    entries: Vec<Entry>,
}

impl<'a> Model for Records<'a> {
    ghost use Rattle.lr_headers.specs.Tiling.{Header, IsTiled};

    ghost Value = { Header };

    ghost view = { λ r. record { bytes = r.header.now; entries = r.entries.items } };

    ghost invariant = { λ r. IsTiled (record { bytes = r.header.now; entries = r.entries.items }) };
}

impl<'a> Records<'a> {
    /// Reads the header of a mission file proper.
    pub fn read(alloc: Global, proper: &'a [u8]) -> Result<Records<'a>, HeaderFault>
        ensures ok { IfOk result (IsHeaderOf proper.now) }
        ensures err { IfErr result (HasHeaderFaultOrMemory proper.now) }
        // A fault of the first record, or of the file's length, is found before memory is taken.
        ensures first { (known : Fault) → first_fault proper.now ≡ Some known → IfErr result (λ fault. fault ≡ known) }
    {
        let end = header_end(proper)?;
        let header = &proper[..end];
        let mut entries: Vec<Entry> = Vec::new(alloc);
        if entries.push(PRIMARY).is_err() {
            return Err(HeaderFault::NoMemory);
        }
        let mut place = usize::from(PRIMARY_BYTES);
        while place < end {
            let entry = entry_at(header, place)?;
            if entries.push(entry).is_err() {
                return Err(HeaderFault::NoMemory);
            }
            place += usize::from(entry.length);
        }
        Ok(Records { header, entries })
    }

    /// How many records there are.
    pub fn count(&self) -> usize
        ensures { result ≡ length self.now.entries }
    {
        self.entries.len()
    }

    /// The record at this place, the first of which is 0.
    pub fn entry(&self, place: usize) -> Entry
        requires { place < length self.now.entries }
        ensures { slice_get self.now.entries place ≡ Some result }
    {
        self.entries[place]
    }

    /// The contents of the record at this place, which come after its kind and length. The first place is 0.
    pub fn contents_at(&self, place: usize) -> &[u8]
        requires { place < length self.now.entries }
        ensures { (e : Entry) → slice_get self.now.entries place ≡ Some e
            → result.now ≡ contents_of self.now.bytes e }
    {
        contents_of(self.header, self.entries[place])
    }

    /// What the record at this place says, the first of which is 0.
    pub fn content(&self, place: usize) -> Content
        requires { place < length self.now.entries }
        ensures { (e : Entry) → slice_get self.now.entries place ≡ Some e → result ≡ content_of self.now e }
    {
        let entry = self.entries[place];
        if entry.at == 0 {
            return Content::Primary {
                file_type: self.file_type(),
                header_length: self.header_length(),
                data_bits: self.data_bits(),
            };
        }
        content_in(entry, contents_of(self.header, entry))
    }

    /// How many bytes the header has.
    pub fn header_length(&self) -> u64
        ensures { result ≡ length self.now.bytes }
    {
        self.header.len() as u64
    }

    /// How many bits the data field is declared to have.
    pub fn data_bits(&self) -> u64
        ensures { result ≡ data_bits self.now }
    {
        u64_at(self.header, 8)
    }

    /// The file type of the primary record: 0 image, 1 GTS, 2 text, 3 key message, 128 and above mission specific.
    pub fn file_type(&self) -> u8
        ensures { result ≡ file_type self.now }
    {
        self.header[3]
    }

    /// The first image structure record, of kind 1.
    pub fn structure(&self) -> Option<Structure>
        ensures { result ≡ structure_of self.now }
    {
        let contents = self.contents_of_kind(STRUCTURE_KIND, STRUCTURE_BYTES)?;
        Some(structure_in(contents))
    }

    /// The first navigation record, of kind 2.
    pub fn navigation(&self) -> Option<Navigation>
        ensures { result ≡ navigation_of self.now }
    {
        let contents = self.contents_of_kind(NAVIGATION_KIND, NAVIGATION_BYTES)?;
        Some(navigation_in(contents))
    }

    /// The first time stamp record, of kind 5.
    pub fn stamp(&self) -> Option<Stamp>
        ensures { result ≡ stamp_of self.now }
    {
        let contents = self.contents_of_kind(STAMP_KIND, STAMP_BYTES)?;
        Some(stamp_in(contents))
    }

    /// The first record of kind 128 that has 17 bytes.
    pub fn segment(&self) -> Option<Segment>
        ensures { result ≡ segment_of self.now }
    {
        let contents = self.contents(SEGMENT_KIND, SEGMENT_BYTES)?;
        Some(segment_in(contents))
    }

    /// The first record of kind 131 that has 7 bytes.
    pub fn lossless(&self) -> Option<Lossless>
        ensures { result ≡ lossless_of self.now }
    {
        let contents = self.contents(LOSSLESS_KIND, LOSSLESS_BYTES)?;
        Some(lossless_in(contents))
    }

    /// Whether some key record has a content byte that isn't 0.
    pub fn is_encrypted(&self) -> bool
        ensures { result ≡ is_encrypted self.now }
    {
        has_key(self.header, &self.entries)
    }

    /// The contents of the first record of this kind and size.
    fn contents(&self, kind: u8, size: u16) -> Option<&'a [u8]>
        requires { 3 ≤ size }
        ensures value { option_copied result ≡ first_sized kind size self.now }
        ensures size { IfSome result (λ contents. length contents.now + 3 ≡ size) }
        ensures tiled { IsTiled self.now }
    {
        let entry = first_sized(&self.entries, kind, size)?;
        Some(contents_of(self.header, entry))
    }

    /// The contents of the first record of this kind, which has this size in each header.
    fn contents_of_kind(&self, kind: u8, size: u16) -> Option<&'a [u8]>
        requires least { 3 ≤ size }
        requires fixed { (n : ℕ) → has_wrong_length kind n ≡ not (n == size) }
        ensures value { option_copied result ≡ first_contents kind self.now }
        ensures size { IfSome result (λ contents. length contents.now + 3 ≡ size) }
    {
        self.contents(kind, size)
    }
}

/// The contents of a record of these bytes.
fn contents_of(bytes: &[u8], entry: Entry) -> &[u8]
    requires inside { entry.at + entry.length ≤ length bytes.now }
    requires long { 3 ≤ entry.length }
    ensures value { result.now ≡ contents_of bytes.now entry }
    ensures size { length result.now + 3 ≡ entry.length }
{
    let start = entry.at as usize;
    &bytes[start + HEAD..start + usize::from(entry.length)]
}

/// The first record of this kind and size.
fn first_sized(entries: &[Entry], kind: u8, size: u16) -> Option<Entry>
    ensures { result ≡ find (is_sized kind size) entries.now }
{
    entries
        .iter()
        .copied()
        .find(|entry| entry.kind == kind && entry.length == size)
}

/// Whether one of the records is a key with a content byte that isn't 0.
fn has_key(bytes: &[u8], entries: &[Entry]) -> bool
    requires { IsTiled (record { bytes = bytes.now; entries = entries.now }) }
    ensures { result ≡ list_any (is_key bytes.now) entries.now }
{
    for entry in entries {
        if entry.kind == KEY_KIND && has_nonzero(contents_of(bytes, *entry)) {
            return true;
        }
    }
    false
}

/// Whether some byte isn't 0.
fn has_nonzero(bytes: &[u8]) -> bool
    ensures { result ≡ list_any (λ byte. not (byte == 0)) bytes.now }
{
    bytes.iter().any(|byte| *byte != 0)
}

/// Where the header ends.
fn header_end(proper: &[u8]) -> Result<usize, HeaderFault>
    ensures sound { IfOk result (λ end. first_fault proper.now ≡ None) }
    ensures value { IfOk result (λ end. end ≡ header_length proper.now) }
    ensures least { IfOk result (λ end. primary_bytes ≤ end) }
    ensures inside { IfOk result (λ end. end ≤ length proper.now) }
    ensures err { IfErr result (λ fault. first_fault proper.now ≡ Some fault) }
{
    if proper.len() < usize::from(PRIMARY_BYTES) {
        return Err(HeaderFault::Ended {
            at: proper.len() as u64,
        });
    }
    if proper[0] != 0 || u16_at(proper, 1) != PRIMARY_BYTES {
        return Err(HeaderFault::NotPrimary);
    }
    let end = u32_at(proper, 4) as usize;
    if end < usize::from(PRIMARY_BYTES) {
        return Err(HeaderFault::Overrun { at: 0 });
    }
    if proper.len() < end {
        return Err(HeaderFault::Ended {
            at: proper.len() as u64,
        });
    }
    Ok(end)
}

/// Whether records of this kind have another length.
fn has_wrong_length(kind: u8, length: u16) -> bool
    ensures { result ≡ has_wrong_length kind length }
{
    match kind {
        STRUCTURE_KIND => length != STRUCTURE_BYTES,
        NAVIGATION_KIND => length != NAVIGATION_BYTES,
        STAMP_KIND => length != STAMP_BYTES,
        _ => false,
    }
}

/// The record at a place of the header.
fn entry_at(bytes: &[u8], place: usize) -> Result<Entry, HeaderFault>
    requires { place < length bytes.now }
    ensures ok { IfOk result (IsRecord bytes.now place) }
    ensures err { IfErr result (λ fault. fault_at bytes.now place ≡ Some fault) }
{
    let at = place as u64;
    let left = bytes.len() - place;
    if left < HEAD {
        return Err(HeaderFault::Overrun { at });
    }
    let kind = bytes[place];
    let length = u16_at(bytes, place + 1);
    if length < 3 {
        return Err(HeaderFault::ShortRecord { at });
    }
    if left < usize::from(length) {
        return Err(HeaderFault::Overrun { at });
    }
    if has_wrong_length(kind, length) {
        return Err(HeaderFault::WrongLength { kind, length });
    }
    Ok(Entry { kind, at, length })
}
