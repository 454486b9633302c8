//! The lines of `show`: one for each record of a file's header, or one for its first fault.

ghost use Rattle.std.specs.Prelude.{◌≡◌, ◌≢◌, ◌<◌, ◌++◌, IfOk, OnOk, OnErr, Some, length, string_bytes};
ghost use Rattle.std.specs.List.{flat_map, slice_get};
ghost use Rattle.lr_catalog.specs.Records.{
  primary_words,
  structure_words,
  projection_words,
  navigation_words,
  segment_words,
  lossless_words,
  content_words,
  record_words,
  record_line,
  ended_line,
  short_line,
  overrun_line,
  length_line,
  fault_line,
  header_lines,
};

use crate::texts::{put_escaped, put_words, trim_end};
use lr_bits::{Bytes, NoMemory};
use lr_headers::{
    Content, Entry, HeaderFault, Lossless, Navigation, Records, Segment, Structure, stamp_text,
};
use std::alloc::{AllocError, Global};

#[tactic(auto, unfolding(crate::specs::Records::primary_words))]
fn primary_words(alloc: Global, kind: u8, size: u64, bits: u64) -> Result<String, AllocError>
    ensures { IfOk result (λ words. string_bytes words ≡ primary_words kind size bits) }
{
    format!(in alloc; " primary type {kind} header {size} bits {bits}")
}

#[tactic(auto, unfolding(crate::specs::Records::structure_words))]
fn structure_words(alloc: Global, structure: &Structure) -> Result<String, AllocError>
    ensures { IfOk result (λ words. string_bytes words ≡ structure_words structure.now) }
{
    let Structure {
        bits,
        columns,
        lines,
        compression,
    } = *structure;
    format!(in alloc;
        " image bits {bits} columns {columns} lines {lines} compression {compression}"
    )
}

#[tactic(auto, unfolding(crate::specs::Records::projection_words))]
fn projection_words(alloc: Global, navigation: &Navigation) -> Result<String, AllocError>
    ensures { IfOk result (λ words. string_bytes words ≡ projection_words navigation.now) }
{
    let Navigation {
        column_factor,
        line_factor,
        column_offset,
        line_offset,
        ..
    } = *navigation;
    format!(in alloc; " {column_factor} {line_factor} {column_offset} {line_offset}")
}

/// Appends what a navigation record says.
fn put_navigation(alloc: Global, navigation: &Navigation, out: &mut Bytes) -> Result<(), NoMemory>
    ensures { OnOk result (out.new ≡ out.old ++ navigation_words navigation.now) }
{
    out.extend(b" navigation ")?;
    put_escaped(trim_end(&navigation.name), out)?;
    put_words(projection_words(alloc, navigation), out)
}

#[tactic(auto, unfolding(crate::specs::Records::segment_words))]
fn segment_words(alloc: Global, segment: &Segment) -> Result<String, AllocError>
    ensures { IfOk result (λ words. string_bytes words ≡ segment_words segment.now) }
{
    let Segment {
        image,
        number,
        start_column,
        start_line,
        segments,
        columns,
        lines,
    } = *segment;
    format!(in alloc;
        " segment {image} {number} {start_column} {start_line} {segments} {columns} {lines}"
    )
}

#[tactic(auto, unfolding(crate::specs::Records::lossless_words))]
fn lossless_words(alloc: Global, lossless: &Lossless) -> Result<String, AllocError>
    ensures { IfOk result (λ words. string_bytes words ≡ lossless_words lossless.now) }
{
    let Lossless {
        flags,
        block,
        lines,
    } = *lossless;
    format!(in alloc; " lossless flags {flags} block {block} lines {lines}")
}

/// Appends what a record says, whose contents are these.
fn put_content(
    alloc: Global,
    content: Content,
    contents: &[u8],
    out: &mut Bytes,
) -> Result<(), NoMemory>
    ensures { OnOk result (out.new ≡ out.old ++ content_words content contents.now) }
{
    match content {
        Content::Primary {
            file_type,
            header_length,
            data_bits,
        } => put_words(
            primary_words(alloc, file_type, header_length, data_bits),
            out,
        ),
        Content::Structure(structure) => put_words(structure_words(alloc, &structure), out),
        Content::Navigation(navigation) => put_navigation(alloc, &navigation, out),
        Content::Text => {
            out.extend(b" text ")?;
            put_escaped(contents, out)
        }
        Content::Stamp(stamp) => {
            out.extend(b" stamp ")?;
            stamp_text(alloc, &stamp, out)
        }
        Content::Key => out.extend(b" key"),
        Content::Segment(segment) => put_words(segment_words(alloc, &segment), out),
        Content::Lossless(lossless) => put_words(lossless_words(alloc, &lossless), out),
        Content::Other => out.extend(b" other"),
    }
}

#[tactic(auto, unfolding(crate::specs::Records::record_words))]
fn record_words(alloc: Global, entry: Entry) -> Result<String, AllocError>
    ensures { IfOk result (λ words. string_bytes words ≡ record_words entry) }
{
    let kind = entry.kind;
    let length = entry.length;
    format!(in alloc; "record {kind} length {length}")
}

/// Appends the line of the record at a place of a header.
fn put_record(
    alloc: Global,
    records: &Records<'_>,
    place: usize,
    out: &mut Bytes,
) -> Result<(), NoMemory>
    requires { place < length records.now.entries }
    ensures { (e : Entry) → slice_get records.now.entries place ≡ Some e
        → OnOk result (out.new ≡ out.old ++ record_line records.now e) }
{
    put_words(record_words(alloc, records.entry(place)), out)?;
    put_content(
        alloc,
        records.content(place),
        records.contents_at(place),
        out,
    )?;
    out.extend(b"\n")
}

/// Appends the line of the record at a place of a header, or nothing. Places count from 0.
pub fn record_line(
    alloc: Global,
    records: &Records<'_>,
    place: usize,
    out: &mut Bytes,
) -> Result<(), NoMemory>
    requires { place < length records.now.entries }
    ensures ok { (e : Entry) → slice_get records.now.entries place ≡ Some e
        → OnOk result (out.new ≡ out.old ++ record_line records.now e) }
    ensures err { OnErr result (out.new ≡ out.old) }
{
    let mut line = Bytes::new(alloc);
    put_record(alloc, records, place, &mut line)?;
    out.extend(line.as_slice())
}

/// The lines of all records.
fn all_lines(alloc: Global, records: &Records<'_>) -> Result<Bytes, NoMemory>
    ensures { IfOk result (λ lines. lines ≡ flat_map (record_line records.now) records.now.entries) }
{
    let mut lines = Bytes::new(alloc);
    for place in 0..records.count() {
        record_line(alloc, records, place, &mut lines)?;
    }
    Ok(lines)
}

#[tactic(auto, unfolding(crate::specs::Records::ended_line))]
fn ended_line(alloc: Global, at: u64) -> Result<String, AllocError>
    ensures { IfOk result (λ line. string_bytes line ≡ ended_line at) }
{
    format!(in alloc; "header fault ended {at}\n")
}

#[tactic(auto, unfolding(crate::specs::Records::short_line))]
fn short_line(alloc: Global, at: u64) -> Result<String, AllocError>
    ensures { IfOk result (λ line. string_bytes line ≡ short_line at) }
{
    format!(in alloc; "header fault short {at}\n")
}

#[tactic(auto, unfolding(crate::specs::Records::overrun_line))]
fn overrun_line(alloc: Global, at: u64) -> Result<String, AllocError>
    ensures { IfOk result (λ line. string_bytes line ≡ overrun_line at) }
{
    format!(in alloc; "header fault overrun {at}\n")
}

#[tactic(auto, unfolding(crate::specs::Records::length_line))]
fn length_line(alloc: Global, kind: u8, size: u16) -> Result<String, AllocError>
    ensures { IfOk result (λ line. string_bytes line ≡ length_line kind size) }
{
    format!(in alloc; "header fault length {kind} {size}\n")
}

/// The line of a fault; want of memory is none.
fn fault_line(alloc: Global, fault: HeaderFault) -> Result<String, AllocError>
    ensures { IfOk result (λ line. string_bytes line ≡ fault_line fault) }
{
    match fault {
        HeaderFault::Ended { at } => ended_line(alloc, at),
        HeaderFault::NotPrimary => String::from_str(alloc, "header fault not-primary\n"),
        HeaderFault::ShortRecord { at } => short_line(alloc, at),
        HeaderFault::Overrun { at } => overrun_line(alloc, at),
        HeaderFault::WrongLength { kind, length } => length_line(alloc, kind, length),
        HeaderFault::NoMemory => Ok(String::new(alloc)),
    }
}

/// Appends the line of a fault, or nothing; want of memory is answered as it is.
fn put_fault(alloc: Global, fault: HeaderFault, out: &mut Bytes) -> Result<(), NoMemory>
    ensures ok { OnOk result (out.new ≡ out.old ++ fault_line fault) }
    ensures is_fault { OnOk result (fault ≢ HeaderFault.NoMemory) }
    ensures err { OnErr result (out.new ≡ out.old) }
{
    match fault {
        HeaderFault::NoMemory => Err(NoMemory),
        fault => put_words(fault_line(alloc, fault), out),
    }
}

/// Appends the lines of the header of a mission file proper, or nothing: one for each record, or the one of the first
/// fault.
pub fn header_lines(alloc: Global, proper: &[u8], out: &mut Bytes) -> Result<(), NoMemory>
    ensures ok { OnOk result (out.new ≡ out.old ++ header_lines proper.now) }
    ensures err { OnErr result (out.new ≡ out.old) }
{
    match Records::read(alloc, proper) {
        Ok(records) => {
            let lines = all_lines(alloc, &records)?;
            out.extend(lines.as_slice())
        }
        Err(fault) => put_fault(alloc, fault, out),
    }
}
