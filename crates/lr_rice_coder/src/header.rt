//! The first body of a file that is coded anew: the transport header and the header records (CGMS 03).

ghost use Rattle.std.specs.Prelude.{◌≡◌, ◌<◌, ◌≤◌, ◌+◌, ◌*◌, ◌++◌, ◌^◌, [], IfOk, OnOk, length};
ghost use Rattle.lr_bits.specs.Written.{primary_record, transport_header};
ghost use Rattle.lr_headers.specs.Tiling.{IsHeaderOf};
ghost use Rattle.lr_rice_coder.specs.Fronts.{front_with, picture_with};
ghost use Rattle.lr_rice_coder.specs.Repacked.{is_other, lossless_record, other_records, record_bytes};
ghost use Rattle.lr_rice_coder.specs.Repacked.{lossless_structure};

use lr_bits::{Bytes, NoMemory, TRANSPORT_HEADER_BYTES};
use lr_headers::{
    Entry, LOSSLESS_BYTES, LOSSLESS_KIND, PRIMARY_BYTES, Records, STRUCTURE_BYTES, STRUCTURE_KIND,
    Structure,
};
use std::alloc::Global;

/// The bytes of the primary, the image structure and the lossless record.
const NEW_RECORDS_BYTES: usize = (PRIMARY_BYTES + STRUCTURE_BYTES + LOSSLESS_BYTES) as usize;

/// The bytes of a first body before the records that stay.
pub(crate) const NEW_BYTES: usize = TRANSPORT_HEADER_BYTES + NEW_RECORDS_BYTES;

/// How the primary record begins: its kind, its 16 bytes, and the file type of images.
const PRIMARY_FRONT: [u8; 4] = [0, 0, PRIMARY_BYTES as u8, 0];

/// How the image structure record begins: its kind and its 9 bytes.
const STRUCTURE_FRONT: [u8; 3] = [STRUCTURE_KIND, 0, STRUCTURE_BYTES as u8];

/// The compression without loss, at the end of the image structure record.
const COMPRESSION: u8 = 1;

/// How the lossless record begins: its kind, its 7 bytes, and the flags.
const LOSSLESS_FRONT: [u8; 5] = [LOSSLESS_KIND, 0, LOSSLESS_BYTES as u8, 0, FLAGS];

/// The flags of a lossless record: the bit of value 32 says that the predictor of the sample before is used, 16 and 1
/// go with it.
const FLAGS: u8 = 49;

/// How many lines a packet has, at the end of the lossless record.
const PACKET_LINES: u8 = 1;

/// The records after the first one that stay, one after another.
pub(crate) fn other_records(
    alloc: Global,
    proper: &[u8],
    records: &Records,
) -> Result<Bytes, NoMemory>
    requires { IsHeaderOf proper.now records.now }
    ensures { IfOk result (λ others. others ≡ other_records records.now) }
{
    let header = &proper[..records.header_length() as usize];
    let mut others = Bytes::new(alloc);
    for place in 1..records.count() {
        let entry = records.entry(place);
        if is_other(entry) {
            others.extend(record_bytes(header, entry))?;
        }
    }
    Ok(others)
}

/// Whether the record is neither an image structure nor a lossless one.
fn is_other(entry: Entry) -> bool
    ensures { result ≡ is_other entry }
{
    entry.kind != STRUCTURE_KIND && entry.kind != LOSSLESS_KIND
}

/// All bytes of a record.
fn record_bytes(header: &[u8], entry: Entry) -> &[u8]
    requires { entry.at + entry.length ≤ length header.now }
    ensures { result.now ≡ record_bytes header.now entry }
{
    let start = entry.at as usize;
    &header[start..start + usize::from(entry.length)]
}

/// The first body, where the lines have `size` bytes.
pub(crate) fn first_body(
    alloc: Global,
    counter: u16,
    structure: Structure,
    block: u8,
    others: &[u8],
    size: usize,
) -> Result<Bytes, NoMemory>
    requires others { length others.now < 2 ^ 31 }
    requires size { size < 2 ^ 31 }
    ensures { IfOk result (λ front. front ≡ front_with counter structure block others.now size) }
{
    let header = NEW_RECORDS_BYTES + others.len();
    let mut front = Bytes::new(alloc);
    put_transport(&mut front, counter, 8 * (header + size) as u64)?;
    put_primary(&mut front, header as u32, 8 * size as u64)?;
    put_structure(&mut front, structure)?;
    put_lossless(&mut front, block)?;
    front.extend(others)?;
    Ok(front)
}

/// Appends the transport header: the file counter, and how many bits come after it.
fn put_transport(front: &mut Bytes, counter: u16, bits: u64) -> Result<(), NoMemory>
    ensures { OnOk result (front.new ≡ front.old ++ transport_header counter bits) }
{
    front.extend(&counter.to_be_bytes())?;
    front.extend(&bits.to_be_bytes())
}

/// Appends the primary record: how many bytes all records have, and how many bits the data field has.
fn put_primary(front: &mut Bytes, size: u32, data_bits: u64) -> Result<(), NoMemory>
    ensures { OnOk result (front.new ≡ front.old ++ primary_record 0 size data_bits) }
{
    front.extend(&PRIMARY_FRONT)?;
    front.extend(&size.to_be_bytes())?;
    front.extend(&data_bits.to_be_bytes())
}

/// Appends the image structure record.
fn put_structure(front: &mut Bytes, structure: Structure) -> Result<(), NoMemory>
    ensures { OnOk result (front.new ≡ front.old ++ lossless_structure (picture_with structure [])) }
{
    front.extend(&STRUCTURE_FRONT)?;
    front.extend(&[structure.bits])?;
    front.extend(&structure.columns.to_be_bytes())?;
    front.extend(&structure.lines.to_be_bytes())?;
    front.extend(&[COMPRESSION])
}

/// Appends the lossless record.
fn put_lossless(front: &mut Bytes, block: u8) -> Result<(), NoMemory>
    ensures { OnOk result (front.new ≡ front.old ++ lossless_record block) }
{
    front.extend(&LOSSLESS_FRONT)?;
    front.extend(&[block, PACKET_LINES])
}
