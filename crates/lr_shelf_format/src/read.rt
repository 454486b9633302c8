//! Old and Add items read back from their bytes.
ghost use Rattle.std.specs.Prelude.{
  ◌≡◌,
  ◌≤◌,
  ◌*◌,
  ◌↔◌,
  All,
  IfNone,
  IfOk,
  IfSome,
  IsTrue,
  OnSome,
  ◌<◌,
  drop,
  length,
  sum,
  ◌+◌,
};
ghost use Rattle.lr_bits.specs.Sizes.{most_body_bytes};
ghost use Rattle.lr_shelf_format.specs.Items.{
  Begins,
  HasBody,
  HasForm,
  Holds,
  IsFileRecord,
  computed_checksum,
  stored_checksum,
};
ghost use Rattle.lr_shelf_format.specs.Record.{IsHead, file_of_body, numbers_in, origin_of_bytes};
ghost use Rattle.lr_shelf_format.specs.declared.item.TheConstants.{ITEM_BYTES};
ghost use Rattle.lr_shelf_format.specs.declared.record.TheConstants.{ADD_FRONT_BYTES};

use crate::item::{ITEM_BYTES, ItemHead, read_item};
use crate::record::{
    ADD_FRONT_BYTES, CHECKSUM_BYTES, LENGTH_BYTES, OLD_FRONT_BYTES, RecordHead, extent_after,
};
use crate::stored::Stored;
use byteorder::{BigEndian, ByteOrder};
use lr_bits::{Bytes, Lengths, MissionFile, NoMemory, Origin, crc16};
use std::alloc::Global;

/// The two checksums of an item.
#[derive(Clone, Copy)]
pub struct Checksums {
    /// The one at its end.
    pub stored: u16,
    /// The one of its bytes before that.
    pub computed: u16,
}

/// The head of these bytes, if they have the form of an Old or an Add item, whatever its checksum.
pub fn record_in(bytes: &[u8]) -> Option<ItemHead>
    ensures begins { IfSome result (Begins bytes.now) }
    ensures form { IfSome result (HasForm bytes.now) }
    ensures none { IfNone result (IsFileRecord bytes.now → ⊥) }
{
    if bytes.len() < ITEM_BYTES {
        return None;
    }
    let mut item = [0; ITEM_BYTES];
    item.copy_from_slice(&bytes[..ITEM_BYTES]);
    let head = read_item(&item)?;
    if !has_form(bytes, head) {
        return None;
    }
    Some(head)
}

/// Whether the bytes are as many as this head says, and its lengths add up.
fn has_form(bytes: &[u8], head: ItemHead) -> bool
    ensures { IsTrue result ↔ HasForm bytes.now head }
{
    match head {
        ItemHead::Old(fields) => has_body(bytes, fields, OLD_FRONT_BYTES),
        ItemHead::Add(fields) => has_body(bytes, fields, ADD_FRONT_BYTES),
        ItemHead::Discard(_) => false,
    }
}

/// Whether such a body stands after this many bytes.
fn has_body(bytes: &[u8], head: RecordHead, front: usize) -> bool
    requires { front ≤ ADD_FRONT_BYTES }
    ensures { IsTrue result ↔ HasBody head front bytes.now }
{
    if bytes.len() as u64 != extent_after(front, head.packets, head.bytes) {
        return false;
    }
    match sum_of(&bytes[front..], head.packets) {
        Some(total) => total == u64::from(head.bytes),
        None => false,
    }
}

/// The sum of this many lengths of two bytes each, or none where one of them is 65,535.
pub fn sum_of(pairs: &[u8], count: u32) -> Option<u64>
    requires { 2 * count ≤ length pairs.now }
    ensures none { IfNone result (All (λ one. one ≤ most_body_bytes) (numbers_in count pairs.now) → ⊥) }
    ensures short { OnSome result (All (λ one. one ≤ most_body_bytes) (numbers_in count pairs.now)) }
    ensures total { IfSome result (λ total. total ≡ sum (numbers_in count pairs.now)) }
    ensures low { IfSome result (λ total. total ≤ 65535 * count) }
{
    let mut total = 0;
    for place in 0..count {
        let length = BigEndian::read_u16(&pairs[LENGTH_BYTES * place as usize..]);
        if length == u16::MAX {
            return None;
        }
        total += u64::from(length);
    }
    Some(total)
}

/// The checksum at the end of an item, and that of the bytes before it.
pub fn sums_of(bytes: &[u8]) -> Checksums
    requires { 2 ≤ length bytes.now }
    ensures stored { result.stored ≡ stored_checksum bytes.now }
    ensures computed { result.computed ≡ computed_checksum bytes.now }
{
    let end = bytes.len() - CHECKSUM_BYTES;
    Checksums {
        stored: BigEndian::read_u16(&bytes[end..]),
        computed: crc16(&bytes[..end]),
    }
}

/// The file of an item with the right checksum, and its origin.
pub fn stored_in(alloc: Global, bytes: &[u8], head: ItemHead) -> Result<Stored, NoMemory>
    requires begins { Begins bytes.now head }
    requires form { HasForm bytes.now head }
    requires right { stored_checksum bytes.now ≡ computed_checksum bytes.now }
    ensures { IfOk result (Holds bytes.now) }
{
    match head {
        ItemHead::Old(fields) => {
            let file = file_in(alloc, bytes, fields, OLD_FRONT_BYTES)?;
            Ok(Stored { file, origin: None })
        }
        ItemHead::Add(fields) => {
            let file = file_in(alloc, bytes, fields, ADD_FRONT_BYTES)?;
            let origin = Some(origin_in(bytes));
            Ok(Stored { file, origin })
        }
        ItemHead::Discard(_) => unreachable!(),
    }
}

/// The origin in an Add item: three numbers of eight bytes, after the item's first bytes.
fn origin_in(bytes: &[u8]) -> Origin
    requires { ADD_FRONT_BYTES ≤ length bytes.now }
    ensures { result ≡ origin_of_bytes (drop ITEM_BYTES bytes.now) }
{
    Origin {
        first: BigEndian::read_u64(&bytes[ITEM_BYTES..]),
        last: BigEndian::read_u64(&bytes[ITEM_BYTES + 8..]),
        corrected: BigEndian::read_u64(&bytes[ITEM_BYTES + 16..]),
    }
}

/// The file of these fields whose body stands after this many bytes.
fn file_in(
    alloc: Global,
    bytes: &[u8],
    head: RecordHead,
    front: usize,
) -> Result<MissionFile, NoMemory>
    requires front { front ≤ ADD_FRONT_BYTES }
    requires head { IsHead head }
    requires body { HasBody head front bytes.now }
    ensures { IfOk result (λ file. file ≡ file_of_body head (drop front bytes.now)) }
{
    let lengths = lengths_in(alloc, &bytes[front..], head.packets)?;
    let from = front + LENGTH_BYTES * head.packets as usize;
    let mut body = Bytes::new(alloc);
    body.extend(&bytes[from..from + head.bytes as usize])?;
    let Some(file) = MissionFile::build(head.vc, head.apid, lengths, body) else {
        unreachable!();
    };
    Ok(file)
}

/// This many lengths of two bytes each.
fn lengths_in(alloc: Global, pairs: &[u8], count: u32) -> Result<Lengths, NoMemory>
    requires { 2 * count ≤ length pairs.now }
    ensures { IfOk result (λ lengths. lengths ≡ numbers_in count pairs.now) }
{
    let mut lengths = Lengths::new(alloc);
    for place in 0..count {
        lengths.push(BigEndian::read_u16(&pairs[LENGTH_BYTES * place as usize..]))?;
    }
    Ok(lengths)
}
