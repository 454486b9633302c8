//! Items: what the bytes after a gate begin.
ghost use Rattle.std.specs.Prelude.{◌≡◌, ◌∷◌, ◌++◌, [], IfSome, IfNone, slice_index};
ghost use Rattle.lr_shelf_format.specs.Items.{Begins, discard_bytes};
ghost use Rattle.lr_shelf_format.specs.declared.item.TheConstants.{ADD, DISCARD};

use crate::record::{
    ADD_FRONT_BYTES, HEAD_BYTES, OLD_FRONT_BYTES, RecordHead, extent_after, read_fields,
};
use byteorder::{BigEndian, ByteOrder};
use lr_bits::crc16;

/// The bytes after a gate that tell what item stands there.
pub const ITEM_BYTES: usize = 12;

/// The bytes of a Discard item.
const DISCARD_BYTES: usize = 11;

/// The first byte of an Add item.
pub(crate) const ADD: u8 = 0x80;

/// The first byte of a Discard item.
const DISCARD: u8 = 0x81;

/// What the bytes after an open gate begin.
#[derive(Clone, Copy)]
pub enum ItemHead {
    /// The record of a file, as version 1 wrote it.
    Old(RecordHead),
    /// The record of a file with its origin.
    Add(RecordHead),
    /// That the file of this number is discarded.
    Discard(u64),
}

impl ItemHead {
    ghost use Rattle.std.specs.Prelude.{◌≡◌};
    ghost use Rattle.lr_shelf_format.specs.Items.{extent_of};

    /// How many bytes such an item has.
    pub fn extent(self) -> u64
        ensures { result ≡ extent_of self }
    {
        match self {
            ItemHead::Old(head) => extent_after(OLD_FRONT_BYTES, head.packets, head.bytes),
            ItemHead::Add(head) => extent_after(ADD_FRONT_BYTES, head.packets, head.bytes),
            ItemHead::Discard(_) => DISCARD_BYTES as u64,
        }
    }
}

/// The bytes of a Discard item, and the closed gate after it.
pub fn discard_of(number: u64) -> [u8; ITEM_BYTES]
    ensures { result ≡ discard_bytes number ++ 0 ∷ [] }
{
    let mut item = [0; ITEM_BYTES];
    item[0] = DISCARD;
    BigEndian::write_u64(&mut item[1..], number);
    let checksum = crc16(&item[..9]);
    BigEndian::write_u16(&mut item[9..], checksum);
    item
}

/// The item that these bytes begin. `None` exactly where they begin none: a field is out of its range, or a Discard
/// has the wrong checksum.
pub fn read_item(bytes: &[u8; ITEM_BYTES]) -> Option<ItemHead>
    ensures found { IfSome result (Begins bytes.now) }
    ensures none { IfNone result ((head : ItemHead) → Begins bytes.now head → ⊥) }
{
    match bytes[0] {
        ADD => read_add(bytes),
        DISCARD => read_discard(bytes),
        _ => read_old(bytes),
    }
}

fn read_old(bytes: &[u8; ITEM_BYTES]) -> Option<ItemHead>
    requires add { slice_index bytes.now 0 ≡ ADD → ⊥ }
    requires discard { slice_index bytes.now 0 ≡ DISCARD → ⊥ }
    ensures found { IfSome result (Begins bytes.now) }
    ensures none { IfNone result ((head : ItemHead) → Begins bytes.now head → ⊥) }
{
    let mut fields = [0; HEAD_BYTES];
    fields.copy_from_slice(&bytes[..HEAD_BYTES]);
    match read_fields(&fields) {
        Some(head) => Some(ItemHead::Old(head)),
        None => None,
    }
}

fn read_add(bytes: &[u8; ITEM_BYTES]) -> Option<ItemHead>
    requires { slice_index bytes.now 0 ≡ ADD }
    ensures found { IfSome result (Begins bytes.now) }
    ensures none { IfNone result ((head : ItemHead) → Begins bytes.now head → ⊥) }
{
    let mut fields = [0; HEAD_BYTES];
    fields.copy_from_slice(&bytes[1..]);
    match read_fields(&fields) {
        Some(head) => Some(ItemHead::Add(head)),
        None => None,
    }
}

fn read_discard(bytes: &[u8; ITEM_BYTES]) -> Option<ItemHead>
    requires { slice_index bytes.now 0 ≡ DISCARD }
    ensures found { IfSome result (Begins bytes.now) }
    ensures none { IfNone result ((head : ItemHead) → Begins bytes.now head → ⊥) }
{
    let number = BigEndian::read_u64(&bytes[1..]);
    let item = discard_of(number);
    if bytes[..DISCARD_BYTES] != item[..DISCARD_BYTES] {
        return None;
    }
    Some(ItemHead::Discard(number))
}
