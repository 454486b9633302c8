//! The bytes of headers and items. Their values are those of `reference/shelf.py`.
use crate::shared::{BODY, first};
use lr_bits::Bytes;
use lr_shelf_format::{
    ItemHead, RecordHead, discard_of, extent, header_of, old_header_of, old_record_of, read_header,
    read_item, record_of,
};
use std::alloc::Global;
use std::test::Fail;

/// The header of version 2 and capacity 100, with a closed gate.
static HEADER_100: [u8; 20] = [
    0x5A, 0x4C, 0x52, 0x53, 0x48, 0x45, 0x4C, 0x46, 2, 0, 0, 0, 0, 0, 0, 0, 0x64, 0xE0, 0x53, 0,
];

/// The same of version 1.
static OLD_HEADER_100: [u8; 20] = [
    0x5A, 0x4C, 0x52, 0x53, 0x48, 0x45, 0x4C, 0x46, 1, 0, 0, 0, 0, 0, 0, 0, 0x64, 0xCD, 0x17, 0,
];

/// The Old item of the first file, and the closed gate after it.
static OLD: [u8; 42] = [
    0, 0, 0x64, 0, 0, 0, 1, 0, 0, 0, 0x1A, 0, 0x1A, 0, 1, 2, 3, 4, 5, 6, 7, 8, 9, 0x0A, 0x0B, 0x0C,
    0x0D, 0x0E, 0x0F, 0x10, 0x11, 0x12, 0x13, 0x14, 0x15, 0x16, 0x17, 0x18, 0x19, 0xB1, 0x4F, 0,
];

/// The Add item of the first file, and the closed gate after it.
static ADD: [u8; 67] = [
    0x80, 0, 0, 0x64, 0, 0, 0, 1, 0, 0, 0, 0x1A, 0, 0, 0, 0, 0, 0, 0, 9, 0, 0, 0, 0, 0, 0, 1, 0x2C,
    0, 0, 0, 0, 0, 1, 0x11, 0x70, 0, 0x1A, 0, 1, 2, 3, 4, 5, 6, 7, 8, 9, 0x0A, 0x0B, 0x0C, 0x0D,
    0x0E, 0x0F, 0x10, 0x11, 0x12, 0x13, 0x14, 0x15, 0x16, 0x17, 0x18, 0x19, 0x71, 0x9C, 0,
];

/// The Discard of file 1, and the closed gate after it.
static DISCARD_1: [u8; 12] = [0x81, 0, 0, 0, 0, 0, 0, 0, 1, 0x5C, 0xC2, 0];

fn has_old_bytes(alloc: Global) -> Result<bool, Fail> {
    let mut bytes = Bytes::new(alloc);
    old_record_of(&first(alloc)?.file, &mut bytes)?;
    Ok(bytes.as_slice() == OLD.as_slice())
}

fn has_new_bytes(alloc: Global) -> Result<bool, Fail> {
    let mut bytes = Bytes::new(alloc);
    record_of(&first(alloc)?, &mut bytes)?;
    Ok(bytes.as_slice() == ADD.as_slice())
}

/// What stands in the header of capacity 100, with one byte changed.
fn reads_header(place: usize, byte: u8) -> Option<u64> {
    let mut other = HEADER_100;
    if let Some(one) = other.get_mut(place) {
        *one = byte;
    }
    read_header(&other)
}

fn is_greatest(head: RecordHead) -> bool {
    head.vc == 63 && head.apid == 2046 && head.packets == 1_048_576 && head.bytes == 67_108_864
}

fn is_old(found: Option<ItemHead>) -> bool {
    matches!(found, Some(ItemHead::Old(head)) if is_greatest(head))
}

fn is_add(found: Option<ItemHead>) -> bool {
    matches!(found, Some(ItemHead::Add(head)) if is_greatest(head))
}

#[test]
fn a_header_has_these_bytes(rt: HostRuntime) {
    assert!(rt; header_of(100) == HEADER_100);
    assert!(rt; old_header_of(100) == OLD_HEADER_100);
    assert!(rt; read_header(&OLD_HEADER_100) == Some(100));
    assert!(rt; reads_header(19, 0x7F) == Some(100));
}

#[test]
fn a_header_is_read_to_the_letter(rt: HostRuntime) {
    assert!(rt; reads_header(18, 0x52).is_none());
    assert!(rt; reads_header(0, 0).is_none());
    assert!(rt; reads_header(8, 3).is_none());
    assert!(rt; reads_header(16, 19).is_none());
}

#[test]
fn an_item_has_these_bytes(rt: HostRuntime) -> Result<(), Fail> {
    assert!(rt; has_old_bytes(rt.alloc())?);
    assert!(rt; has_new_bytes(rt.alloc())?);
    assert!(rt; discard_of(1) == DISCARD_1);
    assert!(rt; extent(1, BODY.len() as u32) == 66);
    Ok(())
}

#[test]
fn a_head_has_ranges(rt: HostRuntime) {
    assert!(rt; is_old(read_item(&[63, 7, 0xFE, 0, 0x10, 0, 0, 4, 0, 0, 0, 0xFF])));
    assert!(rt; is_add(read_item(&[0x80, 63, 7, 0xFE, 0, 0x10, 0, 0, 4, 0, 0, 0])));
    assert!(rt; read_item(&[64, 7, 0xFE, 0, 0x10, 0, 0, 4, 0, 0, 0, 0]).is_none());
    assert!(rt; read_item(&[63, 7, 0xFF, 0, 0x10, 0, 0, 4, 0, 0, 0, 0]).is_none());
    assert!(rt; read_item(&[63, 7, 0xFE, 0, 0x10, 0, 1, 4, 0, 0, 0, 0]).is_none());
    assert!(rt; read_item(&[63, 7, 0xFE, 0, 0, 0, 0, 4, 0, 0, 0, 0]).is_none());
    assert!(rt; read_item(&[0x80, 63, 7, 0xFE, 0, 0x10, 0, 0, 0, 0, 0, 9]).is_none());
}

#[test]
fn a_discard_has_its_checksum(rt: HostRuntime) {
    assert!(rt; matches!(read_item(&DISCARD_1), Some(ItemHead::Discard(1))));
    assert!(rt; read_item(&[0x81, 0, 0, 0, 0, 0, 0, 0, 0, 0x5C, 0xC2, 0]).is_none());
    assert!(rt; read_item(&[0x82, 0, 0, 0, 0, 0, 0, 0, 1, 0x5C, 0xC2, 0]).is_none());
}
