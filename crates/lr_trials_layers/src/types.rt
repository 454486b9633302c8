//! Packets and files show their parts and keep their limits.
use lr_bits::{Bytes, Lengths, MissionFile, NoMemory, RawPacket, crc16};
use lr_packet::{PacketFault, check, head};
use std::alloc::Global;
use std::test::Fail;

/// The packet of the body `123456789`: flags 3, APID 100, count 0.
static DIGITS: [u8; 17] = [
    0x00, 0x64, 0xC0, 0x00, 0x00, 0x0A, 0x31, 0x32, 0x33, 0x34, 0x35, 0x36, 0x37, 0x38, 0x39, 0x29,
    0xB1,
];

/// The same packet with another checksum.
static OTHER_CHECKSUM: [u8; 17] = [
    0x00, 0x64, 0xC0, 0x00, 0x00, 0x0A, 0x31, 0x32, 0x33, 0x34, 0x35, 0x36, 0x37, 0x38, 0x39, 0x29,
    0xB0,
];

/// The header of an idle packet with a data field of 861 bytes.
static IDLE_HEAD: [u8; 6] = [0x07, 0xFF, 0xC0, 0x00, 0x03, 0x5C];

/// A file counter of 7, a declared length of 136 bits, and sixteen bytes.
static FILE: [u8; 26] = [
    0, 7, 0, 0, 0, 0, 0, 0, 0, 136, 0x00, 0x00, 0x10, 0x02, 0x00, 0x00, 0x00, 0x10, 0, 0, 0, 0, 0,
    0, 0, 0,
];

static ZEROS: [u8; 65_535] = [0; 65_535];

fn packet(alloc: Global, vc: u8, front: &[u8], back: &[u8]) -> Result<Option<RawPacket>, NoMemory> {
    let mut bytes = Bytes::new(alloc);
    bytes.extend(front)?;
    bytes.extend(back)?;
    Ok(RawPacket::build(vc, bytes))
}

fn file(
    alloc: Global,
    vc: u8,
    apid: u16,
    lengths: &[u16],
    bytes: &[u8],
) -> Result<Option<MissionFile>, NoMemory> {
    let mut each = Lengths::new(alloc);
    for length in lengths {
        each.push(*length)?;
    }
    let mut all = Bytes::new(alloc);
    all.extend(bytes)?;
    Ok(MissionFile::build(vc, apid, each, all))
}

fn is_file(
    alloc: Global,
    vc: u8,
    apid: u16,
    lengths: &[u16],
    bytes: &[u8],
) -> Result<bool, NoMemory> {
    let built = file(alloc, vc, apid, lengths, bytes)?;
    Ok(built.is_some())
}

/// Whether ten bytes, and this many empty bodies after them, are a file.
fn is_file_of_empty_bodies(alloc: Global, more: u32) -> Result<bool, NoMemory> {
    let mut lengths = Lengths::new(alloc);
    lengths.push(10)?;
    for _ in 0..more {
        lengths.push(0)?;
    }
    let mut bytes = Bytes::new(alloc);
    bytes.extend(&ZEROS[..10])?;
    Ok(MissionFile::build(0, 0, lengths, bytes).is_some())
}

fn shows_its_parts(alloc: Global) -> Result<bool, Fail> {
    let file = file(alloc, 5, 100, &[2, 24], &FILE)?.ok_or("no file")?;
    if file.packets() != 2 {
        return Ok(false);
    }
    let numbers = file.vc() == 5 && file.apid() == 100 && file.counter() == 7;
    let bits = file.declared_bits() == 136 && file.real_bits() == 128;
    let lengths = file.length(0) == 2 && file.length(1) == 24 && file.lengths().len() == 2;
    let bytes = file.bytes() == FILE.as_slice() && file.proper() == &FILE[10..];
    Ok(numbers && bits && lengths && bytes)
}

/// A packet of channel 0, which has to be one.
fn raw(alloc: Global, front: &[u8], back: &[u8]) -> Result<RawPacket, Fail> {
    Ok(packet(alloc, 0, front, back)?.ok_or("no packet")?)
}

fn head_is_read(alloc: Global) -> Result<bool, Fail> {
    let read = head(&raw(alloc, &DIGITS, &[])?);
    let plain = read.version == 0 && !read.kind && !read.secondary;
    Ok(plain && read.apid == 100 && read.flags == 3 && read.count == 0 && read.length == 11)
}

fn is_good(alloc: Global) -> Result<bool, Fail> {
    let raw = raw(alloc, &DIGITS, &[])?;
    let good = check(&raw)?;
    let numbers = good.vc == 0 && good.apid == 100 && good.flags == 3 && good.count == 0;
    Ok(numbers && good.body == b"123456789".as_slice())
}

fn breaks_its_checksum(alloc: Global) -> Result<bool, Fail> {
    let raw = raw(alloc, &OTHER_CHECKSUM, &[])?;
    Ok(matches!(
        check(&raw),
        Err(PacketFault::Crc {
            stored: 0x29B0,
            computed: 0x29B1
        })
    ))
}

fn is_idle(alloc: Global) -> Result<bool, Fail> {
    let raw = raw(alloc, &IDLE_HEAD, &ZEROS[..861])?;
    Ok(matches!(check(&raw), Err(PacketFault::Idle)))
}

#[test]
fn checksums_of_known_bytes(rt: HostRuntime) {
    assert!(rt; crc16(b"123456789") == 0x29B1);
    assert!(rt; crc16(b"") == 0xFFFF);
}

#[test]
fn a_file_keeps_its_limits(rt: HostRuntime) -> Result<(), Fail> {
    let alloc = rt.alloc();
    assert!(rt; is_file(alloc, 63, 2046, &[10], &ZEROS[..10])?);
    assert!(rt; !is_file(alloc, 64, 2046, &[10], &ZEROS[..10])?);
    assert!(rt; !is_file(alloc, 63, 2047, &[10], &ZEROS[..10])?);
    assert!(rt; !is_file(alloc, 0, 0, &[], &ZEROS[..10])?);
    assert!(rt; !is_file(alloc, 0, 0, &[9], &ZEROS[..9])?);
    assert!(rt; !is_file(alloc, 0, 0, &[5, 6], &ZEROS[..10])?);
    assert!(rt; !is_file(alloc, 0, 0, &[5, 4], &ZEROS[..10])?);
    assert!(rt; is_file(alloc, 0, 0, &[65_534], &ZEROS[..65_534])?);
    assert!(rt; !is_file(alloc, 0, 0, &[65_535], &ZEROS)?);
    Ok(())
}

#[test]
fn a_file_has_at_most_1048576_bodies(rt: HostRuntime) -> Result<(), Fail> {
    assert!(rt; is_file_of_empty_bodies(rt.alloc(), 1_048_575)?);
    assert!(rt; !is_file_of_empty_bodies(rt.alloc(), 1_048_576)?);
    Ok(())
}

#[test]
fn a_file_shows_its_parts(rt: HostRuntime) -> Result<(), Fail> {
    assert!(rt; shows_its_parts(rt.alloc())?);
    Ok(())
}

#[test]
fn packets_are_read_and_checked(rt: HostRuntime) -> Result<(), Fail> {
    let alloc = rt.alloc();
    assert!(rt; head_is_read(alloc)?);
    assert!(rt; is_good(alloc)?);
    assert!(rt; breaks_its_checksum(alloc)?);
    assert!(rt; is_idle(alloc)?);
    Ok(())
}
