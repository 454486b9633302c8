//! Files of many sizes, one after another on one channel, and the checksums of their frames.

use crate::sent_files::file_of;
use lr_bits::{Bytes, FRAME_BYTES, Lengths, MissionFile, NoMemory, crc16};
use lr_conv::STANDARD;
use lr_uplink::Uplink;
use std::alloc::Global;
use std::test::Fail;

/// The sizes of single bodies: the shortest, the longest, and those that leave 0 to 7 and 883 bytes of a zone.
const SIZES: [usize; 11] = [10, 65_534, 876, 875, 874, 873, 872, 871, 870, 869, 877];

static SEVENS: [u8; 65_534] = [7; 65_534];

/// A file of 1,000 bodies: one of ten bytes, and 999 of one.
fn file_of_many(alloc: Global) -> Result<Option<MissionFile>, NoMemory> {
    let mut lengths = Lengths::new(alloc);
    let mut bytes = Bytes::new(alloc);
    lengths.push(10)?;
    bytes.extend(&[7; 10])?;
    for _ in 0..999u16 {
        lengths.push(1)?;
        bytes.extend(&[7])?;
    }
    Ok(MissionFile::build(0, 100, lengths, bytes))
}

/// Appends the checksum of each frame of the file, which has to be one.
fn put_sums(uplink: &mut Uplink, file: Option<MissionFile>, sums: &mut Bytes) -> Result<(), Fail> {
    uplink.load(file.ok_or("no file")?)?;
    for _ in 0..1_000u32 {
        let mut frame = [0u8; FRAME_BYTES];
        if !uplink.next_frame(&mut frame) {
            return Ok(());
        }
        sums.extend(&crc16(&frame).to_be_bytes())?;
    }
    Err(Fail::from("the file doesn't end"))
}

#[test]
fn each_rest_of_a_zone_is_filled(rt: HostRuntime) -> Result<(), Fail> {
    let alloc = rt.alloc();
    let mut uplink = Uplink::new(alloc, STANDARD)?;
    let mut sums = Bytes::new(alloc);
    for size in SIZES {
        let body = SEVENS.get(..size).ok_or("too long")?;
        put_sums(&mut uplink, file_of(alloc, 0, body)?, &mut sums)?;
    }
    assert_eq!(rt; crc16(sums.as_slice()), 0x06A3);
    Ok(())
}

/// 17 files of 1,000 bodies: the sequence counts pass 16,383.
#[test]
fn counts_pass_their_greatest_value(rt: HostRuntime) -> Result<(), Fail> {
    let alloc = rt.alloc();
    let mut uplink = Uplink::new(alloc, STANDARD)?;
    let mut sums = Bytes::new(alloc);
    for _ in 0..17u8 {
        put_sums(&mut uplink, file_of_many(alloc)?, &mut sums)?;
    }
    assert_eq!(rt; crc16(sums.as_slice()), 0x29AF);
    Ok(())
}
