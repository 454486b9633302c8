//! Single files, frame by frame.

use lr_bits::{Bytes, FRAME_BYTES, Lengths, MissionFile, NoMemory, crc16};
use lr_conv::STANDARD;
use lr_uplink::{Uplink, UplinkFault};
use std::alloc::Global;
use std::test::Fail;

/// A file counter of 7, a declared length of 136 bits, and a primary record of file type 2.
pub(crate) static SHORT: [u8; 26] = [
    0, 7, 0, 0, 0, 0, 0, 0, 0, 136, 0x00, 0x00, 0x10, 0x02, 0x00, 0x00, 0x00, 0x10, 0, 0, 0, 0, 0,
    0, 0, 0,
];

/// The checksum of the frame of this file, sent on channel 0.
const SHORT_FRAME: u16 = 0xF965;

/// Those of the two frames of a file of 873 bytes of 7, sent on channel 5.
const LONG_FRAMES: [u16; 2] = [0xD82E, 0xEC9C];

/// A file of one body.
pub(crate) fn file_of(alloc: Global, vc: u8, body: &[u8]) -> Result<Option<MissionFile>, NoMemory> {
    let mut lengths = Lengths::new(alloc);
    if body.len() > 65_534 {
        return Ok(None);
    }
    lengths.push(body.len() as u16)?;
    let mut bytes = Bytes::new(alloc);
    bytes.extend(body)?;
    Ok(MissionFile::build(vc, 100, lengths, bytes))
}

/// Loads a file of one body, which has to be one.
fn load(
    uplink: &mut Uplink,
    alloc: Global,
    vc: u8,
    body: &[u8],
) -> Result<Result<(), UplinkFault>, Fail> {
    Ok(uplink.load(file_of(alloc, vc, body)?.ok_or("no file")?))
}

/// Whether the next frame begins with these bytes, and has this checksum. Where it doesn't, the failure has both.
fn frame_is(uplink: &mut Uplink, front: &[u8; 14], checksum: u16) -> Result<bool, Fail> {
    let mut frame = [0u8; FRAME_BYTES];
    if uplink.next_frame(&mut frame) && frame.starts_with(front) && crc16(&frame) == checksum {
        return Ok(true);
    }
    let (came, sum) = (&frame[..14], crc16(&frame));
    Err(Fail::new(format_args!("a frame begins {came:?}, with the checksum {sum:x}")))
}

/// Whether no frame is left.
fn is_done(uplink: &mut Uplink) -> bool {
    let mut frame = [0u8; FRAME_BYTES];
    !uplink.next_frame(&mut frame) && frame == [0u8; FRAME_BYTES]
}

/// The front of the short file's frame.
const SHORT_FRONT: [u8; 14] = [0x41, 0xC0, 0, 0, 0, 0, 0, 0, 0, 0x64, 0xC0, 0, 0, 0x1B];

#[test]
fn a_short_file_takes_one_frame(rt: HostRuntime) -> Result<(), Fail> {
    let alloc = rt.alloc();
    let mut uplink = Uplink::new(alloc, STANDARD)?;
    load(&mut uplink, alloc, 0, &SHORT)??;
    assert!(rt; frame_is(&mut uplink, &SHORT_FRONT, SHORT_FRAME)?);
    assert!(rt; is_done(&mut uplink));
    Ok(())
}

/// A body of 873 bytes leaves three bytes of its zone, so that an idle packet goes through the next one.
#[test]
fn a_short_rest_goes_on_through_the_next_zone(rt: HostRuntime) -> Result<(), Fail> {
    let alloc = rt.alloc();
    let mut uplink = Uplink::new(alloc, STANDARD)?;
    load(&mut uplink, alloc, 5, &[7; 873])??;
    let first = [0x41, 0xC5, 0, 0, 0, 0, 0, 0, 0, 0x64, 0xC0, 0, 0x03, 0x6A];
    let second = [0x41, 0xC5, 0, 0, 1, 0, 0x07, 0xFF, 0, 0x03, 0x70, 0, 0, 0];
    assert!(rt; frame_is(&mut uplink, &first, LONG_FRAMES[0])?);
    assert!(rt; frame_is(&mut uplink, &second, LONG_FRAMES[1])?);
    assert!(rt; is_done(&mut uplink));
    Ok(())
}

/// A file of the channel of fill is refused, and the next file is sent as if it hadn't been there.
#[test]
fn fill_is_refused(rt: HostRuntime) -> Result<(), Fail> {
    let alloc = rt.alloc();
    let mut uplink = Uplink::new(alloc, STANDARD)?;
    assert!(rt;
        matches!(
            load(&mut uplink, alloc, 63, &SHORT)?,
            Err(UplinkFault::Fill)
        )
    );
    assert!(rt; is_done(&mut uplink));
    load(&mut uplink, alloc, 0, &SHORT)??;
    assert!(rt; frame_is(&mut uplink, &SHORT_FRONT, SHORT_FRAME)?);
    Ok(())
}
