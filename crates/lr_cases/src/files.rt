//! Drawn lists of good packets are given to `Files`.
ghost use Rattle.std.specs.Prelude.{◌<◌};
ghost use Rattle.lr_bits.specs.declared.sizes.TheConstants.{SEQUENCE_COUNTS};

use crate::draw::Draw;
use lr_bits::{Bytes, MissionFile, NoMemory, crc16};
use lr_file::Files;
use lr_packet::GoodPacket;
use std::alloc::Global;

pub const LISTS: u32 = 400;

/// How many packets and files there were, and a checksum of the files.
#[derive(Clone, Copy)]
pub struct Tally {
    pub packets: u64,
    pub files: u64,
    pub checksum: u64,
}

/// The checksum of a file's channel, application, lengths and bytes.
fn checksum_of(alloc: Global, file: &MissionFile) -> Result<u16, NoMemory> {
    let mut text = Bytes::new(alloc);
    text.extend(&[file.vc()])?;
    text.extend(&file.apid().to_be_bytes())?;
    for length in file.lengths() {
        text.extend(&length.to_be_bytes())?;
    }
    text.extend(file.bytes())?;
    Ok(crc16(text.as_slice()))
}

/// What one channel and application sends: the next count, and whether a file has begun.
#[derive(Clone, Copy)]
struct Sender {
    vc: u8,
    apid: u16,
    count: u16,
    begun: bool,
    ghost vc_fits: { vc < 64 },
    ghost apid_fits: { apid < 2047 },
    ghost count_fits: { count < SEQUENCE_COUNTS },
}

impl Sender {
    /// No file has begun, and the counts begin anew with the second packet.
    fn new(vc: u8, apid: u16) -> Self
        requires vc { vc < 64 }
        requires apid { apid < 2047 }
    {
        Sender {
            vc,
            apid,
            count: 16_383,
            begun: false,
        }
    }

    /// The next packet. Its flags mostly fit, one count in eight is wrong, and it has the front of these bytes as its
    /// body.
    fn next<'a>(&mut self, draw: &mut Draw, bytes: &'a [u8; 40]) -> GoodPacket<'a> {
        let flags = match (self.begun, draw.byte() % 16) {
            (true, 0..=7) => 0,
            (true, 8..=12) => 2,
            (true, 13..=14) => 1,
            (false, 0..=9) => 1,
            (false, 13..=14) => 0,
            (false, 15) => 2,
            _ => 3,
        };
        let count = match draw.byte() % 16 {
            0 => (self.count + 1) % 16_384,
            1 => (self.count + 16_383) % 16_384,
            _ => self.count,
        };
        self.begun = flags < 2;
        self.count = (count + 1) % 16_384;
        let most = match draw.byte() % 4 {
            0..=1 => 5,
            2 => 12,
            _ => 40,
        };
        GoodPacket {
            vc: self.vc,
            apid: self.apid,
            flags,
            count,
            body: &bytes[..usize::from(draw.byte() % most)],
        }
    }
}

fn draw_bytes(draw: &mut Draw) -> [u8; 40] {
    let mut bytes = [0; 40];
    for byte in &mut bytes {
        *byte = draw.byte();
    }
    bytes
}

/// Draws a list of 1 to 24 packets of three keys, and takes its files into the tally.
fn add_list(alloc: Global, draw: &mut Draw, tally: &mut Tally) -> Result<(), NoMemory> {
    let mut first = Sender::new(0, 100);
    let mut second = Sender::new(1, 100);
    let mut third = Sender::new(0, 2046);
    let mut files = Files::new(alloc);
    for _ in 0..1 + draw.byte() % 24 {
        let bytes = draw_bytes(draw);
        let packet = match draw.byte() % 3 {
            0 => first.next(draw, &bytes),
            1 => second.next(draw, &bytes),
            _ => third.next(draw, &bytes),
        };
        if let Some(file) = files.push(&packet)? {
            let checksum = u64::from(checksum_of(alloc, &file)?);
            tally.checksum = tally.checksum.wrapping_mul(65_599).wrapping_add(checksum);
            tally.files = tally.files.saturating_add(1);
        }
        tally.packets = tally.packets.saturating_add(1);
    }
    Ok(())
}

/// Draws all lists.
pub fn add_lists(alloc: Global) -> Result<Tally, NoMemory> {
    let mut draw = Draw::new(1);
    let mut tally = Tally {
        packets: 0,
        files: 0,
        checksum: 0,
    };
    for _ in 0..LISTS {
        add_list(alloc, &mut draw, &mut tally)?;
    }
    Ok(tally)
}
