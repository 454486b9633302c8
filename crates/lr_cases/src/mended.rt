//! Drawn histories of packets of images, of which some are missing, are given to `MendedFiles`.

use crate::draw::Draw;
use lr_bits::{Bytes, NoMemory, crc16};
use lr_mend::{Ended, MarkedFile, MendedFiles};
use lr_packet::GoodPacket;
use std::alloc::Global;

pub const HISTORIES: u32 = 240;

/// How many fillers an image may have, in one history after another.
const MOSTS: [u16; 4] = [1, 2, 16, 1_023];

/// What a number of lines from 1 to 8 is multiplied by.
const SCALES: [u16; 4] = [1, 1, 40, 200];

/// How many packets, files and fillers there were, and a checksum of the files.
#[derive(Clone, Copy)]
pub struct Tally {
    pub packets: u64,
    pub files: u64,
    pub fillers: u64,
    pub checksum: u64,
}

impl Tally {
    /// Counts a file.
    fn add(&mut self, alloc: Global, marked: &MarkedFile) -> Result<(), NoMemory> {
        let checksum = u64::from(checksum_of(alloc, marked)?);
        self.checksum = self.checksum.wrapping_mul(65_599).wrapping_add(checksum);
        self.files = self.files.saturating_add(1);
        self.fillers = self.fillers.saturating_add(u64::from(marked.fillers));
        Ok(())
    }

    /// Counts the files that end with a packet, or with the fillers before it.
    fn add_ended(&mut self, alloc: Global, ended: &Ended) -> Result<(), NoMemory> {
        if let Some(marked) = &ended.by_fillers {
            self.add(alloc, marked)?;
        }
        if let Some(marked) = &ended.by_packet {
            self.add(alloc, marked)?;
        }
        Ok(())
    }
}

/// The checksum of a file's channel, application, number of fillers, lengths and bytes.
fn checksum_of(alloc: Global, marked: &MarkedFile) -> Result<u16, NoMemory> {
    let file = &marked.file;
    let mut text = Bytes::new(alloc);
    text.extend(&[file.vc()])?;
    text.extend(&file.apid().to_be_bytes())?;
    text.extend(&marked.fillers.to_be_bytes())?;
    for length in file.lengths() {
        text.extend(&length.to_be_bytes())?;
    }
    text.extend(file.bytes())?;
    Ok(crc16(text.as_slice()))
}

/// A packet that was sent: its flags, its count, and how often it comes.
#[derive(Clone, Copy)]
struct Sent {
    flags: u8,
    count: u16,
    times: u8,
}

/// What one channel and application sends: the next count, and how many packets of its file are to come.
#[derive(Clone, Copy)]
struct Sender {
    count: u16,
    left: u8,
}

/// The code for the compression of a file of this kind.
fn coding_of(kind: u8) -> u8 {
    match kind {
        5..=8 | 11 => 1,
        10 => 2,
        _ => 0,
    }
}

/// How many bytes the header has of a file of this kind.
fn header_length(kind: u8) -> u8 {
    match kind {
        5..=8 | 12..=13 => 32,
        _ => 25,
    }
}

/// Appends a lossless record, or one of a key, where a file of this kind has one.
fn put_record(kind: u8, each: u8, body: &mut Bytes) -> Result<(), NoMemory> {
    match kind {
        5..=8 => body.extend(&[131, 0, 7, 0, 49, 16, each]),
        12 => body.extend(&[7, 0, 7, 0, 0, 0, 1]),
        13 => body.extend(&[7, 0, 7, 0, 0, 0, 0]),
        _ => Ok(()),
    }
}

/// Appends a transport header, and the header of an image of three columns, or of what this kind makes of it.
fn put_header(
    kind: u8,
    lines: u16,
    each: u8,
    drawn: &[u8; 64],
    body: &mut Bytes,
) -> Result<(), NoMemory> {
    let file_type = if kind == 9 { 2 } else { 0 };
    body.extend(&drawn[..10])?;
    body.extend(&[0, 0, 16, file_type, 0, 0, 0, header_length(kind)])?;
    body.extend(&drawn[18..26])?;
    body.extend(&[1, 0, 9, 8, 0, 3])?;
    body.extend(&lines.to_be_bytes())?;
    body.extend(&[coding_of(kind)])?;
    put_record(kind, each, body)
}

impl Sender {
    /// Appends the first body of a file, and answers its flags.
    fn begin(
        &mut self,
        draw: &mut Draw,
        drawn: &[u8; 64],
        body: &mut Bytes,
    ) -> Result<u8, NoMemory> {
        let kind = draw.byte() % 16;
        let lines = u16::from(1 + draw.byte() % 8) * SCALES[usize::from(draw.byte() % 4)];
        let each = 1 + draw.byte() % 3;
        put_header(kind, lines, each, drawn, body)?;
        let size = body.as_slice().len();
        if kind == 14 {
            body.truncate(size.saturating_sub(1));
        } else {
            let end = size.saturating_add(usize::from(draw.byte() % 6));
            body.extend(drawn.get(size..end).unwrap_or(&[]))?;
        }
        if kind == 15 {
            return Ok(3);
        }
        self.left = 1 + draw.byte() % 6;
        Ok(1)
    }

    /// Appends a body of between or a last one, and answers its flags.
    fn go_on(
        &mut self,
        draw: &mut Draw,
        drawn: &[u8; 64],
        body: &mut Bytes,
    ) -> Result<u8, NoMemory> {
        body.extend(&drawn[..usize::from(draw.byte() % 6)])?;
        self.left = self.left.saturating_sub(1);
        Ok(if self.left == 0 { 2 } else { 0 })
    }

    /// Appends the body of the next packet, which may be lost, or come twice, and after which some may be lost.
    fn next(
        &mut self,
        draw: &mut Draw,
        drawn: &[u8; 64],
        body: &mut Bytes,
    ) -> Result<Sent, NoMemory> {
        let flags = if self.left == 0 {
            self.begin(draw, drawn, body)?
        } else {
            self.go_on(draw, drawn, body)?
        };
        let count = self.count % 16_384;
        let fate = draw.byte() % 16;
        let skipped = match fate {
            12..=13 => u16::from(draw.byte() % 8),
            14 => 4 * u16::from(draw.byte()),
            15 => 16_000 + u16::from(draw.byte()),
            _ => 0,
        };
        self.count = (count + 1 + skipped) % 16_384;
        let times = match fate {
            9..=10 => 0,
            11 => 2,
            _ => 1,
        };
        Ok(Sent {
            flags,
            count,
            times,
        })
    }
}

fn draw_bytes(draw: &mut Draw) -> [u8; 64] {
    let mut bytes = [0; 64];
    for byte in &mut bytes {
        *byte = draw.byte();
    }
    bytes
}

/// Draws a packet of one of three keys, and takes the files that end with it into the tally.
fn add_packet(
    alloc: Global,
    draw: &mut Draw,
    senders: &mut [Sender; 3],
    mended: &mut MendedFiles,
    tally: &mut Tally,
) -> Result<(), NoMemory> {
    let drawn = draw_bytes(draw);
    let (place, vc, apid) = match draw.byte() % 3 {
        0 => (0, 0, 100),
        1 => (1, 1, 100),
        _ => (2, 0, 2046),
    };
    let mut body = Bytes::new(alloc);
    let sent = senders[place].next(draw, &drawn, &mut body)?;
    let bytes = body.as_slice();
    let packet = GoodPacket {
        vc,
        apid,
        flags: sent.flags % 4,
        count: sent.count % 16_384,
        body: &bytes[..bytes.len().min(64)],
    };
    for _ in 0..sent.times {
        let ended = mended.push(&packet)?;
        tally.add_ended(alloc, &ended)?;
        tally.packets = tally.packets.saturating_add(1);
    }
    Ok(())
}

/// Draws a history of 1 to 40 packets, and takes its files into the tally.
fn add_history(
    alloc: Global,
    draw: &mut Draw,
    most: u16,
    tally: &mut Tally,
) -> Result<(), NoMemory> {
    let mut mended = MendedFiles::new(alloc, most.min(1_023));
    let mut senders = [Sender {
        count: 16_380,
        left: 0,
    }; 3];
    for _ in 0..1 + draw.byte() % 40 {
        add_packet(alloc, draw, &mut senders, &mut mended, tally)?;
    }
    Ok(())
}

/// Draws all histories.
pub fn add_histories(alloc: Global) -> Result<Tally, NoMemory> {
    let mut draw = Draw::new(1);
    let mut tally = Tally {
        packets: 0,
        files: 0,
        fillers: 0,
        checksum: 0,
    };
    for number in 0..HISTORIES {
        let most = MOSTS[(number % 4) as usize];
        add_history(alloc, &mut draw, most, &mut tally)?;
    }
    Ok(tally)
}
