//! Drawn histories of a few frames each are given to `Channels`.
use crate::draw::Draw;
use crate::sender::{Sender, draw_frame};
use lr_bits::{NoMemory, RawPacket};
use lr_vc::Channels;
use std::alloc::Global;

pub const HISTORIES: u32 = 400;

/// How many frames and packets there were, and a checksum of the packets' channels and bytes.
#[derive(Clone, Copy)]
pub struct Tally {
    pub frames: u64,
    pub packets: u64,
    pub checksum: u64,
}

impl Tally {
    /// Takes a byte into the checksum (FNV-1a, 64 bits).
    fn add_byte(&mut self, byte: u8) {
        self.checksum = (self.checksum ^ u64::from(byte)).wrapping_mul(1_099_511_628_211);
    }

    fn add_packet(&mut self, packet: &RawPacket) {
        self.packets = self.packets.saturating_add(1);
        self.add_byte(packet.vc());
        for byte in packet.as_slice() {
            self.add_byte(*byte);
        }
    }
}

/// Draws a history of 1 to 12 frames, and takes its packets into the tally.
fn add_history(alloc: Global, draw: &mut Draw, tally: &mut Tally) -> Result<(), NoMemory> {
    let mut senders = [
        Sender::new(draw),
        Sender::new(draw),
        Sender::new(draw),
        Sender::new(draw),
    ];
    let mut channels = Channels::new(alloc);
    let mut packets = Vec::new(alloc);
    for _ in 0..1 + draw.byte() % 12 {
        let frame = draw_frame(draw, &mut senders);
        channels.push(&frame, &mut packets)?;
        tally.frames = tally.frames.saturating_add(1);
    }
    for packet in &packets {
        tally.add_packet(packet);
    }
    Ok(())
}

/// Draws all histories.
pub fn add_histories(alloc: Global) -> Result<Tally, NoMemory> {
    let mut draw = Draw::new(1);
    let mut tally = Tally {
        frames: 0,
        packets: 0,
        checksum: 14_695_981_039_346_656_037,
    };
    for _ in 0..HISTORIES {
        add_history(alloc, &mut draw, &mut tally)?;
    }
    Ok(tally)
}
