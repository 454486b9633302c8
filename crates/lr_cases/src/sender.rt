//! A channel is drawn that sends its packets frame by frame.
ghost use Rattle.std.specs.Prelude.{◌<◌, ◌≤◌, ◌^◌};
ghost use Rattle.lr_bits.specs.declared.sizes.TheConstants.{ZONE_BYTES};

use crate::draw::Draw;
use lr_bits::{FRAME_COUNTS, NO_PACKET_START, ZONE_BYTES};
use lr_vc::TransferFrame;

/// The bytes of the shortest packet.
const SHORTEST: u32 = 7;

/// The packets of one channel, byte by byte: how long the packet is that is being sent, how many of its bytes are
/// sent, and the counter of the channel's next frame.
#[derive(Clone, Copy)]
pub struct Sender {
    length: u32,
    sent: u32,
    counter: u32,
}

impl Sender {
    /// No packet is being sent. The counter is one of the last three.
    pub fn new(draw: &mut Draw) -> Self {
        Sender {
            length: 0,
            sent: 0,
            counter: FRAME_COUNTS - 1 - draw.below(3),
        }
    }

    /// The next byte, after the start of a packet if the one before is all sent.
    fn next_byte(&mut self, draw: &mut Draw, left: u32) -> u8
        requires { left ≤ ZONE_BYTES }
    {
        if self.sent == self.length {
            self.sent = 0;
            self.length = draw_length(draw, left);
        }
        let field = self.length.saturating_sub(SHORTEST);
        let byte = match self.sent {
            4 => (field / 256 % 256) as u8,
            5 => (field % 256) as u8,
            _ => draw.byte(),
        };
        self.sent = self.sent.saturating_add(1);
        byte
    }

    /// The counter of the next frame, which one frame in sixteen gets wrong.
    fn next_counter(&mut self, draw: &mut Draw) -> u32
        ensures { result < 2 ^ 24 }
    {
        let drawn = match draw.byte() % 32 {
            0 => u64::from(self.counter) + 1,
            1 => u64::from(self.counter) + u64::from(FRAME_COUNTS) - 1,
            _ => u64::from(self.counter),
        };
        let counter = (drawn % u64::from(FRAME_COUNTS)) as u32;
        self.counter = (counter + 1) % FRAME_COUNTS;
        counter
    }
}

/// The length of a packet at whose start this many bytes are left in the zone. Many packets end with a zone.
fn draw_length(draw: &mut Draw, left: u32) -> u32
    requires { left ≤ ZONE_BYTES }
{
    let length = match draw.byte() % 16 {
        0..=3 => left,
        4..=5 => left + 884,
        6..=7 => (left + draw.below(12)).saturating_sub(4),
        8..=11 => SHORTEST + draw.below(200),
        12..=14 => SHORTEST + draw.below(2500),
        _ => SHORTEST + draw.below(65_536),
    };
    length.max(SHORTEST)
}

/// The pointer of a frame, which one frame in eight draws anew.
fn draw_pointer(draw: &mut Draw, pointer: u16) -> u16
    requires { pointer < 2 ^ 11 }
    ensures { result < 2 ^ 11 }
{
    match draw.byte() % 32 {
        0 => 2046,
        1 => NO_PACKET_START,
        2 => draw.below(884) as u16,
        3 => (884 + draw.below(1162)) as u16,
        _ => pointer,
    }
}

/// The next frame of one of the channels 0, 1, 62 and 63.
pub fn draw_frame(draw: &mut Draw, senders: &mut [Sender; 4]) -> TransferFrame {
    let (index, vc) = match draw.byte() % 8 {
        0..=3 => (0, 0),
        4..=5 => (1, 1),
        6 => (2, 62),
        _ => (3, 63),
    };
    let sender = &mut senders[index];
    let mut zone = [0; ZONE_BYTES];
    let mut pointer = NO_PACKET_START;
    for place in 0..ZONE_BYTES {
        if sender.sent == sender.length && pointer == NO_PACKET_START {
            pointer = place as u16;
        }
        zone[place] = sender.next_byte(draw, (ZONE_BYTES - place) as u32);
    }
    let pointer = draw_pointer(draw, pointer);
    let counter = sender.next_counter(draw);
    TransferFrame {
        spacecraft: 0,
        vc,
        counter,
        replay: false,
        rest: 0,
        pointer,
        zone,
    }
}
