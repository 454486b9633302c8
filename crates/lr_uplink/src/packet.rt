//! The packet that is being sent.

ghost use Rattle.std.specs.Prelude.{◌≡◌, ◌<◌, ◌≤◌, ◌+◌, ◌^◌, ℕ, List, length, take, drop, slice_index};
ghost use Rattle.lr_bits.specs.Sizes.{most_body_bytes};
ghost use Rattle.lr_bits.specs.declared.sizes.TheConstants.{SEQUENCE_COUNTS};
ghost use Rattle.lr_make.specs.Packets.{packet_for_body};
ghost use Rattle.lr_uplink.specs.Packets.{flags_at, idle_packet};

use lr_bits::{IDLE_APPLICATION, PACKET_HEADER_BYTES, crc16};
use lr_make::packet_head;

/// The sequence flags of a packet that isn't one of several.
const WHOLE: u16 = 3;

/// The bytes of the shortest packet: its header and a data field of one byte (CCSDS 133.0-B, section 4.1.1).
pub(crate) const SHORTEST_BYTES: usize = PACKET_HEADER_BYTES + 1;

/// A body: `size` bytes of a file from the place `at` on, and their checksum.
#[derive(Clone, Copy)]
pub struct Body {
    pub at: usize,
    pub size: u16,
    pub checksum: u16,
}

/// The data field of a packet.
#[derive(Clone, Copy)]
pub enum Data {
    /// A body.
    FileBody(Body),
    /// This many zeros.
    Zeros(u16),
}

/// A packet, with a body of the file that is being sent, or an idle one.
#[derive(Clone, Copy)]
pub struct Packet {
    /// The six bytes of its header.
    pub head: [u8; PACKET_HEADER_BYTES],
    /// The data field after them.
    pub data: Data,
}

/// The sequence flags of body `index` of `bodies`.
pub(crate) fn flags_of(bodies: usize, index: usize) -> u16
    requires { index < bodies }
    ensures value { result ≡ flags_at bodies index }
    ensures few { result < 2 ^ 2 }
{
    if bodies == 1 {
        WHOLE
    } else if index == 0 {
        1
    } else if index + 1 == bodies {
        2
    } else {
        0
    }
}

impl Body {
    ghost use Rattle.lr_uplink.specs.Pieces.{body_bytes};

    /// The number of bytes, with those of the checksum.
    fn len(&self) -> usize
        ensures value { result ≡ self.now.size + 2 }
        ensures few { result ≤ 65537 }
    {
        usize::from(self.size) + 2
    }

    /// The byte at a place of the body and its checksum.
    fn byte(&self, bytes: &[u8], place: usize) -> u8
        requires within { self.now.at + self.now.size ≤ length bytes.now }
        requires place { place < self.now.size + 2 }
        ensures { result ≡ slice_index (body_bytes self.now bytes.now) place }
    {
        let size = usize::from(self.size);
        if place < size {
            bytes[self.at + place]
        } else if place == size {
            (self.checksum / 256) as u8
        } else {
            (self.checksum % 256) as u8
        }
    }
}

impl Packet {
    ghost use Rattle.lr_uplink.specs.Pieces.{Carries, end_of_packet, packet_bytes, size_of_packet};

    /// The packet of a body of `size` bytes, from place `at` of a file's bytes on.
    pub(crate) fn of_body(
        apid: u16,
        flags: u16,
        count: u16,
        bytes: &[u8],
        at: usize,
        size: u16,
    ) -> Packet
        requires apid { apid < 2 ^ 11 }
        requires flags { flags < 2 ^ 2 }
        requires count { count < SEQUENCE_COUNTS }
        requires inside { at + size ≤ length bytes.now }
        requires size { size ≤ most_body_bytes }
        ensures { Carries result bytes.now (packet_for_body apid flags count (take size (drop at bytes.now))) }
    {
        let body = &bytes[at..at + usize::from(size)];
        Packet {
            head: packet_head(apid, flags, count, size + 1),
            data: Data::FileBody(Body {
                at,
                size,
                checksum: crc16(body),
            }),
        }
    }

    /// The idle packet of `size` bytes.
    pub(crate) fn idle(size: usize) -> Packet
        requires least { 7 ≤ size }
        requires most { size < 65536 }
        ensures { (bytes : List ℕ) → Carries result bytes (idle_packet size) }
    {
        Packet {
            head: packet_head(IDLE_APPLICATION, WHOLE, 0, (size - SHORTEST_BYTES) as u16),
            data: Data::Zeros((size - PACKET_HEADER_BYTES) as u16),
        }
    }

    /// The number of bytes.
    pub(crate) fn len(&self) -> usize
        ensures value { result ≡ size_of_packet self.now }
        ensures few { result ≤ 65543 }
    {
        match self.data {
            Data::FileBody(body) => PACKET_HEADER_BYTES + body.len(),
            Data::Zeros(size) => PACKET_HEADER_BYTES + usize::from(size),
        }
    }

    /// The byte at a place, where these are the file's bytes.
    pub(crate) fn byte(&self, bytes: &[u8], place: usize) -> u8
        requires within { end_of_packet self.now ≤ length bytes.now }
        requires place { place < size_of_packet self.now }
        ensures { result ≡ slice_index (packet_bytes self.now bytes.now) place }
    {
        if place < PACKET_HEADER_BYTES {
            return self.head[place];
        }
        match self.data {
            Data::FileBody(body) => body.byte(bytes, place - PACKET_HEADER_BYTES),
            Data::Zeros(_) => 0,
        }
    }
}
