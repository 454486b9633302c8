//! The header of a packet, and its verdict.

ghost use Rattle.lr_packet.specs.Reading.{IsHeadOf, IsVerdictOf};
ghost use Rattle.lr_packet.specs.Verdict.{GoodPacketsAreJoined};

use crate::{GoodPacket, PacketFault, PacketHead};
use byteorder::{BigEndian, ByteOrder};
use lr_bits::{IDLE_APPLICATION, PACKET_HEADER_BYTES, RawPacket, crc16, field};

/// The bytes of a checksum.
const CRC_BYTES: usize = 2;

/// The fields of the packet's header (CCSDS 133.0-B, section 4.1), whose length is the number of all bytes less 6.
pub fn head(raw: &RawPacket) -> PacketHead
    ensures { IsHeadOf raw.now result }
{
    let bytes = raw.as_slice();
    PacketHead {
        version: field(bytes, 0, 3) as u8,
        kind: field(bytes, 3, 1) == 1,
        secondary: field(bytes, 4, 1) == 1,
        apid: field(bytes, 5, 11) as u16,
        flags: field(bytes, 16, 2) as u8,
        count: field(bytes, 18, 14) as u16,
        length: u32::from(BigEndian::read_u16(&bytes[4..])) + 1,
    }
}

/// The packet with its body, where it is good, and otherwise the first rule that it breaks. The rules are, in this
/// order: its version is 0; its application isn't that of idle packets; its data field has two bytes or more, the last
/// of which are the checksum of those before. Its type and its secondary header flag take no part.
pub fn check(raw: &RawPacket) -> Result<GoodPacket<'_>, PacketFault>
    ensures { IsVerdictOf raw.now result }
{
    let head = head(raw);
    if head.version != 0 {
        return Err(PacketFault::Version(head.version));
    }
    if head.apid == IDLE_APPLICATION {
        return Err(PacketFault::Idle);
    }
    let data = &raw.as_slice()[PACKET_HEADER_BYTES..];
    if data.len() < CRC_BYTES {
        return Err(PacketFault::TooShort);
    }
    let (body, last) = data.split_at(data.len() - CRC_BYTES);
    let stored = BigEndian::read_u16(last);
    let computed = crc16(body);
    if stored != computed {
        return Err(PacketFault::Crc { stored, computed });
    }
    Ok(GoodPacket {
        vc: raw.vc(),
        apid: head.apid,
        flags: head.flags,
        count: head.count,
        body,
    })
}

/// That the good packets of two lists in a row are those of the first and then those of the second.
pub fn good_packets_are_joined()
    ensures { GoodPacketsAreJoined }
{}
