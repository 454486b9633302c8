//! The fields of a packet, a packet that was checked, and the rule that a packet breaks.

ghost use Rattle.std.specs.Prelude.{◌<◌, ◌≤◌, ◌^◌, length};
ghost use Rattle.lr_bits.specs.declared.sizes.TheConstants.{CHANNELS, IDLE_APPLICATION, SEQUENCE_COUNTS};
ghost use Rattle.lr_bits.specs.Sizes.{most_body_bytes};

use thiserror::Error;

/// The fields of a packet's header (CCSDS 133.0-B, section 4.1.3). Its type keeps that each number fits its field.
#[derive(Drop)]
pub struct PacketHead {
    /// The packet version number, three bits.
    pub version: u8,
    /// The packet type. Nothing here interprets it.
    pub kind: bool,
    /// Whether a secondary header follows. Nothing here interprets it.
    pub secondary: bool,
    /// The application process identifier. 2,047 is idle.
    pub apid: u16,
    /// 1 begins a file, 0 goes on with it, 2 ends it, and 3 is a whole one.
    pub flags: u8,
    /// The packets of an application are counted in 14 bits.
    pub count: u16,
    /// The number of bytes of the data field.
    pub length: u32,
    ghost version_fits: { version < 2 ^ 3 },
    ghost apid_fits: { apid < 2 ^ 11 },
    ghost flags_fit: { flags < 2 ^ 2 },
    ghost count_fits: { count < SEQUENCE_COUNTS },
    ghost length_fits: { length ≤ 2 ^ 16 },
}

/// A packet that passed the check. Its type keeps what such a packet has.
#[derive(Drop)]
pub struct GoodPacket<'a> {
    /// The virtual channel that it came on.
    pub vc: u8,
    /// The application process identifier, below 2,047.
    pub apid: u16,
    /// 1 begins a file, 0 goes on with it, 2 ends it, and 3 is a whole one.
    pub flags: u8,
    /// The packets of an application are counted in 14 bits.
    pub count: u16,
    /// The data field without the checksum.
    pub body: &'a [u8],
    ghost vc_fits: { vc < CHANNELS },
    ghost apid_fits: { apid < IDLE_APPLICATION },
    ghost flags_fit: { flags < 4 },
    ghost count_fits: { count < SEQUENCE_COUNTS },
    ghost body_fits: { length body.now ≤ most_body_bytes },
}

/// Why a packet isn't good: the first of these rules that it breaks.
#[derive(Debug, Drop, Error)]
pub enum PacketFault {
    /// Its version isn't 0.
    #[error("the packet has version {0}")]
    Version(u8),
    /// It is an idle one.
    #[error("the packet is an idle one")]
    Idle,
    /// Its data field has no room for a checksum.
    #[error("the packet has no room for a checksum")]
    TooShort,
    /// The checksum after its body isn't that of the body.
    #[error("the stored checksum is {stored:04X}, the computed one {computed:04X}")]
    Crc { stored: u16, computed: u16 },
}
