//! A transfer frame (VCDU in the words of CGMS 03; AOS transfer frame, CCSDS 732.0-B): its bytes as fields.

ghost use Rattle.std.specs.Prelude.{◌<◌, ◌^◌};
ghost use Rattle.lr_bits.specs.declared.sizes.TheConstants.{FRAME_COUNTS};

use lr_bits::{FRAME_BYTES, ZONE_BYTES, field};
use thiserror::Error;

/// The version of a frame, which isn't 1.
#[derive(Clone, Copy, Debug, Error)]
#[error("the frame has version {0}")]
pub struct BadVersion(pub u8);

/// A transfer frame of version 1 (CCSDS 732.0-B, section 4.1). Its type keeps that each number fits its field.
#[derive(Clone, Copy)]
pub struct TransferFrame {
    /// The spacecraft identifier, eight bits.
    pub spacecraft: u8,
    /// The virtual channel, six bits. Channel 63 is fill.
    pub vc: u8,
    /// The frames of a channel are counted in 24 bits.
    pub counter: u32,
    /// The replay flag. Nothing here interprets it.
    pub replay: bool,
    /// The seven bits after the replay flag, which nothing here interprets.
    pub rest: u8,
    /// The place in the zone at which the first packet header begins, or 2047 where none does, or 2046 for idle data.
    pub pointer: u16,
    /// The packet zone: packets one after another, which may begin and end in other frames.
    pub zone: [u8; ZONE_BYTES],
    ghost vc_fits: { vc < 2 ^ 6 },
    ghost counter_fits: { counter < FRAME_COUNTS },
    ghost rest_fits: { rest < 2 ^ 7 },
    ghost pointer_fits: { pointer < 2 ^ 11 },
}

impl TransferFrame {
    ghost use Rattle.std.specs.Prelude.{◌≡◌};
    ghost use Rattle.lr_vc.specs.Frame.{frame_of};
    ghost use Rattle.lr_vc.specs.Reading.{read_as};

    /// The fields of these bytes. `BadVersion` exactly where their version isn't 1, with that version.
    pub fn read(bytes: &[u8; FRAME_BYTES]) -> Result<Self, BadVersion>
        ensures { read_as result ≡ frame_of bytes.now }
    {
        let version = field(bytes, 0, 2) as u8;
        if version != 1 {
            return Err(BadVersion(version));
        }
        let mut zone = [0; ZONE_BYTES];
        zone.copy_from_slice(&bytes[8..]);
        Ok(TransferFrame {
            spacecraft: field(bytes, 2, 8) as u8,
            vc: field(bytes, 10, 6) as u8,
            counter: field(bytes, 16, 24) as u32,
            replay: field(bytes, 40, 1) == 1,
            rest: field(bytes, 41, 7) as u8,
            pointer: field(bytes, 53, 11) as u16,
            zone,
        })
    }
}
