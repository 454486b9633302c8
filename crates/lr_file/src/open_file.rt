//! One open file.

ghost use Rattle.std.specs.Prelude.{◌≡◌, ◌<◌, IsTrue, IfOk, OnOk};
ghost use Rattle.lr_bits.specs.declared.sizes.TheConstants.{CHANNELS};
ghost use Rattle.lr_packet.specs.Reading.{good};
ghost use Rattle.lr_file.specs.Steps.{IsBuilt, file_begun_by, is_next, open_file_with};

use lr_bits::{
    Bytes, IDLE_APPLICATION, Lengths, MOST_FILE_BODIES, MOST_FILE_BYTES, MissionFile, NoMemory,
    SEQUENCE_COUNTS,
};
use lr_packet::GoodPacket;
use std::alloc::Global;
use std::marker::Model;

/// A file that has begun: the bodies so far, which are within the limits of a file, and the count of its last packet.
#[derive(Drop)]
pub struct OpenFile {
    lengths: Lengths,
    bytes: Bytes,
    count: u16,
}

impl Model for OpenFile {
    ghost use Rattle.lr_file.specs.Standing.{Open, IsWithinLimits};

    ghost Value = { Open };

    ghost view = { λ f. record { lengths = f.lengths; bytes = f.bytes; count = f.count } };

    ghost invariant = { λ f. IsWithinLimits (record { lengths = f.lengths; bytes = f.bytes; count = f.count }) };
}

impl OpenFile {
    /// The file that begins with this packet.
    pub fn begin(alloc: Global, packet: &GoodPacket) -> Result<Self, NoMemory>
        ensures { IfOk result (λ file. file ≡ file_begun_by (good packet.now)) }
    {
        let mut lengths = Lengths::new(alloc);
        lengths.push(packet.body.len() as u16)?;
        let mut bytes = Bytes::new(alloc);
        bytes.extend(packet.body)?;
        Ok(OpenFile {
            lengths,
            bytes,
            count: packet.count,
        })
    }

    /// Whether the packet's count is the next one, and its body passes no limit.
    pub fn is_followed_by(&self, packet: &GoodPacket) -> bool
        ensures { result ≡ is_next self.now (good packet.now) }
    {
        let next = (self.count + 1) % SEQUENCE_COUNTS;
        let bodies = self.lengths.as_slice().len() + 1;
        let bytes = self.bytes.as_slice().len() + packet.body.len();
        packet.count == next && bodies <= MOST_FILE_BODIES && bytes <= MOST_FILE_BYTES
    }

    /// Appends the packet's body. This takes no memory but the growth of the two lists.
    pub fn append(&mut self, packet: &GoodPacket) -> Result<(), NoMemory>
        requires { IsTrue (is_next self.old (good packet.now)) }
        ensures { OnOk result (self.new ≡ open_file_with self.old (good packet.now)) }
    {
        self.lengths.push(packet.body.len() as u16)?;
        self.bytes.extend(packet.body)?;
        self.count = packet.count;
        Ok(())
    }

    /// The mission file of this channel and application that has these bodies. `None`: they have fewer than ten bytes.
    pub fn finish(self, vc: u8, apid: u16) -> Option<MissionFile>
        requires channel { vc < CHANNELS }
        requires application { apid < IDLE_APPLICATION }
        ensures { IsBuilt vc apid self result }
    {
        let OpenFile { lengths, bytes, .. } = self;
        MissionFile::build(vc, apid, lengths, bytes)
    }
}
