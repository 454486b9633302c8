//! The uplink.

ghost use Rattle.std.specs.Prelude.{◌≡◌, ◌<◌, ◌↔◌, ◌++◌, ◌∷◌, [], Err, IsTrue, IsOkAnd, OnOk, OnErr, length};
ghost use Rattle.std.specs.Prelude.{slice_index_or, false};
ghost use Rattle.lr_conv.specs.declared.line.LineCode.{LineCode as LineCode'};
ghost use Rattle.lr_frame.specs.Outcomes.{outcomes_of_symbols};
ghost use Rattle.lr_sent.specs.Sent.{IsSentFor, symbols_of_blocks};
ghost use Rattle.lr_uplink.specs.Received.{AreFilesOf};
ghost use Rattle.lr_uplink.specs.Sent.{sent};

use crate::frames::put_next;
use crate::packet_counts::PacketCounts;
use crate::sending::Sending;
use lr_bits::{
    BLOCK_BYTES, CHANNELS, FILL_CHANNEL, FRAME_BYTES, FRAME_COUNTS, FRAME_SYMBOLS, MissionFile,
    NoMemory, SEQUENCE_COUNTS,
};
use lr_conv::{LineCode, LineEncoder};
use lr_make::put_symbols;
use std::alloc::Global;
use thiserror::Error;

/// Why a file isn't loaded. It is dropped, and the uplink is unchanged.
#[derive(Debug, Drop, Error, PartialEq, Eq)]
pub enum UplinkFault {
    /// It is of channel 63, the channel of fill.
    #[error("a file of channel 63 is not sent, since that is the channel of fill")]
    Fill,
    /// Memory was wanting.
    #[error("no memory was left")]
    NoMemory,
}

/// Sends mission files, one after another: gives their frames, and codes the blocks that are sent for them.
#[derive(Drop)]
pub struct Uplink {
    /// The encoder after the last block that was sent.
    encoder: LineEncoder,
    /// How many frames each channel has sent, modulo 2^32.
    counters: [u32; CHANNELS],
    /// How many packets each channel and application has sent, with those of the file that is being sent.
    counts: PacketCounts,
    /// The file that is being sent, as long as some of it is left.
    sending: Option<Sending>,
}

impl Uplink {
    ghost use Rattle.lr_uplink.specs.Standing.{History, IsAllGiven, UplinkStandsFor, with_block, with_file, with_frame};

    /// An uplink that has sent nothing. This takes no memory.
    pub fn new(alloc: Global, line: LineCode) -> Result<Uplink, NoMemory>
        ensures { IsOkAnd result (λ uplink.
            UplinkStandsFor uplink line (record { files = []; given = 0; blocks = [] })) }
    {
        Ok(Uplink {
            encoder: LineEncoder::new(line),
            counters: [0; CHANNELS],
            counts: PacketCounts::new(alloc),
            sending: None,
        })
    }

    /// Loads the next file, where nothing is left to send of the one before.
    ///
    /// `Fill`: the file is of channel 63. `NoMemory`: memory was wanting.
    pub fn load(&mut self, file: MissionFile) -> Result<(), UplinkFault>
        ensures loaded { (line : LineCode') (history : History) → UplinkStandsFor self.old line history →
            IsAllGiven history → OnOk result (UplinkStandsFor self.new line (with_file history file)) }
        ensures fill { (result ≡ Err UplinkFault.Fill) ↔ (file.vc ≡ FILL_CHANNEL) }
        ensures refused { OnErr result (self.new ≡ self.old) }
    {
        let vc = file.vc();
        let apid = file.apid();
        if vc == FILL_CHANNEL {
            return Err(UplinkFault::Fill);
        }
        let count = self.counts.count_of(vc, apid);
        let packets = (file.packets() % 65_536) as u16;
        if self
            .counts
            .set_count(vc, apid, count.wrapping_add(packets))
            .is_err()
        {
            return Err(UplinkFault::NoMemory);
        }
        self.sending = Some(Sending::new(file, count % SEQUENCE_COUNTS));
        Ok(())
    }

    /// Writes the next frame of the files that were loaded. The result is whether one was left.
    pub fn next_frame(&mut self, frame: &mut [u8; FRAME_BYTES]) -> bool
        ensures left { (line : LineCode') (history : History) → UplinkStandsFor self.old line history →
            IsTrue result ↔ (history.given < length (sent history.files)) }
        ensures frame { (line : LineCode') (history : History) → UplinkStandsFor self.old line history → IsTrue result →
            frame.new ≡ slice_index_or (sent history.files) history.given [] }
        ensures given { (line : LineCode') (history : History) → UplinkStandsFor self.old line history → IsTrue result →
            UplinkStandsFor self.new line (with_frame history) }

        // Where none was left, nothing changes; and where each frame was sent, a receiver finds the files.
        ensures none { result ≡ false → (self.new ≡ self.old) × (frame.new ≡ frame.old) }
        ensures received { (line : LineCode') (history : History) → UplinkStandsFor self.old line history →
            result ≡ false → length history.blocks ≡ history.given →
            AreFilesOf (outcomes_of_symbols line (symbols_of_blocks line history.blocks)) history.files }
    {
        let Some(mut sending) = self.sending.take() else {
            return false;
        };
        let place = usize::from(sending.vc());
        let counter = self.counters[place];
        put_next(frame, &mut sending, counter % FRAME_COUNTS);
        self.counters[place] = counter.wrapping_add(1);
        if !sending.is_done() {
            self.sending = Some(sending);
        }
        true
    }

    /// Writes the symbols of the block that is sent for the first frame that was given and not sent: those of its
    /// marker and its own, by one encoder that runs on, each 100 or -100. Without the randomiser each word of the
    /// block may differ in up to sixteen places from that of the frame's encoded block.
    pub fn symbols(&mut self, block: &[u8; BLOCK_BYTES], out: &mut [i8; FRAME_SYMBOLS])
        ensures symbols { (line : LineCode') (history : History) → UplinkStandsFor self.old line history →
            symbols_of_blocks line (history.blocks ++ block.now ∷ [])
            ≡ symbols_of_blocks line history.blocks ++ out.new }
        ensures block { (line : LineCode') (history : History) → UplinkStandsFor self.old line history →
            length history.blocks < history.given →
            IsSentFor (slice_index_or (sent history.files) (length history.blocks) []) block.now →
            UplinkStandsFor self.new line (with_block history block.now) }
    {
        put_symbols(&mut self.encoder, block, out);
    }
}
