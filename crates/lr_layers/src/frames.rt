//! A restored frame, and the packets that end in it.

ghost use Rattle.std.specs.Prelude.{◌≡◌, ◌≤◌, ◌<◌, ◌+◌, ◌*◌, ◌^◌, List, IfOk, IsOk, length, false};
ghost use Rattle.std.specs.Option.{option_map};
ghost use Rattle.std.specs.Result.{result_ok};
ghost use Rattle.lr_vc.specs.Frame.{Fields, frame_of};
ghost use Rattle.lr_bits.specs.declared.outcome.Outcome.{Outcome as Outcome'};
ghost use Rattle.lr_vc.specs.Reading.{fields};
ghost use Rattle.lr_vc.specs.Standing.{ChannelsStandFor};
ghost use Rattle.lr_layers.specs.Standing.{numbers};
ghost use Rattle.lr_layers.specs.Origins.{PlacedPacket};
ghost use Rattle.lr_layers.specs.Starts.{IsNow, JoinerStandsFor, found};
ghost use Rattle.lr_layers.specs.Steps.{CountsFrame, KeepsFilesBefore, AddsFrame};

use crate::counts::{AddedCounts, Counts};
use crate::packets::{Joiner, push_packets};
use crate::starts::Now;
use lr_bits::{FILL_CHANNEL, FRAME_BYTES, NoMemory, Placed, RawPacket};
use lr_vc::{Channels, MOST_ENDING_PACKETS, TransferFrame};

/// What takes frames to files, by the packets that end in them.
#[derive(Drop)]
pub(crate) struct FrameLayers {
    pub channels: Channels,
    /// The packets that end in the frame that is pushed.
    pub packets: Vec<RawPacket>,
    pub joiner: Joiner,
}

/// The frame of version 1 that these bytes are, if they are one. Frames of another version, and those of fill, are
/// counted.
pub(crate) fn read_frame(bytes: &[u8; FRAME_BYTES], counts: &mut Counts) -> Option<TransferFrame>
    requires versions { counts.old.bad_versions + 1 < 2 ^ 64 }
    requires fill { counts.old.fill + 1 < 2 ^ 64 }
    ensures frame { option_map fields result ≡ result_ok (frame_of bytes.now) }
    ensures counts { CountsFrame bytes.now (numbers counts.old) (numbers counts.new) }
{
    match TransferFrame::read(bytes) {
        Ok(frame) => {
            if frame.vc == FILL_CHANNEL {
                counts.fill += 1;
            }
            Some(frame)
        }
        Err(_) => {
            counts.bad_versions += 1;
            None
        }
    }
}

/// Appends the files that end in this frame, and answers how many good packets and files it adds.
pub(crate) fn push_frame(
    frame: &TransferFrame,
    now: Now,
    layers: &mut FrameLayers,
    counted: bool,
    out: &mut Vec<Placed>,
    fillers: &mut Vec<u16>,
) -> Result<AddedCounts, NoMemory>
    ensures takes { (outcomes : List Outcome') (before : List PlacedPacket) (frames : List Fields)
        → ChannelsStandFor layers.old.channels frames → JoinerStandsFor layers.old.joiner outcomes before
        → IsNow outcomes now
        → IfOk result (λ gained. AddsFrame (record {
          mend = layers.old.joiner.files.images.most;
          counted = counted;
          outcomes = outcomes;
          place = now.start.place;
          before = before;
        })
        frames (fields frame.now) layers.new
        (record {
          old = found out.old.items fillers.old.items;
          new = found out.new.items fillers.new.items;
          counts = gained;
        })) }
    ensures mend { layers.new.joiner.files.images.most ≡ layers.old.joiner.files.images.most }
    ensures fill { layers.old.channels.spent ≡ false → frame.now.vc ≡ FILL_CHANNEL → IsOk result }
    ensures few { IfOk result (λ gained. gained.packets ≤ MOST_ENDING_PACKETS) }
    ensures few_new { IfOk result (λ _. length out.new.items ≤ length out.old.items + 2 * MOST_ENDING_PACKETS) }
    ensures few_files { IfOk result (λ gained. gained.files ≤ 2 * gained.packets) }
    ensures plain_new { layers.old.joiner.files.images.most ≡ 0
        → IfOk result (λ _. length out.new.items ≤ length out.old.items + MOST_ENDING_PACKETS) }
    ensures plain_files { layers.old.joiner.files.images.most ≡ 0
        → IfOk result (λ gained. gained.files ≤ gained.packets) }
    ensures kept { KeepsFilesBefore (found out.old.items fillers.old.items) (found out.new.items fillers.new.items) }
{
    layers.packets.clear();
    layers.channels.push(frame, &mut layers.packets)?;
    let before = out.as_slice().len();
    let good = push_packets(
        &layers.packets,
        now,
        &mut layers.joiner,
        counted,
        out,
        fillers,
    )?;
    Ok(AddedCounts {
        packets: good,
        files: (out.as_slice().len() - before) as u64,
    })
}
