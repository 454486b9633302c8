//! All channels: each frame goes to its own one (virtual channels, CCSDS 732.0-B).

ghost use Rattle.std.specs.Prelude.{◌≡◌, ◌≢◌, ℕ, ◌<◌, ◌≤◌, ◌+◌, ◌++◌, [], ◌∷◌, List, OnOk, OnErr, IsOk, IsErr, length};
ghost use Rattle.std.specs.Prelude.{false};
ghost use Rattle.lr_vc.specs.Frame.{Fields};
ghost use Rattle.lr_vc.specs.Reading.{fields};
ghost use Rattle.lr_vc.specs.Packets.{packets_at};
ghost use Rattle.lr_vc.specs.Standing.{ChannelsStandFor, AreChannelsSpent, IsSmall, kept_at};
ghost use Rattle.lr_vc.specs.Steps.{KeepsPacketsBefore, KeepsNothing, TakesFrame, met_by, packets_with};

use crate::TransferFrame;
use crate::channel::Channel;
use lr_bits::{FILL_CHANNEL, NoMemory, RawPacket, ZONE_BYTES};
use std::alloc::Global;
use std::marker::Model;

/// The most packets that end in one frame: the open packet, and one for each byte of the zone.
pub const MOST_ENDING_PACKETS: usize = ZONE_BYTES + 1;

/// Makes room for a channel, of which nothing is kept yet.
fn reach(channels: &mut Vec<Channel>, channel: usize) -> Result<(), NoMemory>
    requires channel { channel < FILL_CHANNEL }
    requires small { IsSmall channels.old.items }
    ensures succeeds { channel < length channels.old.items → IsOk result }
    ensures reached { OnOk result (channel < length channels.new.items) }
    ensures same { (k : ℕ) → kept_at channels.new.items k ≡ kept_at channels.old.items k }
    ensures small { IsSmall channels.new.items }
{
    while channels.len() <= channel {
        channels.push(Channel::new())?;
    }
    Ok(())
}

/// Gives a frame to its channel, and appends the packets that end in it.
fn push_to_channel(
    alloc: Global,
    channels: &mut Vec<Channel>,
    frame: &TransferFrame,
    packets: &mut Vec<RawPacket>,
) -> Result<(), NoMemory>
    requires channel { frame.now.vc < FILL_CHANNEL }
    requires small { IsSmall channels.old.items }
    ensures succeeds { frame.now.vc < length channels.old.items
        → KeepsNothing (kept_at channels.old.items frame.now.vc) (fields frame.now) → IsOk result }
    ensures own { OnOk result (TakesFrame (kept_at channels.old.items frame.now.vc)
        (kept_at channels.new.items frame.now.vc) (fields frame.now)) }
    ensures others { (k : ℕ) → k ≢ frame.now.vc → kept_at channels.new.items k ≡ kept_at channels.old.items k }
    ensures packets { OnOk result (packets.new.items ≡ packets.old.items ++ packets_with (fields frame.now)
        (met_by (kept_at channels.old.items frame.now.vc) frame.now.counter)) }
    ensures small { IsSmall channels.new.items }
    ensures kept { KeepsPacketsBefore packets.old.items packets.new.items }
{
    let place = usize::from(frame.vc);
    reach(channels, place)?;
    let channel = &mut channels[place];
    channel.push(alloc, frame, packets)
}

/// The packets of the frames of all channels (CCSDS 732.0-B, section 4.1.4, and 133.0-B, section 4.1). A packet may
/// lie across the zones of a run, the neighbours of a channel whose counters follow one another.
///
/// Of each channel it keeps the counter of the last frame and at most one open packet. After `NoMemory` it is spent,
/// and every later call answers `NoMemory`.
#[derive(Drop)]
pub struct Channels {
    alloc: Global,
    channels: Vec<Channel>,
    spent: bool,
}

impl Model for Channels {
    ghost use Rattle.lr_vc.specs.Standing.{KeptChannels, IsSmall};

    ghost Value = { KeptChannels };

    ghost view = { λ c. record { spent = c.spent; channels = c.channels.items } };

    ghost invariant = { λ c. IsSmall c.channels.items };
}

impl Channels {
    /// No frames yet. This takes no memory.
    pub fn new(alloc: Global) -> Self
        ensures { ChannelsStandFor result [] }
    {
        Channels {
            alloc,
            channels: Vec::new(alloc),
            spent: false,
        }
    }

    /// Appends the packets that end in this frame, the next one of the history for which the object stands.
    ///
    /// `NoMemory`: memory was wanting in this call or in an earlier one. The packets are as they were.
    pub fn push(
        &mut self,
        frame: &TransferFrame,
        packets: &mut Vec<RawPacket>,
    ) -> Result<(), NoMemory>
        ensures stands { (history : List Fields) → ChannelsStandFor self.old history →
            OnOk result (ChannelsStandFor self.new (history ++ fields frame.now ∷ [])) }
        ensures packets { (history : List Fields) → ChannelsStandFor self.old history →
            OnOk result (packets.new.items ≡ packets.old.items ++
            packets_at (history ++ fields frame.now ∷ []) (length history)) }

        // Fill adds nothing and changes nothing.
        ensures fill { frame.now.vc ≡ FILL_CHANNEL → (self.new ≡ self.old) × (packets.new.items ≡ packets.old.items) }

        // Fill takes no memory; nor does a frame of a channel that is kept already, if no packet ends in it and none is
        // open after it.
        ensures fill_succeeds { self.old.spent ≡ false → frame.now.vc ≡ FILL_CHANNEL → IsOk result }
        ensures succeeds { self.old.spent ≡ false → frame.now.vc < length self.old.channels
            → KeepsNothing (kept_at self.old.channels frame.now.vc) (fields frame.now) → IsOk result }

        // At most the open packet and one for each byte of the zone.
        ensures few { OnOk result (length packets.new.items ≤ length packets.old.items + MOST_ENDING_PACKETS) }

        ensures refused { OnErr result (packets.new.items ≡ packets.old.items) }
        ensures spends { OnErr result (AreChannelsSpent self.new) }
        ensures stays_spent { AreChannelsSpent self.old → IsErr result × AreChannelsSpent self.new }
        ensures small { IsSmall self.new.channels }
    {
        if self.spent {
            return Err(NoMemory);
        }
        if frame.vc == FILL_CHANNEL {
            return Ok(());
        }
        let count = packets.len();
        if push_to_channel(self.alloc, &mut self.channels, frame, packets).is_err() {
            self.spent = true;
            packets.truncate(count);
            return Err(NoMemory);
        }
        Ok(())
    }
}
