//! One channel: its last counter and its open packet.

ghost use Rattle.std.specs.Prelude.{◌≡◌, ◌+◌, [], IsOk, ◌<◌, ◌≤◌, ◌++◌, Some, None, IsTrue, OnOk, IfOk, length};
ghost use Rattle.std.specs.Prelude.{if◌then◌else◌, ◌==◌, ◌&&◌, nat_lt};
ghost use Rattle.std.specs.Option.{option_to_list};
ghost use Rattle.lr_vc.specs.Reading.{fields};
ghost use Rattle.lr_vc.specs.Standing.{IsShortPacket, nothing_kept};
ghost use Rattle.lr_vc.specs.Steps.{
  KeepsPacketsBefore,
  KeepsNothing,
  TakesFrame,
  follows,
  completed_packet,
  continued_packet,
};
ghost use Rattle.lr_vc.specs.Steps.{packets_inside, met_by, completed_packets, continued_packets, opened_packets};
ghost use Rattle.lr_vc.specs.Steps.{packets_with, open_after, zone_start_of, is_nowhere, ends_at};

use crate::TransferFrame;
use crate::zone::{end_across, push_inside, whole};
use lr_bits::{Bytes, FRAME_COUNTS, NO_PACKET_START, NoMemory, RawPacket, ZONE_BYTES};
use std::alloc::Global;
use std::marker::Model;

/// Whether this counter follows the last one, if there is one.
fn is_next(last: Option<u32>, counter: u32) -> bool
    ensures { result ≡ follows last counter }
{
    match last {
        Some(last) => u64::from(counter) == (u64::from(last) + 1) % u64::from(FRAME_COUNTS),
        None => false,
    }
}

/// What a zone's pointer says of the first packet that starts in the zone.
#[derive(Clone, Copy)]
pub(crate) enum ZoneStart {
    /// It starts at this place, below 884.
    At(usize),
    /// None starts, since a packet covers the zone to its end.
    Nowhere,
    /// None starts: the zone is idle.
    Idle,
}

impl ZoneStart {
    /// Whether no packet starts, since one covers the zone.
    fn is_nowhere(self) -> bool
        ensures { result ≡ is_nowhere self }
    {
        match self {
            ZoneStart::At(_) => false,
            ZoneStart::Nowhere => true,
            ZoneStart::Idle => false,
        }
    }
}

/// What this pointer says.
fn zone_start(pointer: u16) -> ZoneStart
    ensures { result ≡ zone_start_of pointer }
{
    let place = usize::from(pointer);
    if place < ZONE_BYTES {
        return ZoneStart::At(place);
    }
    if pointer == NO_PACKET_START {
        ZoneStart::Nowhere
    } else {
        ZoneStart::Idle
    }
}

/// Whether a zone's start agrees with a packet of which `so_far` bytes lie before the zone, and that ends with it or
/// in it.
fn agrees(so_far: usize, end: usize, start: ZoneStart) -> bool
    requires small { so_far ≤ 65541 }
    ensures value { result ≡ ends_at so_far end start }
    ensures after { IsTrue result → so_far ≤ end }
    ensures within { IsTrue result → end ≤ so_far + ZONE_BYTES }
{
    match start {
        ZoneStart::At(place) => place < ZONE_BYTES && end == so_far + place,
        ZoneStart::Nowhere => end == so_far + ZONE_BYTES,
        ZoneStart::Idle => false,
    }
}

/// What the next zone of its run makes of an open packet: it goes on after the zone, or ends with it and is appended,
/// or is dropped since the zone's pointer doesn't agree with it. The result is the open packet, if it goes on.
fn carry(
    mut bytes: Bytes,
    frame: &TransferFrame,
    packets: &mut Vec<RawPacket>,
) -> Result<Option<Bytes>, NoMemory>
    requires { length bytes ≤ 65541 }
    ensures succeeds { completed_packet frame.now.vc frame.now.zone frame.now.pointer bytes ≡ [] →
        continued_packet frame.now.zone frame.now.pointer bytes ≡ [] → IsOk result }
    ensures packets { OnOk result (packets.new.items ≡
        packets.old.items ++ completed_packet frame.now.vc frame.now.zone frame.now.pointer bytes) }
    ensures open_packet { IfOk result
        (λ o. option_to_list o ≡ continued_packet frame.now.zone frame.now.pointer bytes) }
    ensures short { IfOk result IsShortPacket }
    ensures kept { KeepsPacketsBefore packets.old.items packets.new.items }
{
    let so_far = bytes.as_slice().len();
    let end = end_across(bytes.as_slice(), &frame.zone);
    let start = zone_start(frame.pointer);
    if end > so_far + ZONE_BYTES {
        if !start.is_nowhere() {
            return Ok(None);
        }
        bytes.extend(&frame.zone)?;
        return Ok(Some(bytes));
    }
    if !agrees(so_far, end, start) {
        return Ok(None);
    }
    bytes.extend(&frame.zone[..end - so_far])?;
    packets.push(whole(frame.vc, bytes))?;
    Ok(None)
}

/// Carries the open packet on that a frame meets, if any.
fn carry_met(
    met: Option<Bytes>,
    frame: &TransferFrame,
    packets: &mut Vec<RawPacket>,
) -> Result<Option<Bytes>, NoMemory>
    requires { IsShortPacket met }
    ensures succeeds { completed_packets (fields frame.now) (option_to_list met) ≡ [] →
        continued_packets (fields frame.now) (option_to_list met) ≡ [] → IsOk result }
    ensures packets { OnOk result (packets.new.items ≡
        packets.old.items ++ completed_packets (fields frame.now) (option_to_list met)) }
    ensures open_packet { IfOk result
        (λ o. option_to_list o ≡ continued_packets (fields frame.now) (option_to_list met)) }
    ensures short { IfOk result IsShortPacket }
    ensures kept { KeepsPacketsBefore packets.old.items packets.new.items }
{
    match met {
        Some(bytes) => carry(bytes, frame, packets),
        None => Ok(None),
    }
}

/// Appends the packets that start and end in this zone. The result is the one that starts in it and goes on after it.
fn open_inside(
    alloc: Global,
    frame: &TransferFrame,
    packets: &mut Vec<RawPacket>,
) -> Result<Option<Bytes>, NoMemory>
    requires { frame.now.pointer < ZONE_BYTES }
    ensures packets { OnOk result (packets.new.items ≡
        packets.old.items ++ packets_inside frame.now.vc frame.now.zone frame.now.pointer) }
    ensures open_packet { IfOk result (λ o. option_to_list o ≡ opened_packets (fields frame.now)) }
    ensures short { IfOk result IsShortPacket }
    ensures kept { KeepsPacketsBefore packets.old.items packets.new.items }
{
    let first = usize::from(frame.pointer);
    let start = push_inside(alloc, frame.vc, &frame.zone, first, packets)?;
    if start == ZONE_BYTES {
        return Ok(None);
    }
    let bytes = Bytes::copy_of(alloc, &frame.zone[start..])?;
    Ok(Some(bytes))
}

/// Appends the packets that end in this frame, which meets this open packet. The result is the packet that is open
/// after it.
fn next_open(
    alloc: Global,
    met: Option<Bytes>,
    frame: &TransferFrame,
    packets: &mut Vec<RawPacket>,
) -> Result<Option<Bytes>, NoMemory>
    requires { IsShortPacket met }
    // Where no packet ends in the frame and none is open after it, nothing is taken.
    ensures succeeds { packets_with (fields frame.now) (option_to_list met) ≡ [] →
        open_after (fields frame.now) (option_to_list met) ≡ [] → IsOk result }
    ensures packets { OnOk result (packets.new.items ≡
        packets.old.items ++ packets_with (fields frame.now) (option_to_list met)) }
    ensures open_packet { IfOk result (λ o. option_to_list o ≡ open_after (fields frame.now) (option_to_list met)) }
    ensures short { IfOk result IsShortPacket }
    ensures kept { KeepsPacketsBefore packets.old.items packets.new.items }
{
    let carried = carry_met(met, frame, packets)?;
    match zone_start(frame.pointer) {
        ZoneStart::At(_) => open_inside(alloc, frame, packets),
        ZoneStart::Nowhere => Ok(carried),
        ZoneStart::Idle => Ok(carried),
    }
}

/// What is kept of one channel: the counter of its last frame, and the bytes so far of its open packet.
#[derive(Drop)]
pub(crate) struct Channel {
    counter: Option<u32>,
    open_packet: Option<Bytes>,
}

impl Model for Channel {
    ghost use Rattle.lr_vc.specs.Standing.{KeptChannel};

    ghost Value = { KeptChannel };

    ghost view = { λ c. record { counter = c.counter; open_packet = c.open_packet } };
}

impl Channel {
    /// A channel of which no frame came.
    pub(crate) fn new() -> Self
        ensures { result ≡ nothing_kept }
    {
        Channel {
            counter: None,
            open_packet: None,
        }
    }

    /// Takes out the open packet that the channel's next frame meets, which has this counter.
    fn meet(&mut self, counter: u32) -> Option<Bytes>
        ensures met { option_to_list result ≡ met_by self.old counter }
        ensures short { IsShortPacket self.old.open_packet → IsShortPacket result }
        ensures left { self.new ≡ record { counter = Some counter; open_packet = None } }
    {
        let last = self.counter;
        self.counter = Some(counter);
        let open_packet = self.open_packet.take();
        if is_next(last, counter) {
            open_packet
        } else {
            None
        }
    }

    /// Appends the packets of this channel that end in this frame, its next one.
    pub(crate) fn push(
        &mut self,
        alloc: Global,
        frame: &TransferFrame,
        packets: &mut Vec<RawPacket>,
    ) -> Result<(), NoMemory>
        requires { IsShortPacket self.old.open_packet }
        ensures succeeds { KeepsNothing self.old (fields frame.now) → IsOk result }
        ensures frame { OnOk result (TakesFrame self.old self.new (fields frame.now)) }
        ensures packets { OnOk result (packets.new.items ≡
            packets.old.items ++ packets_with (fields frame.now) (met_by self.old frame.now.counter)) }
        ensures short { IsShortPacket self.new.open_packet }
        ensures kept { KeepsPacketsBefore packets.old.items packets.new.items }
    {
        let met = self.meet(frame.counter);
        self.open_packet = next_open(alloc, met, frame, packets)?;
        Ok(())
    }
}
