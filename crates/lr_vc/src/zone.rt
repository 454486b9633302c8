//! The packets inside one zone.

ghost use Rattle.std.specs.Prelude.{◌≡◌, ◌+◌, ◌*◌, ◌<◌, ◌≤◌, ◌++◌, [], ◌∷◌, IsTrue, OnOk, IfOk, IfSome, SomeIff};
ghost use Rattle.std.specs.Prelude.{slice_index, if◌then◌else◌, nat_lt};
ghost use Rattle.lr_bits.specs.Packet.{IsPacket};
ghost use Rattle.lr_bits.specs.declared.sizes.TheConstants.{CHANNELS};
ghost use Rattle.lr_vc.specs.Packets.{packet_end, is_whole};
ghost use Rattle.lr_vc.specs.Steps.{KeepsPacketsBefore, packets_inside, starts_unfinished};

use lr_bits::{Bytes, NoMemory, PACKET_HEADER_BYTES, RawPacket, SHORTEST_PACKET_BYTES, ZONE_BYTES};
use std::alloc::Global;

/// The number in a length field.
fn length_of(high: u8, low: u8) -> usize
    ensures value { result ≡ high * 256 + low }
    ensures fits { result ≤ 65535 }
{
    usize::from(high) * 256 + usize::from(low)
}

/// Where the packet that starts at this place of the zone ends. `None` exactly where that is after the zone's end.
fn end_inside(zone: &[u8; ZONE_BYTES], start: usize) -> Option<usize>
    requires { start ≤ ZONE_BYTES }
    ensures end { SomeIff result (IsTrue (is_whole zone.now start)) (packet_end zone.now start) }
    ensures ahead { IfSome result (λ end. start < end) }
    ensures inside { IfSome result (λ end. end ≤ ZONE_BYTES) }
{
    if start + PACKET_HEADER_BYTES > ZONE_BYTES {
        return None;
    }
    let end = start + SHORTEST_PACKET_BYTES + length_of(zone[start + 4], zone[start + 5]);
    let inside = end <= ZONE_BYTES;
    if !inside {
        return None;
    }
    Some(end)
}

/// The byte at a place of an open packet with a zone after it.
fn byte_across(so_far: &[u8], zone: &[u8; ZONE_BYTES], place: usize) -> u8
    requires { place < ZONE_BYTES }
    ensures { result ≡ slice_index (so_far.now ++ zone.now) place }
{
    if place < so_far.len() {
        so_far[place]
    } else {
        zone[place - so_far.len()]
    }
}

/// Where an open packet ends, counted from its start, with a zone after its bytes so far.
pub(crate) fn end_across(so_far: &[u8], zone: &[u8; ZONE_BYTES]) -> usize
    ensures end { result ≡ packet_end (so_far.now ++ zone.now) 0 }
    ensures fits { result ≤ 65542 }
{
    let high = byte_across(so_far, zone, 4);
    let low = byte_across(so_far, zone, 5);
    SHORTEST_PACKET_BYTES + length_of(high, low)
}

/// The packet that these bytes are.
pub(crate) fn whole(vc: u8, bytes: Bytes) -> RawPacket
    requires { IsPacket (record { vc = vc; bytes = bytes }) }
    ensures { result ≡ record { vc = vc; bytes = bytes } }
{
    RawPacket::build(vc, bytes).unwrap()
}

/// Appends the packets that lie in the zone, from the start `first` on. The result is the start after them, whose
/// packet isn't all there, or the zone's end.
pub(crate) fn push_inside(
    alloc: Global,
    vc: u8,
    zone: &[u8; ZONE_BYTES],
    first: usize,
    packets: &mut Vec<RawPacket>,
) -> Result<usize, NoMemory>
    requires channel { vc < CHANNELS }
    requires inside { first < ZONE_BYTES }
    ensures packets { OnOk result (packets.new.items ≡ packets.old.items ++ packets_inside vc zone.now first) }
    ensures unfinished { IfOk result (λ start.
        starts_unfinished zone.now first ≡ (if nat_lt start ZONE_BYTES then start ∷ [] else [])) }
    ensures bound { IfOk result (λ start. start ≤ ZONE_BYTES) }
    ensures kept { KeepsPacketsBefore packets.old.items packets.new.items }
{
    let mut start = first;
    while let Some(end) = end_inside(zone, start) {
        let bytes = Bytes::copy_of(alloc, &zone[start..end])?;
        packets.push(whole(vc, bytes))?;
        start = end;
    }
    Ok(start)
}
