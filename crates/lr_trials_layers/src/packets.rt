//! `Channels` is given a few frames of channel 0.
use lr_bits::{NO_PACKET_START, NoMemory, RawPacket, ZONE_BYTES};
use lr_vc::{Channels, TransferFrame};
use std::alloc::Global;
use std::test::Fail;

/// The packet of the body `123456789`: flags 3, APID 100, count 0.
static DIGITS: [u8; 17] = [
    0x00, 0x64, 0xC0, 0x00, 0x00, 0x0A, 0x31, 0x32, 0x33, 0x34, 0x35, 0x36, 0x37, 0x38, 0x39, 0x29,
    0xB1,
];

/// The header of an idle packet.
fn idle_head(length_field: u16) -> [u8; 6] {
    let [high, low] = length_field.to_be_bytes();
    [0x07, 0xFF, 0xC0, 0x00, high, low]
}

fn put(zone: &mut [u8; ZONE_BYTES], place: usize, piece: &[u8]) {
    for (i, byte) in piece.iter().enumerate() {
        if let Some(slot) = zone.get_mut(place.saturating_add(i)) {
            *slot = *byte;
        }
    }
}

fn frame(counter: u32, pointer: u16, zone: [u8; ZONE_BYTES]) -> TransferFrame {
    TransferFrame {
        spacecraft: 0,
        vc: 0,
        counter: counter % (1 << 24),
        replay: false,
        rest: 0,
        pointer: pointer % (1 << 11),
        zone,
    }
}

/// The packets of a history.
fn packets_of(alloc: Global, frames: &[TransferFrame]) -> Result<Vec<RawPacket>, NoMemory> {
    let mut channels = Channels::new(alloc);
    let mut packets = Vec::new(alloc);
    for frame in frames {
        channels.push(frame, &mut packets)?;
    }
    Ok(packets)
}

/// Whether there is a packet of each of these lengths, in this order.
fn have_lengths(packets: &[RawPacket], lengths: &[usize]) -> bool {
    packets.len() == lengths.len()
        && packets
            .iter()
            .zip(lengths)
            .all(|(packet, length)| packet.as_slice().len() == *length)
}

fn is_digits(packet: &RawPacket) -> bool {
    packet.vc() == 0 && packet.as_slice() == DIGITS.as_slice()
}

fn is_idle_or_digits(packet: &RawPacket) -> bool {
    packet.as_slice().starts_with(&idle_head(0)[..4]) || is_digits(packet)
}

/// One frame: the digits, and an idle packet that ends with the zone.
fn one_frame(alloc: Global) -> Result<bool, NoMemory> {
    let mut zone = [0; ZONE_BYTES];
    put(&mut zone, 0, &DIGITS);
    put(&mut zone, 17, &idle_head(0x035C));
    let packets = packets_of(alloc, &[frame(0x40, 0, zone)])?;
    Ok(have_lengths(&packets, &[17, 867]) && packets.first().is_some_and(is_digits))
}

/// The first three bytes of the digits end a zone, after an idle packet. The second frame has this counter and
/// pointer, the other bytes of the digits, and an idle packet that ends with its zone.
fn two_frames(
    alloc: Global,
    counter: u32,
    pointer: u16,
    lengths: &[usize],
) -> Result<bool, NoMemory> {
    let mut first = [0; ZONE_BYTES];
    put(&mut first, 0, &idle_head(0x036A));
    put(&mut first, 881, &DIGITS[..3]);
    let mut second = [0; ZONE_BYTES];
    put(&mut second, 0, &DIGITS[3..]);
    put(&mut second, 14, &idle_head(0x035F));
    let frames = [frame(16_777_215, 0, first), frame(counter, pointer, second)];
    let packets = packets_of(alloc, &frames)?;
    Ok(have_lengths(&packets, lengths) && packets.iter().all(is_idle_or_digits))
}

/// A packet of 880 bytes, of which only the first lies in the zone of its start.
fn header_of_one_byte(alloc: Global, pointer: u16, lengths: &[usize]) -> Result<bool, NoMemory> {
    let head = idle_head(873);
    let mut first = [0xFF; ZONE_BYTES];
    put(&mut first, 883, &head[..1]);
    let mut second = [0; ZONE_BYTES];
    put(&mut second, 0, &head[1..]);
    let packets = packets_of(alloc, &[frame(5, 883, first), frame(6, pointer, second)])?;
    Ok(have_lengths(&packets, lengths))
}

/// A packet of 65,542 bytes: 74 zones and 126 bytes. Its frames break off after the first `zones`, and go on with a
/// frame that has the counter `counter`, the pointer 126, and an idle packet from there to its end.
fn longest_packet(
    alloc: Global,
    zones: u32,
    counter: u32,
    lengths: &[usize],
) -> Result<bool, NoMemory> {
    let mut frames = Vec::new(alloc);
    for i in 0..zones {
        let mut zone = [0; ZONE_BYTES];
        if i == 0 {
            put(&mut zone, 0, &idle_head(0xFFFF));
        }
        frames.push(frame(i, if i == 0 { 0 } else { NO_PACKET_START }, zone))?;
    }
    let mut last = [0; ZONE_BYTES];
    put(&mut last, 126, &idle_head(751));
    frames.push(frame(counter, 126, last))?;
    let packets = packets_of(alloc, &frames)?;
    Ok(have_lengths(&packets, lengths))
}

#[test]
fn a_packet_that_ends_with_its_zone_is_there_at_once(rt: HostRuntime) -> Result<(), Fail> {
    assert!(rt; one_frame(rt.alloc())?);
    Ok(())
}

#[test]
fn two_zones_join_where_counter_and_pointer_agree(rt: HostRuntime) -> Result<(), Fail> {
    let alloc = rt.alloc();
    assert!(rt; two_frames(alloc, 0, 14, &[881, 17, 870])?);
    assert!(rt; two_frames(alloc, 1, 14, &[881, 870])?);
    assert!(rt; two_frames(alloc, 16_777_215, 14, &[881, 870])?);
    assert!(rt; two_frames(alloc, 0, 2046, &[881])?);
    Ok(())
}

#[test]
fn a_header_lies_across_two_zones(rt: HostRuntime) -> Result<(), Fail> {
    let alloc = rt.alloc();
    assert!(rt; header_of_one_byte(alloc, 879, &[880])?);
    assert!(rt; header_of_one_byte(alloc, NO_PACKET_START, &[])?);
    Ok(())
}

#[test]
fn the_longest_packet_needs_all_of_its_zones(rt: HostRuntime) -> Result<(), Fail> {
    let alloc = rt.alloc();
    assert!(rt; longest_packet(alloc, 10, 10, &[758])?);
    assert!(rt; longest_packet(alloc, 10, 11, &[758])?);
    assert!(rt; longest_packet(alloc, 74, 74, &[65_542, 758])?);
    assert!(rt; longest_packet(alloc, 74, 75, &[758])?);
    Ok(())
}
