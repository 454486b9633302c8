//! A file while it is sent, byte by byte.

ghost use Rattle.std.specs.Prelude.{◌≡◌, ◌<◌, ◌≤◌, ◌+◌, ◌*◌, ◌^◌, ℕ, List, [], length, take, drop, IsTrue, ◌↔◌, All};
ghost use Rattle.std.specs.Prelude.{slice_index, slice_index_or, if◌then◌else◌, nat_lt, ◌-◌};
ghost use Rattle.std.specs.List.{concat};
ghost use Rattle.lr_bits.specs.File.{File, IsFile, bytes_of};
ghost use Rattle.lr_bits.specs.Sizes.{most_file_bodies};
ghost use Rattle.lr_bits.specs.declared.sizes.TheConstants.{SEQUENCE_COUNTS};
ghost use Rattle.lr_uplink.specs.Packets.{file_packets, idle_packets, bytes_left};
ghost use Rattle.lr_uplink.specs.Pieces.{IsPacketOf, end_of_packet, size_of_packet};

use crate::packet::{Packet, SHORTEST_BYTES, flags_of};
use lr_bits::{CHANNELS, MissionFile, NO_PACKET_START, SEQUENCE_COUNTS, ZONE_BYTES};

/// The bytes of a packet that aren't the body's: the header's and the checksum's.
const OTHER_BYTES: usize = 8;

/// How many bytes of its last zone this many bytes leave.
fn left_of(size: usize) -> usize
    ensures value { result ≡ bytes_left size }
    ensures small { result < ZONE_BYTES }
{
    (ZONE_BYTES - size % ZONE_BYTES) % ZONE_BYTES
}

/// The idle packet that fills a zone of which this many bytes are left, if any are.
fn filler(left: usize) -> Option<Packet>
    requires { left < ZONE_BYTES }
    ensures { (bytes : List ℕ) → IsPacketOf (idle_packets left) bytes 0 result }
{
    if left == 0 {
        return None;
    }
    let size = if left < SHORTEST_BYTES {
        left + ZONE_BYTES
    } else {
        left
    };
    Some(Packet::idle(size))
}

/// How many bytes these are.
fn byte_count(bytes: &[u8]) -> usize
    ensures value { result ≡ length bytes.now }
    ensures fit { All (λ byte. byte < 256) bytes.now }
{
    bytes.len()
}

/// Packet `index` of a file, if it has one, where its first packet has this count and its first `index` bodies have
/// `at` bytes.
fn packet_of_file(file: &MissionFile, count: u16, index: usize, at: usize) -> Option<Packet>
    requires count { count < SEQUENCE_COUNTS }
    requires index { index ≤ (most_file_bodies + 1) }
    requires at { at ≡ length (concat (take index file.now.bodies)) }
    ensures packet { IsPacketOf (file_packets count file.now) (bytes_of file.now) index result }
    ensures file { IsFile file.now }
    ensures bytes { All (λ byte. byte < 256) (bytes_of file.now) }
{
    let lengths = file.lengths();
    let bytes = file.bytes();
    let size = byte_count(bytes);
    let bodies = lengths.len();
    if index < bodies {
        let own = (usize::from(count) + index) % usize::from(SEQUENCE_COUNTS);
        let flags = flags_of(bodies, index);
        return Some(Packet::of_body(file.apid(), flags, own as u16, bytes, at, lengths[index]));
    }
    if index == bodies {
        return filler(left_of(size + OTHER_BYTES * bodies));
    }
    None
}

/// How many bytes body `index` of a file has, or 0 where it has no such body.
fn body_size(file: &MissionFile, index: usize) -> usize
    ensures value { result ≡ length (slice_index_or file.now.bodies index []) }
    ensures small { result < 65536 }
    ensures file { IsFile file.now }
{
    let lengths = file.lengths();
    if index < lengths.len() {
        usize::from(lengths[index])
    } else {
        0
    }
}

/// A file while it is sent.
#[derive(Drop)]
pub struct Sending {
    file: MissionFile,
    /// The count of its first packet.
    count: u16,
    /// Which of its packets is being sent.
    index: usize,
    /// How many bytes its bodies have up to that packet, with the packet's own.
    taken: usize,
    packet: Packet,
    /// How many bytes of the packet are sent. Where these are all, so is the file.
    sent: usize,
    ghost count_fits: { count < SEQUENCE_COUNTS },
    ghost index_fits: { index ≤ most_file_bodies },
    ghost taken_is: { taken ≡ length (concat (take (index + 1) file.bodies)) },
    ghost within: { end_of_packet packet ≤ length (bytes_of file) },
    ghost sent_fits: { sent ≤ size_of_packet packet },
}

impl Sending {
    ghost use Rattle.lr_uplink.specs.Progress.{IsUnsentPart, IsSending};
    ghost use Rattle.lr_uplink.specs.Sent.{sent_pointer_at};

    /// A file of which nothing is sent.
    pub(crate) fn new(file: MissionFile, count: u16) -> Sending
        requires { count < SEQUENCE_COUNTS }
        ensures sending { IsSending result file count (concat (file_packets count file)) }
        ensures bytes { All (λ byte. byte < 256) (bytes_of file) }
    {
        let packet = packet_of_file(&file, count, 0, 0).unwrap();
        let taken = body_size(&file, 0);
        Sending {
            file,
            count,
            index: 0,
            taken,
            packet,
            sent: 0,
        }
    }

    /// The file's virtual channel.
    pub(crate) fn vc(&self) -> u8
        ensures value { result ≡ self.now.file.vc }
        ensures fits { result < CHANNELS }
    {
        self.file.vc()
    }

    /// Whether all of the file is sent.
    pub(crate) fn is_done(&self) -> bool
        ensures { (file : File) (count : ℕ) (rest : List ℕ) → IsSending self.now file count rest →
            IsTrue result ↔ (rest ≡ []) }
    {
        self.sent == self.packet.len()
    }

    /// Goes on to the next packet, if there is one.
    fn advance(&mut self)
        ensures { (file : File) (count : ℕ) (rest : List ℕ) → IsUnsentPart self.old file count rest →
            self.old.sent ≡ size_of_packet self.old.packet → IsSending self.new file count rest }
    {
        let next = self.index + 1;
        if let Some(packet) = packet_of_file(&self.file, self.count, next, self.taken) {
            self.taken += body_size(&self.file, next);
            self.index = next;
            self.packet = packet;
            self.sent = 0;
        }
    }

    /// The next byte, or 0 where all is sent.
    fn next_byte(&mut self) -> u8
        ensures byte { (file : File) (count : ℕ) (rest : List ℕ) → IsSending self.old file count rest →
            result ≡ slice_index rest 0 }
        ensures moves { (file : File) (count : ℕ) (rest : List ℕ) → IsSending self.old file count rest →
            IsSending self.new file count (drop 1 rest) }
    {
        if self.sent == self.packet.len() {
            return 0;
        }
        let byte = self.packet.byte(self.file.bytes(), self.sent);
        self.sent += 1;
        if self.sent == self.packet.len() {
            self.advance();
        }
        byte
    }

    /// The pointer of the zone that is next.
    pub(crate) fn pointer(&self) -> u16
        ensures small { result < 2 ^ 11 }
        ensures value { (file : File) (count t : ℕ) →
            ZONE_BYTES * t + ZONE_BYTES ≤ length (concat (file_packets count file)) →
            IsSending self.now file count (drop (ZONE_BYTES * t) (concat (file_packets count file))) →
            result ≡ sent_pointer_at (file_packets count file) t }
    {
        if self.sent == 0 {
            return 0;
        }
        let left = self.packet.len() - self.sent;
        if left < ZONE_BYTES {
            left as u16
        } else {
            NO_PACKET_START
        }
    }

    /// Fills the next zone.
    pub(crate) fn fill(&mut self, zone: &mut [u8; ZONE_BYTES])
        ensures zone { (file : File) (count : ℕ) (rest : List ℕ) → IsSending self.old file count rest →
            ZONE_BYTES ≤ length rest → zone.new ≡ take ZONE_BYTES rest }
        ensures moves { (file : File) (count : ℕ) (rest : List ℕ) → IsSending self.old file count rest →
            IsSending self.new file count (drop ZONE_BYTES rest) }
    {
        for place in 0..ZONE_BYTES {
            zone[place] = self.next_byte();
        }
    }
}
