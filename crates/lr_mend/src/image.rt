//! One open image.

ghost use Rattle.std.specs.Prelude.{◌≡◌, ◌≤◌, ◌+◌, IfOk, OnOk, Some, length, replicate};
ghost use Rattle.lr_packet.specs.Reading.{good};
ghost use Rattle.lr_mend.specs.Mending.{
  begins_file,
  can_end,
  can_fill,
  filler_body,
  fillers_before,
  filling_of,
  gap_of,
  goes_back,
  goes_on,
  image_begun_by,
  image_with,
  is_over,
  missing_before,
  most_fillers,
  needed_before,
  filler_units,
};
ghost use Rattle.lr_bits.specs.Sizes.{most_body_bytes};
ghost use Rattle.lr_mend.specs.Reading.{opening};
ghost use Rattle.lr_mend.specs.Standing.{most_wanted};

use crate::gap::Gap;
use crate::mender::MOST_FILLERS;
use crate::opening::{Opening, units_in};
use lr_bits::{Bytes, MOST_BODY_BYTES, NoMemory, SEQUENCE_COUNTS};
use lr_packet::GoodPacket;
use std::alloc::Global;
use std::marker::Model;

/// The body of a filler of an image whose lines aren't coded is a part of these.
static ZEROS: [u8; MOST_BODY_BYTES] = [0; MOST_BODY_BYTES];

/// As many zeros as this body has bytes.
fn zeros_for(body: &[u8]) -> &'static [u8]
    requires { length body.now ≤ most_body_bytes }
    ensures { result.now ≡ replicate (length body.now) 0 }
{
    &ZEROS[..body.len()]
}

/// An image that has begun: the count and the body of its last packet, whether that is its first one, how many fillers
/// it has, and what is still to come of it.
#[derive(Drop)]
pub(crate) struct OpenImage {
    count: u16,
    body: Bytes,
    first: bool,
    fillers: u16,
    coded: bool,
    wanted: u32,
}

impl Model for OpenImage {
    ghost use Rattle.lr_mend.specs.Mending.{Image};
    ghost use Rattle.lr_mend.specs.Standing.{IsSoundImage};

    ghost Value = { Image };

    ghost view = { λ i. record {
      count = i.count;
      body = i.body;
      first = i.first;
      fillers = i.fillers;
      coded = i.coded;
      wanted = i.wanted;
    } };

    ghost invariant = { λ i. IsSoundImage (record {
      count = i.count;
      body = i.body;
      first = i.first;
      fillers = i.fillers;
      coded = i.coded;
      wanted = i.wanted;
    }) };
}

/// Whether a packet begins a file: it is the first of several, or all of it.
pub(crate) fn begins_file(packet: &GoodPacket) -> bool
    ensures { result ≡ begins_file (good packet.now) }
{
    packet.flags == 1 || packet.flags == 3
}

impl OpenImage {
    /// The image that this packet opens.
    pub(crate) fn begin(
        alloc: Global,
        packet: &GoodPacket,
        begun: Opening,
    ) -> Result<Self, NoMemory>
        requires { begun.wanted ≤ most_wanted }
        ensures { IfOk result (λ image. image ≡ image_begun_by (good packet.now) (opening begun)) }
    {
        Ok(OpenImage {
            count: packet.count,
            body: Bytes::copy_of(alloc, packet.body)?,
            first: true,
            fillers: 0,
            coded: begun.coded,
            wanted: begun.wanted,
        })
    }

    /// How many packets are missing between the last one and this one.
    fn missing_before(&self, packet: &GoodPacket) -> u16
        ensures { result ≡ missing_before self.now (good packet.now) }
    {
        (packet.count + SEQUENCE_COUNTS - (self.count + 1)) % SEQUENCE_COUNTS
    }

    /// The body that fillers before this packet are like: the last one, or, since the first one has the header, after
    /// that one the body of a packet between; empty where there is none.
    fn filling<'a, 'b: 'a>(&'a self, packet: &GoodPacket<'b>) -> &'a [u8]
        ensures value { result.now ≡ filling_of self.now (good packet.now) }
        ensures short { length result.now ≤ most_body_bytes }
    {
        if !self.first {
            self.body.as_slice()
        } else if packet.flags == 0 {
            packet.body
        } else {
            &[]
        }
    }

    /// The body of fillers before this packet: a copy where lines are coded packet by packet, else zeros.
    fn filler_body<'a, 'b: 'a>(&'a self, packet: &GoodPacket<'b>) -> &'a [u8]
        ensures value { result.now ≡ filler_body self.now (good packet.now) }
        ensures short { length result.now ≤ most_body_bytes }
    {
        let filling = self.filling(packet);
        if self.coded {
            filling
        } else {
            zeros_for(filling)
        }
    }

    /// How much of the image a filler has.
    fn unit(&self, packet: &GoodPacket) -> u32
        ensures value { result ≡ filler_units self.now (good packet.now) }
        ensures some { 1 ≤ result }
        ensures few { result ≤ most_body_bytes }
    {
        units_in(self.coded, self.filling(packet)).max(1)
    }

    /// How many fillers the image needs to be whole: it has one at least, which ends it.
    fn needed_before(&self, packet: &GoodPacket) -> u32
        ensures { result ≡ needed_before self.now (good packet.now) }
    {
        let unit = self.unit(packet);
        ((self.wanted + unit - 1) / unit).max(1)
    }

    /// Whether the image is whole with the packets that are missing, so that this one isn't of it.
    fn is_over(&self, packet: &GoodPacket) -> bool
        ensures { result ≡ is_over self.now (good packet.now) }
    {
        self.needed_before(packet) <= u32::from(self.missing_before(packet))
    }

    /// Whether the count goes back, as that of a packet that comes again does.
    fn goes_back(&self, packet: &GoodPacket) -> bool
        ensures { result ≡ goes_back self.now (good packet.now) }
    {
        !begins_file(packet) && self.missing_before(packet) >= SEQUENCE_COUNTS - MOST_FILLERS - 1
    }

    /// Whether fillers can end the image: the count doesn't go back, and where lines are coded there is a body of the
    /// image to copy, which the first one isn't.
    fn can_end(&self, packet: &GoodPacket) -> bool
        ensures { result ≡ can_end self.now (good packet.now) }
    {
        !self.goes_back(packet) && !(self.coded && self.first)
    }

    /// Whether fillers can come: they have a body, and they can end the image or the packet goes on with it.
    #[tactic(auto, unfolding(crate::specs::Mending::can_fill))]
    fn can_fill(&self, packet: &GoodPacket) -> bool
        ensures { result ≡ can_fill self.now (good packet.now) }
    {
        if self.filling(packet).is_empty() {
            return false;
        }
        if self.is_over(packet) {
            return self.can_end(packet);
        }
        !begins_file(packet)
    }

    /// How many fillers come before this packet, where the image may have `most` in all.
    pub(crate) fn fillers_before(&self, most: u16, packet: &GoodPacket) -> u16
        requires { most ≤ most_fillers }
        ensures value { result ≡ fillers_before most self.now (good packet.now) }
        ensures few { self.now.fillers + result ≤ most_fillers }
    {
        let missing = self.missing_before(packet);
        let fillers = u32::from(missing).min(self.needed_before(packet)) as u16;
        if self.can_fill(packet) && self.fillers + fillers <= most {
            fillers
        } else {
            0
        }
    }

    /// Whether the packet goes on with the image: that isn't over, and no packet is missing, or fillers stand in for
    /// them.
    #[tactic(auto, unfolding(crate::specs::Mending::goes_on))]
    pub(crate) fn goes_on(&self, most: u16, packet: &GoodPacket) -> bool
        requires { most ≤ most_fillers }
        ensures { result ≡ goes_on most self.now (good packet.now) }
    {
        !self.is_over(packet) && self.fillers_before(most, packet) == self.missing_before(packet)
    }

    /// The fillers that come before this packet.
    pub(crate) fn gap_before<'a, 'b: 'a>(&'a self, most: u16, packet: &GoodPacket<'b>) -> Gap<'a>
        requires { most ≤ most_fillers }
        ensures { result ≡ gap_of most (Some self.now) (good packet.now) }
    {
        Gap {
            vc: packet.vc,
            apid: packet.apid,
            count: (self.count + 1) % SEQUENCE_COUNTS,
            left: self.fillers_before(most, packet),
            ends: self.is_over(packet),
            body: self.filler_body(packet),
        }
    }

    /// Goes on with the packet, before which these fillers came. This takes no memory but the growth of the body.
    pub(crate) fn go_on(&mut self, fillers: u16, packet: &GoodPacket) -> Result<(), NoMemory>
        requires { self.old.fillers + fillers ≤ most_fillers }
        ensures { OnOk result (self.new ≡ image_with self.old fillers (good packet.now)) }
    {
        let unit = self.unit(packet);
        let came = unit * u32::from(fillers) + units_in(self.coded, packet.body);
        self.body.truncate(0);
        self.body.extend(packet.body)?;
        self.count = packet.count;
        self.first = false;
        self.fillers += fillers;
        self.wanted = self.wanted.saturating_sub(came);
        Ok(())
    }
}
