//! The gaps between good packets, one packet after another.

ghost use Rattle.std.specs.Prelude.{◌≡◌, ◌≤◌, ◌++◌, ◌∷◌, [], List, OnOk, OnErr, IsErr, nat_lt};
ghost use Rattle.lr_packet.specs.Verdict.{Good};
ghost use Rattle.lr_packet.specs.Reading.{good};
ghost use Rattle.lr_file.specs.Standing.{kept_of_key};
ghost use Rattle.lr_file.specs.Steps.{SetsKey};
ghost use Rattle.lr_mend.specs.Mending.{continued_image, gap_of, most_fillers, next_image};
ghost use Rattle.lr_mend.specs.Standing.{IsMenderSpent, MenderStandsFor};

use crate::gap::Gap;
use crate::image::OpenImage;
use crate::opening::opening_of;
use lr_bits::NoMemory;
use lr_packet::GoodPacket;
use std::alloc::Global;
use std::collections::BTreeMap;
use std::marker::Model;

/// The most fillers that an image may have.
pub const MOST_FILLERS: u16 = 1_023;

/// The open images by their channels and applications.
type OpenImages = BTreeMap<(u8, u16), OpenImage>;

/// Opens an image with its first packet, or closes the one that was open, where the packet doesn't open one.
fn open(
    alloc: Global,
    most: u16,
    images: &mut OpenImages,
    packet: &GoodPacket,
) -> Result<(), NoMemory>
    requires { packet.now.flags ≡ 1 }
    ensures { OnOk result (SetsKey images.old.entries images.new.entries (good packet.now)
        (next_image most (kept_of_key images.old.entries packet.now.vc packet.now.apid) (good packet.now))) }
{
    if most > 0 {
        if let Some(opening) = opening_of(alloc, packet.body)? {
            let image = OpenImage::begin(alloc, packet, opening)?;
            images.insert((packet.vc, packet.apid), image)?;
            return Ok(());
        }
    }
    images.remove(&(packet.vc, packet.apid));
    Ok(())
}

/// Goes on with the open image, or closes it where packets are missing and no fillers stand in for them.
fn go_on(most: u16, images: &mut OpenImages, packet: &GoodPacket) -> Result<(), NoMemory>
    requires { most ≤ most_fillers }
    ensures { OnOk result (SetsKey images.old.entries images.new.entries (good packet.now)
        (continued_image most (kept_of_key images.old.entries packet.now.vc packet.now.apid) (good packet.now))) }
{
    let key = (packet.vc, packet.apid);
    let Some(image) = images.get_mut(&key) else {
        return Ok(());
    };
    if image.goes_on(most, packet) {
        let fillers = image.fillers_before(most, packet);
        return image.go_on(fillers, packet);
    }
    images.remove(&key);
    Ok(())
}

/// Does with the open images what the packet's flags say.
fn take(
    alloc: Global,
    most: u16,
    images: &mut OpenImages,
    packet: &GoodPacket,
) -> Result<(), NoMemory>
    requires { most ≤ most_fillers }
    ensures { OnOk result (SetsKey images.old.entries images.new.entries (good packet.now)
        (next_image most (kept_of_key images.old.entries packet.now.vc packet.now.apid) (good packet.now))) }
{
    if packet.flags == 1 {
        return open(alloc, most, images, packet);
    }
    if packet.flags == 0 {
        return go_on(most, images, packet);
    }
    images.remove(&(packet.vc, packet.apid));
    Ok(())
}

/// Where packets of images are missing, among the good packets of all channels and applications.
///
/// Of each channel and application it keeps at most one open image, and of that the body of its last packet. After
/// `NoMemory` it is spent, and every later call of `push` answers `NoMemory`.
#[derive(Drop)]
pub struct Mender {
    alloc: Global,
    most: u16,
    images: OpenImages,
    spent: bool,
}

impl Model for Mender {
    ghost use Rattle.std.specs.Prelude.{◌≤◌};
    ghost use Rattle.lr_mend.specs.Mending.{most_fillers};
    ghost use Rattle.lr_mend.specs.Standing.{KeptImages};

    ghost Value = { KeptImages };

    ghost view = { λ m. record { spent = m.spent; most = m.most; images = m.images.entries } };

    ghost invariant = { λ m. m.most ≤ most_fillers };
}

impl Mender {
    /// No packets yet, and images with at most this many fillers each; 0 mends nothing. This takes no memory.
    pub fn new(alloc: Global, most: u16) -> Self
        requires { most ≤ most_fillers }
        ensures stands { MenderStandsFor result [] }
        ensures most { result.most ≡ most }
    {
        Mender {
            alloc,
            most,
            images: BTreeMap::new(alloc),
            spent: false,
        }
    }

    /// Whether an image may have fillers at all.
    pub(crate) fn mends(&self) -> bool
        ensures { result ≡ nat_lt 0 self.now.most }
    {
        self.most > 0
    }

    /// The fillers that come before this packet, the next one of the packets for which the object stands. This takes no
    /// memory.
    pub fn gap_before<'a, 'b: 'a>(&'a self, packet: &GoodPacket<'b>) -> Gap<'a>
        ensures { result ≡ gap_of self.now.most (kept_of_key self.now.images packet.now.vc packet.now.apid)
            (good packet.now) }
    {
        let Some(image) = self.images.get(&(packet.vc, packet.apid)) else {
            return Gap::empty(packet);
        };
        image.gap_before(self.most, packet)
    }

    /// Takes the packet, the next one of those for which the object stands.
    ///
    /// `NoMemory`: memory was wanting in this call or in an earlier one.
    pub fn push(&mut self, packet: &GoodPacket) -> Result<(), NoMemory>
        ensures stands { (packets : List Good) → MenderStandsFor self.old packets →
            OnOk result (MenderStandsFor self.new (packets ++ good packet.now ∷ [])) }
        ensures most { self.new.most ≡ self.old.most }
        ensures spends { OnErr result (IsMenderSpent self.new) }
        ensures stays_spent { IsMenderSpent self.old → IsErr result × IsMenderSpent self.new }
    {
        if self.spent {
            return Err(NoMemory);
        }
        let result = take(self.alloc, self.most, &mut self.images, packet);
        self.spent = result.is_err();
        result
    }
}
