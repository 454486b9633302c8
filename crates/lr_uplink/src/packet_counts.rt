//! How many packets each channel and application has sent.

ghost use Rattle.std.specs.Prelude.{◌≡◌, ◌+◌, ◌%◌, ◌^◌, ◌<◌, unwrap_or, OnOk, OnErr, []};
ghost use Rattle.lr_file.specs.Standing.{AreAscending, kept_of_key};
ghost use Rattle.lr_uplink.specs.Pieces.{SetsCount};

use lr_bits::NoMemory;
use std::alloc::Global;
use std::collections::BTreeMap;
use std::marker::Model;

/// The numbers of packets by channels and applications, modulo 2^16.
#[derive(Drop)]
pub struct PacketCounts {
    counts: BTreeMap<(u8, u16), u16>,
}

impl Model for PacketCounts {
    ghost use Rattle.std.specs.Prelude.{List, ℕ};

    ghost Value = { List ((ℕ × ℕ) × ℕ) };

    ghost view = { λ c. c.counts.entries };
}

impl PacketCounts {
    /// No packets. This takes no memory.
    pub(crate) fn new(alloc: Global) -> PacketCounts
        ensures none { result ≡ [] }
        ensures once { AreAscending result }
    {
        PacketCounts {
            counts: BTreeMap::new(alloc),
        }
    }

    /// How many packets a channel and application has sent.
    pub(crate) fn count_of(&self, vc: u8, apid: u16) -> u16
        ensures { result ≡ unwrap_or (kept_of_key self.now vc apid) 0 }
    {
        self.counts.get(&(vc, apid)).copied().unwrap_or(0)
    }

    /// Sets how many packets it has sent.
    pub(crate) fn set_count(&mut self, vc: u8, apid: u16, count: u16) -> Result<(), NoMemory>
        ensures ok { AreAscending self.old → OnOk result (SetsCount self.old self.new vc apid count) }
        ensures refused { OnErr result (self.new ≡ self.old) }
    {
        self.counts.insert((vc, apid), count)?;
        Ok(())
    }
}
