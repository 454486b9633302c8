//! Which downlink each file came from.
ghost use Rattle.std.specs.Prelude.{◌≡◌, ◌<◌, ◌++◌, ◌∷◌, [], List, ℕ, OnOk, OnErr, ◌^◌};
ghost use Rattle.lr_downlinks.specs.Merge.{times_in_order};

use crate::sizes::MOST_DOWNLINKS;
use lr_bits::{Bytes, NoMemory};
use std::alloc::Global;
use std::marker::Model;

/// The downlink of each file that was appended, and how often each downlink came. Contracts see it as the list of the
/// downlinks.
#[derive(Drop)]
pub(crate) struct Order {
    /// The downlinks, a byte each.
    downlinks: Bytes,
    /// How often each came, so that the list needn't be looked through for each file.
    counts: [usize; MOST_DOWNLINKS],
}

impl Model for Order {
    ghost use Rattle.std.specs.Prelude.{ℕ, List};
    ghost use Rattle.lr_downlinks.specs.Counting.{AreCounts};

    ghost Value = { List ℕ };

    ghost view = { λ o. o.downlinks };

    ghost invariant = { λ o. AreCounts o.counts o.downlinks };
}

impl Order {
    /// No downlink. This takes no memory.
    pub(crate) fn new(alloc: Global) -> Order
        ensures { result ≡ [] }
    {
        Order {
            downlinks: Bytes::new(alloc),
            counts: [0; MOST_DOWNLINKS],
        }
    }

    /// How often a downlink came.
    pub(crate) fn count(&self, downlink: u8) -> usize
        requires { downlink < MOST_DOWNLINKS }
        ensures { result ≡ times_in_order downlink self.now }
    {
        self.counts[downlink as usize]
    }

    /// Appends a downlink. Where memory is refused, nothing is changed.
    pub(crate) fn push(&mut self, downlink: u8) -> Result<(), NoMemory>
        requires known { downlink < MOST_DOWNLINKS }
        requires few { times_in_order downlink self.old < 2 ^ 63 }
        ensures ok { OnOk result (self.new ≡ self.old ++ downlink ∷ []) }
        ensures err { OnErr result (self.new ≡ self.old) }
    {
        self.downlinks.extend(&[downlink])?;
        self.counts[downlink as usize] += 1;
        Ok(())
    }

    /// Takes away the last downlink, which is this one.
    pub(crate) fn take_back(&mut self, downlink: u8)
        requires known { downlink < MOST_DOWNLINKS }
        requires last { (before : List ℕ) × (self.old ≡ before ++ downlink ∷ []) }
        ensures { (before : List ℕ) → self.old ≡ before ++ downlink ∷ [] → self.new ≡ before }
    {
        let last = self.downlinks.as_slice().len() - 1;
        self.downlinks.truncate(last);
        self.counts[downlink as usize] -= 1;
    }

    /// The downlinks alone.
    pub(crate) fn into_bytes(self) -> Bytes
        ensures { result ≡ self }
    {
        self.downlinks
    }
}
