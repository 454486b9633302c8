//! Who takes what a reader reads, arrival by arrival.

use crate::arrival::Arrival;

/// Takes what comes of the input, one arrival after another, whatever it comes from.
pub trait Consumer {
    ghost use Rattle.std.specs.Prelude.{◌≤◌, ◌+◌, ◌*◌, ℕ, List, [], ◌∷◌, ◌++◌, length, OnOk, IfErr};
    ghost use Rattle.lr_bits.specs.declared.sizes.TheConstants.{FRAME_BYTES as frame_bytes};
    ghost use Rattle.lr_reading.specs.Arrivals.{HasWholeFrame};
    ghost use Rattle.lr_reading.specs.declared.arrival.Arrival.{Arrival};

    /// Why it takes no more.
    type Cause: Drop;

    /// Of how many bytes its arrivals may come, of at least 892 each.
    ghost most: { ℕ };

    /// It was the first one, and became the second one by taking these arrivals, in order.
    ghost took: { Self → List Arrival → Self → Type 0 };

    /// It stopped for this cause at the last one of these arrivals, after it took the others.
    ghost stopped: { Self → List Arrival → Self.Cause → Self → Type 0 };

    /// Takes the next arrival.
    fn take(&mut self, arrival: &Arrival) -> Result<(), Self::Cause>
        requires whole { HasWholeFrame arrival.now.outcome }
        requires few { (c : Self) × (arrivals : List Arrival)
            × took c arrivals self.old × (frame_bytes * (length arrivals + 1) ≤ most) }
        ensures takes { (c : Self) (arrivals : List Arrival) → took c arrivals self.old
            → OnOk result (took c (arrivals ++ arrival.now ∷ []) self.new) }
        ensures stops { (c : Self) (arrivals : List Arrival) → took c arrivals self.old
            → IfErr result (λ cause. stopped c (arrivals ++ arrival.now ∷ []) cause self.new) };

    /// Why it takes no more where memory for reading on was refused.
    fn no_memory(&self) -> Self::Cause
        ensures { (c : Self) (arrivals : List Arrival) → took c arrivals self.now
            → stopped c arrivals result self.now };
}
