//! Laws of arrivals.
ghost use Rattle.std.specs.Prelude.{◌≡◌, ℕ, List, All};
ghost use Rattle.lr_reading.specs.Arrivals.{arrivals_of, outcomes_of_arrivals, HasWholeFrame};
ghost use Rattle.lr_reading.specs.Inputs.{outcomes_of_bytes};
ghost use Rattle.lr_reading.specs.declared.arrival.Arrival.{Arrival};
ghost use Rattle.lr_forms.specs.declared.forms.Input.{Input};

/// That the outcomes of the bytes are those of what comes of them.
pub fn outcomes_are_of_arrivals()
    ensures { (input : Input) (bytes : List ℕ)
        → outcomes_of_bytes input bytes ≡ outcomes_of_arrivals (arrivals_of input bytes) }
{}

/// That each frame that was restored is whole.
pub fn arrivals_are_whole()
    ensures { (input : Input) (bytes : List ℕ)
        → All (λ (arrival : Arrival). HasWholeFrame arrival.outcome) (arrivals_of input bytes) }
{}
