//! Laws of outcomes.

ghost use Rattle.std.specs.Prelude.{◌≡◌, ◌++◌, ℕ, ℤ, None, List, length, map, false};
ghost use Rattle.lr_bits.specs.declared.outcome.Corrected.{Corrected};
ghost use Rattle.lr_bits.specs.declared.outcome.Outcome.{Outcome};
ghost use Rattle.lr_bits.specs.declared.outcome.Outcome.TheVariants.{Restored};
ghost use Rattle.lr_block.specs.Outcomes.{outcome_of_block};
ghost use Rattle.lr_conv.specs.Marker.{tail_of};
ghost use Rattle.lr_conv.specs.declared.line.LineCode.{LineCode};
ghost use Rattle.lr_conv.specs.declared.passes.Passes.{Passes};
ghost use Rattle.lr_conv.specs.declared.passes.Passes.TheVariants.{One};
ghost use Rattle.lr_lock.specs.Frames.{AreFrames, AreNext};
ghost use Rattle.lr_lock.specs.Standing.{LockState, LockStandsFor};
ghost use Rattle.lr_lock.specs.declared.frame.Frame.{Frame};
ghost use Rattle.lr_frame.specs.Outcomes.{outcome_of_window, outcomes_of_symbols};
ghost use Rattle.lr_frame.specs.Outcomes.{redecoded_in, redecoded_outcome, redecoded_outcomes};

use lr_bits::FRAME_BYTES;

/// That a restored frame has 892 bytes.
pub fn restored_frames_are_whole()
    ensures blocks { (block frame : List ℕ) (corrected : Corrected) →
        Restored corrected frame ≡ outcome_of_block block → length frame ≡ FRAME_BYTES }
    ensures windows { (line : LineCode) (window : List ℤ) (frame : List ℕ) (corrected : Corrected) →
        Restored corrected frame ≡ outcome_of_window line window → length frame ≡ FRAME_BYTES }
    ensures redecoded { (line : LineCode) (passes : Passes) (window : List ℤ) (frame : List ℕ)
        (corrected : Corrected) →
        Restored corrected frame ≡ redecoded_outcome line passes window → length frame ≡ FRAME_BYTES }
{}

/// That the outcomes of the frames that a lock gave are the first of all outcomes, and all of them where it ended; and
/// that until it is finished they stay the same, whatever is fed after them.
pub fn given_outcomes_stay()
    ensures first { (line : LineCode) (passes : Passes) (symbols : List ℤ) (given : List Frame) →
        AreNext (tail_of line) symbols None given →
        (rest : List Outcome) ×
        (redecoded_outcomes line passes symbols ≡ map (redecoded_in line passes symbols) given ++ rest) }
    ensures all { (line : LineCode) (passes : Passes) (symbols : List ℤ) (given : List Frame) →
        AreFrames (tail_of line) symbols given →
        redecoded_outcomes line passes symbols ≡ map (redecoded_in line passes symbols) given }
    ensures later { (lock : LockState) (passes : Passes) (fed more : List ℤ) (given : List Frame) →
        LockStandsFor lock fed given → lock.finished ≡ false →
        map (redecoded_in lock.line passes (fed ++ more)) given ≡ map (redecoded_in lock.line passes fed) given }
{}

/// That one pass is the usual decoding.
pub fn one_pass_is_plain()
    ensures windows { (line : LineCode) (window : List ℤ) →
        redecoded_outcome line One window ≡ outcome_of_window line window }
    ensures symbols { (line : LineCode) (symbols : List ℤ) →
        redecoded_outcomes line One symbols ≡ outcomes_of_symbols line symbols }
{}

/// That a frame which is restored in one pass has the same outcome after more.
pub fn restored_outcomes_stay()
    ensures { (line : LineCode) (passes : Passes) (window : List ℤ) (frame : List ℕ) (corrected : Corrected) →
        outcome_of_window line window ≡ Restored corrected frame →
        redecoded_outcome line passes window ≡ Restored corrected frame }
{}
