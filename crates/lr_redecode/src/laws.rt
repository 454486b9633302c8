//! Laws of redecoding.

ghost use Rattle.std.specs.Prelude.{◌≡◌, ◌+◌, ◌*◌, ◌<◌, ◌≤◌, ℕ, ℤ, Bool, List, Option, Some, length};
ghost use Rattle.lr_bits.specs.declared.outcome.Corrected.{Corrected};
ghost use Rattle.lr_bits.specs.declared.outcome.Outcome.TheVariants.{Restored};
ghost use Rattle.lr_bits.specs.declared.sizes.TheConstants.{BLOCK_BYTES, FRAME_BYTES};
ghost use Rattle.lr_block.specs.Blocks.{word_of};
ghost use Rattle.lr_block.specs.Outcomes.{outcome_of_block};
ghost use Rattle.lr_block.specs.Randomiser.{randomised_block};
ghost use Rattle.lr_conv.specs.declared.line.LineCode.{LineCode};
ghost use Rattle.lr_pinned.specs.Pinned.{Agrees};
ghost use Rattle.lr_rs.specs.Words.{IsWord};
ghost use Rattle.lr_trellis.specs.Path.{bytes_of_bits, nearest_path};
ghost use Rattle.lr_redecode.specs.Redecoded.{known_after, known_word, outcome_after, pins_of};

use lr_bits::{BLOCK_BYTES, FRAME_BYTES};

/// That one pass is the usual decoding: with nothing known, the path is the nearest one.
pub fn one_pass_is_plain()
    ensures { (line : LineCode) (window : List ℤ) →
        outcome_after line window 1 ≡ outcome_of_block (bytes_of_bits (nearest_path line window)) }
{}

/// That a frame which is restored after some passes has the same outcome after more, its numbers too; and that it is
/// whole.
pub fn restored_stays()
    ensures later { (line : LineCode) (window : List ℤ) (passes more : ℕ) (frame : List ℕ) (corrected : Corrected) →
        outcome_after line window passes ≡ Restored corrected frame → passes ≤ more →
        outcome_after line window more ≡ Restored corrected frame }
    ensures whole { (line : LineCode) (window : List ℤ) (passes : ℕ) (frame : List ℕ) (corrected : Corrected) →
        outcome_after line window passes ≡ Restored corrected frame → length frame ≡ FRAME_BYTES }
{}

/// That what is known stays, and that after four passes no further one changes anything.
pub fn known_stays()
    ensures kept { (line : LineCode) (window : List ℤ) (passes k : ℕ) (word : List ℕ) →
        known_word (known_after line window passes) k ≡ Some word →
        known_word (known_after line window (passes + 1)) k ≡ Some word }
    ensures fixed { (line : LineCode) (window : List ℤ) (passes : ℕ) → 4 ≤ passes →
        known_after line window passes ≡ known_after line window 4 }
{}

/// That a path agrees with what is known exactly where each known word is the word of its block, and that some path
/// always does.
pub fn known_is_agreed()
    ensures has { (known : List (Option (List ℕ))) (path : List Bool) (k : ℕ) (word : List ℕ) →
        length path ≡ 8 * BLOCK_BYTES → Agrees (pins_of known) path → k < 4 → known_word known k ≡ Some word →
        IsWord word → word_of (randomised_block (bytes_of_bits path)) k ≡ word }
    ensures agrees { (known : List (Option (List ℕ))) (path : List Bool) → length path ≡ 8 * BLOCK_BYTES →
        ((k : ℕ) (word : List ℕ) → k < 4 → known_word known k ≡ Some word →
        word_of (randomised_block (bytes_of_bits path)) k ≡ word) → Agrees (pins_of known) path }
    ensures some { (known : List (Option (List ℕ))) →
        (path : List Bool) × (length path ≡ 8 * BLOCK_BYTES) × Agrees (pins_of known) path }
{}
