//! Laws of frames and windows.

ghost use Rattle.std.specs.Prelude.{◌≡◌, ◌≤◌, ◌+◌, ◌++◌, ℕ, ℤ, Bool, List, None, length, map, false};
ghost use Rattle.lr_conv.specs.declared.passes.Passes.{Passes};
ghost use Rattle.lr_lock.specs.Frames.{AreFrames, AreNext};
ghost use Rattle.lr_lock.specs.FramesOf.{frames_of};
ghost use Rattle.lr_lock.specs.Standing.{LockState, LockStandsFor};
ghost use Rattle.lr_lock.specs.Windows.{window_of, window_view};
ghost use Rattle.lr_lock.specs.declared.frame.Frame.{Frame};

use crate::sizes::WINDOW_END;
use lr_conv::TAIL_SYMBOLS;

/// That symbols have one list of frames, which `frames_of` names, whatever a marker's tail is.
pub fn frames_are_one()
    ensures there { (tail : List Bool) (symbols : List ℤ) → length tail ≡ TAIL_SYMBOLS →
        AreFrames tail symbols (frames_of tail symbols) }
    ensures only { (tail : List Bool) (symbols : List ℤ) (frames : List Frame) → length tail ≡ TAIL_SYMBOLS →
        AreFrames tail symbols frames → frames ≡ frames_of tail symbols }
{}

/// That frames which were found one after another are a prefix of all frames.
pub fn given_are_prefix()
    ensures { (tail : List Bool) (symbols : List ℤ) (given : List Frame) → length tail ≡ TAIL_SYMBOLS →
        AreNext tail symbols None given → (rest : List Frame) × (frames_of tail symbols ≡ given ++ rest) }
{}

/// That the frames of a prefix of the symbols are a prefix of the frames.
pub fn prefix_stays()
    ensures { (tail : List Bool) (symbols more : List ℤ) → length tail ≡ TAIL_SYMBOLS →
        (rest : List Frame) × (frames_of tail (symbols ++ more) ≡ frames_of tail symbols ++ rest) }
{}

/// That the window of a place is the same in each longer list, where all its symbols are there.
pub fn window_stays()
    ensures { (symbols more : List ℤ) (place : ℕ) (positive : Bool) → place + WINDOW_END ≤ length symbols →
        window_of (symbols ++ more) place positive ≡ window_of symbols place positive }
{}

/// That the windows of the frames that a lock gave are the same whatever is fed after them.
pub fn given_windows_stay()
    ensures { (lock : LockState) (passes : Passes) (fed more : List ℤ) (given : List Frame) →
        LockStandsFor lock fed given → lock.finished ≡ false →
        map (window_view lock.line passes (fed ++ more)) given ≡ map (window_view lock.line passes fed) given }
{}
