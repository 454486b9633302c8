//! Laws of nearest paths that agree with pins.

ghost use Rattle.std.specs.Prelude.{◌≡◌, List, Bool, Option, None, ℕ, ℤ, length, replicate};
ghost use Rattle.lr_conv.specs.declared.line.LineCode.{LineCode};
ghost use Rattle.lr_trellis.specs.Path.{IsNearestPath, nearest_path};
ghost use Rattle.lr_pinned.specs.Pinned.{Agrees, IsPinnedPath, pinned_path};

/// That some list of bits agrees with any pins.
pub fn some_path_agrees()
    ensures { (pins : List (Option Bool)) → (x : List Bool) × (length x ≡ length pins) × Agrees pins x }
{}

/// That a window has for these pins at most one nearest path that agrees. `nearest_pinned` says that there is one.
pub fn one_pinned_path()
    ensures { (line : LineCode) (pins : List (Option Bool)) (window : List ℤ) (x y : List Bool) →
        IsPinnedPath line pins window x → IsPinnedPath line pins window y → x ≡ y }
{}

/// That where no bit is known it is the nearest path.
pub fn without_pins()
    ensures nearest { (line : LineCode) (n : ℕ) (window : List ℤ) (x : List Bool) →
        IsPinnedPath line (replicate n None) window x → IsNearestPath line window x }
    ensures pinned { (line : LineCode) (n : ℕ) (window : List ℤ) (x : List Bool) →
        IsNearestPath line window x → IsPinnedPath line (replicate n None) window x }
    ensures named { (line : LineCode) (n : ℕ) (window : List ℤ) →
        pinned_path line (replicate n None) window ≡ nearest_path line window }
{}
