//! References that are lent and come back.

ghost use Rattle.std.specs.Prelude.{◌≡◌};

/// Does nothing. This use of a reference that came back ties it to the one that was lent.
pub fn take_back<T>(it: &mut T)
    ensures { it.new ≡ it.old }
{}
