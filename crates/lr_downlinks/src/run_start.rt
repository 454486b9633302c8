//! What the type of a book names.
use std::marker::Brand;

/// What a run began with. The type of a book has a parameter of this kind, so what a book keeps can speak of it, also
/// where the book comes out of a lock. The one call that makes a book picks it.
pub trait RunStart<D> {
    ghost use Rattle.lr_shelf.specs.declared.shelf.Shelf.{Shelf};
    ghost use Rattle.lr_downlinks.specs.Start.{Start};

    /// The streams, their line code, the disk that was lent, and the way of the shelf.
    ghost start: { Start };

    /// Whether these are the shelf and the disk that were handed in.
    ghost handed: { Shelf → D → Type 0 };
}

/// These members are stand-ins: they say nothing. The call that makes a book picks others in their place.
impl<D> RunStart<D> for Brand {
    ghost use Rattle.lr_downlinks.specs.Start.{no_start};

    ghost start = { no_start };

    ghost handed = { λ _ _. Unit {0} };
}
