//! What comes next of an input.

use lr_forms::Stop;

/// What came of looking for the next unit.
#[derive(Clone, Copy)]
pub(crate) enum Next {
    /// It is whole.
    Whole,
    /// No more bytes are taken.
    Ended(Stop),
}

/// What came of looking for the next frame.
#[derive(Clone, Copy)]
pub(crate) enum Found {
    /// It is shown in the window.
    Whole,
    /// None so far: the lock searches, and windows are under way.
    Noise,
    /// No more bytes are taken.
    Ended(Stop),
}
