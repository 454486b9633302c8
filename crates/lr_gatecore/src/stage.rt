//! The stages of a job in its cell, and the stage that a word tells.

ghost use Rattle.std.specs.Prelude.{◌≡◌, ◌≢◌};
ghost use Rattle.std.specs.Bool.{OnTrue, OnFalse};

/// How far a job is.
#[derive(Clone, Copy)]
pub enum Stage {
    /// It was put, and no worker has claimed it.
    Ready,
    /// It is claimed by the worker with this number.
    Busy(u32),
    /// It is finished, and may be taken.
    Done,
}

impl Stage {
    /// Whether it is the same stage.
    pub(crate) fn is(self, other: Stage) -> bool
        ensures yes { OnTrue result (self ≡ other) }
        ensures no { OnFalse result (self ≢ other) }
    {
        match (self, other) {
            (Stage::Ready, Stage::Ready) | (Stage::Done, Stage::Done) => true,
            (Stage::Busy(worker), Stage::Busy(other)) => worker == other,
            (Stage::Ready, Stage::Busy(_) | Stage::Done)
            | (Stage::Busy(_), Stage::Ready | Stage::Done)
            | (Stage::Done, Stage::Ready | Stage::Busy(_)) => false,
        }
    }
}
