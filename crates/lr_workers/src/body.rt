//! What the caller's thread does beside the workers.

use lr_gate::{Conductor, Gate};
use lr_gatecore::Work;

/// What a body hands back.
#[derive(Drop)]
pub struct Conducted<W: Work, B: Body<W>> {
    /// The body.
    pub body: B,
    /// The conductor that it was given.
    pub conductor: Conductor<W>,
    /// The work of the caller's thread.
    pub own: W,
    /// What the body answers.
    pub answer: B::Answer,
}

/// What the caller's thread does while the workers work. A body that waits keeps the `rt` that it needs in a field.
pub trait Body<W: Work>: Sized {
    /// What it answers.
    type Answer;

    ghost use Rattle.std.specs.Prelude.{◌≡◌, false};
    ghost use Rattle.lr_gate.specs.declared.gate.Conductor.{Conductor};
    ghost use Rattle.lr_gate.specs.Seats.{IsConductorOf, view_of};
    ghost use Rattle.lr_workers.specs.declared.body.Conducted.{Conducted};

    /// The body may conduct with this conductor.
    ghost needs: { Self → Conductor W W.Job W.Done → Type 0 };

    /// How the body and the conductor that go in are related to all that is handed back.
    ghost conducts: { Self → Conductor W W.Job W.Done → Conducted W Self W.Job W.Done Self.Answer → Type 0 };

    /// Puts the jobs and takes the results, and hands the body, the work and an answer back. It doesn't stop the gate.
    fn conduct(
        self,
        gate: &Gate<W>,
        conductor: &mut Conductor<W>,
        own: W,
    ) -> (Self, W, Self::Answer)
        requires mine { IsConductorOf gate.now conductor.old }
        requires running { (view_of conductor.old).stopped ≡ false }
        requires needs { needs self conductor.old }
        ensures mine { IsConductorOf gate.now conductor.new }
        ensures running { (view_of conductor.new).stopped ≡ false }
        ensures conducts { conducts self conductor.old
            (record { body = result.0; conductor = conductor.new; own = result.1; answer = result.2 }) };
}
