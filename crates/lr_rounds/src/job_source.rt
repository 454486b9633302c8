//! What gives the jobs of a ring and keeps what comes of them.

use lr_gatecore::Work;

/// What a job source has to give.
#[derive(Drop)]
pub enum NextJob<J> {
    /// The next job.
    Job(J),
    /// No job, until more is kept of what comes of those that were given.
    NotYet,
    /// No job, now or later.
    Finished,
}

/// Gives jobs for the work `W`, and keeps what comes of them, in the order in which it gave them. It may go from one
/// piece of work to the next: its jobs are one list. After an `Err` it isn't asked again.
pub trait JobSource<W: Work> {
    ghost use Rattle.std.specs.Prelude.{◌≡◌, ◌+◌, OnOk, IfOk, IfErr};
    ghost use Rattle.lr_rounds.specs.JobSources.{Led, SourceTerms, MayGive, Gives, MayKeep, IsDoneNext, Keeps};

    /// Why it stops before it is over.
    type Cause: Drop;

    /// On which terms it gives and keeps: how it stands after what was led, why it stops, when it is over, how many
    /// jobs are left, and whether it wants one put at once.
    ghost terms: { SourceTerms Self W.Job Self.Cause };

    /// The next job, if it has one.
    fn next(&mut self) -> Result<NextJob<W::Job>, Self::Cause>
        requires { MayGive terms self.old }
        ensures gives { (led : Led Self W.Job) → terms.stands led self.old
            → IfOk result (Gives terms led self.old self.new) }
        ensures stops { (led : Led Self W.Job) → terms.stands led self.old
            → IfErr result (λ cause. terms.stopped led.start cause self.new) };

    /// Whether a job is put as soon as one is kept. A job source that waits for something outside to give one doesn't
    /// want that: all that is done is kept first.
    fn gives_at_once(&self) -> bool
        ensures { result ≡ terms.at_once self.now };

    /// Keeps what came of the next job, the oldest one of which that wasn't kept.
    fn keep(&mut self, done: W::Done) -> Result<(), Self::Cause>
        requires { MayKeep terms W.gives done self.old }
        ensures keeps { (led : Led Self W.Job) → terms.stands led self.old
            → IsDoneNext W.gives led.jobs led.kept done → OnOk result (Keeps terms led self.old self.new) }
        ensures stops { (led : Led Self W.Job) → terms.stands led self.old
            → IsDoneNext W.gives led.jobs led.kept done
            → IfErr result (λ cause. terms.stopped led.start cause self.new) };
}
