//! A job source that gives numbers and looks whether they come back in order.
ghost use Rattle.std.specs.Prelude.{◌≤◌, ◌<◌};

use lr_gatecore::Work;
use lr_rounds::{JobSource, NextJob};

/// Why a roll stops: at this number, which it was to give or to keep.
#[derive(Clone, Copy, PartialEq)]
pub enum Refused {
    Give(u32),
    Keep(u32),
}

/// Gives the numbers below a limit, and keeps them as they come back.
#[derive(Drop)]
pub struct Roll {
    pub limit: u32,
    /// How many numbers may be given and not kept.
    pub at_once: u32,
    /// Whether the next number is put as soon as one is kept.
    pub is_eager: bool,
    /// The number that it refuses to give.
    pub never_given: u32,
    /// The number that it refuses to keep.
    pub never_kept: u32,
    pub given: u32,
    pub kept: u32,
    /// Whether each number came back in its turn.
    pub in_order: bool,
    ghost some: { 0 < at_once },
    ghost behind: { kept ≤ given },
    ghost within: { given ≤ limit },
}

impl<W: Work<Job = u32, Done = u32>> JobSource<W> for Roll {
    ghost use Rattle.std.specs.Prelude.{◌≡◌, ◌-◌, length};
    ghost use Rattle.lr_rounds.specs.JobSources.{SourceTerms};

    type Cause = Refused;

    ghost terms = { record {
      stands = λ led now. (now.given ≡ length led.jobs) × (now.kept ≡ led.kept);
      stopped = λ start cause now. Unit {0};
      is_over = λ now. now.given ≡ now.limit;
      left = λ now. now.limit - now.given;
      at_once = λ now. now.is_eager;
    } };

    fn next(&mut self) -> Result<NextJob<u32>, Refused> {
        if self.given == self.limit {
            return Ok(NextJob::Finished);
        }
        if self.given == self.never_given {
            return Err(Refused::Give(self.given));
        }
        if self.given - self.kept >= self.at_once {
            return Ok(NextJob::NotYet);
        }
        self.given += 1;
        Ok(NextJob::Job(self.given - 1))
    }

    fn gives_at_once(&self) -> bool {
        self.is_eager
    }

    fn keep(&mut self, done: u32) -> Result<(), Refused> {
        if done == self.never_kept {
            return Err(Refused::Keep(done));
        }
        self.in_order = self.in_order && done == self.kept;
        self.kept += 1;
        Ok(())
    }
}

impl Roll {
    ghost use Rattle.std.specs.Prelude.{◌≡◌};

    /// A roll of the numbers below this limit, of which at most `at_once` are under way. It refuses none.
    pub fn new(limit: u32, at_once: u32) -> Roll
        requires { 0 < at_once }
        ensures { (result.given ≡ 0) × (result.kept ≡ 0) }
    {
        Roll {
            limit,
            at_once,
            is_eager: false,
            never_given: limit,
            never_kept: limit,
            given: 0,
            kept: 0,
            in_order: true,
        }
    }

    /// Whether all numbers came back in their order.
    pub fn is_complete(&self) -> bool {
        self.in_order && self.kept == self.limit
    }
}
