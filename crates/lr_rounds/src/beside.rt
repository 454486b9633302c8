//! A job source is led with workers beside the caller.
ghost use Rattle.std.specs.Prelude.{◌≡◌, IfOk, IfErr};
ghost use Rattle.lr_rounds.specs.JobSources.{HasGivenNothing, EndsWell, IsDriveFault};
ghost use Rattle.lr_rounds.specs.Rounds.{IsRunning, MayRound, HasRounded};

use crate::alone::drive_alone;
use crate::drive_fault::DriveFault;
use crate::job_source::JobSource;
use crate::round::{Round, Traffic, next_round};
use crate::worker_pool::WorkerPool;
use lr_bits::take_back;
use lr_gate::{Conductor, Gate};
use lr_gatecore::Work;
use lr_workers::{Body, Conducted, Pooled, Refused, with_pool};
use std::sync::Wait;
use std::thread;
use std::thread::Threads;

/// Makes rounds until all that came of the jobs was kept and there are no more, however long the workers take.
fn go_on<R: Wait, W: Work, L: JobSource<W>>(
    rt: &R,
    gate: &Gate<W>,
    conductor: &mut Conductor<W>,
    own: &mut W,
    cells: u32,
    source: &mut L,
) -> Result<(), L::Cause>
    requires { MayRound L.terms cells gate.now conductor.old source.old }
    ensures running { IsRunning gate.now conductor.new }
    ensures rounds { HasRounded L.terms result source.old source.new }
{
    let mut traffic = Traffic {
        waiting: 0,
        over: false,
    };
    for _ in rt.forever() {
        match next_round(gate, conductor, own, cells, source, &mut traffic)? {
            Round::Worked => {}
            Round::Waits => thread::yield_now(),
            Round::Ended => return Ok(()),
        }
    }
    unreachable!()
}

/// What the caller does while the workers work: it makes rounds by this call. The method below can't call `go_on`
/// itself, since for a work that is a type parameter it lacks the proof that jobs may go to other threads. A closure
/// has that proof from the function around it.
#[derive(Drop)]
struct Conducting<'l, L, F> {
    source: &'l mut L,
    make_rounds: F,
}

impl<'l, W: Work, L: JobSource<W>, F> Body<W> for Conducting<'l, L, F>
where
    F: Fn(&mut Conductor<W>, &mut W, &mut L) -> Result<(), L::Cause>,
{
    type Answer = Result<(), L::Cause>;

    ghost use Rattle.std.specs.Prelude.{◌≡◌, IfOk, IfErr};
    ghost use Rattle.lr_rounds.specs.JobSources.{HasGivenNothing, EndsWell};
    ghost use Rattle.lr_rounds.specs.Rounds.{MayConduct};

    ghost needs = { λ body conductor. MayConduct L.terms conductor body.source.now
        (F.pre body.make_rounds) (F.post body.make_rounds) };

    ghost conducts = { λ body before after. record {
      same : after.body.source.ghost_name ≡ body.source.ghost_name;
      all : (start : L) → HasGivenNothing L.terms start body.source.now
          → IfOk after.answer (λ _. EndsWell L.terms start after.body.source.now);
      stopped : (start : L) → HasGivenNothing L.terms start body.source.now
          → IfErr after.answer (λ cause. L.terms.stopped start cause after.body.source.now);
    } };

    /// Makes rounds until the job source is over, or stops.
    fn conduct(
        self,
        _gate: &Gate<W>,
        conductor: &mut Conductor<W>,
        mut own: W,
    ) -> (Self, W, Result<(), L::Cause>) {
        let Conducting {
            source,
            make_rounds,
        } = self;
        let answer = make_rounds(conductor, &mut own, source);
        (
            Conducting {
                source,
                make_rounds,
            },
            own,
            answer,
        )
    }
}

/// Does what `drive_alone` does, with a thread for each seat of the pool.
pub fn drive_beside<R: Threads + Wait + Sync, W: Work + Send + Drop, L: JobSource<W>>(
    rt: &R,
    pool: WorkerPool<W>,
    source: &mut L,
) -> Result<(), DriveFault<L::Cause>>
    requires { (start : L) × HasGivenNothing L.terms start source.old }
    ensures all { (start : L) → HasGivenNothing L.terms start source.old
        → IfOk result (λ _. EndsWell L.terms start source.new) }
    ensures undriven { (start : L) → HasGivenNothing L.terms start source.old
        → IfErr result (λ why. IsDriveFault L.terms why start source.old source.new) }
{
    let WorkerPool {
        gate,
        conductor,
        seats,
        works,
        own,
        cells,
    } = pool;
    let ring = &gate;
    let body = Conducting {
        source,
        make_rounds: |conductor: &mut Conductor<W>, own: &mut W, source: &mut L| -> Result<
            (),
            L::Cause,
        >
            requires { MayRound L.terms cells ring.now conductor.old source.old }
            ensures { IsRunning ring.entry.now conductor.new × HasRounded L.terms result source.old source.new }
        { go_on(rt, ring, conductor, own, cells, source) },
    };
    match with_pool(rt, ring, conductor, seats, works, own, body) {
        Ok(pooled) => {
            let Pooled {
                conducted,
                seats: _seats,
                works: _works,
            } = pooled;
            let Conducted {
                body,
                conductor: _conductor,
                own: _own,
                answer,
            } = conducted;
            let Conducting {
                source,
                make_rounds: _make_rounds,
            } = body;
            take_back(source);
            match answer {
                Ok(()) => Ok(()),
                Err(cause) => Err(DriveFault::Stopped(cause)),
            }
        }
        Err(refused) => {
            let Refused {
                conductor: _conductor,
                seats: _seats,
                works: _works,
                own: _own,
                body,
            } = refused;
            let Conducting {
                source,
                make_rounds: _make_rounds,
            } = body;
            take_back(source);
            Err(DriveFault::NoMemory)
        }
    }
}

/// Does what `drive_beside` does, by all of the pool. Where there is no seat, no thread is started.
pub fn drive<R: Threads + Wait + Sync, W: Work + Send + Drop, L: JobSource<W>>(
    rt: &R,
    pool: WorkerPool<W>,
    source: &mut L,
) -> Result<(), DriveFault<L::Cause>>
    requires { (start : L) × HasGivenNothing L.terms start source.old }
    ensures all { (start : L) → HasGivenNothing L.terms start source.old
        → IfOk result (λ _. EndsWell L.terms start source.new) }
    ensures undriven { (start : L) → HasGivenNothing L.terms start source.old
        → IfErr result (λ why. IsDriveFault L.terms why start source.old source.new) }
{
    if !pool.is_alone() {
        return drive_beside(rt, pool, source);
    }
    drive_alone(pool, source).map_err(DriveFault::Stopped)
}
