//! A job source is led on one thread.
ghost use Rattle.std.specs.Prelude.{◌≡◌, IfOk, IfErr};
ghost use Rattle.lr_gate.specs.Seats.{workers_of};
ghost use Rattle.lr_rounds.specs.JobSources.{HasGivenNothing, EndsWell};
ghost use Rattle.lr_rounds.specs.Rounds.{MayRound};

use crate::job_source::JobSource;
use crate::round::{Round, Traffic, next_round};
use crate::worker_pool::WorkerPool;
use lr_gate::{Conductor, Gate};
use lr_gatecore::Work;

/// Makes rounds until all that came of the jobs was kept, and there are no more.
fn go_alone<W: Work, L: JobSource<W>>(
    gate: &Gate<W>,
    conductor: &mut Conductor<W>,
    own: &mut W,
    cells: u32,
    source: &mut L,
) -> Result<(), L::Cause>
    requires going { MayRound L.terms cells gate.now conductor.old source.old }
    requires alone { workers_of gate.now ≡ 0 }
    ensures all { (start : L) → HasGivenNothing L.terms start source.old
        → IfOk result (λ _. EndsWell L.terms start source.new) }
    ensures stopped { (start : L) → HasGivenNothing L.terms start source.old
        → IfErr result (λ cause. L.terms.stopped start cause source.new) }
{
    let mut traffic = Traffic {
        waiting: 0,
        over: false,
    };
    'rounds: loop {
        match next_round(gate, conductor, own, cells, source, &mut traffic)? {
            Round::Worked => {}
            Round::Waits => unreachable!(),
            Round::Ended => return Ok(()),
        }
    }
}

/// Leads on the caller's thread until the job source is over and has kept all that came of its jobs, or stops. It
/// returns for every job source.
pub fn drive_alone<W: Work + Drop, L: JobSource<W>>(
    pool: WorkerPool<W>,
    source: &mut L,
) -> Result<(), L::Cause>
    requires alone { pool.seats ≡ 0 }
    requires ready { (start : L) × HasGivenNothing L.terms start source.old }
    ensures all { (start : L) → HasGivenNothing L.terms start source.old
        → IfOk result (λ _. EndsWell L.terms start source.new) }
    ensures stopped { (start : L) → HasGivenNothing L.terms start source.old
        → IfErr result (λ cause. L.terms.stopped start cause source.new) }
{
    let WorkerPool {
        gate,
        mut conductor,
        seats: _seats,
        works: _works,
        mut own,
        cells,
    } = pool;
    go_alone(&gate, &mut conductor, &mut own, cells, source)
}
