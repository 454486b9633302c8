//! One round of leading jobs through a ring.
ghost use Rattle.std.specs.Prelude.{◌≡◌, ◌≢◌, ◌<◌, ◌≤◌, ◌⊎◌, false, true, IfOk, IfErr, OnOk};
ghost use Rattle.lr_gate.specs.Seats.{cells_of, workers_of, IsConductorOf, view_of};
ghost use Rattle.lr_rounds.specs.Rounds.{
  MayGoOn,
  Goes,
  RoundStops,
  KeepsNone,
  PutsNone,
  PutsOneOrNone,
  PutsAfterLooking,
  TakesOne,
  rounds_left,
  round_state,
};
ghost use Rattle.lr_rounds.specs.declared.round.Round.TheVariants.{Worked, Waits};

use crate::job_source::{JobSource, NextJob};
use lr_gate::{Conductor, Gate, RingFull};
use lr_gatecore::Work;

/// How many jobs are in the ring, and whether the job source said that it is over.
#[derive(Clone, Copy)]
pub(crate) struct Traffic {
    /// How many jobs were put and not taken.
    pub waiting: u32,
    pub over: bool,
}

/// What a round came to.
#[derive(Clone, Copy)]
pub(crate) enum Round {
    /// It did something.
    Worked,
    /// There is nothing to do until a worker has finished.
    Waits,
    /// All that came of the jobs was kept, and there are no more.
    Ended,
}

/// Lets the job source keep what came of the oldest job, if that is done. The answer is whether it was.
fn keep_oldest<W: Work, L: JobSource<W>>(
    gate: &Gate<W>,
    conductor: &mut Conductor<W>,
    source: &mut L,
    traffic: &mut Traffic,
) -> Result<bool, L::Cause>
    requires { (entry : L) × MayGoOn L.terms gate.now entry (round_state conductor.old traffic.old source.old) }
    ensures mine { IsConductorOf gate.now conductor.new }
    ensures running { (view_of conductor.new).stopped ≡ false }
    ensures goes { (entry : L) → MayGoOn L.terms gate.now entry (round_state conductor.old traffic.old source.old)
        → IfOk result (λ _. MayGoOn L.terms gate.now entry (round_state conductor.new traffic.new source.new)) }
    ensures stops { (entry : L) → MayGoOn L.terms gate.now entry (round_state conductor.old traffic.old source.old)
        → IfErr result (λ cause. RoundStops L.terms cause entry source.new) }
    ensures fewer { IfOk result (λ did. did ≡ true
        → rounds_left L.terms (round_state conductor.new traffic.new source.new)
        < rounds_left L.terms (round_state conductor.old traffic.old source.old)) }
    ensures one { IfOk result (λ did. did ≡ true → TakesOne (view_of conductor.old) (view_of conductor.new)) }
    ensures none { IfOk result (λ did. did ≡ false
        → KeepsNone gate.now (round_state conductor.old traffic.old source.old)
        (round_state conductor.new traffic.new source.new)) }
{
    let Some(done) = conductor.take(gate) else {
        return Ok(false);
    };
    source.keep(done)?;
    traffic.waiting -= 1;
    Ok(true)
}

/// Puts the next job, where the ring has room for it, or notes that there are no more. The answer is whether it did
/// either.
fn put_next<W: Work, L: JobSource<W>>(
    gate: &Gate<W>,
    conductor: &mut Conductor<W>,
    cells: u32,
    source: &mut L,
    traffic: &mut Traffic,
) -> Result<bool, L::Cause>
    requires going { (entry : L) × MayGoOn L.terms gate.now entry (round_state conductor.old traffic.old source.old) }
    requires cells { cells ≡ cells_of gate.now }
    requires some { 0 < cells }
    ensures mine { IsConductorOf gate.now conductor.new }
    ensures running { (view_of conductor.new).stopped ≡ false }
    ensures goes { (entry : L) → MayGoOn L.terms gate.now entry (round_state conductor.old traffic.old source.old)
        → IfOk result (λ _. MayGoOn L.terms gate.now entry (round_state conductor.new traffic.new source.new)) }
    ensures stops { (entry : L) → MayGoOn L.terms gate.now entry (round_state conductor.old traffic.old source.old)
        → IfErr result (λ cause. RoundStops L.terms cause entry source.new) }
    ensures fewer { IfOk result (λ did. did ≡ true
        → rounds_left L.terms (round_state conductor.new traffic.new source.new)
        < rounds_left L.terms (round_state conductor.old traffic.old source.old)) }
    ensures one { OnOk result (PutsOneOrNone (view_of conductor.old) (view_of conductor.new)) }
    ensures none { IfOk result (λ did. did ≡ false
        → PutsNone L.terms (round_state conductor.old traffic.old source.old)
        (round_state conductor.new traffic.new source.new)) }
{
    if traffic.over || traffic.waiting >= cells {
        return Ok(false);
    }
    match source.next()? {
        NextJob::Job(job) => {
            match conductor.put(gate, job) {
                Ok(()) => {}
                Err(RingFull(_)) => unreachable!(),
            }
            traffic.waiting += 1;
            Ok(true)
        }
        NextJob::NotYet => Ok(false),
        NextJob::Finished => {
            traffic.over = true;
            Ok(true)
        }
    }
}

/// Puts the next job after one was kept, if the job source gives it at once. So nobody waits for a job while all that
/// is done is kept.
fn refill<W: Work, L: JobSource<W>>(
    gate: &Gate<W>,
    conductor: &mut Conductor<W>,
    cells: u32,
    source: &mut L,
    traffic: &mut Traffic,
) -> Result<(), L::Cause>
    requires going { (entry : L) × MayGoOn L.terms gate.now entry (round_state conductor.old traffic.old source.old) }
    requires cells { cells ≡ cells_of gate.now }
    requires some { 0 < cells }
    ensures mine { IsConductorOf gate.now conductor.new }
    ensures running { (view_of conductor.new).stopped ≡ false }
    ensures goes { (entry : L) → MayGoOn L.terms gate.now entry (round_state conductor.old traffic.old source.old)
        → OnOk result (MayGoOn L.terms gate.now entry (round_state conductor.new traffic.new source.new)) }
    ensures stops { (entry : L) → MayGoOn L.terms gate.now entry (round_state conductor.old traffic.old source.old)
        → IfErr result (λ cause. RoundStops L.terms cause entry source.new) }
    ensures one { OnOk result (PutsOneOrNone (view_of conductor.old) (view_of conductor.new)) }
    ensures unasked { OnOk result ((L.terms.at_once source.old ≡ true) ⊎ (conductor.new ≡ conductor.old)) }
    ensures no_more { OnOk result (rounds_left L.terms (round_state conductor.new traffic.new source.new)
        ≤ rounds_left L.terms (round_state conductor.old traffic.old source.old)) }
{
    if !source.gives_at_once() {
        return Ok(());
    }
    put_next(gate, conductor, cells, source, traffic)?;
    Ok(())
}

/// Keeps what came of a job, and puts the next one if the job source gives it at once; or else puts a job, or else does
/// one, whichever can be done first. `cells` is how many cells the ring has.
pub(crate) fn next_round<W: Work, L: JobSource<W>>(
    gate: &Gate<W>,
    conductor: &mut Conductor<W>,
    own: &mut W,
    cells: u32,
    source: &mut L,
    traffic: &mut Traffic,
) -> Result<Round, L::Cause>
    requires going { (entry : L) × MayGoOn L.terms gate.now entry (round_state conductor.old traffic.old source.old) }
    requires cells { cells ≡ cells_of gate.now }
    requires some { 0 < cells }
    ensures mine { IsConductorOf gate.now conductor.new }
    ensures running { (view_of conductor.new).stopped ≡ false }
    ensures goes { (entry : L) → MayGoOn L.terms gate.now entry (round_state conductor.old traffic.old source.old)
        → IfOk result (λ round. Goes L.terms gate.now entry (round_state conductor.new traffic.new source.new) round) }
    ensures stops { (entry : L) → MayGoOn L.terms gate.now entry (round_state conductor.old traffic.old source.old)
        → IfErr result (λ cause. RoundStops L.terms cause entry source.new) }
    ensures fewer { IfOk result (λ round. round ≡ Worked
        → rounds_left L.terms (round_state conductor.new traffic.new source.new)
        < rounds_left L.terms (round_state conductor.old traffic.old source.old)) }
    ensures puts_last { OnOk result (PutsAfterLooking cells ((wanting : L) × (L.terms.at_once wanting ≡ true))
        (view_of conductor.old) (view_of conductor.new)) }
    ensures alone { workers_of gate.now ≡ 0 → IfOk result (λ round. round ≢ Waits) }
{
    if keep_oldest(gate, conductor, source, traffic)? {
        refill(gate, conductor, cells, source, traffic)?;
        return Ok(Round::Worked);
    }
    if put_next(gate, conductor, cells, source, traffic)? {
        return Ok(Round::Worked);
    }
    if conductor.help(gate, own) {
        return Ok(Round::Worked);
    }
    if traffic.over && traffic.waiting == 0 {
        return Ok(Round::Ended);
    }
    Ok(Round::Waits)
}
