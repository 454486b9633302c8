//! The conductor's calls.

ghost use Rattle.std.specs.Prelude.{◌≡◌, ◌↔◌, ◌+◌, ◌^◌, ◌<◌, ◌≤◌, false, [], OnOk, IfErr, IsErr, IfSome, IfNone};
ghost use Rattle.std.specs.Prelude.{IsNone, IsTrue};
ghost use Rattle.lr_gate.specs.Steps.{after_put, after_stop, after_split, new_view};
ghost use Rattle.lr_gate.specs.Calls.{IsWorker};
ghost use Rattle.lr_gate.specs.Seats.{cells_of, workers_of, IsConductorOf, IsConductorWith, view_of, jobs_put};
ghost use Rattle.lr_gate.specs.Seats.{waiting_count, TakesNothing, TakesOldest, Helps, SomeUnfinished, OldestWaits};

use crate::gate::{Conductor, Gate, RingFull, WorkerSeat};
use crate::plays::{Grabs, Puts, SplitsOff, Stops, TakesOut};
use crate::round::go_round;
use crate::slot_value::SlotValue;
use lr_gatecore::{MOST_JOBS, WORD_BASE, Work};

impl<W: Work> Conductor<W> {
    /// Puts the next job. Where each cell has a job that wasn't taken, it comes back.
    pub fn put(&mut self, gate: &Gate<W>, job: W::Job) -> Result<(), RingFull<W::Job>>
        requires mine { IsConductorOf gate.now self.old }
        requires running { (view_of self.old).stopped ≡ false }
        requires few { jobs_put (view_of self.old) < MOST_JOBS }
        ensures mine { IsConductorOf gate.now self.new }
        ensures put { OnOk result (view_of self.new ≡ after_put (view_of self.old) job) }
        ensures full { IsErr result ↔ (waiting_count (view_of self.old) ≡ cells_of gate.now) }
        ensures back { IfErr result (λ e. (e.0 ≡ job) × (view_of self.new ≡ view_of self.old)) }
    {
        if self.put - self.taken >= gate.cells {
            return Err(RingFull(job));
        }
        let cell = (self.put % gate.cells) as usize;
        let shared = &gate.table.shared;
        let _empty = shared.exchange(&mut self.seat, cell, SlotValue::Given(job));
        shared.store::<Puts>(&mut self.seat, cell + 1, self.put * WORD_BASE + 1);
        self.put += 1;
        Ok(())
    }

    /// Takes the result of the oldest job, if it is done.
    pub fn take(&mut self, gate: &Gate<W>) -> Option<W::Done>
        requires mine { IsConductorOf gate.now self.old }
        ensures mine { IsConductorOf gate.now self.new }
        ensures none { IfNone result (TakesNothing (cells_of gate.now) (view_of self.old) (view_of self.new)) }
        ensures some { IfSome result (λ done.
            TakesOldest W.gives (cells_of gate.now) (view_of self.old) (view_of self.new) done) }
        ensures alone { workers_of gate.now ≡ 0 → (IsNone result ↔ OldestWaits (view_of self.old)) }
    {
        if self.taken == self.put {
            return None;
        }
        let cell = (self.taken % gate.cells) as usize;
        let shared = &gate.table.shared;
        let word = shared.load::<Grabs<W>>(&mut self.seat, cell + 1);
        if word % 4 != 2 {
            return None;
        }
        let slot_value = shared.exchange(&mut self.seat, cell, SlotValue::Empty);
        shared.store::<TakesOut>(&mut self.seat, cell + 1, 0);
        self.seat.turn();
        self.taken += 1;
        match slot_value {
            SlotValue::Made(done) => Some(done),
            _ => unreachable!(),
        }
    }

    /// Does one job, the oldest one first, if some cell is ready. The answer is whether it did.
    pub fn help(&mut self, gate: &Gate<W>, work: &mut W) -> bool
        requires mine { IsConductorOf gate.now self.old }
        ensures mine { IsConductorOf gate.now self.new }
        ensures helps { Helps (cells_of gate.now) (view_of self.old) (view_of self.new) result }
        ensures alone { workers_of gate.now ≡ 0 → (IsTrue result ↔ SomeUnfinished (view_of self.old)) }
    {
        let mut oldest = (self.taken % gate.cells) as usize;
        go_round(gate, &mut self.seat, 0, &mut oldest, work)
    }

    /// Stops the workers. No job is put after it.
    pub fn stop(&mut self, gate: &Gate<W>)
        requires mine { IsConductorOf gate.now self.old }
        requires running { (view_of self.old).stopped ≡ false }
        ensures mine { IsConductorOf gate.now self.new }
        ensures stopped { view_of self.new ≡ after_stop (view_of self.old) }
    {
        gate.table.shared.store::<Stops>(&mut self.seat, 0, 1);
    }

    /// The seat of one more worker.
    pub(crate) fn split(&mut self, gate: &Gate<W>, number: u64) -> WorkerSeat<W>
        requires mine { IsConductorWith gate.now (view_of self.old).split_off self.old }
        requires number { (number ≡ (view_of self.old).split_off + 1) × (number ≤ workers_of gate.now) }
        ensures mine { IsConductorWith gate.now (view_of self.new).split_off self.new }
        ensures view { view_of self.new ≡ after_split (view_of self.old) }
        ensures worker { IsWorker gate.now.table.shared.table_id result.seat result.number }
        ensures new { result.seat.me ≡ (new_view number, []) }
    {
        let seat = gate.table.shared.split_seat::<SplitsOff>(&mut self.seat);
        WorkerSeat {
            seat,
            number,
            start: 0,
        }
    }
}
