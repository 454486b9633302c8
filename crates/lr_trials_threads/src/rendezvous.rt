//! A pool of two workers, of which one waits for the other.
#![tactic(auto)]

ghost use Rattle.std.specs.Prelude.{◌≡◌};
ghost use Rattle.lr_gate.specs.Seats.{IsConductorOf, view_of};

use lr_bits::NoMemory;
use lr_gate::{Conductor, Gate};
use lr_gatecore::Work;
use lr_workers::{Body, Conducted, Pooled, with_pool};
use std::alloc::Global;
use std::sync::atomic::AtomicBool;
use std::sync::atomic::Ordering::SeqCst;
use std::sync::{Arc, Wait};
use std::test::Fail;
use std::thread;
use std::thread::Threads;

/// How often job 0 looks for job 1: beside other programs that may take its time.
const LOOKS: u32 = 100_000_000;

/// Hands jobs back as they are. Job 0 waits until job 1 has begun, and the work notes it where that takes too long.
#[derive(Drop)]
struct Meeting {
    met: Arc<AtomicBool, Global>,
    too_late: bool,
}

impl Meeting {
    fn wait(&mut self) {
        for _ in 0..LOOKS {
            if self.met.load(SeqCst) {
                return;
            }
            thread::yield_now();
        }
        self.too_late = true;
    }
}

impl Work for Meeting {
    type Job = u64;

    type Done = u64;

    ghost gives = { λ job. job };

    fn run(&mut self, job: u64) -> u64 {
        if job == 0 {
            self.wait();
        } else {
            self.met.store(true, SeqCst);
        }
        job
    }
}

/// Takes the next result, however long it takes.
fn result_of<R: Wait, W: Work>(rt: &R, gate: &Gate<W>, conductor: &mut Conductor<W>) -> W::Done
    requires { IsConductorOf gate.now conductor.old }
    ensures mine { IsConductorOf gate.now conductor.new }
    ensures running { (view_of conductor.new).stopped ≡ (view_of conductor.old).stopped }
{
    for _ in rt.forever() {
        if let Some(done) = conductor.take(gate) {
            return done;
        }
        thread::yield_now();
    }
    unreachable!()
}

/// Puts the jobs 0 and 1, and takes two results. It doesn't help.
#[derive(Drop)]
struct Pair<'r, R> {
    rt: &'r R,
}

impl<'r, R: Wait> Body<Meeting> for Pair<'r, R> {
    type Answer = (u64, u64);

    ghost use Rattle.std.specs.Prelude.{◌≡◌, ℕ};
    ghost use Rattle.lr_gate.specs.Seats.{view_of, jobs_put};

    ghost needs = { λ body conductor. jobs_put (view_of conductor) ≡ 0 };

    ghost conducts = { λ body before after. Unit {0} };

    fn conduct(
        self,
        gate: &Gate<Meeting>,
        conductor: &mut Conductor<Meeting>,
        own: Meeting,
    ) -> (Self, Meeting, (u64, u64)) {
        let _ = conductor.put(gate, 0);
        let _ = conductor.put(gate, 1);
        let first = result_of(self.rt, gate, conductor);
        let second = result_of(self.rt, gate, conductor);
        (self, own, (first, second))
    }
}

/// A work whose jobs share the flag.
fn work_with(met: &Arc<AtomicBool, Global>) -> Result<Meeting, NoMemory> {
    Ok(Meeting {
        met: Arc::try_clone(met)?,
        too_late: false,
    })
}

/// Whether the two jobs were done at the same time, by two works, and their results came in order.
fn meets<R: Threads + Wait + Sync>(rt: &R, alloc: Global) -> Result<bool, NoMemory> {
    let met = Arc::new(alloc, AtomicBool::new(false))?;
    let (gate, conductor, seats) = Gate::<Meeting>::build(alloc, 2, 2)?;
    let mut works = Vec::with_capacity(alloc, 2)?;
    works.push(work_with(&met)?)?;
    works.push(work_with(&met)?)?;
    let own = work_with(&met)?;
    let Ok(pooled) = with_pool(rt, &gate, conductor, seats, works, own, Pair { rt }) else {
        return Err(NoMemory);
    };
    let Pooled {
        conducted,
        seats,
        works,
    } = pooled;
    let Conducted {
        body: _,
        conductor,
        own: _,
        answer: (first, second),
    } = conducted;
    let in_time = works.iter().all(|work| !work.too_late);
    let tally = gate.close(conductor, seats);
    Ok(in_time && first == 0 && second == 1 && tally.put == 2 && tally.taken == 2)
}

#[test]
fn two_workers_meet(rt: HostRuntime) -> Result<(), Fail> {
    assert!(rt; meets(&rt, rt.alloc())?);
    Ok(())
}
