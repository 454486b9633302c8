//! A pool of workers beside a body.

ghost use Rattle.std.specs.Prelude.{◌≡◌, All, IfOk, IfErr, vec_len, vec_capacity, false};
ghost use Rattle.std.specs.Mem.{manually_drop_value};
ghost use Rattle.lr_gate.specs.Seats.{IsConductorOf, IsSeatOf, IsSeatIn, seat_table, table_of, view_of};
ghost use Rattle.lr_workers.specs.Pools.{IsConducted};

use crate::body::{Body, Conducted};
use lr_gate::{Conductor, Gate, Turn, WorkerSeat};
use lr_gatecore::Work;
use std::marker::PhantomData;
use std::mem::ManuallyDrop;
use std::snapshot::Snapshot;
use std::sync::Wait;
use std::thread;
use std::thread::{Parker, Promise, Scope, Threads};
use std::time::Duration;

/// What a pool hands back.
#[derive(Drop)]
pub struct Pooled<W: Work, B: Body<W>> {
    /// What the body on the caller's thread handed back.
    pub conducted: Conducted<W, B>,
    /// The seats of the workers.
    pub seats: Vec<WorkerSeat<W>>,
    /// The works of the workers.
    pub works: Vec<W>,
}

/// There was no memory, and no thread was started. Everything comes back as it was. Today's pool takes none of its own,
/// so that this doesn't come.
#[derive(Drop)]
pub struct Refused<W: Work, B: Body<W>> {
    pub conductor: Conductor<W>,
    pub seats: Vec<WorkerSeat<W>>,
    pub works: Vec<W>,
    /// The work of the caller's thread.
    pub own: W,
    pub body: B,
}

/// What the caller's thread begins with: its body, the conductor that it is given, and its work.
#[derive(Drop)]
struct CallerSide<W: Work, B: Body<W>> {
    body: B,
    conductor: Conductor<W>,
    own: W,
}

/// A thread hands back a seat of the gate that its own seat was of.
#[derive(Drop)]
struct SameGate<W: Work>(Snapshot<WorkerSeat<W>>);

impl<W: Work> Promise<(WorkerSeat<W>, W)> for SameGate<W> {
    ghost kept_by = { λ p r. IsSeatIn (seat_table p.0.value) r.0 };
}

/// How many turns in a row may find nothing before a worker sleeps between turns.
const PATIENCE: u32 = 200;

/// How long it sleeps then.
const NAP_MICROSECONDS: u64 = 100;

/// Takes turns until the gate is stopped. A worker that has found nothing for a while sleeps for a short time before
/// it looks again.
fn work_on<R: Wait, W: Work>(
    rt: &R,
    gate: &Gate<W>,
    mut seat: WorkerSeat<W>,
    mut work: W,
) -> (WorkerSeat<W>, W)
    requires { IsSeatOf gate.now seat }
    ensures { IsSeatOf gate.now result.0 }
{
    let bed = Parker::new();
    let nap = Duration::from_micros(NAP_MICROSECONDS);
    let mut idle = 0;
    for _ in rt.forever() {
        match seat.turn(gate, &mut work) {
            Turn::Stopped => break,
            Turn::Did => idle = 0,
            Turn::Nothing if idle < PATIENCE => {
                idle += 1;
                thread::yield_now();
            }
            // No one wakes it, so that this ends with the time.
            Turn::Nothing => bed.park_timeout(rt, nap),
        }
    }
    (seat, work)
}

/// Runs the body of the caller's thread, and stops the gate.
fn conduct<W: Work, B: Body<W>>(gate: &Gate<W>, caller: CallerSide<W, B>) -> Conducted<W, B>
    requires mine { IsConductorOf gate.now caller.conductor }
    requires running { (view_of caller.conductor).stopped ≡ false }
    requires needs { B.needs caller.body caller.conductor }
    ensures mine { IsConductorOf gate.now result.conductor }
    ensures conducts { IsConducted B.conducts caller.body caller.conductor result }
{
    let CallerSide {
        body,
        mut conductor,
        own,
    } = caller;
    let (body, own, answer) = body.conduct(gate, &mut conductor, own);
    conductor.stop(gate);
    Conducted {
        body,
        conductor,
        own,
        answer,
    }
}

/// Starts a thread for each seat, runs the body, stops the gate, and takes the threads in again. A closure whose thread
/// couldn't be started runs after the stop.
fn beside<'s, E, R: Threads + Wait + Sync, W: Work + Send + Drop, B: Body<W>>(
    scope: &'s Scope<'s, E>,
    rt: &'s R,
    gate: &'s Gate<W>,
    caller: CallerSide<W, B>,
    mut seats: Vec<WorkerSeat<W>>,
    mut works: Vec<W>,
) -> (Conducted<W, B>, Vec<WorkerSeat<W>>, Vec<W>)
    requires mine { IsConductorOf gate.now caller.conductor }
    requires running { (view_of caller.conductor).stopped ≡ false }
    requires seats { All (IsSeatOf gate.now) seats.items }
    requires same { vec_len seats ≡ vec_len works }
    requires needs { B.needs caller.body caller.conductor }
    ensures mine { IsConductorOf gate.now result.0.conductor }
    ensures conducts { IsConducted B.conducts caller.body caller.conductor result.0 }
    ensures seats { All (IsSeatOf gate.now) result.1.items }
    ensures many { (vec_len result.1 ≡ vec_len seats) × (vec_len result.2 ≡ vec_len works) }
    ensures room { (vec_capacity result.1 ≡ vec_capacity seats) × (vec_capacity result.2 ≡ vec_capacity works) }
{
    let Some(seat) = seats.pop() else {
        return (conduct(gate, caller), seats, works);
    };
    let Some(work) = works.pop() else {
        unreachable!()
    };
    let promise = SameGate(Snapshot::of(&seat));
    let run = move || -> (WorkerSeat<W>, W)
        requires { IsSeatOf gate.now seat }
        ensures { IsSeatOf gate.entry.now result.0 }
    { work_on(rt, gate, seat, work) };
    let started = scope.spawn_with(promise, run);
    let (conducted, mut seats, mut works) = beside(scope, rt, gate, caller, seats, works);
    let (seat, work) = match started {
        Ok(child) => child.join(rt),
        Err(refused) => (refused.value)(),
    };
    seats.push_reserved(seat);
    works.push_reserved(work);
    (conducted, seats, works)
}

/// Runs the body while a thread for each seat works. Then it stops the gate, takes the threads in and gives all back.
pub fn with_pool<R: Threads + Wait + Sync, W: Work + Send + Drop, B: Body<W>>(
    rt: &R,
    gate: &Gate<W>,
    conductor: Conductor<W>,
    seats: Vec<WorkerSeat<W>>,
    works: Vec<W>,
    own: W,
    body: B,
) -> Result<Pooled<W, B>, Refused<W, B>>
    requires mine { IsConductorOf gate.now conductor }
    requires running { (view_of conductor).stopped ≡ false }
    requires seats { All (IsSeatOf gate.now) seats.items }
    requires same { vec_len seats ≡ vec_len works }
    requires needs { B.needs body conductor }
    ensures mine { IfOk result (λ r. IsConductorOf gate.now r.conducted.conductor) }
    ensures conducts { IfOk result (λ r. IsConducted B.conducts body conductor r.conducted) }
    ensures seats { IfOk result (λ r. All (IsSeatOf gate.now) r.seats.items) }
    ensures many { IfOk result (λ r. (vec_len r.seats ≡ vec_len seats) × (vec_len r.works ≡ vec_len works)) }
    ensures refused { IfErr result (λ r. (r.conductor ≡ conductor) × (r.seats ≡ seats) × (r.works ≡ works)
        × (r.own ≡ own) × (r.body ≡ body)) }
{
    // The closure's result names the type of the answer, and a closure may name only types of what it holds.
    let names: PhantomData<B::Answer> = PhantomData;
    // A closure may hold only what may be let go, and a body need not be such. The closure takes it out again.
    let body = unsafe { ManuallyDrop::new_unchecked(body) };
    let (conducted, seats, works) = thread::scope(
        thread::scope_env(),
        rt,
        move |scope| -> (Conducted<W, B>, Vec<WorkerSeat<W>>, Vec<W>)
            requires { IsConductorOf gate.now conductor × ((view_of conductor).stopped ≡ false)
                × All (IsSeatOf gate.now) seats.items × (vec_len seats ≡ vec_len works)
                × B.needs (manually_drop_value body) conductor }
            ensures { IsConductorOf gate.entry.now result.0.conductor
                × IsConducted B.conducts (manually_drop_value body) conductor result.0
                × All (IsSeatOf gate.entry.now) result.1.items
                × (vec_len result.1 ≡ vec_len seats) × (vec_len result.2 ≡ vec_len works) }
        {
            let _names = names;
            let caller = CallerSide {
                body: ManuallyDrop::into_inner(body),
                conductor,
                own,
            };
            beside(scope, rt, gate, caller, seats, works)
        },
    );
    Ok(Pooled {
        conducted,
        seats,
        works,
    })
}
