//! A roll is worked through with workers beside the caller.
ghost use Rattle.std.specs.Prelude.{◌≡◌, ◌≤◌, IfOk, vec_len};

use crate::roll::{Refused, Roll};
use crate::works::{Meeting, Same};
use lr_bits::NoMemory;
use lr_gatecore::MOST_HANDS;
use lr_rounds::{DriveFault, WorkerPool, drive, drive_alone, drive_beside};
use std::alloc::Global;
use std::sync::atomic::AtomicBool;
use std::sync::atomic::Ordering::SeqCst;
use std::sync::{Arc, Wait};
use std::test::Fail;
use std::thread::Threads;

// How often a work looks for one that comes: beside other programs it may take its time.
const LOOKS_FOR_ANOTHER: u32 = 100_000_000;

// How often a work looks where no other comes.
const LOOKS_ALONE: u32 = 1_000;

// A pool with this number of seats.
fn pool_of(alloc: Global, seats: usize) -> Result<WorkerPool<Same>, NoMemory>
    requires { seats ≤ MOST_HANDS }
{
    let mut works = Vec::with_capacity(alloc, seats)?;
    for _ in 0..seats {
        works.push_reserved(Same);
    }
    WorkerPool::new(alloc, works, Same)
}

// Whether all numbers come back in order, by all of a pool with this number of seats.
fn comes_back<R: Threads + Wait + Sync>(
    rt: &R,
    alloc: Global,
    seats: usize,
    is_eager: bool,
) -> Result<bool, NoMemory>
    requires { seats ≤ MOST_HANDS }
{
    let pool = pool_of(alloc, seats)?;
    let mut roll = Roll::new(1_000, 100);
    roll.is_eager = is_eager;
    let led = drive(rt, pool, &mut roll).is_ok();
    Ok(led && roll.is_complete())
}

// Whether a roll stops at the number that it refuses to keep.
fn stops<R: Threads + Wait + Sync>(rt: &R, alloc: Global) -> Result<bool, NoMemory> {
    let pool = pool_of(alloc, 3)?;
    let mut roll = Roll::new(1_000, 100);
    roll.never_kept = 500;
    let led = drive_beside(rt, pool, &mut roll);
    Ok(
        matches!(led, Err(DriveFault::Stopped(Refused::Keep(500))))
            && roll.in_order
            && roll.kept == 500,
    )
}

// What the works of a pool share.
#[derive(Drop)]
struct Flags {
    met: Arc<AtomicBool, Global>,
    too_late: Arc<AtomicBool, Global>,
}

impl Flags {
    fn new(alloc: Global) -> Result<Flags, NoMemory> {
        Ok(Flags {
            met: Arc::new(alloc, AtomicBool::new(false))?,
            too_late: Arc::new(alloc, AtomicBool::new(false))?,
        })
    }

    fn work(&self, looks: u32) -> Result<Meeting, NoMemory> {
        Ok(Meeting {
            looks,
            met: Arc::try_clone(&self.met)?,
            too_late: Arc::try_clone(&self.too_late)?,
        })
    }
}

// Whether two works meet, of which one is the caller's.
fn meets<R: Threads + Wait + Sync>(rt: &R, alloc: Global) -> Result<bool, NoMemory> {
    let flags = Flags::new(alloc)?;
    let mut works = Vec::with_capacity(alloc, 1)?;
    works.push_reserved(flags.work(LOOKS_FOR_ANOTHER)?);
    let pool = WorkerPool::new(alloc, works, flags.work(LOOKS_FOR_ANOTHER)?)?;
    let mut roll = Roll::new(10, 10);
    let led = drive(rt, pool, &mut roll).is_ok();
    Ok(led && roll.is_complete() && !flags.too_late.load(SeqCst))
}

// Whether a caller who works alone is noticed: what waits for another waits too long.
fn is_noticed_alone(alloc: Global) -> Result<bool, NoMemory> {
    let flags = Flags::new(alloc)?;
    let pool = WorkerPool::new(alloc, Vec::new(alloc), flags.work(LOOKS_ALONE)?)?;
    let mut roll = Roll::new(10, 10);
    let led = drive_alone(pool, &mut roll).is_ok();
    Ok(led && roll.is_complete() && flags.too_late.load(SeqCst))
}

#[test]
fn any_number_of_seats_leads_alike(rt: HostRuntime) -> Result<(), Fail> {
    let alloc = rt.alloc();
    assert!(rt; comes_back(&rt, alloc, 0, true)?);
    assert!(rt; comes_back(&rt, alloc, 1, true)?);
    assert!(rt; comes_back(&rt, alloc, 3, true)?);
    assert!(rt; comes_back(&rt, alloc, MOST_HANDS as usize, true)?);
    assert!(rt; comes_back(&rt, alloc, 3, false)?);
    Ok(())
}

#[test]
fn a_refusal_stops_all(rt: HostRuntime) -> Result<(), Fail> {
    assert!(rt; stops(&rt, rt.alloc())?);
    Ok(())
}

#[test]
fn two_works_meet(rt: HostRuntime) -> Result<(), Fail> {
    assert!(rt; meets(&rt, rt.alloc())?);
    assert!(rt; is_noticed_alone(rt.alloc())?);
    Ok(())
}
