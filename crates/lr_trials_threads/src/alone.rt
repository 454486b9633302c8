//! A roll is worked through on one thread.
ghost use Rattle.std.specs.Prelude.{◌≡◌, ◌<◌};

use crate::roll::{Refused, Roll};
use crate::works::Same;
use lr_bits::NoMemory;
use lr_rounds::{WorkerPool, drive_alone};
use std::alloc::Global;
use std::test::Fail;

// Whether all numbers come back in order, where at most `at_once` are under way.
fn comes_back(alloc: Global, limit: u32, at_once: u32, is_eager: bool) -> Result<bool, NoMemory>
    requires { 0 < at_once }
{
    let pool = WorkerPool::new(alloc, Vec::new(alloc), Same)?;
    let mut roll = Roll::new(limit, at_once);
    roll.is_eager = is_eager;
    let led = drive_alone(pool, &mut roll).is_ok();
    Ok(led && roll.is_complete())
}

// Why a roll stops, and how many numbers it had kept.
fn stops(alloc: Global, mut roll: Roll) -> Result<Option<(Refused, u32)>, NoMemory>
    requires { (roll.given ≡ 0) × (roll.kept ≡ 0) }
{
    let pool = WorkerPool::new(alloc, Vec::new(alloc), Same)?;
    match drive_alone(pool, &mut roll) {
        Ok(()) => Ok(None),
        Err(cause) => Ok(Some((cause, roll.kept))),
    }
}

#[test]
fn numbers_come_back_in_order(rt: HostRuntime) -> Result<(), Fail> {
    let alloc = rt.alloc();
    for is_eager in [false, true] {
        assert!(rt; comes_back(alloc, 100, 1, is_eager)?, "eager {is_eager}");
        assert!(rt; comes_back(alloc, 100, 3, is_eager)?, "eager {is_eager}");
        assert!(rt;
            comes_back(alloc, 100, 1_000, is_eager)?,
            "eager {is_eager}"
        );
        assert!(rt; comes_back(alloc, 0, 1, is_eager)?, "eager {is_eager}");
    }
    Ok(())
}

#[test]
fn a_refusal_stops_the_rounds(rt: HostRuntime) -> Result<(), Fail> {
    let alloc = rt.alloc();
    let mut roll = Roll::new(20, 2);
    roll.never_given = 7;
    assert!(rt; matches!(stops(alloc, roll)?, Some((Refused::Give(7), kept)) if kept <= 7));
    let mut roll = Roll::new(20, 2);
    roll.never_kept = 5;
    assert!(rt; matches!(stops(alloc, roll)?, Some((Refused::Keep(5), 5))));
    Ok(())
}
