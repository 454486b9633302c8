//! A ring with no workers, on one thread.
#![tactic(auto)]

use crate::draining::next_result;
use lr_bits::NoMemory;
use lr_gate::{Gate, RingFull};
use lr_gatecore::Work;
use std::alloc::Global;
use std::test::Fail;

/// Halves numbers.
#[derive(Drop)]
struct Half;

impl Work for Half {
    type Job = u64;

    type Done = u64;

    ghost use Rattle.std.specs.Prelude.{◌/◌};

    ghost gives = { λ job. job / 2 };

    fn run(&mut self, job: u64) -> u64 {
        job / 2
    }
}

/// Whether one cell takes one job at a time, and gives its result once it is done.
fn one_cell(alloc: Global) -> Result<bool, NoMemory> {
    let (gate, mut conductor, seats) = Gate::<Half>::build(alloc, 1, 0)?;
    let mut work = Half;
    let put = conductor.put(&gate, 14).is_ok();
    let full = matches!(conductor.put(&gate, 16), Err(RingFull(16)));
    let early = conductor.take(&gate).is_none();
    let helped = conductor.help(&gate, &mut work);
    let result = conductor.take(&gate) == Some(7);
    let empty = conductor.take(&gate).is_none();
    let idle = !conductor.help(&gate, &mut work);
    let tally = gate.close(conductor, seats);
    Ok(
        put && full
            && early
            && helped
            && result
            && empty
            && idle
            && tally.put == 1
            && tally.taken == 1,
    )
}

/// Whether the results come in the order of the jobs, also where a cell is used again.
fn in_order(alloc: Global) -> Result<bool, NoMemory> {
    let (gate, mut conductor, seats) = Gate::<Half>::build(alloc, 3, 0)?;
    let mut work = Half;
    let put = conductor.put(&gate, 2).is_ok()
        && conductor.put(&gate, 4).is_ok()
        && conductor.put(&gate, 6).is_ok();
    if !put {
        return Ok(false);
    }
    let first = next_result(&gate, &mut conductor, &mut work);
    let again = conductor.put(&gate, 8).is_ok();
    let second = next_result(&gate, &mut conductor, &mut work);
    let tally = gate.close(conductor, seats);
    Ok(again && first == 1 && second == 2 && tally.put == 4 && tally.taken == 2)
}

#[test]
fn one_cell_goes_round(rt: HostRuntime) -> Result<(), Fail> {
    assert!(rt; one_cell(rt.alloc())?);
    Ok(())
}

#[test]
fn results_come_in_order(rt: HostRuntime) -> Result<(), Fail> {
    assert!(rt; in_order(rt.alloc())?);
    Ok(())
}
