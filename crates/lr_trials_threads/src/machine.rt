//! The machine alone.
#![tactic(auto)]

use lr_gatecore::{Event, GateCore};
use std::test::Fail;

/// Four of six events move on a ring of one cell and one worker: the second put and the early take are refused.
#[test]
fn a_second_put_and_an_early_take_are_refused(rt: HostRuntime) -> Result<(), Fail> {
    let mut core = GateCore::new(rt.alloc(), 1, 1)?;
    let events = [
        Event::Put,
        Event::Put,
        Event::Claim { worker: 0, cell: 0 },
        Event::Take,
        Event::Finish { worker: 0 },
        Event::Take,
    ];
    assert!(rt; core.run(&events) == 4 && core.put_count() == 1);
    Ok(())
}

/// A machine stops once, and takes no put after it.
#[test]
fn a_stop_is_refused_after_a_stop(rt: HostRuntime) -> Result<(), Fail> {
    let mut core = GateCore::new(rt.alloc(), 2, 1)?;
    assert!(rt; core.step(Event::Stop));
    assert!(rt; !core.step(Event::Stop));
    assert!(rt; !core.step(Event::Put));
    Ok(())
}
