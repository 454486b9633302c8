//! Images that claim more lines than their packets hold.

use crate::image_files::file_of;
use crate::strips::fails_in_the_second_piece;
use lr_bits::MissionFile;
use lr_gatecore::Work;
use lr_render::{Plan, RenderWork, outcome_in_strips};
use lr_trials_support::CODED;
use std::alloc::Global;
use std::test::Fail;

/// How many plans are held at once. With all pixels that they claim they would take 32 GiB.
const PLANS: u32 = 64;

/// A file of 65,576 bytes that claims 65,535 lines of 4,096 pixels of 14 bits, which are 512 MiB. Each packet has one
/// line. That in the first one has zeros to the end of its only segment, in three bytes, and the second one has none.
fn claiming_file(alloc: Global) -> Result<MissionFile, Fail> {
    let mut header = CODED;
    header[29] = 14;
    header[30..34].copy_from_slice(&[0x10, 0x00, 0xFF, 0xFF]);
    header[40] = 64;
    file_of(alloc, &[&header, &[0, 0, 1], &[0; 65_531]])
}

/// A plan of that file, which has kept its first strip.
fn plan_with_a_strip(alloc: Global) -> Result<Plan, Fail> {
    let Ok(mut plan) = Plan::new(alloc, claiming_file(alloc)?) else {
        return Err(Fail::from("no plan"));
    };
    let Some(strip) = plan.next_strip()? else {
        return Err(Fail::from("no strip"));
    };
    plan.keep(RenderWork::new().run(strip))?;
    Ok(plan)
}

/// Whether that many plans can be held, each with its first strip.
fn are_held(alloc: Global) -> Result<bool, Fail> {
    let mut plans = Vec::new(alloc);
    for _ in 0..PLANS {
        plans.push(plan_with_a_strip(alloc)?)?;
    }
    Ok(plans.len() == PLANS as usize)
}

#[test]
fn a_claim_takes_no_memory(rt: HostRuntime) -> Result<(), Fail> {
    assert!(rt; are_held(rt.alloc())?);
    Ok(())
}

#[test]
fn a_claim_that_is_not_kept_is_refused(rt: HostRuntime) -> Result<(), Fail> {
    let alloc = rt.alloc();
    let outcome = outcome_in_strips(alloc, claiming_file(alloc)?);
    assert!(rt; fails_in_the_second_piece(outcome));
    Ok(())
}
