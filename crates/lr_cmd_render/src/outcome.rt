//! An image that is whole is put.
ghost use Rattle.std.specs.Prelude.{◌≡◌, ◌<◌, ◌+◌, ◌^◌, length, IfErr, OnOk};
ghost use Rattle.lr_render.specs.Plans.{planned_strips};
ghost use Rattle.lr_cmd_render.specs.Outcomes.{PutsOutcome, OutcomeStops};

use crate::tally::Tally;
use lr_causes::Cause;
use lr_cmd_shelf::put_pgm;
use lr_io::Sink;
use lr_render::Plan;
use std::alloc::Global;

/// Puts and counts the image of a plan that kept all its strips. One that has a fault is skipped.
pub(crate) fn put_outcome<O: Sink>(
    alloc: Global,
    plan: Plan,
    tally: &mut Tally,
    out: &mut O,
) -> Result<(), Cause>
    requires kept { plan.kept ≡ length (planned_strips plan) }
    requires few { tally.old.images + tally.old.skipped + 1 < 2 ^ 64 }
    ensures puts { OnOk result (PutsOutcome O.Sink plan.file tally.old tally.new out.old out.new) }
    ensures stops { IfErr result (λ cause. OutcomeStops O.Sink plan.file cause out.old out.new) }
{
    match plan.finish() {
        Ok(image) => {
            put_pgm(alloc, &image, out)?;
            tally.images += 1;
        }
        Err(_) => tally.skipped += 1,
    }
    Ok(())
}
