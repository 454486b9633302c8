//! Strip after strip on one thread.

ghost use Rattle.std.specs.Prelude.{◌≡◌, IfOk, OnOk, length};
ghost use Rattle.lr_image.specs.Images.{HasOutcome};
ghost use Rattle.lr_render.specs.Plans.{planned_strips};

use crate::plan::Plan;
use crate::work::RenderWork;
use lr_bits::{MissionFile, NoMemory};
use lr_gatecore::Work;
use lr_image::{Image, ImageFault};
use std::alloc::Global;

/// The image of a file, or the first fault for which it has none, strip after strip.
pub fn outcome_in_strips(
    alloc: Global,
    file: MissionFile,
) -> Result<Result<Image, ImageFault>, NoMemory>
    ensures { IfOk result (HasOutcome file) }
{
    match Plan::new(alloc, file) {
        Ok(plan) => finish_alone(plan),
        Err(fault) => match fault {
            ImageFault::NoMemory => Err(NoMemory),
            first => Ok(Err(first)),
        },
    }
}

/// Decodes and keeps each strip of a plan that has none under way, and finishes it.
fn finish_alone(plan: Plan) -> Result<Result<Image, ImageFault>, NoMemory>
    requires { plan.kept ≡ plan.given }
    ensures { IfOk result (HasOutcome plan.file) }
{
    let mut plan = plan;
    keep_all(&mut plan)?;
    Ok(plan.finish())
}

/// Decodes and keeps each strip that is left.
fn keep_all(plan: &mut Plan) -> Result<(), NoMemory>
    requires { plan.old.kept ≡ plan.old.given }
    ensures all { OnOk result (plan.new.kept ≡ length (planned_strips plan.new)) }
    ensures file { plan.new.file ≡ plan.old.file }
{
    let mut work = RenderWork::new();
    while let Some(strip) = plan.next_strip()? {
        plan.keep(work.run(strip))?;
    }
    Ok(())
}
