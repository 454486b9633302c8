//! A ring with no workers is drained by a loop that returns: where the oldest job isn't done, a round of help finishes
//! one more.

ghost use Rattle.std.specs.Prelude.{◌≡◌, ◌+◌, ◌<◌};
ghost use mathlib.Core.Option.{some};
ghost use lib.ListN.{get_elem?};
ghost use Rattle.lr_gate.specs.Seats.{IsConductorOf, view_of, jobs_put, workers_of};

use lr_gate::{Conductor, Gate};
use lr_gatecore::Work;

/// The result of the oldest job, on a ring with no workers.
pub fn next_result<W: Work>(gate: &Gate<W>, conductor: &mut Conductor<W>, work: &mut W) -> W::Done
    requires mine { IsConductorOf gate.now conductor.old }
    requires alone { workers_of gate.now ≡ 0 }
    requires left { (view_of conductor.old).taken < jobs_put (view_of conductor.old) }
    ensures mine { IsConductorOf gate.now conductor.new }
    ensures taken { (view_of conductor.new).taken ≡ (view_of conductor.old).taken + 1 }
    ensures jobs { (view_of conductor.new).jobs ≡ (view_of conductor.old).jobs }
    ensures running { (view_of conductor.new).stopped ≡ (view_of conductor.old).stopped }
    ensures oldest { (j : W.Job) × (get_elem? (view_of conductor.old).jobs (view_of conductor.old).taken ≡ some j)
        × (result ≡ W.gives j) }
{
    loop {
        if let Some(done) = conductor.take(gate) {
            return done;
        }
        let _ = conductor.help(gate, work);
    }
}
