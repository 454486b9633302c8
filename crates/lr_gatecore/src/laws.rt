//! The laws of the machine.

ghost use Rattle.lr_gatecore.specs.Machine.{MovesLeadToStates, MovesAreOne};
ghost use Rattle.lr_gatecore.specs.Story.{JobsGoInOrder};

/// The machine begins in a state, and each move leads to one.
pub fn moves_lead_to_states()
    ensures { MovesLeadToStates }
{}

/// From a state an event leads to one machine at most, and is about one job.
pub fn moves_are_one()
    ensures { MovesAreOne }
{}

/// Over every list of events, the jobs taken are 0, 1, 2, .. in order, and each had one claim and one finish between
/// its put
/// and its take.
pub fn jobs_go_in_order()
    ensures { JobsGoInOrder }
{}
