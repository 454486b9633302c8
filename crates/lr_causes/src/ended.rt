//! The cause of a run that took its input to an end.
ghost use Rattle.std.specs.Prelude.{◌≡◌};
ghost use Rattle.lr_causes.specs.Causes.{cause_at};

use crate::cause::{Cause, Party};
use lr_forms::Stop;

/// The cause of a run that put its last line.
pub fn cause_at(stop: Stop) -> Cause
    ensures { result ≡ cause_at stop }
{
    match stop {
        Stop::End | Stop::Limit => Cause::Done,
        Stop::Fault => Cause::Failed(Party::Source),
    }
}
