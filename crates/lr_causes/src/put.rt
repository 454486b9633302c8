//! A text that goes to `out`.
ghost use Rattle.std.specs.Prelude.{◌≡◌, ◌<◌, length, IfErr, OnOk, OnErr};
ghost use Rattle.lr_bits.specs.Telling.{KeepsTelling};
ghost use Rattle.lr_causes.specs.Puts.{Puts, PutFails, PutStops};

use crate::cause::{Cause, Party};
use lr_bits::Failed;
use lr_io::{Sink, put_all};

/// Puts a text whole, or answers that the output failed, which got a part of it. A text of no bytes never fails.
pub fn put_text<O: Sink>(text: &[u8], out: &mut O) -> Result<(), Cause>
    ensures tell { KeepsTelling (O.tells out.old) (O.tells out.new) }
    ensures put { OnOk result (Puts O.Sink text.now out.old out.new) }
    ensures stopped { IfErr result (λ cause. PutStops O.Sink text.now cause out.old out.new) }
    ensures cause { IfErr result (λ cause. cause ≡ Cause.Failed Party.Output) }
    ensures failed { OnErr result (PutFails O.Sink text.now out.old out.new) }
    ensures some { OnErr result (0 < length text.now) }
{
    if text.is_empty() {
        return Ok(());
    }
    match put_all(out, text) {
        Ok(()) => Ok(()),
        Err(Failed) => Err(Cause::Failed(Party::Output)),
    }
}
