//! The line of an entry that is gone.
ghost use Rattle.std.specs.Prelude.{Ok, IfErr, OnOk};
ghost use Rattle.lr_catalog.specs.Discards.{gone_line};
ghost use Rattle.lr_cmd_shelf.specs.Steps.{PutsText, TextStops};

use lr_bits::Bytes;
use lr_catalog::gone_line;
use lr_causes::{Cause, put_text};
use lr_io::Sink;
use std::alloc::Global;

/// Puts the line of an entry that is gone.
pub(crate) fn put_gone<O: Sink>(alloc: Global, number: u64, out: &mut O) -> Result<(), Cause>
    ensures put { OnOk result (PutsText O.Sink (Ok (gone_line number)) out.old out.new) }
    ensures stopped { IfErr result (λ cause. TextStops O.Sink (Ok (gone_line number)) cause out.old out.new) }
{
    let mut line = Bytes::new(alloc);
    gone_line(alloc, number, &mut line)?;
    put_text(line.as_slice(), out)
}
