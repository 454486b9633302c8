//! The lines of receipts.
ghost use Rattle.std.specs.Prelude.{◌≡◌, ◌<◌, ◌≤◌, ◌+◌, ◌*◌, length, OnOk, OnErr, IfErr};
ghost use Rattle.std.specs.List.{sum_by};
ghost use Rattle.lr_causes.specs.Puts.{Puts, PutFails};
ghost use Rattle.lr_cmd_downlinks.specs.Lines.{receipt_line, downlink_lines, receipt_lines, last_line};

use lr_causes::{Cause, Line, Party, put_text};
use lr_downlinks::{Bundle, Receipt, Run};
use lr_io::Sink;

/// Puts the line of a receipt. It takes no memory.
fn put_receipt<O: Sink>(receipt: &Receipt, out: &mut O) -> Result<(), Cause>
    ensures put { OnOk result (Puts O.Sink (receipt_line receipt.now) out.old out.new) }
    ensures cause { IfErr result (λ cause. cause ≡ Cause.Failed Party.Output) }
    ensures failed { OnErr result (PutFails O.Sink (receipt_line receipt.now) out.old out.new) }
{
    let mut line = Line::new();
    line.push(b"receipt ");
    line.number(receipt.downlink as u64);
    line.push(b" ");
    line.number(receipt.place);
    line.push(b" number ");
    line.number(receipt.number);
    line.push(b"\n");
    put_text(line.as_bytes(), out)
}

/// Puts the receipts of a downlink, in the order of its files.
fn put_downlink<O: Sink>(run: &Run, downlink: u8, out: &mut O) -> Result<(), Cause>
    ensures put { OnOk result (Puts O.Sink (downlink_lines run.now.base run.now.order downlink) out.old out.new) }
    ensures cause { IfErr result (λ cause. cause ≡ Cause.Failed Party.Output) }
    ensures failed { OnErr result (PutFails O.Sink (downlink_lines run.now.base run.now.order downlink)
        out.old out.new) }
{
    let mut receipts = run.receipts_of(downlink);
    'receipts: while let Some(receipt) = receipts.next() {
        if let Err(cause) = put_receipt(&receipt, out) {
            return Err(cause);
        }
    }
    Ok(())
}

/// Puts the receipts of this many downlinks, one downlink after another.
pub(crate) fn put_receipts<O: Sink>(run: &Run, count: usize, out: &mut O) -> Result<(), Cause>
    requires { count ≤ 16 }
    ensures put { OnOk result (Puts O.Sink (receipt_lines run.now.base run.now.order count) out.old out.new) }
    ensures cause { IfErr result (λ cause. cause ≡ Cause.Failed Party.Output) }
    ensures failed { OnErr result (PutFails O.Sink (receipt_lines run.now.base run.now.order count)
        out.old out.new) }
{
    let mut downlink = 0;
    'downlinks: while downlink < count {
        if let Err(cause) = put_downlink(run, downlink as u8, out) {
            return Err(cause);
        }
        downlink += 1;
    }
    Ok(())
}

/// How many symbols all streams have.
fn symbols_of(bundle: &Bundle) -> u64
    ensures { result ≡ sum_by length bundle.now }
{
    let mut symbols = 0;
    let mut downlink = 0;
    'downlinks: while downlink < bundle.streams() {
        symbols += bundle.stream(downlink).len() as u64;
        downlink += 1;
    }
    symbols
}

/// Puts the last line: how many streams the bundle has, how many symbols, and how many files were put onto the shelf.
/// It takes no memory.
pub(crate) fn put_last<O: Sink>(bundle: &Bundle, run: &Run, out: &mut O) -> Result<(), Cause>
    ensures put { OnOk result (Puts O.Sink (last_line bundle.now run.now.order) out.old out.new) }
    ensures cause { IfErr result (λ cause. cause ≡ Cause.Failed Party.Output) }
    ensures failed { OnErr result (PutFails O.Sink (last_line bundle.now run.now.order) out.old out.new) }
{
    let mut line = Line::new();
    line.push(b"downlinks ");
    line.number(bundle.streams() as u64);
    line.push(b" symbols ");
    line.number(symbols_of(bundle));
    line.push(b" files ");
    line.number(run.order.as_slice().len() as u64);
    line.push(b"\n");
    put_text(line.as_bytes(), out)
}
