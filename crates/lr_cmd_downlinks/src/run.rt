//! The command.
ghost use Rattle.std.specs.Prelude.{◌≡◌};
ghost use Rattle.lr_causes.specs.Outside.{outside, world_of};
ghost use Rattle.lr_downlinks.specs.Runs.{MergesOver};
ghost use Rattle.lr_downlinks.specs.Streams.{files_of_downlink};
ghost use Rattle.lr_cmd_downlinks.specs.Downlinks.{DownlinksRun};
ghost use Rattle.lr_cmd_downlinks.specs.Told.{TellsAll, TellsRun, TellsSome, receipted, bundle_run};

use crate::receipts::{put_last, put_receipts};
use crate::taking::take_bundle;
use lr_causes::{Cause, Party, Refusal};
use lr_conv::LineCode;
use lr_disk::Disk;
use lr_downlinks::{Bundle, Run, RunEnd, run_downlinks};
use lr_io::{Sink, Source};
use lr_refusals::shelf_answer;
use lr_shelf::Shelf;
use std::alloc::Global;
use std::sync::Wait;
use std::thread::Threads;

/// Puts the receipts and the last line of a run that put all files onto the shelf.
fn tell_all<O: Sink>(bundle: &Bundle, run: &Run, out: &mut O) -> Cause
    ensures { TellsAll O.Sink (receipted bundle.now run.now.base run.now.order) result out.old out.new }
{
    if let Err(cause) = put_receipts(run, bundle.streams(), out) {
        return cause;
    }
    match put_last(bundle, run, out) {
        Ok(()) => Cause::Done,
        Err(cause) => cause,
    }
}

/// Puts the receipts of a run that ended for this cause before all files were put onto the shelf. A put that fails
/// changes no cause.
fn tell_some<O: Sink>(bundle: &Bundle, run: &Run, cause: Cause, out: &mut O) -> Cause
    ensures same { result ≡ cause }
    ensures told { TellsSome O.Sink (receipted bundle.now run.now.base run.now.order) out.old out.new }
{
    let _ = put_receipts(run, bundle.streams(), out);
    cause
}

/// Puts what is told of a run, and answers why it ended.
fn tell_run<O: Sink>(bundle: &Bundle, run: &Run, out: &mut O) -> Cause
    ensures { TellsRun O.Sink (bundle_run bundle.now run.now) result out.old out.new }
{
    match run.result {
        RunEnd::All => tell_all(bundle, run, out),
        RunEnd::Disk => tell_some(bundle, run, Cause::Failed(Party::Disk), out),
        RunEnd::NoMemory => tell_some(bundle, run, Cause::NoMemory, out),
        RunEnd::Capacity { needed, capacity } => {
            let refusal = Refusal::Capacity { needed, capacity };
            tell_some(bundle, run, Cause::Refused(refusal), out)
        }
    }
}

/// Puts the mission files of the recordings of a bundle onto the shelf, a thread for each recording, and a receipt for
/// each file. The source gives the bundle up to its end: the number of recordings in a byte, 1 to 16, and for each of
/// them a length in 8 bytes and that many symbols of this line code; at most 268,435,456 bytes, which are held whole.
/// The shelf is loaded first.
pub fn downlinks<R: Threads + Wait + Sync, S: Source, D: Disk + Send, O: Sink>(
    rt: &R,
    alloc: Global,
    line: LineCode,
    source: &mut S,
    disk: &mut D,
    out: &mut O,
) -> Cause
    ensures { DownlinksRun (world_of S.Source D.Disk O.Sink) line result
        (outside source.old disk.old out.old) (outside source.new disk.new out.new) }
{
    let shelf = match shelf_answer(Shelf::load(alloc, disk)) {
        Ok(shelf) => shelf,
        Err(cause) => return cause,
    };
    let bundle = match take_bundle(alloc, source) {
        Ok(bundle) => bundle,
        Err(cause) => return cause,
    };
    let run = run_downlinks(rt, alloc, &bundle, line, shelf, disk);
    tell_run(&bundle, &run, out)
}
