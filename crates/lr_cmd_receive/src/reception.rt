//! `receive`: the mission files of the input go onto the shelf.
ghost use Rattle.std.specs.Prelude.{◌≡◌, ◌≤◌, ◌^◌, ℕ, [], IfOk, IfErr};
ghost use Rattle.lr_bits.specs.Telling.{KeepsTelling};
ghost use Rattle.lr_cmd_receive.specs.Shelved.{shelf_in};
ghost use Rattle.lr_causes.specs.Outside.{outside, world_of, outlets_of};
ghost use Rattle.lr_forms.specs.declared.forms.Input.{Input as Input'};
ghost use Rattle.lr_mend.specs.Mending.{most_fillers};
ghost use Rattle.lr_reading.specs.Leading.{MayLead, Leads};
ghost use Rattle.lr_reading.specs.Readers.{leeway_for};
ghost use Rattle.lr_reading.specs.Runs.{IsLed, course_of, lent};
ghost use Rattle.lr_cmd_receive.specs.Receive.{ReceiveRun, receive_query};
ghost use Rattle.lr_cmd_receive.specs.Reception.{ReadsAll, ReadsSome, EndsRun, PutsLast, LastStops};
ghost use Rattle.lr_cmd_receive.specs.ShelverTaken.{ShelverTook, ShelverStopped};

use crate::receive_counts::ReceiveCounts;
use crate::shelve::Ended;
use crate::shelver::Shelver;
use lr_bits::{Bytes, NoMemory};
use lr_catalog::{ReceiveSums, Summary, summary_line};
use lr_causes::{Cause, cause_at, put_text};
use lr_disk::Disk;
use lr_forms::{Input, MOST_WORKERS};
use lr_frame::{FrameWork, Hand};
use lr_io::{Sink, Source};
use lr_layers::Layers;
use lr_reading::{ReadCounts, Reader};
use lr_refusals::shelf_answer;
use lr_shelf::Shelf;
use std::alloc::Global;
use std::sync::Wait;
use std::thread::Threads;

/// Shelves all files of the input through which the call `read` leads. An image has at most `mend` fillers.
pub(crate) fn receive_all<
    S: Source,
    D: Disk,
    O: Sink,
    F: FnOnce(&mut S, &mut Shelver<'_, D, O>) -> Result<ReadCounts, Cause>,
>(
    mend: u16,
    shelf: &mut Shelf,
    source: &mut S,
    disk: &mut D,
    out: &mut O,
    read: F,
) -> Result<ReceiveCounts, Cause>
    requires mend { mend ≤ most_fillers }
    requires ready { MayLead (F.pre read) (ShelverTook (outlets_of D.Disk O.Sink)) }
    ensures all { (input : Input') (workers most : ℕ) → Leads (F.post read)
        (course_of S.Source (ShelverTook (outlets_of D.Disk O.Sink)) input most (leeway_for input workers))
        (ShelverStopped (outlets_of D.Disk O.Sink))
        → IfOk result
        (λ sums. ReadsAll (world_of S.Source D.Disk O.Sink) (receive_query mend input workers most) sums
        (shelf_in shelf.old (outside source.old disk.old out.old))
        (shelf_in shelf.new (outside source.new disk.new out.new))) }
    ensures some { (input : Input') (workers most : ℕ) → Leads (F.post read)
        (course_of S.Source (ShelverTook (outlets_of D.Disk O.Sink)) input most (leeway_for input workers))
        (ShelverStopped (outlets_of D.Disk O.Sink))
        → IfErr result
        (λ cause. ReadsSome (world_of S.Source D.Disk O.Sink) (receive_query mend input workers most) cause
        (shelf_in shelf.old (outside source.old disk.old out.old)) (outside source.new disk.new out.new)) }
{
    let alloc = shelf.allocator();
    let mut layers = Layers::mending(alloc, mend);
    let mut ended = Ended {
        files: Vec::new(alloc),
        fillers: Vec::new(alloc),
    };
    let mut shelver = Shelver {
        counts: layers.counts(),
        layers: &mut layers,
        mends: mend != 0,
        ended: &mut ended,
        shelf,
        disk,
        out,
    };
    let totals = read(source, &mut shelver)?;
    Ok(ReceiveCounts {
        totals,
        counts: shelver.counts,
    })
}

/// Puts the last line.
pub(crate) fn put_last<O: Sink>(
    alloc: Global,
    sums: &ReceiveCounts,
    out: &mut O,
) -> Result<(), Cause>
    ensures tell { KeepsTelling (O.tells out.old) (O.tells out.new) }
    ensures put { IfOk result (λ _. PutsLast O.Sink sums.now out.old out.new) }
    ensures stopped { IfErr result (λ cause. LastStops O.Sink sums.now cause out.old out.new) }
{
    let mut line = Bytes::new(alloc);
    let summary = Summary::Receive(ReceiveSums {
        symbols: sums.totals.symbols,
        frames: sums.totals.frames,
        restored: sums.counts.restored,
        lost: sums.counts.lost,
        packets: sums.counts.packets,
        files: sums.counts.files,
        left: sums.totals.left,
    });
    summary_line(alloc, &summary, sums.totals.stop, &mut line)?;
    put_text(line.as_slice(), out)
}

/// Shelves all files of the input onto a shelf that is loaded, and puts the last line.
fn receive_onto<
    S: Source,
    D: Disk,
    O: Sink,
    F: FnOnce(&mut S, &mut Shelver<'_, D, O>) -> Result<ReadCounts, Cause>,
>(mend: u16, shelf: &mut Shelf, source: &mut S, disk: &mut D, out: &mut O, read: F) -> Cause
    requires mend { mend ≤ most_fillers }
    requires ready { MayLead (F.pre read) (ShelverTook (outlets_of D.Disk O.Sink)) }
    ensures { (input : Input') (workers most : ℕ) → Leads (F.post read)
        (course_of S.Source (ShelverTook (outlets_of D.Disk O.Sink)) input most (leeway_for input workers))
        (ShelverStopped (outlets_of D.Disk O.Sink))
        → EndsRun (world_of S.Source D.Disk O.Sink) (receive_query mend input workers most) result
        (shelf_in shelf.old (outside source.old disk.old out.old)) (outside source.new disk.new out.new) }
{
    let alloc = shelf.allocator();
    let sums = match receive_all(mend, shelf, source, disk, out, read) {
        Ok(sums) => sums,
        Err(cause) => return cause,
    };
    match put_last(alloc, &sums, out) {
        Ok(()) => cause_at(sums.totals.stop),
        Err(cause) => cause,
    }
}

/// What `receive` does once there is memory for reading: the shelf is loaded, and then the call `read` leads through
/// the input.
fn receive_with<
    S: Source,
    D: Disk,
    O: Sink,
    F: FnOnce(&mut S, &mut Shelver<'_, D, O>) -> Result<ReadCounts, Cause>,
>(alloc: Global, mend: u16, source: &mut S, disk: &mut D, out: &mut O, read: F) -> Cause
    requires mend { mend ≤ most_fillers }
    requires ready { MayLead (F.pre read) (ShelverTook (outlets_of D.Disk O.Sink)) }
    ensures { (input : Input') (workers most : ℕ) → Leads (F.post read)
        (course_of S.Source (ShelverTook (outlets_of D.Disk O.Sink)) input most (leeway_for input workers))
        (ShelverStopped (outlets_of D.Disk O.Sink))
        → ReceiveRun (world_of S.Source D.Disk O.Sink) (receive_query mend input workers most) result
        (outside source.old disk.old out.old) (outside source.new disk.new out.new) }
{
    match shelf_answer(Shelf::load(alloc, disk)) {
        Ok(mut shelf) => receive_onto(mend, &mut shelf, source, disk, out, read),
        Err(refused) => refused,
    }
}

/// Takes at most `most` bytes, and puts their mission files onto the shelf that the disk holds, all on the caller's
/// thread. An image that lacks packets gets `mend` fillers at most; with 0 none is mended. What reading takes of memory
/// is taken first, then the shelf is loaded, and then the source is read.
pub fn receive_alone<S: Source, D: Disk, O: Sink>(
    alloc: Global,
    input: Input,
    mend: u16,
    most: u64,
    source: &mut S,
    disk: &mut D,
    out: &mut O,
) -> Cause
    requires few { most ≤ 2 ^ 48 }
    requires mend { mend ≤ most_fillers }
    ensures { ReceiveRun (world_of S.Source D.Disk O.Sink) (receive_query mend input 1 most) result
        (outside source.old disk.old out.old) (outside source.new disk.new out.new) }
{
    let reader = match Reader::<FrameWork>::new(alloc, input, 1, most, &()) {
        Ok(reader) => reader,
        Err(NoMemory) => return Cause::NoMemory,
    };
    receive_with(
        alloc,
        mend,
        source,
        disk,
        out,
        |source, shelver| -> Result<ReadCounts, Cause>
            requires { ((reader.workers ≡ 1) × (reader.most ≤ 2 ^ 48))
                × ((first : _) × ShelverTook (outlets_of D.Disk O.Sink) first [] shelver.old) }
            ensures { IsLed (course_of S.Source (ShelverTook (outlets_of D.Disk O.Sink)) reader.input reader.most
                (leeway_for reader.input reader.workers)) (ShelverStopped (outlets_of D.Disk O.Sink)) result
                (lent source.old shelver.old) (lent source.new shelver.new) }
        { reader.read_alone(source, shelver) },
    )
}

/// What `receive_alone` does, where this many work on windows of symbols, the caller among them. The memory for their
/// ring and their hands is taken with that for reading.
pub fn receive<R: Threads + Wait + Sync, H: Hand, S: Source, D: Disk, O: Sink>(
    rt: &R,
    alloc: Global,
    tools: &H::Tools,
    input: Input,
    workers: u32,
    mend: u16,
    most: u64,
    source: &mut S,
    disk: &mut D,
    out: &mut O,
) -> Cause
    requires few { most ≤ 2 ^ 48 }
    requires mend { mend ≤ most_fillers }
    requires workers { (1 ≤ workers) × (workers ≤ MOST_WORKERS) }
    ensures { ReceiveRun (world_of S.Source D.Disk O.Sink) (receive_query mend input workers most) result
        (outside source.old disk.old out.old) (outside source.new disk.new out.new) }
{
    let reader = match Reader::<H>::new(alloc, input, workers, most, tools) {
        Ok(reader) => reader,
        Err(NoMemory) => return Cause::NoMemory,
    };
    receive_with(
        alloc,
        mend,
        source,
        disk,
        out,
        |source, shelver| -> Result<ReadCounts, Cause>
            requires { (reader.most ≤ 2 ^ 48) × ((first : _)
                × ShelverTook (outlets_of D.Disk O.Sink) first [] shelver.old) }
            ensures { IsLed (course_of S.Source (ShelverTook (outlets_of D.Disk O.Sink)) reader.input reader.most
                (leeway_for reader.input reader.workers)) (ShelverStopped (outlets_of D.Disk O.Sink)) result
                (lent source.old shelver.old) (lent source.new shelver.new) }
        { reader.read(rt, source, shelver) },
    )
}
