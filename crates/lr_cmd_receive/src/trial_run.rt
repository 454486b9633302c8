//! `trial`: the main job on the test stream, without any input.
ghost use Rattle.std.specs.Prelude.{◌≡◌, ◌≤◌, ◌<◌, ◌^◌, ◌++◌, [], ℕ, List, length, IfOk, IfErr, OnOk};
ghost use Rattle.lr_forms.specs.declared.forms.Stop.TheVariants.{End};
ghost use Rattle.lr_cmd_receive.specs.declared.test_stream.TheConstants.{TEST_DECODING as test_decoding};
ghost use Rattle.lr_shelf_format.specs.ShelfBytes.{end_of};
ghost use Rattle.lr_shelf.specs.Shelf.{IsDurable};
ghost use Rattle.lr_make.specs.Blocks.{block_at};
ghost use Rattle.lr_make.specs.Frames.{frame_at};
ghost use Rattle.lr_make.specs.Received.{IsReceivedAs};
ghost use Rattle.lr_cmd_receive.specs.Filling.{FillsDisk, Fills, StopsFilling};
ghost use Rattle.lr_shelf.specs.InitialShelves.{with_files};
ghost use Rattle.lr_cmd_receive.specs.Made.{made_bytes, test_frames};
ghost use Rattle.lr_cmd_receive.specs.Receive.{receive_last};
ghost use Rattle.lr_cmd_receive.specs.Reception.{sums_line};
ghost use Rattle.lr_reading.specs.Leading.{MayLead, Leads};
ghost use Rattle.lr_reading.specs.Readers.{leeway_for};
ghost use Rattle.lr_reading.specs.Runs.{IsLed, course_of, lent};
ghost use Rattle.lr_cmd_receive.specs.ShelverTaken.{ShelverTook, ShelverStopped};
ghost use Rattle.lr_cmd_receive.specs.Sure.{sure_source, sure_sink};
ghost use Rattle.lr_cmd_receive.specs.Trial.{trial_capacity, trial_files, TrialRun};
ghost use Rattle.lr_forms.specs.declared.forms.Input.TheVariants.{Symbols};
ghost use Rattle.lr_forms.specs.declared.forms.TheConstants.{MOST_BYTES as most_bytes};
ghost use Rattle.lr_causes.specs.Outside.{outlets, outlets_of};

use crate::receive_counts::ReceiveCounts;
use crate::reception::{put_last, receive_all};
use crate::shelver::Shelver;
use crate::test_stream::{TEST_DECODING, TestFrames};
use crate::withdrawal::withdraw;
use lr_bits::{FRAME_SYMBOLS, NoMemory};
use lr_causes::Cause;
use lr_disk::Disk;
use lr_forms::{Input, MOST_BYTES, MOST_WORKERS, Output};
use lr_frame::{FrameWork, Hand};
use lr_io::{Sink, Source, SureSink, SureSource};
use lr_make::{Maker, put_bytes};
use lr_reading::{ReadCounts, Reader};
use lr_refusals::shelf_answer;
use lr_shelf::Shelf;
use std::alloc::Global;
use std::sync::Wait;
use std::thread::Threads;

/// How many bytes the shelf may have.
const CAPACITY: u64 = 1_048_576;

/// The symbols of this many frames, each in a byte. Each of their blocks is received as its frame.
fn stream(alloc: Global, start: u64, frames: u64, wrong: u8) -> Result<Vec<u8>, NoMemory>
    requires few { frames ≤ 1024 }
    requires wrong { wrong ≤ 16 }
    ensures bytes { IfOk result (λ bytes. bytes.items
        ≡ made_bytes Output.Symbols (test_frames start frames wrong)) }
    ensures received { (k : ℕ) → k < frames
        → IfOk result (λ _. IsReceivedAs wrong (frame_at start k) (block_at start wrong k)) }
{
    let mut maker = Maker::new(start, wrong)?;
    let mut all = Vec::with_capacity(alloc, frames as usize * FRAME_SYMBOLS)?;
    let mut symbols = [0; FRAME_SYMBOLS];
    let mut bytes = [0; FRAME_SYMBOLS];
    let mut made = 0;
    'frames: while made < frames {
        maker.next_symbols(&mut symbols)?;
        put_bytes(&symbols, &mut bytes);
        all.extend_from_slice(&bytes)?;
        made += 1;
    }
    Ok(all)
}

/// Puts the files of these symbols onto the empty shelf on the disk.
fn shelve_stream<
    D: Disk,
    F: FnOnce(&mut SureSource, &mut Shelver<'_, D, SureSink>) -> Result<ReadCounts, Cause>,
>(alloc: Global, symbols: Vec<u8>, disk: &mut D, read: F) -> Result<ReceiveCounts, Cause>
    requires ready { MayLead (F.pre read) (ShelverTook (outlets_of D.Disk sure_sink)) }
    requires leads { (workers : ℕ) × Leads (F.post read)
        (course_of sure_source (ShelverTook (outlets_of D.Disk sure_sink)) (Symbols test_decoding) most_bytes
        (leeway_for (Symbols test_decoding) workers))
        (ShelverStopped (outlets_of D.Disk sure_sink)) }
    requires few { length symbols.items < most_bytes }
    requires fit { end_of (with_files [] (trial_files symbols.items))
        ≤ trial_capacity }
    requires empty { D.tells disk.old → IsDurable D.Disk trial_capacity [] disk.old }
    ensures line { IfOk result (λ sums. sums_line sums
        ≡ receive_last 0 (Symbols test_decoding) symbols.items End) }
    ensures done { OnOk result (FillsDisk D.Disk symbols.items Cause.Done disk.old disk.new) }
    ensures stopped { IfErr result (λ cause. StopsFilling D.Disk symbols.items cause
        disk.old disk.new) }
{
    let mut shelf = match shelf_answer(Shelf::load(alloc, disk)) {
        Ok(shelf) => shelf,
        Err(cause) => return Err(cause),
    };
    let mut source = SureSource::of(symbols);
    let mut lines = SureSink::new();
    receive_all(0, &mut shelf, &mut source, disk, &mut lines, read)
}

/// Puts the files of these symbols onto the empty shelf on the disk, and then the last line.
fn fill<
    D: Disk,
    O: Sink,
    F: FnOnce(&mut SureSource, &mut Shelver<'_, D, SureSink>) -> Result<ReadCounts, Cause>,
>(alloc: Global, symbols: Vec<u8>, disk: &mut D, out: &mut O, read: F) -> Cause
    requires ready { MayLead (F.pre read) (ShelverTook (outlets_of D.Disk sure_sink)) }
    requires leads { (workers : ℕ) × Leads (F.post read)
        (course_of sure_source (ShelverTook (outlets_of D.Disk sure_sink)) (Symbols test_decoding) most_bytes
        (leeway_for (Symbols test_decoding) workers))
        (ShelverStopped (outlets_of D.Disk sure_sink)) }
    requires few { length symbols.items < most_bytes }
    requires fit { end_of (with_files [] (trial_files symbols.items))
        ≤ trial_capacity }
    requires empty { D.tells disk.old → IsDurable D.Disk trial_capacity [] disk.old }
    ensures { Fills (outlets_of D.Disk O.Sink) symbols.items result
        (outlets disk.old out.old) (outlets disk.new out.new) }
{
    let sums = match shelve_stream(alloc, symbols, disk, read) {
        Ok(sums) => sums,
        Err(cause) => return cause,
    };
    match put_last(alloc, &sums, out) {
        Ok(()) => Cause::Done,
        Err(cause) => cause,
    }
}

/// What `trial` does once there is memory for reading: that for the symbols is taken, and the call `read` leads through
/// them.
fn trial_with<
    D: Disk,
    O: Sink,
    F: FnOnce(&mut SureSource, &mut Shelver<'_, D, SureSink>) -> Result<ReadCounts, Cause>,
>(alloc: Global, made: TestFrames, disk: &mut D, out: &mut O, read: F) -> Cause
    requires few { made.frames ≤ 1024 }
    requires wrong { made.wrong ≤ 16 }
    requires ready { MayLead (F.pre read) (ShelverTook (outlets_of D.Disk sure_sink)) }
    requires leads { (workers : ℕ) × Leads (F.post read)
        (course_of sure_source (ShelverTook (outlets_of D.Disk sure_sink)) (Symbols test_decoding) most_bytes
        (leeway_for (Symbols test_decoding) workers))
        (ShelverStopped (outlets_of D.Disk sure_sink)) }
    ensures { TrialRun (outlets_of D.Disk O.Sink)
        (made_bytes Output.Symbols (test_frames made.start made.frames made.wrong))
        result (outlets disk.old out.old) (outlets disk.new out.new) }
{
    let symbols = match stream(alloc, made.start, made.frames, made.wrong) {
        Ok(symbols) => symbols,
        Err(NoMemory) => return Cause::NoMemory,
    };
    match shelf_answer(Shelf::init(disk, CAPACITY)) {
        Err(cause) => cause,
        Ok(()) => match fill(alloc, symbols, disk, out, read) {
            Cause::NoMemory => withdraw(disk),
            cause => cause,
        },
    }
}

/// Makes the symbols of this many frames of the test stream, an empty shelf on the disk, and puts the mission files
/// of the symbols onto it, all on the caller's thread. The last line alone is printed. The memory for the symbols, and
/// for reading them, is taken first. Where memory is refused later, and no file stands on the shelf yet, the shelf is
/// taken away again.
pub fn trial_alone<D: Disk, O: Sink>(
    alloc: Global,
    start: u64,
    frames: u64,
    wrong: u8,
    disk: &mut D,
    out: &mut O,
) -> Cause
    requires few { frames ≤ 1024 }
    requires wrong { wrong ≤ 16 }
    ensures { TrialRun (outlets_of D.Disk O.Sink) (made_bytes Output.Symbols (test_frames start frames wrong))
        result (outlets disk.old out.old) (outlets disk.new out.new) }
{
    let input = Input::Symbols(TEST_DECODING);
    let reader = match Reader::<FrameWork>::new(alloc, input, 1, MOST_BYTES, &()) {
        Ok(reader) => reader,
        Err(NoMemory) => return Cause::NoMemory,
    };
    trial_with(
        alloc,
        TestFrames {
            start,
            frames,
            wrong,
        },
        disk,
        out,
        |source, shelver| -> Result<ReadCounts, Cause>
            requires { ((reader.workers ≡ 1) × (reader.most ≤ 2 ^ 48))
                × ((first : _) × ShelverTook (outlets_of D.Disk sure_sink) first [] shelver.old) }
            ensures { IsLed (course_of sure_source (ShelverTook (outlets_of D.Disk sure_sink)) reader.input reader.most
                (leeway_for reader.input reader.workers)) (ShelverStopped (outlets_of D.Disk sure_sink)) result
                (lent source.old shelver.old) (lent source.new shelver.new) }
        { reader.read_alone(source, shelver) },
    )
}

/// What `trial_alone` does, where this many work on windows, the caller among them.
pub fn trial<R: Threads + Wait + Sync, H: Hand, D: Disk, O: Sink>(
    rt: &R,
    alloc: Global,
    tools: &H::Tools,
    start: u64,
    frames: u64,
    wrong: u8,
    workers: u32,
    disk: &mut D,
    out: &mut O,
) -> Cause
    requires few { frames ≤ 1024 }
    requires wrong { wrong ≤ 16 }
    requires workers { (1 ≤ workers) × (workers ≤ MOST_WORKERS) }
    ensures { TrialRun (outlets_of D.Disk O.Sink) (made_bytes Output.Symbols (test_frames start frames wrong))
        result (outlets disk.old out.old) (outlets disk.new out.new) }
{
    let input = Input::Symbols(TEST_DECODING);
    let reader = match Reader::<H>::new(alloc, input, workers, MOST_BYTES, tools) {
        Ok(reader) => reader,
        Err(NoMemory) => return Cause::NoMemory,
    };
    trial_with(
        alloc,
        TestFrames {
            start,
            frames,
            wrong,
        },
        disk,
        out,
        |source, shelver| -> Result<ReadCounts, Cause>
            requires { (reader.most ≤ 2 ^ 48) × ((first : _)
                × ShelverTook (outlets_of D.Disk sure_sink) first [] shelver.old) }
            ensures { IsLed (course_of sure_source (ShelverTook (outlets_of D.Disk sure_sink)) reader.input reader.most
                (leeway_for reader.input reader.workers)) (ShelverStopped (outlets_of D.Disk sure_sink)) result
                (lent source.old shelver.old) (lent source.new shelver.new) }
        { reader.read(rt, source, shelver) },
    )
}
