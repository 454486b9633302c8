//! Windows into a consumer, by one or by many.
ghost use Rattle.std.specs.Prelude.{◌≡◌, ◌≤◌, [], Some, IsSome};
ghost use Rattle.lr_reading.specs.Intakes.{IsFreshIntake};
ghost use Rattle.lr_reading.specs.Runs.{IsLed, course_of, lent};
ghost use Rattle.lr_reading.specs.WindowSources.{ComesTo, decoding_of, leeway_in};
ghost use Rattle.lr_forms.specs.declared.forms.Input.TheVariants.{Symbols};

use crate::consumer::Consumer;
use crate::intake::Intake;
use crate::read_counts::ReadCounts;
use crate::symbol_parts::SymbolParts;
use crate::window_source::WindowSource;
use lr_frame::{Hand, Hired};
use lr_io::Source;
use lr_rounds::{DriveFault, WorkerPool, drive, drive_alone};
use std::sync::Wait;
use std::thread::Threads;

/// What was read, where the input ended.
fn totals_of(intake: &Intake) -> ReadCounts
    requires { IsSome intake.now.ended }
    ensures symbols { result.symbols ≡ intake.now.feed.taken }
    ensures frames { result.frames ≡ intake.now.frames }
    ensures left { result.left ≡ 0 }
    ensures stop { intake.now.ended ≡ Some result.stop }
{
    let Some(stop) = intake.ended else {
        unreachable!()
    };
    ReadCounts {
        symbols: intake.feed.bytes_taken(),
        frames: intake.frames,
        left: 0,
        stop,
    }
}

/// Leads to the end of the input on the caller's thread.
fn go_alone<H: Hand, S: Source, C: Consumer>(
    pool: WorkerPool<Hired<H>>,
    job_source: &mut WindowSource<'_, '_, '_, S, C>,
) -> Result<ReadCounts, C::Cause>
    requires alone { pool.seats ≡ 0 }
    requires fresh { IsFreshIntake job_source.old.intake.now.feed.most job_source.old.intake.now }
    requires few { job_source.old.intake.now.feed.most ≤ C.most }
    requires ready { (c : C) × C.took c [] job_source.old.consumer.now }
    ensures { ComesTo S.Source C.Consumer result job_source.old job_source.new }
{
    drive_alone(pool, job_source)?;
    Ok(totals_of(job_source.intake))
}

/// Leads to the end of the input, by all of the pool.
fn go_by_all<R: Threads + Wait + Sync, H: Hand, S: Source, C: Consumer>(
    rt: &R,
    pool: WorkerPool<Hired<H>>,
    job_source: &mut WindowSource<'_, '_, '_, S, C>,
) -> Result<ReadCounts, C::Cause>
    requires fresh { IsFreshIntake job_source.old.intake.now.feed.most job_source.old.intake.now }
    requires few { job_source.old.intake.now.feed.most ≤ C.most }
    requires ready { (c : C) × C.took c [] job_source.old.consumer.now }
    ensures { ComesTo S.Source C.Consumer result job_source.old job_source.new }
{
    match drive(rt, pool, job_source) {
        Ok(()) => Ok(totals_of(job_source.intake)),
        Err(DriveFault::Stopped(cause)) => Err(cause),
        Err(DriveFault::NoMemory) => Err(job_source.consumer.no_memory()),
    }
}

/// Leads the consumer through what becomes of the window of each frame, on the caller's thread.
pub(crate) fn read_windows<H: Hand, S: Source, C: Consumer>(
    symbol_parts: SymbolParts<H>,
    source: &mut S,
    consumer: &mut C,
) -> Result<ReadCounts, C::Cause>
    requires fresh { IsFreshIntake symbol_parts.intake.feed.most symbol_parts.intake }
    requires alone { symbol_parts.pool.seats ≡ 0 }
    requires few { symbol_parts.intake.feed.most ≤ C.most }
    requires ready { (c : C) × C.took c [] consumer.old }
    ensures { IsLed (course_of S.Source C.took (Symbols (decoding_of symbol_parts.intake))
        symbol_parts.intake.feed.most (leeway_in symbol_parts.intake)) C.stopped result
        (lent source.old consumer.old) (lent source.new consumer.new) }
{
    let SymbolParts { mut intake, pool } = symbol_parts;
    let mut job_source = WindowSource {
        intake: &mut intake,
        source,
        consumer,
    };
    go_alone(pool, &mut job_source)
}

/// Leads the consumer through what becomes of the window of each frame, by all of the pool.
pub(crate) fn read_by_all<R: Threads + Wait + Sync, H: Hand, S: Source, C: Consumer>(
    rt: &R,
    symbol_parts: SymbolParts<H>,
    source: &mut S,
    consumer: &mut C,
) -> Result<ReadCounts, C::Cause>
    requires fresh { IsFreshIntake symbol_parts.intake.feed.most symbol_parts.intake }
    requires few { symbol_parts.intake.feed.most ≤ C.most }
    requires ready { (c : C) × C.took c [] consumer.old }
    ensures { IsLed (course_of S.Source C.took (Symbols (decoding_of symbol_parts.intake))
        symbol_parts.intake.feed.most (leeway_in symbol_parts.intake)) C.stopped result
        (lent source.old consumer.old) (lent source.new consumer.new) }
{
    let SymbolParts { mut intake, pool } = symbol_parts;
    let mut job_source = WindowSource {
        intake: &mut intake,
        source,
        consumer,
    };
    go_by_all(rt, pool, &mut job_source)
}
