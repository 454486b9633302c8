//! `decode`: a line for what became of each window or block.
ghost use Rattle.std.specs.Prelude.{◌≡◌, ◌≤◌, ◌<◌, ◌+◌, ◌-◌, ◌^◌, ◌++◌, List, [], ℕ, IfOk, IfErr, OnOk, count_by, cond};
ghost use Rattle.lr_bits.specs.Outcomes.{is_restored};
ghost use Rattle.lr_catalog.specs.Summaries.{summary_line};
ghost use Rattle.lr_reading.specs.Inputs.{outcomes_of_bytes};
ghost use Rattle.lr_reading.specs.Leading.{MayLead, Leads};
ghost use Rattle.lr_reading.specs.Readers.{leeway_for};
ghost use Rattle.lr_reading.specs.Runs.{ReadsInput, IsLed, course_of, lent};
ghost use Rattle.lr_cmd_print.specs.Decode.{decode_text, sums_of, decode_printed};
ghost use Rattle.lr_cmd_print.specs.DecodeTaken.{OutcomesTook, OutcomesStopped};
ghost use Rattle.lr_cmd_print.specs.OutcomeLines.{outcome_text};
ghost use Rattle.lr_cmd_print.specs.Printing.{Prints};
ghost use Rattle.lr_cmd_print.specs.Progress.{LinesComeFirst};
ghost use Rattle.lr_causes.specs.Outside.{pipe, pipe_of};
ghost use Rattle.lr_causes.specs.Puts.{Puts, PutStops};

use lr_bits::{Bytes, NoMemory, Outcome};
use lr_catalog::{DecodeSums, Summary, block_line, summary_line, window_line};
use lr_causes::{Cause, cause_at, put_text};
use lr_forms::{Input, MOST_WORKERS};
use lr_frame::{FrameWork, Hand};
use lr_io::{Sink, Source};
use lr_reading::{Arrival, Consumer, ReadCounts, Reader};
use std::alloc::Global;
use std::sync::Wait;
use std::thread::Threads;

/// Puts a line for each outcome, of which it took this many, and counts those that are restored.
#[derive(Drop)]
pub(crate) struct OutcomeLines<'a, O> {
    pub alloc: Global,
    pub outcomes: u64,
    pub restored: u64,
    pub out: &'a mut O,
}

impl<'a, O: Sink> Consumer for OutcomeLines<'a, O> {
    ghost use Rattle.std.specs.Prelude.{◌^◌};
    ghost use Rattle.lr_cmd_print.specs.DecodeTaken.{OutcomesTook, OutcomesStopped};

    type Cause = Cause;

    ghost most = { 2 ^ 48 };

    ghost took = { λ c arrivals now. OutcomesTook O.Sink c arrivals now };

    ghost stopped = { λ c arrivals cause now. OutcomesStopped O.Sink c arrivals cause now };

    fn take(&mut self, arrival: &Arrival) -> Result<(), Cause> {
        put_outcome(self.alloc, self.outcomes, arrival, self.out)?;
        self.outcomes += 1;
        self.restored = count_restored(self.restored, &arrival.outcome);
        Ok(())
    }

    fn no_memory(&self) -> Cause {
        Cause::NoMemory
    }
}

/// How many outcomes are restored, with one more.
fn count_restored(restored: u64, outcome: &Outcome) -> u64
    requires { restored + 1 < 2 ^ 64 }
    ensures { result ≡ restored + cond (is_restored outcome.now) 1 0 }
{
    match outcome {
        Outcome::Restored(_, _) => restored + 1,
        Outcome::Lost(_) => restored,
    }
}

/// Composes the line of an outcome.
fn outcome_line(
    alloc: Global,
    place: u64,
    arrival: &Arrival,
    line: &mut Bytes,
) -> Result<(), NoMemory>
    ensures { OnOk result (line.new ≡ line.old
        ++ outcome_text place arrival.now.position arrival.now.outcome) }
{
    let outcome = &arrival.outcome;
    match arrival.position {
        Some(at) => window_line(alloc, place, at.place, at.positive, outcome, line),
        None => block_line(alloc, place, outcome, line),
    }
}

/// Puts the line of a window or a block.
fn put_outcome<O: Sink>(
    alloc: Global,
    place: u64,
    arrival: &Arrival,
    out: &mut O,
) -> Result<(), Cause>
    ensures put { IfOk result (λ _. Puts O.Sink (outcome_text place arrival.now.position
        arrival.now.outcome) out.old out.new) }
    ensures stopped { IfErr result (λ cause. PutStops O.Sink
        (outcome_text place arrival.now.position arrival.now.outcome) cause out.old out.new) }
{
    let mut line = Bytes::new(alloc);
    outcome_line(alloc, place, arrival, &mut line)?;
    put_text(line.as_slice(), out)
}

/// Puts the lines of all outcomes of this input, through which the call `read` leads, and answers how many are
/// restored.
fn put_each_outcome<
    S: Source,
    O: Sink,
    F: FnOnce(&mut S, &mut OutcomeLines<'_, O>) -> Result<ReadCounts, Cause>,
>(
    alloc: Global,
    input: Input,
    most: u64,
    source: &mut S,
    out: &mut O,
    read: F,
) -> Result<(ReadCounts, u64), Cause>
    requires ready { MayLead (F.pre read) (OutcomesTook O.Sink) }
    ensures all { (workers : ℕ) → Leads (F.post read)
        (course_of S.Source (OutcomesTook O.Sink) input most (leeway_for input workers)) (OutcomesStopped O.Sink)
        → IfOk result (λ sums. (bytes : List ℕ)
        × ReadsInput S.Source input most bytes sums.0 source.old source.new
        × (sums.1 ≡ count_by is_restored (outcomes_of_bytes input bytes))
        × Puts O.Sink (decode_text input bytes) out.old out.new
        × LinesComeFirst S.Source (decode_printed input workers most) bytes source.old source.new) }
    ensures stopped { (workers : ℕ) → Leads (F.post read)
        (course_of S.Source (OutcomesTook O.Sink) input most (leeway_for input workers)) (OutcomesStopped O.Sink)
        → IfErr result (λ cause. Prints (pipe_of S.Source O.Sink) (decode_printed input workers most) cause
        (pipe source.old out.old) (pipe source.new out.new)) }
{
    let mut lines = OutcomeLines {
        alloc,
        outcomes: 0,
        restored: 0,
        out,
    };
    let totals = read(source, &mut lines)?;
    Ok((totals, lines.restored))
}

/// The last line.
fn put_last<O: Sink>(
    alloc: Global,
    totals: &ReadCounts,
    restored: u64,
    out: &mut O,
) -> Result<(), Cause>
    requires { restored ≤ totals.now.frames }
    ensures put { IfOk result (λ _. Puts O.Sink
        (summary_line (Summary.Decode (sums_of totals.now restored)) totals.now.stop) out.old out.new) }
    ensures stopped { IfErr result (λ cause. PutStops O.Sink
        (summary_line (Summary.Decode (sums_of totals.now restored)) totals.now.stop) cause out.old out.new) }
{
    let mut line = Bytes::new(alloc);
    let summary = Summary::Decode(DecodeSums {
        symbols: totals.symbols,
        frames: totals.frames,
        restored,
        lost: totals.frames - restored,
        left: totals.left,
    });
    summary_line(alloc, &summary, totals.stop, &mut line)?;
    put_text(line.as_slice(), out)
}

/// What `decode` does, where the call `read` leads through this input.
fn decode_with<
    S: Source,
    O: Sink,
    F: FnOnce(&mut S, &mut OutcomeLines<'_, O>) -> Result<ReadCounts, Cause>,
>(alloc: Global, input: Input, most: u64, source: &mut S, out: &mut O, read: F) -> Cause
    requires ready { MayLead (F.pre read) (OutcomesTook O.Sink) }
    requires leads { (workers : ℕ) × Leads (F.post read)
        (course_of S.Source (OutcomesTook O.Sink) input most (leeway_for input workers)) (OutcomesStopped O.Sink) }
    ensures { (workers : ℕ) → Leads (F.post read)
        (course_of S.Source (OutcomesTook O.Sink) input most (leeway_for input workers)) (OutcomesStopped O.Sink)
        → Prints (pipe_of S.Source O.Sink) (decode_printed input workers most)
        result (pipe source.old out.old) (pipe source.new out.new) }
{
    let (totals, restored) = match put_each_outcome(alloc, input, most, source, out, read) {
        Ok(sums) => sums,
        Err(cause) => return cause,
    };
    match put_last(alloc, &totals, restored, out) {
        Ok(()) => cause_at(totals.stop),
        Err(cause) => cause,
    }
}

/// A line for what became of each window or block of the source, and a last line, all on the caller's thread. At
/// most `most` bytes are taken.
pub fn decode_alone<S: Source, O: Sink>(
    alloc: Global,
    input: Input,
    most: u64,
    source: &mut S,
    out: &mut O,
) -> Cause
    requires few { most ≤ 2 ^ 48 }
    ensures { Prints (pipe_of S.Source O.Sink) (decode_printed input 1 most)
        result (pipe source.old out.old) (pipe source.new out.new) }
{
    let reader = match Reader::<FrameWork>::new(alloc, input, 1, most, &()) {
        Ok(reader) => reader,
        Err(NoMemory) => return Cause::NoMemory,
    };
    decode_with(
        alloc,
        input,
        most,
        source,
        out,
        |source, lines| -> Result<ReadCounts, Cause>
            requires { ((reader.workers ≡ 1) × (reader.most ≤ 2 ^ 48))
                × ((first : _) × OutcomesTook O.Sink first [] lines.old) }
            ensures { IsLed (course_of S.Source (OutcomesTook O.Sink) reader.input reader.most
                (leeway_for reader.input reader.workers)) (OutcomesStopped O.Sink) result
                (lent source.old lines.old) (lent source.new lines.new) }
        { reader.read_alone(source, lines) },
    )
}

/// What `decode_alone` does, where this many work on windows of symbols, the caller among them.
pub fn decode<R: Threads + Wait + Sync, H: Hand, S: Source, O: Sink>(
    rt: &R,
    alloc: Global,
    tools: &H::Tools,
    input: Input,
    workers: u32,
    most: u64,
    source: &mut S,
    out: &mut O,
) -> Cause
    requires few { most ≤ 2 ^ 48 }
    requires workers { (1 ≤ workers) × (workers ≤ MOST_WORKERS) }
    ensures { Prints (pipe_of S.Source O.Sink) (decode_printed input workers most)
        result (pipe source.old out.old) (pipe source.new out.new) }
{
    let reader = match Reader::<H>::new(alloc, input, workers, most, tools) {
        Ok(reader) => reader,
        Err(NoMemory) => return Cause::NoMemory,
    };
    decode_with(
        alloc,
        input,
        most,
        source,
        out,
        |source, lines| -> Result<ReadCounts, Cause>
            requires { (reader.most ≤ 2 ^ 48) × ((first : _)
                × OutcomesTook O.Sink first [] lines.old) }
            ensures { IsLed (course_of S.Source (OutcomesTook O.Sink) reader.input reader.most
                (leeway_for reader.input reader.workers)) (OutcomesStopped O.Sink) result
                (lent source.old lines.old) (lent source.new lines.new) }
        { reader.read(rt, source, lines) },
    )
}
