//! `frames`: a line for each transfer frame.
ghost use Rattle.std.specs.Prelude.{◌≡◌, ◌<◌, ◌^◌, ◌++◌, List, ℕ, IfOk, IfErr, IsOk, false};
ghost use Rattle.lr_bits.specs.Outcomes.{is_restored};
ghost use Rattle.lr_catalog.specs.Summaries.{summary_line};
ghost use Rattle.lr_reading.specs.Runs.{ReadsInput};
ghost use Rattle.lr_forms.specs.declared.forms.Input.TheVariants.{Units};
ghost use Rattle.lr_forms.specs.declared.forms.UnitForm.TheVariants.{Frames};
ghost use Rattle.lr_cmd_print.specs.Frames.{frames_text, frames_printed};
ghost use Rattle.lr_cmd_print.specs.FrameLines.{frame_text};
ghost use Rattle.lr_cmd_print.specs.Printing.{Prints, PrintsAll};
ghost use Rattle.lr_cmd_print.specs.Progress.{LinesComeFirst};
ghost use Rattle.lr_causes.specs.Outside.{pipe, pipe_of};
ghost use Rattle.lr_causes.specs.Puts.{Puts, PutStops};

use lr_bits::{Bytes, Outcome};
use lr_catalog::{Summary, frame_line, summary_line};
use lr_causes::{Cause, cause_at, put_text};
use lr_forms::{Input, Stop, UnitForm};
use lr_frame::FrameWork;
use lr_io::{Sink, Source};
use lr_reading::{Arrival, Consumer, ReadCounts, Reader};
use lr_vc::TransferFrame;
use std::alloc::Global;

/// Puts a line for each frame, of which it took this many.
#[derive(Drop)]
pub(crate) struct FrameLines<'a, O> {
    pub alloc: Global,
    pub frames: u64,
    pub out: &'a mut O,
}

impl<'a, O: Sink> Consumer for FrameLines<'a, O> {
    ghost use Rattle.lr_cmd_print.specs.FramesTaken.{FramesTook, FramesStopped};
    ghost use Rattle.std.specs.Prelude.{◌^◌, ◌-◌};

    type Cause = Cause;

    ghost most = { 2 ^ 64 - 1 };

    ghost took = { λ c arrivals now. FramesTook O.Sink c arrivals now };

    ghost stopped = { λ c arrivals cause now. FramesStopped O.Sink c arrivals cause now };

    fn take(&mut self, arrival: &Arrival) -> Result<(), Cause> {
        put_frame(self.alloc, self.frames, &arrival.outcome, self.out)?;
        self.frames += 1;
        Ok(())
    }

    fn no_memory(&self) -> Cause {
        Cause::NoMemory
    }
}

/// Puts the line of a frame. A block that was lost has none.
fn put_frame<O: Sink>(
    alloc: Global,
    place: u64,
    outcome: &Outcome,
    out: &mut O,
) -> Result<(), Cause>
    ensures put { IfOk result (λ _. Puts O.Sink (frame_text place outcome.now) out.old out.new) }
    ensures stopped { IfErr result
        (λ cause. PutStops O.Sink (frame_text place outcome.now) cause out.old out.new) }
    // A block that was lost takes no memory.
    ensures succeeds { is_restored outcome.now ≡ false → IsOk result }
{
    match outcome {
        Outcome::Restored(_, frame) => {
            let mut line = Bytes::new(alloc);
            frame_line(alloc, place, &TransferFrame::read(frame), &mut line)?;
            put_text(line.as_slice(), out)
        }
        Outcome::Lost(_) => Ok(()),
    }
}

fn put_each_frame<S: Source, O: Sink>(
    alloc: Global,
    reader: Reader<FrameWork>,
    source: &mut S,
    out: &mut O,
) -> Result<ReadCounts, Cause>
    requires input { reader.input ≡ Units Frames }
    requires alone { reader.workers ≡ 1 }
    requires few { reader.most < 2 ^ 64 }
    ensures all { IfOk result (λ totals. (bytes : List ℕ)
        × ReadsInput S.Source (Units Frames) reader.most bytes totals source.old source.new
        × Puts O.Sink (frames_text bytes) out.old out.new
        × LinesComeFirst S.Source (frames_printed reader.most) bytes source.old source.new) }
    ensures stopped { IfErr result (λ cause.
        Prints (pipe_of S.Source O.Sink) (frames_printed reader.most) cause
        (pipe source.old out.old) (pipe source.new out.new)) }
{
    let mut lines = FrameLines {
        alloc,
        frames: 0,
        out,
    };
    let totals = reader.read_alone(source, &mut lines)?;
    Ok(totals)
}

fn put_last<O: Sink>(alloc: Global, totals: &ReadCounts, out: &mut O) -> Result<(), Cause>
    ensures put { IfOk result (λ _. Puts O.Sink
        (summary_line (Summary.Frames totals.now.frames totals.now.left) totals.now.stop)
        out.old out.new) }
    ensures stopped { IfErr result
        (λ cause. PutStops O.Sink (summary_line (Summary.Frames totals.now.frames totals.now.left)
        totals.now.stop) cause out.old out.new) }
{
    let mut line = Bytes::new(alloc);
    let summary = Summary::Frames {
        frames: totals.frames,
        left: totals.left,
    };
    summary_line(alloc, &summary, totals.stop, &mut line)?;
    put_text(line.as_slice(), out)
}

fn put_frames<S: Source, O: Sink>(
    alloc: Global,
    most: u64,
    source: &mut S,
    out: &mut O,
) -> Result<Stop, Cause>
    ensures all { IfOk result
        (λ stop. PrintsAll (pipe_of S.Source O.Sink) (frames_printed most) stop
        (pipe source.old out.old) (pipe source.new out.new)) }
    ensures stopped { IfErr result
        (λ cause. Prints (pipe_of S.Source O.Sink) (frames_printed most) cause
        (pipe source.old out.old) (pipe source.new out.new)) }
{
    let input = Input::Units(UnitForm::Frames);
    let reader = Reader::<FrameWork>::new(alloc, input, 1, most, &())?;
    let totals = put_each_frame(alloc, reader, source, out)?;
    put_last(alloc, &totals, out)?;
    Ok(totals.stop)
}

/// A line for each frame of the source, and a last line. At most `most` bytes are taken.
pub fn frames<S: Source, O: Sink>(alloc: Global, most: u64, source: &mut S, out: &mut O) -> Cause
    ensures { Prints (pipe_of S.Source O.Sink) (frames_printed most) result
        (pipe source.old out.old) (pipe source.new out.new) }
{
    match put_frames(alloc, most, source, out) {
        Ok(stop) => cause_at(stop),
        Err(cause) => cause,
    }
}
