//! A consumer is led through the windows of a source: what the rounds of `lr_rounds` ask for.
ghost use Rattle.std.specs.Prelude.{◌≡◌, ◌<◌, ◌+◌, ◌^◌, ◌++◌, ◌∷◌, [], ℕ, List, OnOk, IfErr, vec_len, vec_capacity};
ghost use Rattle.lr_forms.specs.declared.forms.Decoding.{Decoding};
ghost use Rattle.lr_frame.specs.Hands.{done_of};
ghost use Rattle.lr_reading.specs.Feeding.{symbols_from};
ghost use Rattle.lr_reading.specs.Reading.{at_source};
ghost use Rattle.lr_reading.specs.WindowSources.{
  Progress,
  arrival_of_window,
  IsGiven,
  HasNextJob,
  stream_of,
  LeavesFewer,
  MayHandOver,
};
ghost use Rattle.lr_reading.specs.declared.arrival.Arrival.{Arrival};

use crate::arrival::{Arrival, Position};
use crate::consumer::Consumer;
use crate::intake::Intake;
use crate::next::Found;
use lr_frame::{FrameDone, Hand, Hired};
use lr_io::Source;
use lr_lock::Window;
use lr_rounds::{JobSource, NextJob};

/// What fills windows, where their symbols come from, and who takes what becomes of them.
#[derive(Drop)]
pub(crate) struct WindowSource<'i, 's, 'c, S, C> {
    pub intake: &'i mut Intake,
    pub source: &'s mut S,
    pub consumer: &'c mut C,
}

/// Where the frame of a window stands.
fn position_of(window: &Window) -> Position
    ensures place { result.place ≡ window.now.position }
    ensures positive { result.positive ≡ window.now.positive }
{
    Position {
        place: window.position(),
        positive: window.positive(),
    }
}

/// Fills a spare window with the next frame, or ends the input. While the lock searches, it asks the source only once
/// no window is under way.
fn next_window<S: Source>(intake: &mut Intake, source: &mut S) -> NextJob<Window>
    requires { (decoding : Decoding) × (limit : ℕ) × (so_far : Progress _)
        × IsGiven (stream_of (symbols_from S.Source decoding) limit) so_far (at_source intake.old source.old) }
    ensures offers { (decoding : Decoding) (limit : ℕ) (so_far : Progress _)
        → IsGiven (stream_of (symbols_from S.Source decoding) limit) so_far (at_source intake.old source.old)
        → HasNextJob (stream_of (symbols_from S.Source decoding) limit) result so_far (at_source intake.old source.old)
        (at_source intake.new source.new) }
    ensures less { LeavesFewer result intake.old intake.new }
{
    if intake.ended.is_some() {
        return NextJob::Finished;
    }
    if intake.spare.is_empty() {
        return NextJob::NotYet;
    }
    let under_way = intake.is_under_way();
    let Some(mut window) = intake.spare.pop() else {
        unreachable!()
    };
    match intake.feed.next(source, &mut window, under_way) {
        Found::Whole => NextJob::Job(window),
        Found::Noise => {
            intake.spare.push_reserved(window);
            NextJob::NotYet
        }
        Found::Ended(stop) => {
            intake.spare.push_reserved(window);
            intake.ended = Some(stop);
            NextJob::Finished
        }
    }
}

/// Hands what became of a window to the consumer. Then the window is spare.
fn hand_over<C: Consumer>(
    intake: &mut Intake,
    consumer: &mut C,
    done: FrameDone,
) -> Result<(), C::Cause>
    requires is { done ≡ done_of done.window }
    requires may { MayHandOver C.took C.most consumer.old }
    requires room { vec_len intake.old.spare < vec_capacity intake.old.spare }
    requires few { intake.old.frames < 2 ^ 60 }
    ensures spare { OnOk result (intake.new.spare.items ≡ intake.old.spare.items ++ done.window ∷ []) }
    ensures room { OnOk result (vec_capacity intake.new.spare ≡ vec_capacity intake.old.spare) }
    ensures same { OnOk result ((intake.new.feed ≡ intake.old.feed) × (intake.new.ended ≡ intake.old.ended)
        × (intake.new.frames ≡ intake.old.frames + 1)) }
    ensures takes { (c : C) (arrivals : List Arrival) → C.took c arrivals consumer.old
        → OnOk result (C.took c (arrivals ++ arrival_of_window done.window ∷ []) consumer.new) }
    ensures stops { (c : C) (arrivals : List Arrival) → C.took c arrivals consumer.old
        → IfErr result (λ cause. C.stopped c (arrivals ++ arrival_of_window done.window ∷ []) cause consumer.new) }
{
    let FrameDone { window, outcome } = done;
    let arrival = Arrival {
        position: Some(position_of(&window)),
        outcome,
    };
    consumer.take(&arrival)?;
    intake.spare.push_reserved(window);
    intake.frames += 1;
    Ok(())
}

impl<'i, 's, 'c, H: Hand, S: Source, C: Consumer> JobSource<Hired<H>>
    for WindowSource<'i, 's, 'c, S, C> {
    type Cause = C::Cause;

    ghost use Rattle.lr_reading.specs.WindowSources.{window_terms};

    ghost terms = { window_terms S.Source C.Consumer };

    fn next(&mut self) -> Result<NextJob<Window>, C::Cause> {
        Ok(next_window(self.intake, self.source))
    }

    /// No: the source may wait for symbols, and what is done goes out before that.
    fn gives_at_once(&self) -> bool {
        false
    }

    fn keep(&mut self, done: FrameDone) -> Result<(), C::Cause> {
        hand_over(self.intake, self.consumer, done)
    }
}
