//! The entries of a shelf are led through a ring, strip by strip, and their images put.
ghost use Rattle.std.specs.Prelude.{◌≡◌, ◌<◌, ◌≤◌, [], IfErr, MatchBool, OnOk, Some, None};
ghost use Rattle.std.specs.VecDeque.{deque_capacity, deque_len};
ghost use Rattle.lr_rounds.specs.JobSources.{Led};
ghost use Rattle.lr_render.specs.declared.strip.StripSource.{StripSource};
ghost use Rattle.lr_causes.specs.declared.cause.Cause.TheVariants.{Refused};
ghost use Rattle.lr_causes.specs.declared.cause.Refusal.{Refusal};
ghost use Rattle.lr_cmd_render.specs.Leading.{RenderGoes, PutsImages, ReadsOne, Stands, StopsFor, TakesIn};
ghost use Rattle.lr_cmd_render.specs.Leading.{count_in, images_under_way};
ghost use Rattle.lr_cmd_render.specs.Queues.{AllGiven};
ghost use Rattle.lr_cmd_render.specs.declared.render_source.RenderSource.{RenderSource};

use crate::content::{Content, read_content};
use crate::outcome::put_outcome;
use crate::queue::Queue;
use crate::sizes::MOST_ENTRIES;
use crate::tally::Tally;
use lr_causes::{Cause, Refusal};
use lr_disk::Disk;
use lr_io::Sink;
use lr_render::{DoneStrip, RenderWork, Strip};
use lr_rounds::{JobSource, NextJob};
use lr_shelf::Shelf;
use std::alloc::Global;

/// The entries of a shelf, from the next one on, and the images that are under way.
#[derive(Drop)]
pub(crate) struct RenderSource<'d, 'o, D, O> {
    pub alloc: Global,
    pub shelf: Shelf,
    pub disk: &'d mut D,
    pub out: &'o mut O,
    /// The number of the next entry.
    pub next: u64,
    pub queue: Queue,
    pub tally: Tally,
    /// What the run is refused for at the next entry, once all earlier images were put.
    pub refusal: Option<Refusal>,
}

impl<'d, 'o, D: Disk, O: Sink> RenderSource<'d, 'o, D, O> {
    /// Whether no further entry is to be read.
    fn is_last(&self) -> bool
        ensures { MatchBool result (self.now.refusal ≡ None → count_in self.now ≤ self.now.next)
            ((self.now.refusal ≡ None) × (self.now.next < count_in self.now)) }
    {
        self.refusal.is_some() || self.next >= self.shelf.len()
    }

    /// Takes out each image at the front of which all strips were given and kept, and puts it.
    fn put_complete(&mut self) -> Result<(), Cause>
        requires { (led : Led (RenderSource D O) StripSource) × RenderGoes D.Disk O.Sink led self.old }
        ensures puts { (led : Led (RenderSource D O) StripSource) → RenderGoes D.Disk O.Sink led self.old
            → OnOk result (Stands D.Disk O.Sink led self.new) }
        ensures same { OnOk result (PutsImages self.old self.new) }
        ensures stops { (led : Led (RenderSource D O) StripSource) → RenderGoes D.Disk O.Sink led self.old
            → IfErr result (λ cause. StopsFor D.Disk O.Sink led.start cause self.new) }
    {
        while let Some(plan) = self.queue.take_complete() {
            put_outcome(self.alloc, plan, &mut self.tally, self.out)?;
        }
        Ok(())
    }

    /// Reads the next entry. All strips of the images under way were given.
    fn read_next(&mut self) -> Result<(), Cause>
        requires going { (led : Led (RenderSource D O) StripSource) × RenderGoes D.Disk O.Sink led self.old }
        requires given { AllGiven (images_under_way self.old) }
        requires none { self.old.refusal ≡ None }
        requires more { self.old.next < count_in self.old }
        requires room { deque_len self.old.queue.images < deque_capacity self.old.queue.images }
        ensures reads { (led : Led (RenderSource D O) StripSource) → RenderGoes D.Disk O.Sink led self.old
            → OnOk result (RenderGoes D.Disk O.Sink led self.new) }
        ensures one { OnOk result (ReadsOne self.old self.new) }
        ensures stops { (led : Led (RenderSource D O) StripSource) → RenderGoes D.Disk O.Sink led self.old
            → IfErr result (λ cause. StopsFor D.Disk O.Sink led.start cause self.new) }
    {
        match read_content(self.alloc, self.next, &mut self.shelf, self.disk) {
            Ok(content) => {
                self.take_in(content);
                Ok(())
            }
            Err(cause) => match cause {
                Cause::Refused(refusal) => {
                    self.refusal = Some(refusal);
                    Ok(())
                }
                other => Err(other),
            },
        }
    }

    /// Takes in what the next entry holds.
    fn take_in(&mut self, content: Content)
        requires few { self.old.next < MOST_ENTRIES }
        requires counted { self.old.tally.skipped ≤ self.old.next }
        requires room { deque_len self.old.queue.images < deque_capacity self.old.queue.images }
        ensures { TakesIn content self.old self.new }
    {
        match content {
            Content::Gone => {}
            Content::NoImage => self.tally.skipped += 1,
            Content::Image(plan) => self.queue.join(plan),
        }
        self.next += 1;
    }

    /// Refuses what waits to be refused, where no image is under way.
    fn refuse(&self) -> Result<(), Cause>
        ensures none { OnOk result ((refusal : Refusal) → self.now.refusal ≡ Some refusal
            → images_under_way self.now ≡ [] → ⊥) }
        ensures refused { IfErr result (λ cause. (refusal : Refusal) × (cause ≡ Refused refusal)
            × (self.now.refusal ≡ Some refusal) × (images_under_way self.now ≡ [])) }
    {
        match self.refusal {
            Some(refusal) if self.queue.is_empty() => Err(Cause::Refused(refusal)),
            _ => Ok(()),
        }
    }
}

impl<'d, 'o, D: Disk, O: Sink> JobSource<RenderWork> for RenderSource<'d, 'o, D, O> {
    type Cause = Cause;

    ghost use Rattle.lr_cmd_render.specs.Leading.{render_terms};

    ghost terms = { render_terms D.Disk O.Sink };

    fn next(&mut self) -> Result<NextJob<Strip>, Cause> {
        'entries: loop {
            if let Some(strip) = self.queue.next_strip()? {
                return Ok(NextJob::Job(strip));
            }
            self.put_complete()?;
            self.refuse()?;
            if self.is_last() {
                return Ok(NextJob::Finished);
            }
            if self.queue.is_full() {
                return Ok(NextJob::NotYet);
            }
            self.read_next()?;
        }
    }

    fn gives_at_once(&self) -> bool {
        true
    }

    fn keep(&mut self, done: DoneStrip) -> Result<(), Cause> {
        self.queue.keep(done)?;
        self.put_complete()?;
        self.refuse()
    }
}
