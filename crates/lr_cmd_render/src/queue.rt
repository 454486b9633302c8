//! The images under way, in the order of their entries.
ghost use Rattle.std.specs.Prelude.{◌≡◌, ◌<◌, ◌≤◌, ◌++◌, ◌∷◌, ◌↔◌, [], IfOk, IsTrue, MatchOption, OnErr, OnOk, length};
ghost use Rattle.std.specs.VecDeque.{deque_capacity, deque_len};
ghost use Rattle.lr_cmd_render.specs.Queues.{EachUnderWay, FirstKeeps, FirstWaits, LastGives, MayKeepFirst};
ghost use Rattle.lr_cmd_render.specs.Queues.{IsImageUnderWay, QueueGivesNext, TakesFirst, image_of};

use lr_bits::NoMemory;
use lr_render::{DoneStrip, Plan, Strip};
use std::alloc::Global;
use std::collections::VecDeque;

/// An image of which strips are to be given or kept.
#[derive(Drop)]
pub(crate) struct UnderWay {
    pub plan: Plan,
    /// How many of its strips were given and not yet kept.
    pub waiting: u32,
    /// Whether all of its strips were given.
    pub all_given: bool,
}

impl UnderWay {
    /// Its next strip, if one is left.
    fn next_strip(&mut self) -> Result<Option<Strip>, NoMemory>
        requires { IsImageUnderWay self.old }
        ensures gives { IfOk result (QueueGivesNext self.old self.new) }
        ensures refused { OnErr result (self.new ≡ self.old) }
    {
        if self.all_given {
            return Ok(None);
        }
        let next = self.plan.next_strip()?;
        if next.is_some() {
            self.waiting += 1;
        } else {
            self.all_given = true;
        }
        Ok(next)
    }
}

/// The images under way. What comes of strips is kept by the first one, and strips are given by the last one.
#[derive(Drop)]
pub(crate) struct Queue {
    pub images: VecDeque<UnderWay>,
}

impl Queue {
    /// No images, and room for this many.
    pub fn new(alloc: Global, most: usize) -> Result<Queue, NoMemory>
        ensures none { IfOk result (λ queue. queue.images.items ≡ []) }
        ensures room { IfOk result (λ queue. deque_capacity queue.images ≡ most) }
    {
        let images = VecDeque::with_capacity(alloc, most)?;
        Ok(Queue { images })
    }

    /// Whether no image is under way.
    pub fn is_empty(&self) -> bool
        ensures { IsTrue result ↔ (self.now.images.items ≡ []) }
    {
        self.images.is_empty()
    }

    /// Whether there is no room for another image.
    pub fn is_full(&self) -> bool
        ensures { IsTrue result ↔ (deque_capacity self.now.images ≤ deque_len self.now.images) }
    {
        self.images.len() >= self.images.capacity()
    }

    /// The next strip of the last image, if one is left.
    pub fn next_strip(&mut self) -> Result<Option<Strip>, NoMemory>
        requires { EachUnderWay self.old.images.items }
        ensures gives { IfOk result (LastGives self.old.images.items self.new.images.items) }
        ensures refused { OnErr result (self.new.images.items ≡ self.old.images.items) }
        ensures some { OnErr result (0 < length self.old.images.items) }
        ensures room { deque_capacity self.new.images ≡ deque_capacity self.old.images }
    {
        match self.images.back_mut() {
            Some(last) => last.next_strip(),
            None => Ok(None),
        }
    }

    /// Keeps what came of the oldest strip of the first image.
    pub fn keep(&mut self, strip: DoneStrip) -> Result<(), NoMemory>
        requires { MayKeepFirst strip self.old.images.items }
        ensures kept { OnOk result (FirstKeeps self.old.images.items self.new.images.items) }
        ensures refused { OnErr result (self.new.images.items ≡ self.old.images.items) }
        ensures room { deque_capacity self.new.images ≡ deque_capacity self.old.images }
    {
        let Some(first) = self.images.front_mut() else {
            unreachable!()
        };
        first.plan.keep(strip)?;
        first.waiting -= 1;
        Ok(())
    }

    /// Takes the plan of the first image out, if all of its strips were given and kept.
    pub fn take_complete(&mut self) -> Option<Plan>
        requires { EachUnderWay self.old.images.items }
        ensures taken { MatchOption result
            ((self.new.images.items ≡ self.old.images.items) × FirstWaits self.new.images.items)
            (TakesFirst self.old.images.items self.new.images.items) }
        ensures room { deque_capacity self.new.images ≡ deque_capacity self.old.images }
    {
        match self.images.front() {
            Some(first) if first.all_given && first.waiting == 0 => {}
            _ => return None,
        }
        match self.images.pop_front() {
            Some(UnderWay { plan, .. }) => Some(plan),
            None => None,
        }
    }

    /// Takes an image in, of which no strip was given.
    pub fn join(&mut self, plan: Plan)
        requires { deque_len self.old.images < deque_capacity self.old.images }
        ensures joined { self.new.images.items ≡ self.old.images.items ++ image_of plan ∷ [] }
        ensures room { deque_capacity self.new.images ≡ deque_capacity self.old.images }
    {
        self.images.push_back_reserved(UnderWay {
            plan,
            waiting: 0,
            all_given: false,
        });
    }
}
