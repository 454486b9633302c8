//! The machine of a ring, running alone.

ghost use Rattle.std.specs.Prelude.{◌≡◌, ℕ, ◌+◌, ◌-◌, ◌%◌, ◌^◌, ◌<◌, ◌≤◌, List, length, IfOk, IfSome, IfNone};
ghost use Rattle.std.specs.Bool.{OnTrue, OnFalse};
ghost use mathlib.Core.Option.{some};
ghost use lib.ListN.{get_elem?};
ghost use Rattle.lr_gatecore.specs.declared.stage.Stage.TheVariants.{Busy};
ghost use Rattle.lr_gatecore.specs.declared.event.Event.TheVariants.{Put, Claim, Finish, Take, Stop};
ghost use Rattle.lr_gatecore.specs.Machine.{Entry, empty_machine, put_count, EventsLead};
ghost use Rattle.lr_gatecore.specs.Core.{IsCore, SameSize, Steps};

use crate::event::Event;
use crate::ring_size::RingSize;
use crate::sizes::{MOST_CELLS, MOST_JOBS, MOST_SEATS};
use crate::stage::Stage;
use lr_bits::NoMemory;
use std::alloc::Global;
use std::collections::VecDeque;
use std::marker::Model;

/// The machine of a ring, which runs alone: it keeps the stages of the jobs that were put and not taken.
#[derive(Drop)]
pub struct GateCore {
    size: RingSize,
    taken: u64,
    stopped: bool,
    window: VecDeque<Stage>,
}

impl Model for GateCore {
    ghost use Rattle.std.specs.VecDeque.{deque_capacity};
    ghost use Rattle.lr_gatecore.specs.Core.{Core, IsKept, machine_of};

    ghost Value = { Core };

    ghost view = { λ g. record {
      size = g.size;
      machine = machine_of g.taken g.window.items g.stopped;
    } };

    ghost invariant = { λ g.
        IsKept g.size g.taken g.stopped g.window.items (deque_capacity g.window) };
}

/// The place of the job that the worker claimed and hasn't finished.
fn place_of(window: &VecDeque<Stage>, worker: u32) -> Option<usize>
    ensures some { IfSome result (λ k. get_elem? window.now.items k ≡ some (Busy worker)) }
    ensures none { IfNone result ((k : ℕ) → ¬ (get_elem? window.now.items k ≡ some (Busy worker))) }
{
    for place in 0..window.len() {
        if is_at(window, place, Stage::Busy(worker)) {
            return Some(place);
        }
    }
    None
}

/// Whether the job at the place has this stage.
fn is_at(window: &VecDeque<Stage>, place: usize, stage: Stage) -> bool
    ensures yes { OnTrue result (get_elem? window.now.items place ≡ some stage) }
    ensures no { OnFalse result (¬ (get_elem? window.now.items place ≡ some stage)) }
{
    if place >= window.len() {
        return false;
    }
    window[place].is(stage)
}

impl GateCore {
    /// The machine before any event.
    pub fn new(alloc: Global, cells: u32, workers: u32) -> Result<GateCore, NoMemory>
        requires cells { (0 < cells) × (cells ≤ MOST_CELLS) }
        requires workers { (0 < workers) × (workers ≤ MOST_SEATS) }
        ensures { IfOk result (λ core. core
            ≡ record { size = record { cells = cells; workers = workers }; machine = empty_machine }) }
    {
        let window = VecDeque::with_capacity(alloc, cells as usize)?;
        Ok(GateCore {
            size: RingSize { cells, workers },
            taken: 0,
            stopped: false,
            window,
        })
    }

    /// How many jobs were put.
    pub fn put_count(&self) -> u64
        ensures count { result ≡ put_count self.now.machine }
        ensures state { IsCore self.now }
    {
        self.taken + self.window.len() as u64
    }

    /// Makes the move of the event. Where it isn't allowed, the answer is false and nothing changes.
    pub fn step(&mut self, event: Event) -> bool
        requires { put_count self.old.machine < MOST_JOBS }
        ensures sizes { SameSize self.old self.new }
        ensures steps { Steps self.old event result self.new }
    {
        match event {
            Event::Put => self.put(),
            Event::Claim { worker, cell } => self.claim(worker, cell),
            Event::Finish { worker } => self.finish(worker),
            Event::Take => self.take(),
            Event::Stop => self.stop(),
        }
    }

    fn put(&mut self) -> bool
        requires { put_count self.old.machine < MOST_JOBS }
        ensures sizes { SameSize self.old self.new }
        ensures steps { Steps self.old Put result self.new }
    {
        if self.stopped || self.window.len() >= self.size.cells as usize {
            return false;
        }
        self.window.push_back_reserved(Stage::Ready);
        true
    }

    fn claim(&mut self, worker: u32, cell: u32) -> bool
        ensures sizes { SameSize self.old self.new }
        ensures steps { Steps self.old (Claim worker cell) result self.new }
    {
        if worker >= self.size.workers || cell >= self.size.cells {
            return false;
        }
        if place_of(&self.window, worker).is_some() {
            return false;
        }
        let cells = u64::from(self.size.cells);
        let place = ((u64::from(cell) + cells - self.taken % cells) % cells) as usize;
        if !is_at(&self.window, place, Stage::Ready) {
            return false;
        }
        self.window[place] = Stage::Busy(worker);
        true
    }

    fn finish(&mut self, worker: u32) -> bool
        ensures sizes { SameSize self.old self.new }
        ensures steps { Steps self.old (Finish worker) result self.new }
    {
        let Some(place) = place_of(&self.window, worker) else {
            return false;
        };
        self.window[place] = Stage::Done;
        true
    }

    fn take(&mut self) -> bool
        ensures sizes { SameSize self.old self.new }
        ensures steps { Steps self.old Take result self.new }
    {
        if !is_at(&self.window, 0, Stage::Done) {
            return false;
        }
        let _done = self.window.pop_front();
        self.taken += 1;
        true
    }

    fn stop(&mut self) -> bool
        ensures sizes { SameSize self.old self.new }
        ensures steps { Steps self.old Stop result self.new }
    {
        if self.stopped {
            return false;
        }
        self.stopped = true;
        true
    }

    /// Handles the events in their order, and answers how many moved.
    pub fn run(&mut self, events: &[Event]) -> u64
        requires { put_count self.old.machine + length events.now ≤ MOST_JOBS }
        ensures sizes { SameSize self.old self.new }
        ensures leads { (log : List Entry)
            × EventsLead self.old.size self.old.machine events.now log self.new.machine
            × (result ≡ length log) }
    {
        let mut moved = 0;
        for event in events {
            moved += u64::from(self.step(*event));
        }
        moved
    }
}
