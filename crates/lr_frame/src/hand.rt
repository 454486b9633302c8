//! Who decodes windows.

use crate::work::{FrameDone, FrameWork};
use lr_bits::NoMemory;
use lr_gatecore::Work;
use lr_lock::Window;
use std::alloc::Global;

/// Decodes windows. Whatever it is, a window comes back with the same outcome.
pub trait Hand: Sized + Send + Drop {
    /// What a hand is made with.
    type Tools;

    ghost use Rattle.std.specs.Prelude.{◌≡◌};
    ghost use Rattle.lr_frame.specs.Hands.{done_of};

    /// A hand made with these tools.
    fn hire(alloc: Global, tools: &Self::Tools) -> Result<Self, NoMemory>;

    /// Gives the window back with its outcome.
    fn decode(&mut self, window: Window) -> FrameDone
        ensures { result ≡ done_of window };
}

impl Hand for FrameWork {
    type Tools = ();

    fn hire(alloc: Global, _tools: &()) -> Result<Self, NoMemory> {
        FrameWork::new(alloc)
    }

    fn decode(&mut self, window: Window) -> FrameDone {
        self.run(window)
    }
}

/// A hand as the work of a ring.
#[derive(Drop)]
pub struct Hired<H: Hand>(pub H);

impl<H: Hand> Work for Hired<H> {
    ghost use Rattle.lr_frame.specs.Hands.{done_of};

    type Job = Window;

    type Done = FrameDone;

    ghost gives = { done_of };

    fn run(&mut self, job: Window) -> FrameDone {
        self.0.decode(job)
    }
}
