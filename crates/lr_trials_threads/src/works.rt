//! Works that hand numbers back as they are.
use lr_gatecore::Work;
use std::alloc::Global;
use std::sync::Arc;
use std::sync::atomic::AtomicBool;
use std::sync::atomic::Ordering::SeqCst;
use std::thread;

/// Hands numbers back at once.
#[derive(Drop)]
pub struct Same;

impl Work for Same {
    type Job = u32;

    type Done = u32;

    ghost gives = { λ job. job };

    fn run(&mut self, job: u32) -> u32 {
        job
    }
}

/// Hands numbers back, of which 0 waits until another work was given 1. It notes where that takes too long.
#[derive(Drop)]
pub struct Meeting {
    /// How often it looks whether the other came. It gives the processor away after each look.
    pub looks: u32,
    pub met: Arc<AtomicBool, Global>,
    pub too_late: Arc<AtomicBool, Global>,
}

impl Meeting {
    fn wait(&self) {
        for _ in 0..self.looks {
            if self.met.load(SeqCst) {
                return;
            }
            thread::yield_now();
        }
        self.too_late.store(true, SeqCst);
    }
}

impl Work for Meeting {
    type Job = u32;

    type Done = u32;

    ghost gives = { λ job. job };

    fn run(&mut self, job: u32) -> u32 {
        if job == 0 {
            self.wait();
        } else if job == 1 {
            self.met.store(true, SeqCst);
        }
        job
    }
}
