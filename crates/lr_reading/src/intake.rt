//! The windows and the feed of a reader of symbols.

ghost use Rattle.std.specs.Prelude.{◌≡◌, IfOk, vec_len, vec_capacity};
ghost use Rattle.lr_reading.specs.WindowSources.{AreDecoded};

use crate::symbols::SymbolFeed;
use lr_bits::NoMemory;
use lr_conv::Passes;
use lr_forms::{Decoding, Stop};
use lr_lock::Window;
use std::alloc::Global;

/// What fills windows, and how far it has come.
#[derive(Drop)]
pub(crate) struct Intake {
    pub feed: SymbolFeed,
    /// How many passes are made over each window.
    pub passes: Passes,
    /// The windows that no job has. There is room for all.
    pub spare: Vec<Window>,
    /// How many arrivals the consumer took.
    pub frames: u64,
    /// Why no window is filled any more, once that is so.
    pub ended: Option<Stop>,
}

/// This many windows.
fn new_windows(alloc: Global, decoding: Decoding, count: usize) -> Result<Vec<Window>, NoMemory>
    ensures lines { IfOk result (λ windows. AreDecoded decoding windows.items) }
    ensures all { IfOk result (λ windows. (vec_len windows ≡ count) × (vec_capacity windows ≡ count)) }
{
    let mut windows = Vec::with_capacity(alloc, count)?;
    for _ in 0..count {
        windows.push_reserved(Window::with_passes(alloc, decoding.line, decoding.passes)?);
    }
    Ok(windows)
}

impl Intake {
    ghost use Rattle.std.specs.Prelude.{◌≡◌, ◌↔◌, ◌<◌, ◌≤◌, ◌^◌, true, IfOk, vec_len, vec_capacity};
    ghost use Rattle.lr_reading.specs.Intakes.{IsFreshIntake};
    ghost use Rattle.lr_reading.specs.WindowSources.{decoding_of};

    /// This many windows, and the memory that filling them takes. At most `most` bytes will be taken.
    pub(crate) fn new(
        alloc: Global,
        decoding: Decoding,
        most: u64,
        count: usize,
    ) -> Result<Intake, NoMemory>
        requires most { most ≤ 2 ^ 61 }
        requires some { 0 < count }
        ensures fresh { IfOk result (IsFreshIntake most) }
        ensures decoding { IfOk result (λ intake. decoding_of intake ≡ decoding) }
        ensures windows { IfOk result (λ intake. vec_capacity intake.spare ≡ count) }
    {
        let spare = new_windows(alloc, decoding, count)?;
        let feed = SymbolFeed::new(alloc, decoding.line, most)?;
        Ok(Intake {
            feed,
            passes: decoding.passes,
            spare,
            frames: 0,
            ended: None,
        })
    }

    /// Whether a window was given of which the consumer hasn't taken what became.
    pub(crate) fn is_under_way(&self) -> bool
        ensures { (result ≡ true) ↔ (vec_len self.now.spare < vec_capacity self.now.spare) }
    {
        self.spare.len() < self.spare.capacity()
    }
}
