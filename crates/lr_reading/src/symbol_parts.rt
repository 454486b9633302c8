//! The memory that reading symbols takes.
ghost use Rattle.std.specs.Prelude.{◌≡◌, ◌≤◌, IfOk, vec_len};
ghost use Rattle.lr_rounds.specs.WorkerPools.{pool_with};
ghost use Rattle.lr_reading.specs.Readers.{windows_for};

use crate::intake::Intake;
use lr_bits::NoMemory;
use lr_forms::Decoding;
use lr_frame::{Hand, Hired};
use lr_gatecore::{MOST_HANDS, MOST_SEATS};
use lr_rounds::WorkerPool;
use std::alloc::Global;

/// What fills windows, and who decodes them.
#[derive(Drop)]
pub(crate) struct SymbolParts<H: Hand> {
    pub intake: Intake,
    pub pool: WorkerPool<Hired<H>>,
}

/// This many hands.
fn hire_all<H: Hand>(
    alloc: Global,
    tools: &H::Tools,
    count: usize,
) -> Result<Vec<Hired<H>>, NoMemory>
    ensures { IfOk result (λ works. vec_len works ≡ count) }
{
    let mut works = Vec::with_capacity(alloc, count)?;
    for _ in 0..count {
        works.push_reserved(Hired(H::hire(alloc, tools)?));
    }
    Ok(works)
}

/// This many hands beside the caller's, and a ring for them.
fn new_pool<H: Hand>(
    alloc: Global,
    tools: &H::Tools,
    workers: u32,
) -> Result<WorkerPool<Hired<H>>, NoMemory>
    requires { workers ≤ MOST_HANDS }
    ensures { IfOk result (λ pool. pool ≡ pool_with workers) }
{
    let works = hire_all::<H>(alloc, tools, workers as usize)?;
    let own = Hired(H::hire(alloc, tools)?);
    WorkerPool::new(alloc, works, own)
}

/// How many windows go through the ring where this many work, the caller among them. On one thread one is enough.
fn count_windows(workers: u32) -> u32
    requires { (1 ≤ workers) × (workers ≤ MOST_SEATS) }
    ensures { result ≡ windows_for workers }
{
    if workers == 1 { 1 } else { 2 * workers + 2 }
}

impl<H: Hand> SymbolParts<H> {
    ghost use Rattle.std.specs.Prelude.{◌≡◌, ◌-◌, ◌≤◌, ◌^◌, IfOk, vec_capacity};
    ghost use Rattle.lr_rounds.specs.WorkerPools.{pool_with};
    ghost use Rattle.lr_reading.specs.Intakes.{IsFreshIntake};
    ghost use Rattle.lr_reading.specs.WindowSources.{decoding_of};
    ghost use Rattle.lr_reading.specs.Readers.{windows_for};

    /// All memory that reading symbols that are decoded so takes, where this many work on windows, the caller among
    /// them. At most `most` bytes will be taken.
    pub(crate) fn new(
        alloc: Global,
        decoding: Decoding,
        most: u64,
        workers: u32,
        tools: &H::Tools,
    ) -> Result<SymbolParts<H>, NoMemory>
        requires most { most ≤ 2 ^ 61 }
        requires workers { (1 ≤ workers) × (workers ≤ MOST_SEATS) }
        ensures fresh { IfOk result (λ symbol_parts. IsFreshIntake most symbol_parts.intake) }
        ensures decoding { IfOk result (λ symbol_parts. decoding_of symbol_parts.intake ≡ decoding) }
        ensures pool { IfOk result (λ symbol_parts. symbol_parts.pool ≡ pool_with (workers - 1)) }
        ensures windows { IfOk result (λ symbol_parts. vec_capacity symbol_parts.intake.spare ≡ windows_for workers) }
    {
        let intake = Intake::new(alloc, decoding, most, count_windows(workers) as usize)?;
        let pool = new_pool::<H>(alloc, tools, workers - 1)?;
        Ok(SymbolParts { intake, pool })
    }
}
