//! The first frames of the test stream, led through the layers to files, and these files put on a shelf in memory.

use crate::shelf::{Trouble, put_on_new_shelf};
use crate::sums::sum_with;
use lr_bits::{Corrected, FRAME_BYTES, NoMemory, Outcome, Placed};
use lr_layers::Layers;
use lr_make::Maker;
use std::alloc::Global;

/// How many frames are made. A round goes through all of them.
const FRAMES: u32 = 64;

/// More outcomes than a round has.
const MANY: u64 = 1 << 40;

/// The outcomes of the frames, of which no byte was changed.
fn outcomes(alloc: Global) -> Result<Vec<Outcome>, NoMemory> {
    let mut maker = Maker::new(1, 0)?;
    let mut outcomes = Vec::new(alloc);
    for _ in 0..FRAMES {
        let mut frame = [0; FRAME_BYTES];
        maker.next_frame(&mut frame)?;
        outcomes.push(Outcome::Restored(Corrected([0; 4]), frame))?;
    }
    Ok(outcomes)
}

/// The files of outcomes.
fn files_of(alloc: Global, outcomes: &[Outcome]) -> Result<Vec<Placed>, NoMemory> {
    let mut layers = Layers::new(alloc);
    let mut files = Vec::new(alloc);
    for outcome in outcomes {
        let counts = layers.counts();
        if counts.restored < MANY && counts.lost < MANY {
            layers.push_outcome(outcome, &mut files)?;
        }
    }
    Ok(files)
}

/// The checksum with files more: the length of each in bytes.
fn with_files(sum: u64, files: &[Placed]) -> u64 {
    let mut sum = sum;
    for placed in files {
        sum = sum_with(sum, placed.file.bytes().len() as u64);
    }
    sum
}

/// The checksum of the files of the frames, which are found `rounds` times.
fn checksum_of_files(alloc: Global, rounds: u32) -> Result<u64, NoMemory> {
    let outcomes = outcomes(alloc)?;
    let mut sum = 0;
    for _ in 0..rounds {
        let files = files_of(alloc, &outcomes)?;
        sum = with_files(sum, &files);
    }
    Ok(sum)
}

/// The checksum of where the shelves end on which these files are put, each round on a new one.
fn checksum_of_shelves(alloc: Global, rounds: u32) -> Result<u64, Trouble> {
    let files = files_of(alloc, &outcomes(alloc)?)?;
    let mut sum = 0;
    for _ in 0..rounds {
        sum = sum_with(sum, put_on_new_shelf(alloc, &files)?);
    }
    Ok(sum)
}

/// Does what one of the names says, where it is of the layers or of what they give.
pub fn run(rt: &(impl Print + AllocGlobal), name: &str, rounds: u32) -> Result<(), Trouble> {
    if matches!(name, "layers" | "all") {
        let sum = checksum_of_files(rt.alloc(), rounds)?;
        println!(rt; "layers {rounds} {sum:016x}")?;
    }
    if matches!(name, "shelf-stream" | "all") {
        let sum = checksum_of_shelves(rt.alloc(), rounds)?;
        println!(rt; "shelf-stream {rounds} {sum:016x}")?;
    }
    Ok(())
}
