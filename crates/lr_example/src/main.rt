//! An example of the libraries in use: the files of one application are followed in frames that lie in memory.
//!
//! A receiver of your own has the frames of its satellite in place of those of the test stream. A block that couldn't
//! be restored is pushed as `Outcome::Lost`; the files that miss it never appear.
#![tactic(auto)]

use anyhow::{Context, bail};
use lr_bits::{Corrected, FRAME_BYTES, MissionFile, Outcome};
use lr_headers::{Content, Records};
use lr_layers::Layers;
use lr_make::Maker;

/// The application whose files are followed: that of the texts of the test stream.
const FOLLOWED: u16 = 200;

/// How many frames are read.
const FRAMES: u32 = 16;

/// The most outcomes of each kind: the layers take fewer than 2^48 in all.
const MOST_OUTCOMES: u64 = 140_737_488_355_328;

/// What the first record of text says, if there is one.
fn name_of<'a>(records: &'a Records<'_>) -> Option<&'a str> {
    for place in 0..records.count() {
        if let Content::Text = records.content(place) {
            return str::from_utf8(records.contents_at(place)).ok();
        }
    }
    None
}

/// Prints the name of a file, and how many bytes its header declares for its data.
fn print_file(rt: &HostRuntime, file: &MissionFile) -> anyhow::Result<()> {
    let records = Records::read(rt.alloc(), file.proper())?;
    let name = name_of(&records).unwrap_or("?");
    println!(rt; "{name}: {} bytes", records.data_bits() / 8)?;
    Ok(())
}

/// Pushes the next frame of the stream, and prints the files that end with it.
fn follow_frame(rt: &HostRuntime, maker: &mut Maker, layers: &mut Layers) -> anyhow::Result<()> {
    let mut frame = [0; FRAME_BYTES];
    maker.next_frame(&mut frame)?;
    let counts = layers.counts();
    if counts.restored >= MOST_OUTCOMES || counts.lost >= MOST_OUTCOMES {
        bail!("too many frames");
    }
    let mut files = Vec::new(rt.alloc());
    layers.push_outcome(&Outcome::Restored(Corrected([0; 4]), frame), &mut files)?;
    for placed in &files {
        if placed.file.apid() == FOLLOWED {
            print_file(rt, &placed.file).context("a file without a header")?;
        }
    }
    Ok(())
}

fn main(rt: HostRuntime) -> anyhow::Result<()> {
    let mut maker = Maker::new(1, 0)?;
    let mut layers = Layers::new(rt.alloc());
    for _ in 0..FRAMES {
        follow_frame(&rt, &mut maker, &mut layers)?;
    }
    Ok(())
}
