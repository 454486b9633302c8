//! Windows of drawn symbols, and the bytes of their nearest paths, by the plain kernel and by lanes of 32 and of
//! sixteen bits.

ghost use Rattle.std.specs.Prelude.{◌≡◌, length};

use crate::shelf::Trouble;
use crate::sums::sum_with_bytes;
use lr_bits::{BLOCK_BYTES, NoMemory, WINDOW_SYMBOLS};
use lr_conv::LineCode;
use lr_lanes::{LaneScratch, nearest_lanes, nearest_narrow_lanes};
use lr_trellis::{TrellisScratch, nearest};
use lr_trials_coding::windows::drawn_window;
use std::alloc::Global;

/// How many windows are drawn, from 1, 2 and so on; the rounds go through them again and again.
const DRAWN: u32 = 64;

/// What finds a path.
#[derive(Clone, Copy)]
enum Kernel {
    Plain,
    Lanes,
    NarrowLanes,
}

impl Kernel {
    /// The name that stands for it.
    fn name(self) -> &'static str {
        match self {
            Kernel::Plain => "path",
            Kernel::Lanes => "lanes",
            Kernel::NarrowLanes => "narrow",
        }
    }
}

/// Room for each kernel, and for the block that was found last.
#[derive(Drop)]
struct Room {
    plain: TrellisScratch,
    lanes: LaneScratch,
    block: [u8; BLOCK_BYTES],
}

impl Room {
    fn new(alloc: Global) -> Result<Room, NoMemory> {
        let plain = TrellisScratch::new(alloc)?;
        let lanes = LaneScratch::new(alloc)?;
        Ok(Room {
            plain,
            lanes,
            block: [0; BLOCK_BYTES],
        })
    }

    /// Finds the block of a window.
    fn find(&mut self, kernel: Kernel, line: LineCode, window: &[i8])
        requires { length window.now ≡ WINDOW_SYMBOLS }
    {
        match kernel {
            Kernel::Plain => nearest(line, window, &mut self.plain, &mut self.block),
            Kernel::Lanes => nearest_lanes(line, window, &mut self.lanes, &mut self.block),
            Kernel::NarrowLanes => nearest_narrow_lanes(
                line,
                window,
                &mut self.lanes,
                &mut self.block,
            ),
        }
    }
}

fn drawn_windows(alloc: Global) -> Result<Vec<Vec<i8>>, NoMemory> {
    let mut drawn = Vec::new(alloc);
    for k in 0..DRAWN {
        drawn.push(drawn_window(alloc, u64::from(k) + 1)?)?;
    }
    Ok(drawn)
}

/// The checksum of the blocks that a kernel finds in a number of windows.
fn checksum_of(
    alloc: Global,
    kernel: Kernel,
    line: LineCode,
    windows: u32,
) -> Result<u64, NoMemory> {
    let drawn = drawn_windows(alloc)?;
    let mut room = Room::new(alloc)?;
    let mut sum = 0;
    for k in 0..windows {
        let Some(window) = drawn.get((k % DRAWN) as usize) else {
            return Ok(sum);
        };
        if window.len() == WINDOW_SYMBOLS {
            room.find(kernel, line, window);
            sum = sum_with_bytes(sum, &room.block);
        }
    }
    Ok(sum)
}

/// The line code that a name's end stands for.
fn line_of(name: &str) -> LineCode {
    LineCode {
        marks: name.contains("marks"),
        inverted: !name.contains("plain"),
    }
}

/// The kernels that a name stands for.
fn kernels_of(name: &str) -> &'static [Kernel] {
    if name == "all" {
        &[Kernel::Plain, Kernel::Lanes, Kernel::NarrowLanes]
    } else if name.starts_with("path") {
        &[Kernel::Plain]
    } else if name.starts_with("lanes") {
        &[Kernel::Lanes]
    } else if name.starts_with("narrow") {
        &[Kernel::NarrowLanes]
    } else {
        &[]
    }
}

/// Decodes a number of windows by each kernel that the name stands for.
pub fn run(rt: &(impl Print + AllocGlobal), name: &str, windows: u32) -> Result<(), Trouble> {
    for kernel in kernels_of(name) {
        let word = if name == "all" { kernel.name() } else { name };
        let sum = checksum_of(rt.alloc(), *kernel, line_of(word), windows)?;
        println!(rt; "{word} {windows} {sum:016x}")?;
    }
    Ok(())
}
