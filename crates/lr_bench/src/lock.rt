//! Two coded frames, or as much noise, fed to a lock again and again; and the window of a frame, led to its outcome.

ghost use Rattle.std.specs.Prelude.{◌≡◌, ◌+◌, length};

use crate::shelf::Trouble;
use crate::sums::sum_with;
use lr_bits::{FRAME_SYMBOLS, NoMemory, Outcome};
use lr_conv::STANDARD;
use lr_frame::{FrameDone, FrameWork};
use lr_gatecore::Work;
use lr_lock::{Lock, Step, Window};
use lr_trials_coding::streams::coded_frames;
use lr_trials_coding::windows::next_state;
use std::alloc::Global;

/// The symbols of two frames, which are fed at once.
const SYMBOLS: usize = 2 * FRAME_SYMBOLS;

/// Draws symbols: each is the top byte of the next state, less 128.
fn noise(alloc: Global) -> Result<Vec<i8>, NoMemory> {
    let mut state = 77;
    let mut symbols = Vec::new(alloc);
    for _ in 0..SYMBOLS {
        state = next_state(state);
        symbols.push((((state >> 56) as i16) - 128) as i8)?;
    }
    Ok(symbols)
}

/// Two frames of 7F after their markers, of which each symbol with a draw below 8 of 256 is turned.
fn turned_frames(alloc: Global) -> Result<Vec<i8>, NoMemory> {
    let mut symbols = coded_frames(alloc, STANDARD, 2)?;
    turn_some(&mut symbols);
    Ok(symbols)
}

/// Turns each symbol whose draw is below 8.
fn turn_some(symbols: &mut [i8]) {
    let mut state = 77;
    for at in 0..symbols.len() {
        state = next_state(state);
        if state >> 56 < 8 {
            symbols[at] = symbols[at].saturating_neg();
        }
    }
}

/// A checksum of windows: of their number, and of each its place, polarity and first symbol.
#[derive(Clone, Copy)]
struct Seen {
    windows: u64,
    sum: u64,
}

/// Takes the windows that stand in the lock.
fn take(lock: &mut Lock, window: &mut Window, seen: &mut Seen)
    requires { window.old.line ≡ lock.old.line }
    ensures line { lock.new.line ≡ lock.old.line }
    ensures window_line { window.new.line ≡ window.old.line }
    ensures unfinished { lock.new.finished ≡ lock.old.finished }
    ensures fed { lock.new.place + length lock.new.kept ≡ lock.old.place + length lock.old.kept }
{
    for _ in 0..4u8 {
        if !matches!(lock.next_window(window), Step::Window) {
            return;
        }
        let first = (i16::from(window.symbols()[0]) + 128) as u64;
        seen.windows = seen.windows.wrapping_add(1);
        seen.sum = sum_with(sum_with(seen.sum, window.position()), first);
    }
}

/// Feeds the symbols `rounds` times.
fn checksum_of(alloc: Global, symbols: &[i8], rounds: u32) -> Result<Seen, NoMemory> {
    let mut lock = Lock::new(alloc, STANDARD)?;
    let mut window = Window::new(alloc, STANDARD)?;
    let mut seen = Seen { windows: 0, sum: 0 };
    for _ in 0..rounds {
        if symbols.len() > SYMBOLS || symbols.len() > lock.room() {
            return Ok(seen);
        }
        lock.feed(symbols);
        take(&mut lock, &mut window, &mut seen);
    }
    Ok(seen)
}

/// Works through the symbols of a name `rounds` times, and prints what was found.
fn find(rt: &(impl Print + AllocGlobal), name: &str, rounds: u32) -> Result<(), Trouble> {
    let symbols = if name == "noise" {
        noise(rt.alloc())?
    } else {
        turned_frames(rt.alloc())?
    };
    let seen = checksum_of(rt.alloc(), &symbols, rounds)?;
    let windows = seen.windows;
    let sum = seen.sum;
    Ok(println!(rt; "{name} {rounds} windows {windows} {sum:016x}")?)
}

/// The checksum with an outcome more: the changed bytes of each word, and the frame's first byte.
fn with_outcome(sum: u64, outcome: &Outcome) -> u64 {
    match outcome {
        Outcome::Restored(corrected, frame) => {
            let changed = corrected.0;
            let first = sum_with(sum_with(sum, u64::from(changed[0])), u64::from(changed[1]));
            let all = sum_with(
                sum_with(first, u64::from(changed[2])),
                u64::from(changed[3]),
            );
            sum_with(all, u64::from(frame[0]))
        }
        Outcome::Lost(word) => sum_with(sum, 1000 + u64::from(*word)),
    }
}

/// Leads the window to its outcome `rounds` times.
fn outcomes<W: Work<Job = Window, Done = FrameDone>>(
    work: &mut W,
    window: Window,
    rounds: u32,
) -> u64 {
    let mut window = window;
    let mut sum = 0;
    for _ in 0..rounds {
        let done = work.run(window);
        sum = with_outcome(sum, &done.outcome);
        window = done.window;
    }
    sum
}

fn outcomes_of_sent(alloc: Global, rounds: u32) -> Result<u64, NoMemory> {
    let symbols = turned_frames(alloc)?;
    let mut lock = Lock::new(alloc, STANDARD)?;
    let mut window = Window::new(alloc, STANDARD)?;
    let mut work = FrameWork::new(alloc)?;
    if symbols.len() > lock.room() {
        return Ok(0);
    }
    lock.feed(&symbols);
    lock.next_window(&mut window);
    Ok(outcomes(&mut work, window, rounds))
}

fn decode(rt: &(impl Print + AllocGlobal), rounds: u32) -> Result<(), Trouble> {
    let sum = outcomes_of_sent(rt.alloc(), rounds)?;
    Ok(println!(rt; "frame {rounds} {sum:016x}")?)
}

/// Does what the name says, where it is of the lock or of the work on frames.
pub fn run(rt: &(impl Print + AllocGlobal), name: &str, rounds: u32) -> Result<(), Trouble> {
    if matches!(name, "noise" | "lock" | "all") {
        find(rt, "noise", rounds)?;
    }
    if matches!(name, "locked" | "lock" | "all") {
        find(rt, "locked", rounds)?;
    }
    if matches!(name, "frame" | "all") {
        decode(rt, rounds)?;
    }
    Ok(())
}
