//! What a lock finds in a stream.

ghost use Rattle.std.specs.Prelude.{◌≡◌, ◌+◌, ◌^◌, ◌≤◌, ◌<◌, false, length};

use lr_bits::NoMemory;
use lr_conv::STANDARD;
use lr_lock::{Lock, Step, Window};
use std::alloc::Global;

/// A window that was found: its place and polarity, and a checksum of its symbols.
#[derive(Clone, Copy)]
pub(crate) struct Found {
    pub place: u64,
    pub positive: bool,
    pub sum: u64,
}

/// A checksum with a number more.
pub(crate) fn sum_with(sum: u64, more: u64) -> u64 {
    sum.wrapping_mul(31).wrapping_add(more)
}

/// What is found in a window.
fn found_in(window: &Window) -> Found {
    let mut sum = 0;
    for symbol in window.symbols() {
        sum = sum_with(sum, (i16::from(*symbol) + 128) as u64);
    }
    Found {
        place: window.position(),
        positive: window.positive(),
        sum,
    }
}

/// Feeds the next symbols of the stream, at most `size`, from a place on. Answers the place after them.
fn feed(lock: &mut Lock, stream: &[i8], done: usize, size: usize) -> usize
    requires unfinished { lock.old.finished ≡ false }
    requires fed { lock.old.place + length lock.old.kept ≡ done }
    requires within { done ≤ length stream.now }
    requires small { length stream.now ≤ 2 ^ 62 }
    ensures within { result ≤ length stream.now }
    ensures fed { lock.new.place + length lock.new.kept ≡ result }
    ensures unfinished { lock.new.finished ≡ false }
    ensures line { lock.new.line ≡ lock.old.line }
{
    let end = done + size.min(stream.len() - done).min(lock.room());
    lock.feed(&stream[done..end]);
    end
}

/// The windows of a stream that is fed in pieces of this size.
pub(crate) fn windows(alloc: Global, stream: &[i8], size: usize) -> Result<Vec<Found>, NoMemory>
    requires { length stream.now ≤ 2 ^ 62 }
{
    let mut lock = Lock::new(alloc, STANDARD)?;
    let mut window = Window::new(alloc, STANDARD)?;
    let mut all = Vec::new(alloc);
    let mut done = 0;
    let mut finished = false;
    for _ in 0..u64::MAX {
        match lock.next_window(&mut window) {
            Step::Window => all.push(found_in(&window))?,
            Step::More if !finished && done < stream.len() => {
                done = feed(&mut lock, stream, done, size);
            }
            Step::More => {
                lock.finish();
                finished = true;
            }
            Step::End => return Ok(all),
        }
    }
    Ok(all)
}

/// Whether the windows have these places, in turn, and this polarity.
fn have_places(windows: &[Found], positive: bool, places: &[u64]) -> bool {
    for number in 0..windows.len() {
        if number >= places.len()
            || windows[number].place != places[number]
            || windows[number].positive != positive
        {
            return false;
        }
    }
    windows.len() == places.len()
}

/// Whether the windows of a stream that is fed in pieces of this size have these places, in turn, and this polarity.
pub(crate) fn finds(
    alloc: Global,
    stream: &[i8],
    size: usize,
    positive: bool,
    places: &[u64],
) -> Result<bool, NoMemory> {
    if stream.len() > 1_000_000 {
        return Ok(false);
    }
    let windows = windows(alloc, stream, size)?;
    Ok(have_places(&windows, positive, places))
}
