//! From the symbols of a stream to its mission files.
ghost use Rattle.std.specs.Prelude.{◌≡◌, ◌<◌, ◌≤◌, ◌+◌, ◌^◌, List, length, false, IfOk, IfSome};
ghost use Rattle.lr_conv.specs.declared.line.LineCode.{LineCode as LineCode'};
ghost use Rattle.lr_conv.specs.declared.passes.Passes.TheVariants.{One};
ghost use Rattle.lr_lock.specs.declared.frame.Frame.{Frame};
ghost use Rattle.lr_lock.specs.Thresholds.{lock_symbols};
ghost use Rattle.lr_downlinks.specs.Streams.{files_of_stream};
ghost use Rattle.lr_downlinks.specs.Decoding.{
  FeedsMore,
  IsFed,
  ShowsWindow,
  decode_steps_left,
  coded_stream,
  given_frames,
};

use crate::sizes::MOST_STREAM_SYMBOLS;
use lr_bits::{NoMemory, Placed};
use lr_conv::LineCode;
use lr_frame::FrameWork;
use lr_layers::Layers;
use lr_lock::{Lock, Step, Window};
use std::alloc::Global;

/// Feeds the lock as much of these symbols as there is room for, and answers how many that are; where there are none,
/// the lock is finished.
fn feed_more(lock: &mut Lock, rest: &[u8]) -> usize
    requires unfinished { lock.old.finished ≡ false }
    requires room { length lock.old.kept < lock_symbols }
    requires in_all { lock.old.place + length lock.old.kept + length rest.now ≤ 2 ^ 62 }
    ensures { FeedsMore lock.old lock.new rest.now result }
{
    let size = rest.len().min(lock.room());
    if size == 0 {
        lock.finish();
    } else {
        lock.feed_bytes(&rest[..size]);
    }
    size
}

/// Feeds the lock until the next frame is shown in the window, and answers how many symbols were fed by then. None
/// where all frames were given.
fn show_next(lock: &mut Lock, stream: &[u8], fed: usize, window: &mut Window) -> Option<usize>
    requires few { length stream.now ≤ MOST_STREAM_SYMBOLS }
    requires line { window.old.line ≡ lock.old.line }
    requires passes { window.old.passes ≡ One }
    requires is_fed { (line : LineCode') × (given : List Frame) × IsFed (coded_stream line stream.now)
        (given_frames fed given) lock.old }
    ensures shows { (line : LineCode') (given : List Frame) → IsFed (coded_stream line stream.now)
        (given_frames fed given) lock.old
        → ShowsWindow (coded_stream line stream.now) (given_frames fed given) lock.new window.new result }
    ensures line { window.new.line ≡ lock.new.line }
    ensures passes { window.new.passes ≡ One }
    ensures fewer { IfSome result (λ taken. decode_steps_left stream.now taken lock.new
        < decode_steps_left stream.now fed lock.old) }
{
    let mut taken = fed;
    'steps: loop {
        match lock.next_window(window) {
            Step::Window => return Some(taken),
            Step::End => return None,
            Step::More => taken += feed_more(lock, &stream[taken..]),
        }
    }
}

/// The mission files of a stream of symbols under this line code, with their origins. At most 2^40 symbols.
pub fn files_of(alloc: Global, stream: &[u8], line: LineCode) -> Result<Vec<Placed>, NoMemory>
    requires { length stream.now ≤ MOST_STREAM_SYMBOLS }
    ensures { IfOk result (λ files. files.items ≡ files_of_stream line stream.now) }
{
    let mut lock = Lock::new(alloc, line)?;
    let mut window = Window::new(alloc, line)?;
    let mut work = FrameWork::new(alloc)?;
    let mut layers = Layers::new(alloc);
    let mut files = Vec::new(alloc);
    let mut fed = 0;
    'windows: while let Some(taken) = show_next(&mut lock, stream, fed, &mut window) {
        fed = taken;
        let outcome = work.outcome(&window);
        layers.push_outcome(&outcome, &mut files)?;
    }
    Ok(files)
}
