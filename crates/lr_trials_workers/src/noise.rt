// Files that a transmission ends with don't wait for the noise after it, however slow the hands are.
ghost use Rattle.std.specs.Prelude.{◌≡◌};

use crate::calls::{empty_shelf, symbols};
use lr_bits::{Failed, NoMemory};
use lr_frame::{FrameDone, FrameWork, Hand};
use lr_io::{MemSink, MemSource, Sink, Source};
use lr_lock::Window;
use lr_station::station_with;
use lr_trials_support::{is_number, words_of};
use std::alloc::Global;
use std::sync::atomic::AtomicU32;
use std::sync::atomic::Ordering::SeqCst;
use std::sync::{Arc, Wait};
use std::test::Fail;
use std::thread;
use std::thread::Threads;

/// How long a hand takes for a window, in looks around.
const LOOKS: u32 = 5_000;

/// The pieces of noise, of 65,536 symbols at most, after which no file may wait: in the first one the lock flies on.
const PIECES_HEARD: u32 = 2;

/// A source that notes how many lines had been put when it was asked for symbols beyond the first `quiet` ones.
#[derive(Drop)]
struct Watching {
    source: MemSource,
    given: usize,
    quiet: usize,
    lines: Arc<AtomicU32, Global>,
    seen: Arc<AtomicU32, Global>,
}

impl Source for Watching {
    ghost use Rattle.lr_io.specs.MemSource.{left_of, faults_of};

    ghost faults = { λ s. faults_of s.source };

    ghost tells = { λ _. Unit {0} };

    ghost left = { λ s. left_of s.source };

    fn take(&mut self, into: &mut [u8]) -> Result<usize, Failed> {
        if self.given >= self.quiet && self.seen.load(SeqCst) == 0 {
            self.seen.store(self.lines.load(SeqCst), SeqCst);
        }
        let count = self.source.take(into)?;
        self.given = self.given.saturating_add(count);
        Ok(count)
    }
}

/// An output that counts the lines that were put.
#[derive(Drop)]
struct Counting {
    out: MemSink,
    lines: Arc<AtomicU32, Global>,
}

impl Sink for Counting {
    ghost use Rattle.lr_io.specs.MemSink.{held_by, faults_of};

    ghost faults = { λ s. faults_of s.out };

    ghost tells = { λ _. Unit {0} };

    ghost contents = { λ s. held_by s.out };

    fn put(&mut self, piece: &[u8]) -> Result<usize, Failed> {
        let count = self.out.put(piece)?;
        if piece[count - 1] == 10 {
            self.lines.fetch_add(1, SeqCst);
        }
        Ok(count)
    }
}

/// A hand that takes its time.
#[derive(Drop)]
struct Slow {
    work: FrameWork,
}

impl Hand for Slow {
    type Tools = ();

    fn hire(alloc: Global, _tools: &()) -> Result<Self, NoMemory> {
        Ok(Slow {
            work: FrameWork::new(alloc)?,
        })
    }

    fn decode(&mut self, window: Window) -> FrameDone {
        for _ in 0..LOOKS {
            thread::yield_now();
        }
        self.work.decode(window)
    }
}

/// Whether the lines of all 63 files had been put when the source was asked for more noise, and the last line alone
/// came after it.
fn puts_all<R: Threads + Wait + Sync>(rt: &R, alloc: Global, words: &str) -> Result<bool, Fail> {
    let mut bytes = symbols(alloc, "make 1 64 0", 64)?;
    let quiet = bytes.len() + PIECES_HEARD as usize * 65_536;
    for _ in 0..6 * 65_536 {
        bytes.push(0)?;
    }
    let lines = Arc::new(alloc, AtomicU32::new(0))?;
    let seen = Arc::new(alloc, AtomicU32::new(0))?;
    let mut source = Watching {
        source: MemSource::of(bytes, Vec::new(alloc), Vec::new(alloc)),
        given: 0,
        quiet,
        lines: Arc::try_clone(&lines)?,
        seen: Arc::try_clone(&seen)?,
    };
    let mut out = Counting {
        out: MemSink::of(alloc, Vec::new(alloc), 20_000)?,
        lines: Arc::try_clone(&lines)?,
    };
    let mut disk = empty_shelf(alloc)?;
    let mut err = MemSink::of(alloc, Vec::new(alloc), 100)?;
    let call_words = words_of(alloc, words)?;
    let status = station_with::<Slow, R, _, _, _, _>(
        rt,
        alloc,
        &call_words,
        &(),
        &mut source,
        &mut disk,
        &mut out,
        &mut err,
    );
    is_number(words, u64::from(status), 0)?;
    let (seen, put) = (seen.load(SeqCst), lines.load(SeqCst));
    Ok(
        is_number("lines before the noise", u64::from(seen), 63)?
            && is_number("lines in all", u64::from(put), 64)?,
    )
}

#[test]
fn with_one_hand_no_file_waits_for_noise(rt: HostRuntime) -> Result<(), Fail> {
    assert!(rt; puts_all(&rt, rt.alloc(), "receive --workers 1")?);
    Ok(())
}

#[test]
fn with_two_hands_no_file_waits_for_noise(rt: HostRuntime) -> Result<(), Fail> {
    assert!(rt; puts_all(&rt, rt.alloc(), "receive --workers 2")?);
    Ok(())
}

#[test]
fn with_eight_hands_no_file_waits_for_noise(rt: HostRuntime) -> Result<(), Fail> {
    assert!(rt; puts_all(&rt, rt.alloc(), "receive --workers 8")?);
    Ok(())
}
