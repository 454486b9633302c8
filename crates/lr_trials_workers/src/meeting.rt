//! Hands meet: each waits at its first window until as many hands as there are workers have a window.
ghost use Rattle.std.specs.Prelude.{◌≡◌};

use crate::calls::{call, empty_shelf, symbols};
use lr_bits::NoMemory;
use lr_disk::MemDisk;
use lr_frame::{FrameDone, FrameWork, Hand};
use lr_lock::Window;
use lr_station::station_with;
use lr_trials_support::{Call, Printed, disk, faultless, is_text, parts_of};
use std::alloc::Global;
use std::sync::atomic::Ordering::SeqCst;
use std::sync::atomic::{AtomicBool, AtomicU32};
use std::sync::{Arc, Wait};
use std::test::Fail;
use std::thread;
use std::thread::Threads;

/// How often a hand looks for the others before it gives up.
const LOOKS: u32 = 100_000_000;

/// What the hands share: how many must meet, how many windows were begun, and whether a hand waited too long.
#[derive(Drop)]
struct Place {
    hands: u32,
    begun: Arc<AtomicU32, Global>,
    too_late: Arc<AtomicBool, Global>,
}

/// A hand that waits for the others.
#[derive(Drop)]
struct Meeting {
    work: FrameWork,
    hands: u32,
    begun: Arc<AtomicU32, Global>,
    too_late: Arc<AtomicBool, Global>,
}

impl Meeting {
    /// Waits until as many windows were begun as hands must meet. No hand begins a second one before.
    fn wait(&self) {
        self.begun.fetch_add(1, SeqCst);
        for _ in 0..LOOKS {
            if self.begun.load(SeqCst) >= self.hands || self.too_late.load(SeqCst) {
                return;
            }
            thread::yield_now();
        }
        self.too_late.store(true, SeqCst);
    }
}

impl Hand for Meeting {
    type Tools = Place;

    fn hire(alloc: Global, tools: &Place) -> Result<Self, NoMemory> {
        Ok(Meeting {
            work: FrameWork::new(alloc)?,
            hands: tools.hands,
            begun: Arc::try_clone(&tools.begun)?,
            too_late: Arc::try_clone(&tools.too_late)?,
        })
    }

    fn decode(&mut self, window: Window) -> FrameDone {
        self.wait();
        self.work.decode(window)
    }
}

fn call_with<R: Threads + Wait + Sync>(
    rt: &R,
    alloc: Global,
    call: &Call<'_>,
    tools: &Place,
    disk: &mut MemDisk,
) -> Result<Printed, Fail> {
    let mut parts = parts_of(alloc, call)?;
    let status = station_with::<Meeting, R, _, _, _, _>(
        rt,
        alloc,
        &parts.words,
        tools,
        &mut parts.source,
        disk,
        &mut parts.out,
        &mut parts.err,
    );
    Ok(parts.ended(status))
}

/// Whether this many hands meet, and the call leaves what it leaves with other hands.
fn meets<R: Threads + Wait + Sync>(
    rt: &R,
    alloc: Global,
    hands: u32,
    words: &str,
    disks: (MemDisk, MemDisk),
) -> Result<bool, Fail> {
    let (mut disk, mut other) = disks;
    let bytes = symbols(alloc, "make 1 16 0", 16)?;
    let given = faultless(words, &bytes, 65_536);
    let place = Place {
        hands,
        begun: Arc::new(alloc, AtomicU32::new(0))?,
        too_late: Arc::new(alloc, AtomicBool::new(false))?,
    };
    let printed = call_with(rt, alloc, &given, &place, &mut disk)?;
    let usual = call(rt, alloc, &given, &mut other)?;
    let in_time = place.begun.load(SeqCst) >= hands && !place.too_late.load(SeqCst);
    Ok(
        usual.has_status(words, 0)?
            && printed.is_like(words, &usual)?
            && is_text("the disk", disk.as_slice(), other.as_slice())?
            && in_time,
    )
}

#[test]
fn two_hands_meet_in_decode(rt: HostRuntime) -> Result<(), Fail> {
    let alloc = rt.alloc();
    let disks = (disk(alloc, &[], 0)?, disk(alloc, &[], 0)?);
    assert!(rt;
        meets(&rt, alloc, 2, "decode --workers 2", disks)?,
        "they didn't meet"
    );
    Ok(())
}

#[test]
fn two_hands_meet_in_receive(rt: HostRuntime) -> Result<(), Fail> {
    let alloc = rt.alloc();
    let disks = (empty_shelf(alloc)?, empty_shelf(alloc)?);
    assert!(rt;
        meets(&rt, alloc, 2, "receive --workers 2", disks)?,
        "they didn't meet"
    );
    Ok(())
}

#[test]
fn eight_hands_meet_in_receive(rt: HostRuntime) -> Result<(), Fail> {
    let alloc = rt.alloc();
    let disks = (empty_shelf(alloc)?, empty_shelf(alloc)?);
    assert!(rt;
        meets(&rt, alloc, 8, "receive --workers 8", disks)?,
        "they didn't meet"
    );
    Ok(())
}
