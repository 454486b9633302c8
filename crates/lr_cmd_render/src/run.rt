//! `render`: the images of all files.
ghost use Rattle.std.specs.Prelude.{◌≡◌, ◌<◌, ◌≤◌, ◌-◌, [], false, length, IfOk};
ghost use Rattle.std.specs.VecDeque.{deque_capacity};
ghost use Rattle.lr_cmd_shelf.specs.Queries.{query_on};
ghost use Rattle.lr_rounds.specs.JobSources.{led};
ghost use Rattle.lr_rounds.specs.WorkerPools.{pool_with};
ghost use Rattle.lr_shelf.specs.Kept.{kept_by};
ghost use Rattle.lr_causes.specs.Outside.{outlets, outlets_of};
ghost use Rattle.lr_cmd_render.specs.Render.{render_query};
ghost use Rattle.lr_cmd_render.specs.Rendered.{Renders};
ghost use Rattle.lr_cmd_shelf.specs.Runs.{RunsOn, RunsOver};
ghost use Rattle.lr_cmd_render.specs.Leading.{Stands};
ghost use Rattle.lr_cmd_render.specs.Driven.{RenderComesTo, IsFreshQueue, Drives, MayDrive, driven_by};

use crate::queue::Queue;
use crate::render_source::RenderSource;
use crate::sizes::MOST_ENTRIES;
use crate::tally::Tally;
use lr_bits::{NoMemory, take_back};
use lr_causes::{Cause, Note};
use lr_disk::Disk;
use lr_gatecore::MOST_SEATS;
use lr_io::Sink;
use lr_refusals::shelf_answer;
use lr_render::RenderWork;
use lr_rounds::{DriveFault, WorkerPool, drive, drive_alone};
use lr_shelf::Shelf;
use std::alloc::Global;
use std::sync::Wait;
use std::thread::Threads;

/// Who works, and room for the images under way.
#[derive(Drop)]
struct RenderParts {
    pool: WorkerPool<RenderWork>,
    queue: Queue,
}

impl RenderParts {
    /// All memory that is taken at opening. This many work, the caller among them.
    fn new(alloc: Global, workers: u32) -> Result<RenderParts, NoMemory>
        requires { (1 ≤ workers) × (workers ≤ MOST_SEATS) }
        ensures pool { IfOk result (λ parts. parts.pool ≡ pool_with (workers - 1)) }
        ensures fresh { IfOk result (λ parts. IsFreshQueue parts.queue) }
    {
        let works = Vec::from_elem(alloc, RenderWork::new(), (workers - 1) as usize)?;
        let pool = WorkerPool::new(alloc, works, RenderWork::new())?;
        let queue = Queue::new(alloc, 2 * workers as usize + 2)?;
        Ok(RenderParts { pool, queue })
    }
}

/// Leads the pool through the entries on the caller's thread.
fn go_alone<D: Disk, O: Sink>(
    pool: WorkerPool<RenderWork>,
    entries: &mut RenderSource<'_, '_, D, O>,
) -> Result<(), Cause>
    requires alone { pool.seats ≡ 0 }
    requires begins { Stands D.Disk O.Sink (led entries.old [] 0) entries.old }
    ensures { RenderComesTo D.Disk O.Sink result entries.old entries.new }
{
    drive_alone(pool, entries)
}

/// What a drive of the pool comes to. So want of memory comes of that drive's alone.
fn driven(answer: Result<(), DriveFault<Cause>>) -> Result<(), Cause>
    ensures { result ≡ driven_by answer }
{
    match answer {
        Ok(()) => Ok(()),
        Err(DriveFault::Stopped(cause)) => Err(cause),
        Err(DriveFault::NoMemory) => Err(Cause::NoMemory),
    }
}

/// Leads all of the pool through the entries.
fn go_by_all<R: Threads + Wait + Sync, D: Disk, O: Sink>(
    rt: &R,
    pool: WorkerPool<RenderWork>,
    entries: &mut RenderSource<'_, '_, D, O>,
) -> Result<(), Cause>
    requires { Stands D.Disk O.Sink (led entries.old [] 0) entries.old }
    ensures { RenderComesTo D.Disk O.Sink result entries.old entries.new }
{
    driven(drive(rt, pool, entries))
}

/// Puts the images of a shelf that was loaded, as the call `go` leads the pool.
fn render_entries<
    D: Disk,
    O: Sink,
    F: FnOnce(WorkerPool<RenderWork>, &mut RenderSource<'_, '_, D, O>) -> Result<(), Cause>,
>(alloc: Global, parts: RenderParts, shelf: Shelf, disk: &mut D, out: &mut O, go: F) -> Cause
    requires working { (kept_by shelf).failed ≡ false }
    requires fresh { IsFreshQueue parts.queue }
    requires ready { MayDrive D.Disk O.Sink (F.pre go) parts.pool }
    requires drives { Drives D.Disk O.Sink (F.post go) }
    ensures { RunsOn (outlets_of D.Disk O.Sink) (query_on render_query (kept_by shelf).way) result
        (outlets disk.old out.old) (outlets disk.new out.new) }
{
    if shelf.len() >= MOST_ENTRIES {
        return Cause::NoMemory;
    }
    let RenderParts { pool, queue } = parts;
    let mut entries = RenderSource {
        alloc,
        shelf,
        disk,
        out,
        next: 0,
        queue,
        tally: Tally {
            images: 0,
            skipped: 0,
        },
        refusal: None,
    };
    let driven = go(pool, &mut entries);
    let RenderSource {
        shelf: _shelf,
        queue: _queue,
        disk,
        out,
        tally,
        ..
    } = entries;
    take_back(disk);
    take_back(out);
    match driven {
        Ok(()) => Cause::DoneWith(Note::Rendered {
            images: tally.images,
            skipped: tally.skipped,
        }),
        Err(cause) => cause,
    }
}

/// Loads the shelf and puts its images, where this many work, as the call `go` leads them.
fn render_with<
    D: Disk,
    O: Sink,
    F: FnOnce(WorkerPool<RenderWork>, &mut RenderSource<'_, '_, D, O>) -> Result<(), Cause>,
>(alloc: Global, workers: u32, disk: &mut D, out: &mut O, go: F) -> Cause
    requires workers { (1 ≤ workers) × (workers ≤ MOST_SEATS) }
    requires ready { MayDrive D.Disk O.Sink (F.pre go) (pool_with (workers - 1)) }
    requires drives { Drives D.Disk O.Sink (F.post go) }
    ensures { RunsOver (outlets_of D.Disk O.Sink) render_query result
        (outlets disk.old out.old) (outlets disk.new out.new) }
{
    let parts = match RenderParts::new(alloc, workers) {
        Ok(parts) => parts,
        Err(error) => return Cause::from(error),
    };
    let shelf = match shelf_answer(Shelf::load(alloc, disk)) {
        Ok(shelf) => shelf,
        Err(cause) => return cause,
    };
    render_entries(alloc, parts, shelf, disk, out, go)
}

/// Puts the image of each file that has one as PGM, in the order of the entries, each once all of it was read. Where
/// that is done it tells how many there were, and how many files were skipped. All is done on the caller's thread.
pub fn render_alone<D: Disk, O: Sink>(alloc: Global, disk: &mut D, out: &mut O) -> Cause
    ensures runs { RunsOver (outlets_of D.Disk O.Sink) render_query result
        (outlets disk.old out.old) (outlets disk.new out.new) }
    ensures rendered { Renders (outlets_of D.Disk O.Sink) result
        (outlets disk.old out.old) (outlets disk.new out.new) }
{
    render_with(
        alloc,
        1,
        disk,
        out,
        |pool, entries| -> Result<(), Cause>
            requires { (pool.seats ≡ 0) × Stands D.Disk O.Sink (led entries.old [] 0) entries.old }
            ensures { RenderComesTo D.Disk O.Sink result entries.old entries.new }
        { go_alone(pool, entries) },
    )
}

/// Does what `render_alone` does, where this many work, the caller among them. A thread is started for each other
/// worker.
pub fn render<R: Threads + Wait + Sync, D: Disk, O: Sink>(
    rt: &R,
    alloc: Global,
    workers: u32,
    disk: &mut D,
    out: &mut O,
) -> Cause
    requires { (1 ≤ workers) × (workers ≤ MOST_SEATS) }
    ensures runs { RunsOver (outlets_of D.Disk O.Sink) render_query result
        (outlets disk.old out.old) (outlets disk.new out.new) }
    ensures rendered { Renders (outlets_of D.Disk O.Sink) result
        (outlets disk.old out.old) (outlets disk.new out.new) }
{
    render_with(
        alloc,
        workers,
        disk,
        out,
        |pool, entries| -> Result<(), Cause>
            requires { Stands D.Disk O.Sink (led entries.old [] 0) entries.old }
            ensures { RenderComesTo D.Disk O.Sink result entries.old entries.new }
        { go_by_all(rt, pool, entries) },
    )
}
