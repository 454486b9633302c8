//! A run over a bundle.
ghost use Rattle.std.specs.Prelude.{◌≡◌, ◌<◌, ◌≤◌, false, [], length, IfOk};
ghost use Rattle.lr_shelf.specs.Kept.{kept_by, shelf_on};
ghost use Rattle.lr_downlinks.specs.Books.{BeginsRun};
ghost use Rattle.lr_downlinks.specs.Ending.{RunEndsWith};
ghost use Rattle.lr_downlinks.specs.Members.{AreMembers, IsMember};
ghost use Rattle.lr_downlinks.specs.Runs.{MergesOver, all_files};
ghost use Rattle.lr_downlinks.specs.Streams.{files_of_downlink};

use crate::book::Book;
use crate::bundle::Bundle;
use crate::member::{Member, new_members, work};
use crate::order::Order;
use crate::rest::end_run;
use crate::run::{Run, RunEnd};
use crate::run_start::RunStart;
use crate::sizes::MOST_DOWNLINKS;
use lr_bits::{NoMemory, take_back};
use lr_conv::LineCode;
use lr_disk::Disk;
use lr_shelf::Shelf;
use std::alloc::Global;
use std::marker::{Brand, PhantomData};
use std::sync::{Mutex, Wait};
use std::thread;
use std::thread::Threads;

/// The disk, as it is lent to a run.
#[derive(Drop)]
struct Lent<'a, D> {
    disk: &'a mut D,
}

/// Works on each downlink in a thread of its own.
fn work_beside<N: RunStart<D> + Send + Sync, R: Threads + Wait + Sync, D: Disk + Send>(
    rt: &R,
    alloc: Global,
    bundle: &Bundle,
    line: LineCode,
    book: &Mutex<Book<'_, N, D>>,
    members: &mut [Member],
)
    requires streams { bundle.now ≡ (N.start).streams }
    requires line { line ≡ (N.start).line }
    requires members { AreMembers N.start members.old }
    ensures { AreMembers N.start members.new }
{
    thread::for_each_mut(
        rt,
        members,
        MOST_DOWNLINKS,
        &|_: usize, member: &mut Member|
            requires { (bundle.now ≡ (N.start).streams) × (line ≡ (N.start).line)
                × (member.old.downlink < length (N.start).streams) }
            ensures { IsMember N.start member.old.downlink member.new }
        { work(rt, alloc, bundle, line, book, member) },
    );
}

/// The book with which a run begins.
fn open_book<'a, N: RunStart<D>, D: Disk>(
    shelf: Shelf,
    lent: Lent<'a, D>,
    order: Order,
) -> Book<'a, N, D>
    requires working { (kept_by shelf).failed ≡ false }
    requires few { length (N.start).streams ≤ MOST_DOWNLINKS }
    requires begun { BeginsRun D.Disk N.start N.handed lent.disk.ghost_name (shelf_on shelf lent.disk.now) }
    requires none { order ≡ [] }
    ensures { result.failed ≡ false }
{
    let Lent { disk } = lent;
    Book {
        disk,
        shelf,
        order,
        failed: false,
        start: PhantomData,
    }
}

/// Appends the files of each downlink in a thread of its own, and then what is left over.
fn fill_book<'a, N: RunStart<D> + Send + Sync, R: Threads + Wait + Sync, D: Disk + Send>(
    rt: &R,
    alloc: Global,
    bundle: &Bundle,
    line: LineCode,
    members: Result<Vec<Member>, NoMemory>,
    book: Book<'a, N, D>,
) -> (Book<'a, N, D>, RunEnd)
    requires streams { bundle.now ≡ (N.start).streams }
    requires line { line ≡ (N.start).line }
    requires members { IfOk members (λ members. AreMembers N.start members.items) }
    requires working { book.failed ≡ false }
    ensures { RunEndsWith N.start result.0 result.1 }
{
    let Ok(mut members) = members else {
        return (book, RunEnd::NoMemory);
    };
    let book = Mutex::new(book);
    work_beside(rt, alloc, bundle, line, &book, &mut members);
    let mut book = book.into_inner();
    let result = end_run(&mut book, &members);
    (book, result)
}

/// The run, with what it begins with named.
fn run_named<'a, N: RunStart<D> + Send + Sync, R: Threads + Wait + Sync, D: Disk + Send>(
    rt: &R,
    alloc: Global,
    bundle: &Bundle,
    line: LineCode,
    shelf: Shelf,
    lent: Lent<'a, D>,
) -> (Lent<'a, D>, Run)
    requires working { (kept_by shelf).failed ≡ false }
    requires streams { bundle.now ≡ (N.start).streams }
    requires line { line ≡ (N.start).line }
    requires begun { BeginsRun D.Disk N.start N.handed lent.disk.ghost_name (shelf_on shelf lent.disk.now) }
    ensures same { result.0.disk.ghost_name ≡ lent.entry.disk.ghost_name }
    ensures runs { MergesOver D.Disk (all_files (length bundle.now) (files_of_downlink line bundle.now))
        (shelf_on shelf lent.entry.disk.now)
        result.0.disk.now result.1 }
{
    let base = shelf.len();
    let members = new_members::<N, D>(alloc, bundle.streams());
    let book = open_book::<N, D>(shelf, lent, Order::new(alloc));
    let (book, result) = fill_book(rt, alloc, bundle, line, members, book);
    let Book {
        disk,
        shelf: _,
        order,
        failed: _,
        start: _,
    } = book;
    (
        Lent { disk },
        Run {
            base,
            order: order.into_bytes(),
            result,
        },
    )
}

/// Puts the mission files of all downlinks of the bundle onto the shelf, whose disk is lent. Each downlink is worked on
/// by a thread of its own, and its files come onto the shelf in their order; whose come first is open. The shelf, which
/// isn't failed, is spent: it is loaded again after the run.
pub fn run_downlinks<R: Threads + Wait + Sync, D: Disk + Send>(
    rt: &R,
    alloc: Global,
    bundle: &Bundle,
    line: LineCode,
    shelf: Shelf,
    disk: &mut D,
) -> Run
    requires working { (kept_by shelf).failed ≡ false }
    ensures { MergesOver D.Disk (all_files (length bundle.now) (files_of_downlink line bundle.now))
        (shelf_on shelf disk.old) disk.new
        result }
{
    let lent = Lent { disk };
    let (lent, run) = run_named::<Brand, R, D>(rt, alloc, bundle, line, shelf, lent);
    let Lent { disk } = lent;
    take_back(disk);
    run
}
