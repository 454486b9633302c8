//! All images of a shelf in memory, written as PGM many times over: by `render`, or by `export` of each in turn.

ghost use Rattle.std.specs.Prelude.{◌≤◌};
ghost use Rattle.lr_gatecore.specs.declared.sizes.TheConstants.{MOST_SEATS as most_seats};

use crate::export::{ROOM, coded_file, image_file, shelf_with};
use crate::lines::{Shape, number_at, shape_of};
use crate::shelf::Trouble;
use crate::sums::sum_with;
use crate::text::Text;
use lr_bits::MissionFile;
use lr_cmd_render::{render, render_alone};
use lr_cmd_shelf::export::export;
use lr_disk::MemDisk;
use lr_gatecore::MOST_SEATS;
use std::alloc::Global;
use std::io::Read;
use std::sync::Wait;
use std::thread::Threads;

/// The most images on the shelf.
const MOST_IMAGES: u32 = 1_024;

/// How often the images are written, how many there are, and who works: this many by `render`, the caller among them,
/// or 0 for `export` of each.
#[derive(Clone, Copy)]
struct Task {
    rounds: u32,
    images: u32,
    workers: u32,
    ghost workers_fit: { workers ≤ most_seats },
}

/// The task that the first three words tell.
fn task_of(words: &[String]) -> Option<Task> {
    let rounds = number_at(words, 0)?;
    let images = number_at(words, 1)?;
    let workers = number_at(words, 2)?;
    if images > MOST_IMAGES || u64::from(workers) > MOST_SEATS {
        return None;
    }
    Some(Task {
        rounds,
        images,
        workers,
    })
}

/// Writes the image of each file, one after another, and answers the last status.
fn export_each(alloc: Global, images: u32, disk: &mut MemDisk, out: &mut Text) -> u8 {
    let mut status = 0;
    for number in 0..images {
        status = export(alloc, u64::from(number), disk, out).status();
    }
    status
}

/// Writes all images once, and answers the status.
fn write_images<T: Threads + Wait + Sync>(
    threads: &T,
    alloc: Global,
    task: Task,
    disk: &mut MemDisk,
    out: &mut Text,
) -> u8 {
    match task.workers {
        0 => export_each(alloc, task.images, disk, out),
        1 => render_alone(alloc, disk, out).status(),
        workers => render(threads, alloc, workers, disk, out).status(),
    }
}

/// The status of each round, how long the texts are, and their ends.
fn checksum_of<T: Threads + Wait + Sync>(
    threads: &T,
    alloc: Global,
    task: Task,
    disk: &mut MemDisk,
) -> Result<u64, Trouble> {
    let mut sum = 0;
    let mut out = Text::new(alloc, ROOM as usize)?;
    for _ in 0..task.rounds {
        out.clear();
        let status = write_images(threads, alloc, task, disk, &mut out);
        sum = out.sum(sum_with(sum, u64::from(status)));
    }
    Ok(sum)
}

/// Makes the shelf of these files, writes their images, and prints a checksum.
fn run_task<T: Threads + Wait + Sync>(
    rt: &HostRuntime,
    threads: &T,
    task: Task,
    files: Vec<MissionFile>,
) -> Result<(), Trouble> {
    let mut disk = shelf_with(rt.alloc(), files)?;
    let sum = checksum_of(threads, rt.alloc(), task, &mut disk)?;
    Ok(println!(rt; "render {} {sum:016x}", task.rounds)?)
}

/// The words are ROUNDS IMAGES W: this many images of 1,024 columns and lines that aren't compressed are written this
/// many times, by W that work, or by `export` where W is 0.
pub fn run_plain<T: Threads + Wait + Sync>(
    rt: &HostRuntime,
    threads: &T,
    words: &[String],
) -> Result<(), Trouble> {
    let Some(task) = task_of(words) else {
        return Ok(eprintln!(rt; "usage: render ROUNDS IMAGES W")?);
    };
    let mut files = Vec::new(rt.alloc());
    for _ in 0..task.images {
        files
            .push(image_file(rt.alloc())?)
            .map_err(|_| Trouble::Memory)?;
    }
    run_task(rt, threads, task, files)
}

/// The shape that the first four words tell, and the task that the others do.
fn lossless_task(words: &[String]) -> Option<(Shape, Task)> {
    let shape = shape_of(words)?;
    let task = task_of(words.get(4..)?)?;
    Some((shape, task))
}

/// The words are BITS BLOCK COLUMNS LINES ROUNDS IMAGES W: the same of images in which the lines on standard input
/// stand 32 times.
pub fn run_lossless<T: Threads + Wait + Sync>(
    rt: &HostRuntime,
    threads: &T,
    words: &[String],
) -> Result<(), Trouble> {
    let Some((shape, task)) = lossless_task(words) else {
        return Ok(eprintln!(rt;
            "usage: render-lossless BITS BLOCK COLUMNS LINES ROUNDS IMAGES W"
        )?);
    };
    let mut coded = Vec::new(rt.alloc());
    rt.stdin().read_to_end(&mut coded)?;
    let mut files = Vec::new(rt.alloc());
    for _ in 0..task.images {
        files
            .push(coded_file(rt.alloc(), shape, &coded)?)
            .map_err(|_| Trouble::Memory)?;
    }
    run_task(rt, threads, task, files)
}
