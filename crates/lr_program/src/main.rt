//! `lritstation SHELF COMMAND ..`: hands the shelf, standard input, standard output and standard error to the station.
#![tactic(auto)]

use lr_disk::{Disk, FileDisk, MemDisk};
use lr_io::{ReadSource, StdReader, StdWriter, WriteSink};
use lr_station::{Cause, station, tell, writes_shelf};
use std::fs::{File, OpenOptions};
use std::process::ExitCode;
use std::sync::Wait;
use std::thread::Threads;
use std::{env, fs, io};

/// The path that stands for an empty disk in memory, which no one sees afterwards.
const NO_FILE: &str = "-";

/// The most bytes on that disk, and the most calls of it.
const ROOM: u64 = 4_194_304;

const CALLS: u64 = 65_536;

/// The status where the path can't be opened, or another process holds the shelf. Nothing is printed then.
const UNOPENED: u8 = 1;

/// The path of the shelf and the words after it.
fn all_words(rt: &HostRuntime) -> Result<Vec<String>, Cause> {
    let args = match env::args(rt) {
        Ok(args) => args.skip(1),
        Err(error) if error.kind() == io::ErrorKind::OutOfMemory => return Err(Cause::NoMemory),
        Err(_) => return Err(Cause::Usage),
    };
    let mut words = Vec::new(rt.alloc());
    for word in args {
        words.push(word).map_err(|_| Cause::NoMemory)?;
    }
    Ok(words)
}

/// Takes three descriptors, among them those of the standard streams that were closed. Nothing opened while these are
/// held is taken for such a stream, and the stream fails, since a directory is neither read nor written as bytes.
fn fill_streams(rt: &HostRuntime) -> [io::Result<File>; 3] {
    [fs::open(rt, "/"), fs::open(rt, "/"), fs::open(rt, "/")]
}

/// The folder of a path, as the system reads it.
fn folder_of(path: &str) -> &str {
    match path.rfind('/') {
        Some(0) => "/",
        Some(end) => &path[..end],
        None => ".",
    }
}

/// Makes sure that a file which was made in this folder is still there after a stop.
fn keep_folder(rt: &HostRuntime, folder: &str) -> io::Result<()> {
    fs::open(rt, folder)?.sync_all()
}

/// The file of the shelf. Where it is missing it is made, and its folder is synced.
fn open_shelf(rt: &HostRuntime, path: &str) -> io::Result<File> {
    let mut options = OpenOptions::new();
    options.read(true).write(true);
    match options.open(rt, path) {
        Err(error) if error.kind() == io::ErrorKind::NotFound => {
            let file = options.create(true).open(rt, path)?;
            keep_folder(rt, folder_of(path))?;
            Ok(file)
        }
        other => other,
    }
}

/// Whether the file is there and may only be read.
fn may_only_be_read(error: &io::Error) -> bool {
    matches!(
        error.kind(),
        io::ErrorKind::PermissionDenied | io::ErrorKind::ReadOnlyFilesystem
    )
}

/// The file of the shelf for a command. One that doesn't write a shelf reads it where it may only be read.
fn open_for(rt: &HostRuntime, path: &str, writes: bool) -> io::Result<File> {
    match open_shelf(rt, path) {
        Err(error) if !writes && may_only_be_read(&error) => fs::open(rt, path),
        other => other,
    }
}

/// Puts the line of a cause that comes before the station is called, and answers its status.
fn refuse(rt: &HostRuntime, cause: Cause) -> u8 {
    tell(cause, &mut WriteSink::of(StdWriter::of(rt.stderr())));
    cause.status()
}

fn run_on<T: Threads + Wait + Sync, D: Disk + Send>(
    rt: &HostRuntime,
    threads: &T,
    words: &[String],
    disk: &mut D,
) -> u8 {
    let mut source = ReadSource::of(StdReader::of(rt.stdin()));
    let mut out = WriteSink::of(StdWriter::of(rt.stdout()));
    let mut err = WriteSink::of(StdWriter::of(rt.stderr()));
    station(
        threads,
        rt.alloc(),
        words,
        &mut source,
        disk,
        &mut out,
        &mut err,
    )
}

fn run_in_memory<T: Threads + Wait + Sync>(rt: &HostRuntime, threads: &T, words: &[String]) -> u8 {
    match MemDisk::of(rt.alloc(), Vec::new(rt.alloc()), ROOM, CALLS) {
        Ok(mut disk) => run_on(rt, threads, words, &mut disk),
        Err(_) => refuse(rt, Cause::NoMemory),
    }
}

/// Runs a command on the file at this path. One that writes holds the file's advisory lock until it ends, and isn't run
/// where another process holds it.
fn run_on_file<T: Threads + Wait + Sync>(
    rt: &HostRuntime,
    threads: &T,
    path: &str,
    words: &[String],
) -> u8 {
    let _streams = fill_streams(rt);
    let writes = writes_shelf(words);
    let Ok(file) = open_for(rt, path, writes) else {
        return UNOPENED;
    };
    if writes && file.try_lock().is_err() {
        return UNOPENED;
    }
    run_on(rt, threads, words, &mut FileDisk::of(file))
}

/// What `main` does. The threads are those that it may start.
fn run<T: Threads + Wait + Sync>(rt: &HostRuntime, threads: &T) -> u8 {
    let all = match all_words(rt) {
        Ok(all) => all,
        Err(cause) => return refuse(rt, cause),
    };
    let Some((path, words)) = all.split_first() else {
        return refuse(rt, Cause::Usage);
    };
    if path.as_str() == NO_FILE {
        return run_in_memory(rt, threads, words);
    }
    run_on_file(rt, threads, path.as_str(), words)
}

fn main(rt: HostRuntime) -> ExitCode {
    ExitCode::from(run(&rt, &rt))
}
