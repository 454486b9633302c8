//! Works through fixed input many times over, to be timed from outside.
//!
//! The words: a name and a number of rounds. `rs0`, `rs1`, `rs8`, `rs16` and `rs17` restore Reed-Solomon words with
//! that many wrong bytes, `rs` all five in turn. `path` decodes windows of symbols by the plain kernel, `lanes` by
//! lanes of 32 bits and `narrow` by lanes of sixteen, and each with `-plain`, `-marks` or `-marks-plain` at its end
//! under another line code. `noise` and `locked` feed 32,768 symbols to a lock that many times, `lock` does both, and
//! `frame` leads the window of a frame to its outcome. `layers` leads 64 frames of the test stream to files, and
//! `shelf-stream` puts these on a new shelf in memory. `shelf-memory` and `shelf-file` put that many small files on a
//! new shelf, the latter in the file `shelf.bench` of the working folder, and `shelf-load` loads what stands there.
//! `shelf-loads` loads a shelf of 100,000 files in memory that many times, and `shelf-verify` verifies one of that
//! many files and counts the calls of the disk. `export` writes an image of 1,024 columns and lines as PGM, from a
//! shelf in memory. `all` does `rs`, `path`, `lanes`, `narrow`, `lock`, `frame`, `layers`, `shelf-stream` and
//! `shelf-memory`. A line for each says the rounds and what came of them, or a checksum of it.
//! `render` writes several such images, by `render` or by `export` of each.
//! `lines`, `samples`, `export-lossless` and `render-lossless` have more words, and read coded lines from standard
//! input; `code` and `coded` read samples, and code their lines.
#![tactic(auto)]

mod coding;
mod export;
mod layers;
mod lines;
mod lock;
mod path;
mod render;
mod shelf;
mod sums;
mod text;
mod words;

use shelf::Trouble;
use std::env;

fn main(rt: HostRuntime) -> Result<(), Trouble> {
    let words: Vec<String> = env::args(&rt)?.skip(1).collect(rt.alloc())?;
    let [name, rounds, ..] = words.as_slice() else {
        return Ok(eprintln!(rt; "usage: NAME ROUNDS")?);
    };
    let name = name.as_str();
    if matches!(name, "lines" | "samples") {
        return lines::run(&rt, name, &words[1..]);
    }
    if matches!(name, "code" | "coded") {
        return coding::run(&rt, name, &words[1..]);
    }
    if name == "export-lossless" {
        return export::run_lossless(&rt, &words[1..]);
    }
    if name == "render" {
        return render::run_plain(&rt, &rt, &words[1..]);
    }
    if name == "render-lossless" {
        return render::run_lossless(&rt, &rt, &words[1..]);
    }
    let rounds = rounds.as_str().parse::<u32>().unwrap_or(0);
    words::run(&rt, name, rounds)?;
    path::run(&rt, name, rounds)?;
    lock::run(&rt, name, rounds)?;
    layers::run(&rt, name, rounds)?;
    export::run(&rt, name, rounds)?;
    shelf::run(&rt, name, u64::from(rounds))
}
