//! `lritdemod --rate SAMPLES --symbols SYMBOLS ..`: complex samples of a radio on standard input, soft symbols on
//! standard output, a signed byte each, for `lritstation SHELF receive`. Each second of signal a line on standard error
//! says how it is received, and with `--status FILE` a line of JSON.
#![tactic(auto)]

mod cause;
mod downlink;
mod input;
mod plan;
mod report;
mod sigmf;
#[cfg(test)]
mod tests;
mod words;
mod work;

use cause::Cause;
use std::fs::File;
use std::process::ExitCode;
use std::{env, fs, io};
use words::request_of;
use work::work;

/// The words after the program's name.
fn all_words(rt: &HostRuntime) -> Result<Vec<String>, Cause> {
    let args = match env::args(rt) {
        Ok(args) => args,
        Err(error) if error.kind() == io::ErrorKind::OutOfMemory => return Err(Cause::NoMemory),
        Err(_) => return Err(Cause::Usage),
    };
    let mut words = Vec::new(rt.alloc());
    for word in args {
        words.push(word).map_err(|_| Cause::NoMemory)?;
    }
    Ok(words)
}

/// Takes three descriptors, among them those of standard streams that were closed, so that no file that is opened later
/// is taken for such a stream.
fn fill_streams(rt: &HostRuntime) -> [io::Result<File>; 3] {
    [fs::open(rt, "/"), fs::open(rt, "/"), fs::open(rt, "/")]
}

fn run(rt: &HostRuntime) -> Result<(), Cause> {
    let _streams = fill_streams(rt);
    let words = all_words(rt)?;
    match request_of(rt, &words)? {
        Some(request) => work(rt, &request),
        None => Ok(()),
    }
}

fn main(rt: HostRuntime) -> ExitCode {
    match run(&rt) {
        Ok(()) => ExitCode::SUCCESS,
        Err(cause) => ExitCode::from(cause.status()),
    }
}
