//! Draws histories of frames for `Channels`, lists of good packets for `Files`, strings for `decode_lines`, headers for
//! `Records` and histories of packets for `MendedFiles`, and prints for each kind how many there were, with a checksum
//! of what came of them. `reference/packets.py`, `reference/files.py`, `reference/lines.py`, `reference/headers.py` and
//! `reference/mend.py` draw the same ones, and compute the same lines from the definitions alone.
#![tactic(auto)]

mod draw;
mod files;
mod headers;
mod lines;
mod mended;
mod packets;
mod sender;

use files::{LISTS, add_lists};
use headers::{HEADERS, add_headers};
use lines::{STRINGS, add_strings};
use packets::{HISTORIES, add_histories};
use std::io;

fn print_packets(rt: &HostRuntime) -> io::Result<()> {
    match add_histories(rt.alloc()) {
        Ok(tally) => {
            let packets::Tally {
                frames,
                packets,
                checksum,
            } = tally;
            println!(rt;
                "histories {HISTORIES} frames {frames} packets {packets} checksum {checksum}"
            )
        }
        Err(_) => println!(rt; "no memory"),
    }
}

fn print_files(rt: &HostRuntime) -> io::Result<()> {
    match add_lists(rt.alloc()) {
        Ok(tally) => {
            let files::Tally {
                packets,
                files,
                checksum,
            } = tally;
            println!(rt; "lists {LISTS} packets {packets} files {files} checksum {checksum}")
        }
        Err(_) => println!(rt; "no memory"),
    }
}

fn print_lines(rt: &HostRuntime) -> io::Result<()> {
    match add_strings(rt.alloc()) {
        Ok(tally) => {
            let lines::Tally {
                lines,
                ended,
                range,
                run,
                checksum,
            } = tally;
            println!(rt;
                "strings {STRINGS} lines {lines} ended {ended} range {range} run {run} checksum {checksum}"
            )
        }
        Err(_) => println!(rt; "no memory"),
    }
}

fn print_headers(rt: &HostRuntime) -> io::Result<()> {
    match add_headers(rt.alloc()) {
        Ok(tally) => {
            let headers::Tally {
                ended,
                not_primary,
                short,
                overrun,
                length,
                records,
                checksum,
            } = tally;
            println!(rt;
                "headers {HEADERS} ended {ended} not-primary {not_primary} short {short} \
overrun {overrun} length {length} records {records} checksum {checksum}"
            )
        }
        Err(_) => println!(rt; "no memory"),
    }
}

fn print_mended(rt: &HostRuntime) -> io::Result<()> {
    match mended::add_histories(rt.alloc()) {
        Ok(tally) => {
            let mended::Tally {
                packets,
                files,
                fillers,
                checksum,
            } = tally;
            let histories = mended::HISTORIES;
            println!(rt;
                "mended {histories} packets {packets} files {files} fillers {fillers} checksum {checksum}"
            )
        }
        Err(_) => println!(rt; "no memory"),
    }
}

fn main(rt: HostRuntime) -> io::Result<()> {
    print_packets(&rt)?;
    print_files(&rt)?;
    print_lines(&rt)?;
    print_headers(&rt)?;
    print_mended(&rt)
}
