//! One command over bytes that the caller lends.
ghost use Rattle.std.specs.Prelude.{◌≡◌, ◌↔◌, ◌⊎◌, ◌≤◌, ◌<◌, ◌==◌, length, map, string_bytes, IfOk, OnErr, IsUtf8};
ghost use Rattle.lr_causes.specs.Outside.{world_of};
ghost use Rattle.lr_disk.specs.MemDisk.{held_by as disk_bytes};
ghost use Rattle.lr_embed.specs.Lent.{
  GotBytes,
  HasNotRun,
  HasRun,
  RunsLent,
  lent_to_call,
  no_room,
  rooms,
};
ghost use Rattle.lr_io.specs.MemSink.{held_by as sink_bytes};
ghost use Rattle.lr_station.specs.Runs.{world_and_err};
ghost use Rattle.lr_words.specs.Lines.{no_text_given, words_in};

use crate::source::LentSource;
use lr_bits::NoMemory;
use lr_disk::{Disk, MemDisk};
use lr_io::{MemSink, Sink, Source};
use lr_station::station_alone;
use lr_words::{NO_MEMORY, NO_TEXT, words_of};
use std::alloc::Global;

/// The answer of a call whose shelf is longer than the room for it.
pub const NO_ROOM: u32 = 258;

/// How many bytes a call put into each of the three rooms.
#[repr(C)]
#[derive(Clone, Copy)]
pub struct Counts {
    pub out: u64,
    pub err: u64,
    pub shelf: u64,
}

/// What a call left.
#[derive(Drop)]
struct Left {
    status: u8,
    disk: MemDisk,
    out: MemSink,
    err: MemSink,
}

/// How many bytes each room takes, and how many calls of the shelf there may be.
#[derive(Clone, Copy)]
struct Limits {
    out: usize,
    err: usize,
    shelf: usize,
    calls: u64,
}

/// Copies bytes to the front of a room, and answers how many.
fn hand_over(bytes: &[u8], room: &mut [u8]) -> u64
    requires { length bytes.now ≤ length room.old }
    ensures { GotBytes room.old room.new result bytes.now }
{
    room[..bytes.len()].copy_from_slice(bytes);
    bytes.len() as u64
}

/// The station over these bytes.
fn station_over(
    alloc: Global,
    words: &[String],
    input: &[u8],
    shelf: &[u8],
    limits: Limits,
) -> Result<Left, NoMemory>
    requires { length shelf.now ≤ limits.shelf }
    ensures { IfOk result (λ left. RunsLent
        (world_and_err (world_of ⟦<LentSource<'static> as Source>⟧ ⟦<MemDisk as Disk>⟧ ⟦<MemSink as Sink>⟧)
        ⟦<MemSink as Sink>⟧)
        (lent_to_call (map string_bytes words.now) input.now shelf.now limits.calls limits.out limits.err limits.shelf)
        left.status (sink_bytes left.out) (sink_bytes left.err) (disk_bytes left.disk)) }
{
    let bytes = Vec::from_slice(alloc, shelf)?;
    let mut disk = MemDisk::of(alloc, bytes, limits.shelf as u64, limits.calls)?;
    let mut source = LentSource { rest: input };
    let mut out = MemSink::of(alloc, Vec::new(alloc), limits.out)?;
    let mut err = MemSink::of(alloc, Vec::new(alloc), limits.err)?;
    let status = station_alone(alloc, words, &mut source, &mut disk, &mut out, &mut err);
    Ok(Left {
        status,
        disk,
        out,
        err,
    })
}

/// Hands over what a call left, and answers the status. Where a room is too short for it nothing is handed over; that
/// doesn't come, since each of the three keeps within its room.
fn hand_all(
    left: &Left,
    out: &mut [u8],
    err: &mut [u8],
    kept: &mut [u8],
) -> Result<Counts, NoMemory>
    ensures out { IfOk result (λ counts. GotBytes out.old out.new counts.out (sink_bytes left.now.out)) }
    ensures err { IfOk result (λ counts. GotBytes err.old err.new counts.err (sink_bytes left.now.err)) }
    ensures shelf { IfOk result (λ counts. GotBytes kept.old kept.new counts.shelf (disk_bytes left.now.disk)) }
    ensures refused { OnErr result (rooms out.new err.new kept.new ≡ rooms out.old err.old kept.old) }
{
    let (said, told, bytes) = (
        left.out.as_slice(),
        left.err.as_slice(),
        left.disk.as_slice(),
    );
    if said.len() > out.len() || told.len() > err.len() || bytes.len() > kept.len() {
        return Err(NoMemory);
    }
    Ok(Counts {
        out: hand_over(said, out),
        err: hand_over(told, err),
        shelf: hand_over(bytes, kept),
    })
}

/// The command over memory alone, of these words.
fn run(
    alloc: Global,
    text: &str,
    input: &[u8],
    shelf: &[u8],
    calls: u64,
    out: &mut [u8],
    err: &mut [u8],
    kept: &mut [u8],
) -> Result<(u8, Counts), NoMemory>
    requires { length shelf.now ≤ length kept.old }
    ensures runs { IfOk result (λ it. HasRun
        (world_and_err (world_of ⟦<LentSource<'static> as Source>⟧ ⟦<MemDisk as Disk>⟧ ⟦<MemSink as Sink>⟧)
        ⟦<MemSink as Sink>⟧)
        (lent_to_call (words_in text.now) input.now shelf.now calls (length out.old) (length err.old) (length kept.old))
        it.0 it.1 (rooms out.old err.old kept.old) (rooms out.new err.new kept.new)) }
    ensures refused { OnErr result (rooms out.new err.new kept.new ≡ rooms out.old err.old kept.old) }
{
    let limits = Limits {
        out: out.len(),
        err: err.len(),
        shelf: kept.len(),
        calls,
    };
    let words = words_of(alloc, text)?;
    let left = station_over(alloc, &words, input, shelf, limits)?;
    let counts = hand_all(&left, out, err, kept)?;
    Ok((left.status, counts))
}

/// Runs one command: the words stand in lines of UTF-8, `input` is what it reads, `shelf` the shelf's bytes. What it
/// puts out, the line that says why it ended and the shelf's bytes afterwards go to the fronts of the three rooms, and
/// `counts` says how many. The length of `kept` is also how many bytes may be written in all, and `calls` is how many
/// calls of the shelf there may be. It answers the command's status. Three answers are none: 257 where the words are no
/// UTF-8, else 258 where the shelf is longer than `kept`, which then needs `counts.shelf` bytes; these need no memory.
/// 256 says that memory was refused. At each of the three the rooms are as they were.
#[unsafe(no_mangle)]
pub extern "C" fn lr_run(
    alloc: Global,
    words: &[u8],
    input: &[u8],
    shelf: &[u8],
    calls: u64,
    out: &mut [u8],
    err: &mut [u8],
    kept: &mut [u8],
    counts: &mut Counts,
) -> u32
    ensures runs { HasNotRun result (rooms out.old err.old kept.old) (rooms out.new err.new kept.new) ⊎ HasRun
        (world_and_err (world_of ⟦<LentSource<'static> as Source>⟧ ⟦<MemDisk as Disk>⟧ ⟦<MemSink as Sink>⟧)
        ⟦<MemSink as Sink>⟧)
        (lent_to_call (words_in words.now) input.now shelf.now calls (length out.old) (length err.old)
        (length kept.old))
        result counts.new (rooms out.old err.old kept.old) (rooms out.new err.new kept.new) }
    ensures no_text { (result ≡ no_text_given) ↔ (IsUtf8 words.now → ⊥) }
    ensures no_room { (result ≡ no_room) ↔ (IsUtf8 words.now × (length kept.old < length shelf.now)) }
    ensures needed { result ≡ no_room → counts.new.shelf ≡ length shelf.now }
{
    let Ok(text) = std::str::from_utf8(words) else {
        return NO_TEXT;
    };
    if shelf.len() > kept.len() {
        counts.shelf = shelf.len() as u64;
        return NO_ROOM;
    }
    match run(alloc, text, input, shelf, calls, out, err, kept) {
        Ok((status, left)) => {
            *counts = left;
            u32::from(status)
        }
        Err(NoMemory) => NO_MEMORY,
    }
}
