//! The line of a cause, which takes no memory.
ghost use Rattle.std.specs.Prelude.{◌≡◌, ◌≤◌, ◌+◌, ◌++◌, ◌∷◌, [], length, decimal};
ghost use Rattle.lr_causes.specs.Causes.{line_of};
ghost use Rattle.lr_causes.specs.declared.line.TheConstants.{LINE_BYTES, PIECE_BYTES};

use crate::cause::{Cause, Party, Refusal};
use crate::fault::{BundleFlaw, CodingFault, ExportFault};
use crate::note::Note;
use itoa::Buffer;
use std::marker::Model;

/// How many bytes a piece of a line has, at most.
const PIECE_BYTES: usize = 40;

/// How many bytes a line has, at most.
const LINE_BYTES: usize = 4 * PIECE_BYTES;

/// A line, or the front of one, in an array. It takes no memory.
#[derive(Drop)]
pub struct Line {
    bytes: [u8; LINE_BYTES],
    filled: usize,
}

impl Model for Line {
    ghost use Rattle.std.specs.Prelude.{List, ℕ, take, ◌≤◌};
    ghost use Rattle.lr_causes.specs.declared.line.TheConstants.{LINE_BYTES};

    ghost Value = { List ℕ };

    ghost view = { λ l. take l.filled l.bytes };

    ghost invariant = { λ l. l.filled ≤ LINE_BYTES };
}

impl Line {
    /// No bytes.
    pub fn new() -> Self
        ensures { result ≡ [] }
    {
        Line {
            bytes: [0; LINE_BYTES],
            filled: 0,
        }
    }

    /// Its bytes.
    pub fn as_bytes(&self) -> &[u8]
        ensures { result.now ≡ self.now }
    {
        &self.bytes[..self.filled]
    }

    /// Appends the piece.
    pub fn push(&mut self, piece: &[u8])
        requires { length self.old + length piece.now ≤ LINE_BYTES }
        ensures { self.new ≡ self.old ++ piece.now }
    {
        let filled = self.filled;
        let end = filled + piece.len();
        self.bytes[filled..end].copy_from_slice(piece);
        self.filled = end;
    }

    /// Appends a number in decimal digits.
    pub fn number(&mut self, n: u64)
        requires { length self.old + PIECE_BYTES ≤ LINE_BYTES }
        ensures added { self.new ≡ self.old ++ decimal n }
        ensures short { length self.new ≤ length self.old + PIECE_BYTES }
    {
        let mut buffer = Buffer::new();
        self.push(buffer.format(n).as_bytes());
    }
}

/// A line of a text and a number.
fn line_with(text: &[u8], number: u64) -> Line
    requires { length text.now ≤ PIECE_BYTES }
    ensures { result ≡ text.now ++ decimal number ++ 10 ∷ [] }
{
    let mut line = Line::new();
    line.push(text);
    line.number(number);
    line.push(b"\n");
    line
}

/// The line of a shelf that is full.
fn capacity_line(needed: u64, capacity: u64) -> Line
    ensures { result ≡ line_of (Cause.Refused (Refusal.Capacity needed capacity)) }
{
    let mut line = Line::new();
    line.push(b"station: capacity: needs ");
    line.number(needed);
    line.push(b" of ");
    line.number(capacity);
    line.push(b"\n");
    line
}

/// The line of a file that gives no PGM.
fn export_line(fault: ExportFault) -> Line
    ensures { result ≡ line_of (Cause.Refused (Refusal.CannotExport fault)) }
{
    let mut line = Line::new();
    line.push(b"station: cannot export: ");
    line.push(fault.word().as_bytes());
    line.push(b"\n");
    line
}

/// The line of an image that isn't coded anew.
fn coding_line(fault: CodingFault) -> Line
    ensures { result ≡ line_of (Cause.Refused (Refusal.CannotRepack fault)) }
{
    let mut line = Line::new();
    line.push(b"station: cannot repack: ");
    line.push(fault.word().as_bytes());
    line.push(b"\n");
    line
}

/// The line of bytes that are no bundle of recordings.
fn bundle_line(flaw: BundleFlaw) -> Line
    ensures { result ≡ line_of (Cause.Refused (Refusal.BadBundle flaw)) }
{
    match flaw {
        BundleFlaw::Ended { at } => line_with(b"station: bad bundle: ended ", at),
        BundleFlaw::Count { count } => line_with(b"station: bad bundle: count ", count as u64),
        BundleFlaw::Rest { at } => line_with(b"station: bad bundle: rest ", at),
        BundleFlaw::TooLong => fixed_line(b"station: bad bundle: too-long\n"),
    }
}

/// The line of segments that were put together.
fn assembled_line(added: u64, skipped: u64, uncovered: u64) -> Line
    ensures { result ≡ line_of (Cause.DoneWith (Note.Assembled added skipped uncovered)) }
{
    let mut line = Line::new();
    line.push(b"assembled ");
    line.number(added);
    line.push(b" skipped ");
    line.number(skipped);
    line.push(b" uncovered ");
    line.number(uncovered);
    line.push(b"\n");
    line
}

/// The line of images that were put.
fn rendered_line(images: u64, skipped: u64) -> Line
    ensures { result ≡ line_of (Cause.DoneWith (Note.Rendered images skipped)) }
{
    let mut line = Line::new();
    line.push(b"rendered ");
    line.number(images);
    line.push(b" skipped ");
    line.number(skipped);
    line.push(b"\n");
    line
}

/// The line of work that is done.
fn note_line(note: Note) -> Line
    ensures { result ≡ line_of (Cause.DoneWith note) }
{
    match note {
        Note::Assembled {
            added,
            skipped,
            uncovered,
        } => assembled_line(added, skipped, uncovered),
        Note::Rendered { images, skipped } => rendered_line(images, skipped),
    }
}

fn fixed_line(text: &[u8]) -> Line
    requires { length text.now ≤ PIECE_BYTES }
    ensures { result ≡ text.now }
{
    let mut line = Line::new();
    line.push(text);
    line
}

fn refusal_line(refusal: Refusal) -> Line
    ensures { result ≡ line_of (Cause.Refused refusal) }
{
    match refusal {
        Refusal::NotAShelf { at } => line_with(b"station: not a shelf at ", at),
        Refusal::NoSuchFile { count } => line_with(b"station: no such file, count ", count),
        Refusal::Capacity { needed, capacity } => capacity_line(needed, capacity),
        Refusal::NotEmpty { length } => line_with(b"station: not empty, length ", length),
        Refusal::BadChecksum => fixed_line(b"station: bad checksum\n"),
        Refusal::Discarded => fixed_line(b"station: discarded\n"),
        Refusal::CannotExport(fault) => export_line(fault),
        Refusal::BadBundle(flaw) => bundle_line(flaw),
        Refusal::CannotSend => fixed_line(b"station: cannot send: fill\n"),
        Refusal::CannotRepack(fault) => coding_line(fault),
    }
}

/// The line that a cause puts on `err`.
pub fn line_for(cause: Cause) -> Line
    ensures { result ≡ line_of cause }
{
    match cause {
        Cause::Done => Line::new(),
        Cause::DoneWith(note) => note_line(note),
        Cause::Usage => fixed_line(b"station: usage: SHELF COMMAND [WORDS]\n"),
        Cause::Failed(Party::Source) => fixed_line(b"station: source failed\n"),
        Cause::Failed(Party::Disk) => fixed_line(b"station: disk failed\n"),
        Cause::Failed(Party::Output) => fixed_line(b"station: output failed\n"),
        Cause::NoMemory => fixed_line(b"station: no memory\n"),
        Cause::Refused(refusal) => refusal_line(refusal),
    }
}
