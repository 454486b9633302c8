//! The lines of `list`: one for each file of a shelf, and the last one.

ghost use Rattle.std.specs.Prelude.{◌≡◌, ◌++◌, ◌==◌, IfOk, OnOk, OnErr, string_bytes, decimal};
ghost use Rattle.lr_bits.specs.File.{declared_bits_of, real_bits_of};
ghost use Rattle.lr_headers.specs.Headers.{header_of};
ghost use Rattle.lr_catalog.specs.Entries.{
  key_words,
  size_words,
  same_word,
  bits_words,
  type_word,
  origin_words,
  file_line,
  shelf_line,
};

use crate::texts::put_words;
use lr_bits::{Bytes, MissionFile, NoMemory, Origin};
use lr_headers::{HeaderFault, Records};
use std::alloc::{AllocError, Global};

fn key_words(alloc: Global, number: u64, file: &MissionFile) -> Result<String, AllocError>
    ensures { IfOk result (λ words. string_bytes words ≡ key_words number file.now) }
{
    let vc = file.vc();
    let apid = file.apid();
    let counter = file.counter();
    format!(in alloc; "file {number} vc {vc} apid {apid} counter {counter}")
}

fn size_words(alloc: Global, file: &MissionFile) -> Result<String, AllocError>
    ensures { IfOk result (λ words. string_bytes words ≡ size_words file.now) }
{
    let bytes = file.bytes().len();
    let packets = file.packets();
    format!(in alloc; " bytes {bytes} packets {packets}")
}

fn same_word(same: bool) -> &'static str
    ensures { result.now ≡ same_word same }
{
    if same { "same" } else { "differs" }
}

#[tactic(auto, unfolding(crate::specs::Entries::bits_words))]
fn bits_words(alloc: Global, declared: u64, real: u64) -> Result<String, AllocError>
    ensures { IfOk result (λ words. string_bytes words ≡ bits_words declared real) }
{
    let same = same_word(declared == real);
    format!(in alloc; " declared {declared} real {real} {same}")
}

fn kind_word(alloc: Global, kind: u8) -> Result<String, AllocError>
    ensures { IfOk result (λ word. string_bytes word ≡ decimal kind) }
{
    format!(in alloc; "{kind}")
}

/// Appends the file type that the header tells, or that there is a fault in it.
fn put_type(alloc: Global, proper: &[u8], out: &mut Bytes) -> Result<(), NoMemory>
    ensures { OnOk result (out.new ≡ out.old ++ type_word (header_of proper.now)) }
{
    match Records::read(alloc, proper) {
        Ok(records) => put_words(kind_word(alloc, records.file_type()), out),
        Err(fault) => match fault {
            HeaderFault::NoMemory => Err(NoMemory),
            _ => out.extend(b"fault"),
        },
    }
}

#[tactic(auto, unfolding(crate::specs::Entries::origin_words))]
fn origin_words(alloc: Global, origin: Option<Origin>) -> Result<String, AllocError>
    ensures { IfOk result (λ words. string_bytes words ≡ origin_words origin) }
{
    match origin {
        Some(
            Origin {
                first,
                last,
                corrected,
            },
        ) => format!(in alloc; " frames {first} {last} corrected {corrected}"),
        None => String::from_str(alloc, " frames none"),
    }
}

/// Appends the line of a file of a shelf.
fn put_file(
    alloc: Global,
    number: u64,
    file: &MissionFile,
    origin: Option<Origin>,
    out: &mut Bytes,
) -> Result<(), NoMemory>
    ensures { OnOk result (out.new ≡ out.old ++ file_line number file.now origin) }
{
    put_words(key_words(alloc, number, file), out)?;
    put_words(size_words(alloc, file), out)?;
    put_words(
        bits_words(alloc, file.declared_bits(), file.real_bits()),
        out,
    )?;
    out.extend(b" type ")?;
    put_type(alloc, file.proper(), out)?;
    put_words(origin_words(alloc, origin), out)?;
    out.extend(b"\n")
}

/// Appends the line of a file of a shelf, or nothing: what its packets and its headers say of it, and where it came
/// from, if that is known. Numbers count from 0.
pub fn file_line(
    alloc: Global,
    number: u64,
    file: &MissionFile,
    origin: Option<Origin>,
    out: &mut Bytes,
) -> Result<(), NoMemory>
    ensures ok { OnOk result (out.new ≡ out.old ++ file_line number file.now origin) }
    ensures err { OnErr result (out.new ≡ out.old) }
{
    let mut line = Bytes::new(alloc);
    put_file(alloc, number, file, origin, &mut line)?;
    out.extend(line.as_slice())
}

#[tactic(auto, unfolding(crate::specs::Entries::shelf_line))]
fn shelf_text(alloc: Global, count: u64, used: u64, capacity: u64) -> Result<String, AllocError>
    ensures { IfOk result (λ line. string_bytes line ≡ shelf_line count used capacity) }
{
    format!(in alloc; "files {count} used {used} capacity {capacity}\n")
}

/// Appends the line of a shelf, or nothing: how many entries it has, the bytes up to its end, and the most that it may
/// have.
pub fn shelf_line(
    alloc: Global,
    count: u64,
    used: u64,
    capacity: u64,
    out: &mut Bytes,
) -> Result<(), NoMemory>
    ensures ok { OnOk result (out.new ≡ out.old ++ shelf_line count used capacity) }
    ensures err { OnErr result (out.new ≡ out.old) }
{
    put_words(shelf_text(alloc, count, used, capacity), out)
}
