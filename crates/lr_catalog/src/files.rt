//! The lines of files: as they are shelved, as they are listed, and as they are compared with their checksums.

ghost use Rattle.std.specs.Prelude.{◌≡◌, ◌++◌, IfOk, OnOk, OnErr, string_bytes};
ghost use Rattle.lr_catalog.specs.Files.{shelved_line, ok_line, bad_line, check_line};

use crate::hex::hex_word;
use crate::texts::put_words;
use lr_bits::{Bytes, MissionFile, NoMemory};
use std::alloc::{AllocError, Global};

fn shelved_text(alloc: Global, number: u64, file: &MissionFile) -> Result<String, AllocError>
    ensures { IfOk result (λ line. string_bytes line ≡ shelved_line number file.now) }
{
    let vc = file.vc();
    let apid = file.apid();
    let counter = file.counter();
    let bytes = file.bytes().len();
    let packets = file.packets();
    format!(in alloc;
        "shelved {number} vc {vc} apid {apid} counter {counter} bytes {bytes} packets {packets}\n"
    )
}

/// Appends the line of a file that was shelved, or nothing. Numbers count from 0.
pub fn shelved_line(
    alloc: Global,
    number: u64,
    file: &MissionFile,
    out: &mut Bytes,
) -> Result<(), NoMemory>
    ensures ok { OnOk result (out.new ≡ out.old ++ shelved_line number file.now) }
    ensures err { OnErr result (out.new ≡ out.old) }
{
    put_words(shelved_text(alloc, number, file), out)
}

#[tactic(auto, unfolding(crate::specs::Files::ok_line))]
fn ok_line(alloc: Global, number: u64) -> Result<String, AllocError>
    ensures { IfOk result (λ line. string_bytes line ≡ ok_line number) }
{
    format!(in alloc; "file {number} ok\n")
}

#[tactic(auto, unfolding(crate::specs::Files::bad_line))]
fn bad_line(alloc: Global, number: u64, stored: u16, computed: u16) -> Result<String, AllocError>
    ensures { IfOk result (λ line. string_bytes line ≡ bad_line number stored computed) }
{
    let stored = hex_word(alloc, stored)?;
    let computed = hex_word(alloc, computed)?;
    format!(in alloc; "file {number} bad stored {stored} computed {computed}\n")
}

/// Appends the line of a file whose checksum was compared, or nothing. A file whose checksum is wrong comes with the
/// stored one and the computed one. Numbers count from 0.
pub fn check_line(
    alloc: Global,
    number: u64,
    bad: Option<(u16, u16)>,
    out: &mut Bytes,
) -> Result<(), NoMemory>
    ensures ok { OnOk result (out.new ≡ out.old ++ check_line number bad) }
    ensures err { OnErr result (out.new ≡ out.old) }
{
    match bad {
        None => put_words(ok_line(alloc, number), out),
        Some((stored, computed)) => put_words(bad_line(alloc, number, stored, computed), out),
    }
}
