//! The lines of a file that is discarded.
ghost use Rattle.std.specs.Prelude.{◌≡◌, ◌++◌, IfOk, OnOk, OnErr, string_bytes};
ghost use Rattle.lr_catalog.specs.Discards.{gone_line, discard_line};

use crate::texts::put_words;
use lr_bits::{Bytes, NoMemory};
use std::alloc::{AllocError, Global};

#[tactic(auto, unfolding(crate::specs::Discards::gone_line))]
fn gone_text(alloc: Global, number: u64) -> Result<String, AllocError>
    ensures { IfOk result (λ line. string_bytes line ≡ gone_line number) }
{
    format!(in alloc; "file {number} discarded\n")
}

/// Appends the line of an entry that is gone, or nothing. Numbers count from 0.
pub fn gone_line(alloc: Global, number: u64, out: &mut Bytes) -> Result<(), NoMemory>
    ensures ok { OnOk result (out.new ≡ out.old ++ gone_line number) }
    ensures err { OnErr result (out.new ≡ out.old) }
{
    put_words(gone_text(alloc, number), out)
}

#[tactic(auto, unfolding(crate::specs::Discards::discard_line))]
fn discard_text(alloc: Global, number: u64) -> Result<String, AllocError>
    ensures { IfOk result (λ line. string_bytes line ≡ discard_line number) }
{
    format!(in alloc; "discarded {number}\n")
}

/// Appends the line that a file was discarded, or nothing. Numbers count from 0.
pub fn discard_line(alloc: Global, number: u64, out: &mut Bytes) -> Result<(), NoMemory>
    ensures ok { OnOk result (out.new ≡ out.old ++ discard_line number) }
    ensures err { OnErr result (out.new ≡ out.old) }
{
    put_words(discard_text(alloc, number), out)
}
