//! The line of a file whose image was coded anew.
ghost use Rattle.std.specs.Prelude.{◌≡◌, ◌++◌, IfOk, OnOk, OnErr, string_bytes};
ghost use Rattle.lr_catalog.specs.Repacks.{repack_line};

use crate::texts::put_words;
use lr_bits::{Bytes, NoMemory};
use std::alloc::{AllocError, Global};

#[tactic(auto, unfolding(crate::specs::Repacks::repack_line))]
fn repack_text(
    alloc: Global,
    number: u64,
    new: u64,
    before: u64,
    after: u64,
) -> Result<String, AllocError>
    ensures { IfOk result (λ line. string_bytes line ≡ repack_line number new before after) }
{
    format!(in alloc; "repacked {number} as {new} bytes {before} to {after}\n")
}

/// Appends the line that the file of a number was coded anew as the file of the number `new`, or nothing. All bodies of
/// the file have `before` bytes, and those of the new one `after`. Numbers count from 0.
pub fn repack_line(
    alloc: Global,
    number: u64,
    new: u64,
    before: u64,
    after: u64,
    out: &mut Bytes,
) -> Result<(), NoMemory>
    ensures ok { OnOk result (out.new ≡ out.old ++ repack_line number new before after) }
    ensures err { OnErr result (out.new ≡ out.old) }
{
    put_words(repack_text(alloc, number, new, before, after), out)
}
