//! The command that the words give, and whether it may change the shelf.
ghost use Rattle.std.specs.Prelude.{◌≡◌, map, Some, IfOk, IfErr, string_bytes};
ghost use Rattle.lr_words.specs.Commands.{command_of, command_shaped, runs_alone_by, writes_shelf, IsNamed, IsInRange};

use crate::arguments::parser_of;
use crate::command::Command;
use crate::given::command_given;
use crate::parsing::matches_by;
use crate::shape::{Shape, shape_of};
use lr_bits::NoMemory;
use std::alloc::Global;

/// The command that words of this look give, of which the first is this name.
fn read_shape(
    alloc: Global,
    shape: Shape,
    name: &str,
    words: &[String],
) -> Result<Option<Command>, NoMemory>
    ensures gives { IfOk result (λ r. r ≡ command_shaped name.now (map string_bytes words.now) (Some shape)) }
    ensures range { IfOk result IsInRange }
{
    match matches_by(parser_of(alloc, shape, name), words)? {
        Some(matches) => Ok(command_given(shape, &matches)),
        None => Ok(None),
    }
}

/// The command that the first word names, with what the others say; none exactly where they give no command.
///
/// Want of memory is the one error, which says nothing more of the words than that the first one names a command.
pub fn read_words(alloc: Global, words: &[String]) -> Result<Option<Command>, NoMemory>
    ensures gives { IfOk result (λ r. r ≡ command_of (map string_bytes words.now)) }
    ensures known { IfErr result (λ _. IsNamed (map string_bytes words.now)) }
    ensures range { IfOk result IsInRange }
{
    let Some(first) = words.first() else {
        return Ok(None);
    };
    let name = first.as_str();
    match shape_of(name) {
        Some(shape) => read_shape(alloc, shape, name, words),
        None => Ok(None),
    }
}

/// Whether the first word names a command that runs on one thread. It takes no memory.
pub fn runs_alone(words: &[String]) -> bool
    ensures { result ≡ runs_alone_by (map string_bytes words.now) }
{
    let Some(first) = words.first() else {
        return false;
    };
    match shape_of(first.as_str()) {
        Some(shape) => shape.runs_alone(),
        None => false,
    }
}

/// Whether the first word names a command that may change the shelf: `init`, `receive`, `downlinks`, `trial`, `discard`
/// or `repack`.
pub fn writes_shelf(words: &[String]) -> bool
    ensures { result ≡ writes_shelf (map string_bytes words.now) }
{
    let Some(first) = words.first() else {
        return false;
    };
    match shape_of(first.as_str()) {
        Some(shape) => shape.can_write(),
        None => false,
    }
}
