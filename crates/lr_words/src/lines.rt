//! The words of a command in the lines of a text, as programs in other languages give them, and what such a call
//! answers where it runs no command.
ghost use Rattle.std.specs.Prelude.{◌≡◌, map, string_bytes, IfOk};
ghost use Rattle.lr_words.specs.Lines.{words_in};

use lr_bits::NoMemory;
use std::alloc::{AllocError, Global};

/// The answer of a call that was refused memory before it ran the command. No status is above 255.
pub const NO_MEMORY: u32 = 256;

/// The answer of a call whose words aren't UTF-8.
pub const NO_TEXT: u32 = 257;

/// The lines of a text.
fn lines_of(alloc: Global, text: &str) -> Result<Vec<&str>, AllocError>
    ensures { IfOk result (λ lines. map (λ x. x.now) lines.items ≡ words_in text.now) }
{
    text.split('\n').collect(alloc)
}

/// These lines as texts of their own.
fn owned(alloc: Global, lines: &[&str]) -> Result<Vec<String>, AllocError>
    ensures { IfOk result (λ words. map string_bytes words.items ≡ map (λ x. x.now) lines.now) }
{
    let mut words = Vec::new(alloc);
    for line in lines {
        words.push(String::from_str(alloc, line)?)?;
    }
    Ok(words)
}

/// The words of this text, one in each line. Fails if memory is refused.
pub fn words_of(alloc: Global, text: &str) -> Result<Vec<String>, NoMemory>
    ensures { IfOk result (λ words. map string_bytes words.items ≡ words_in text.now) }
{
    let lines = lines_of(alloc, text)?;
    Ok(owned(alloc, &lines)?)
}
