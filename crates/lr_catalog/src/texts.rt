//! Words after a text, and bytes of any value in print.

ghost use Rattle.std.specs.Prelude.{◌≡◌, ◌<◌, ◌++◌, ℕ, List, IfOk, OnOk, OnErr, string_bytes};
ghost use Rattle.lr_catalog.specs.Texts.{escaped_text, escaped_byte, hex_digit, is_blank, is_plain, trimmed_text};

use lr_bits::{Bytes, NoMemory};
use std::alloc::AllocError;

/// Appends words that were composed, or nothing. Where memory was refused for them, it is refused here.
pub(crate) fn put_words(words: Result<String, AllocError>, out: &mut Bytes) -> Result<(), NoMemory>
    ensures ok { (text : List ℕ) → IfOk words (λ words. string_bytes words ≡ text)
        → OnOk result (out.new ≡ out.old ++ text) }
    ensures err { OnErr result (out.new ≡ out.old) }
{
    out.extend(words?.as_bytes())
}

/// Appends the text, in which each byte that isn't printed as itself is a backslash, `x` and two digits.
pub(crate) fn put_escaped(text: &[u8], out: &mut Bytes) -> Result<(), NoMemory>
    ensures { OnOk result (out.new ≡ out.old ++ escaped_text text.now) }
{
    for byte in text {
        put_byte(*byte, out)?;
    }
    Ok(())
}

/// The text without the zeros and spaces at its end.
pub(crate) fn trim_end(text: &[u8]) -> &[u8]
    ensures { result.now ≡ trimmed_text text.now }
{
    let mut end = text.len();
    while end > 0 && is_blank(text[end - 1]) {
        end -= 1;
    }
    &text[..end]
}

fn put_byte(byte: u8, out: &mut Bytes) -> Result<(), NoMemory>
    ensures { OnOk result (out.new ≡ out.old ++ escaped_byte byte) }
{
    if is_plain(byte) {
        out.extend(&[byte])
    } else {
        out.extend(&[b'\\', b'x', hex_digit(byte / 16), hex_digit(byte % 16)])
    }
}

fn is_plain(byte: u8) -> bool
    ensures { result ≡ is_plain byte }
{
    b' ' <= byte && byte <= b'~' && byte != b'\\'
}

fn is_blank(byte: u8) -> bool
    ensures { result ≡ is_blank byte }
{
    byte == 0 || byte == b' '
}

/// The digit of a number below 16.
fn hex_digit(n: u8) -> u8
    requires { n < 16 }
    ensures { result ≡ hex_digit n }
{
    if n < 10 { b'0' + n } else { b'A' - 10 + n }
}
