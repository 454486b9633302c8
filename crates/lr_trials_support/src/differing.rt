//! What a failed test says: where what came differs from what was wanted.
use std::fmt::Display;
use std::test::Fail;

/// The most bytes of each text that a failure shows.
const SHOWN: usize = 180;

fn first_difference(came: &[u8], wanted: &[u8]) -> usize {
    let both = came.len().min(wanted.len());
    for place in 0..both {
        if came[place] != wanted[place] {
            return place;
        }
    }
    both
}

/// Where the line of a place begins.
fn line_start(bytes: &[u8], place: usize) -> usize {
    let mut start = 0;
    for at in 0..place.min(bytes.len()) {
        if bytes[at] == b'\n' {
            start = at + 1;
        }
    }
    start
}

fn text_of(bytes: &[u8]) -> &str {
    str::from_utf8(bytes).unwrap_or("bytes that are no text")
}

/// The rest of a line from a place on, with the line's end, or the first bytes of it.
fn rest_of_line(bytes: &[u8], place: usize) -> &str {
    let rest = &bytes[place.min(bytes.len())..];
    let line = match rest.iter().position(|byte| *byte == b'\n') {
        Some(end) => &rest[..=end],
        None => rest,
    };
    text_of(&line[..line.len().min(SHOWN)])
}

/// Where bytes that came differ from those that were wanted: the first place at which they do, what stands before it in
/// its line, and the rest of the line from there on, of both.
struct Differing<'a> {
    place: usize,
    before: &'a str,
    came: &'a str,
    wanted: &'a str,
}

/// Where these bytes differ from those that were wanted, if they do.
fn difference<'a>(came: &'a [u8], wanted: &'a [u8]) -> Option<Differing<'a>> {
    if came == wanted {
        return None;
    }
    let place = first_difference(came, wanted);
    let front = &came[..place.min(came.len())];
    let start = line_start(front, place).max(front.len().saturating_sub(SHOWN));
    Some(Differing {
        place,
        before: text_of(&front[start.min(front.len())..]),
        came: rest_of_line(came, place),
        wanted: rest_of_line(wanted, place),
    })
}

/// Whether just these bytes came. Where others did, the failure says of what, and has both from the first byte that
/// differs.
pub fn is_text<W: Display + Drop>(what: W, came: &[u8], wanted: &[u8]) -> Result<bool, Fail> {
    let Some(
        Differing {
            place,
            before,
            came,
            wanted,
        },
    ) = difference(came, wanted)
    else {
        return Ok(true);
    };
    Err(Fail::new(format_args!(
        "{what} differs from byte {place} on: after {before:?} came {came:?}, and not {wanted:?}"
    )))
}

/// Whether this number came. Where another one did, the failure says of what, and has both.
pub fn is_number<W: Display + Drop>(what: W, came: u64, wanted: u64) -> Result<bool, Fail> {
    if came == wanted {
        return Ok(true);
    }
    Err(Fail::new(format_args!("{what} is {came}, and not {wanted}")))
}
