//! The head of a WAV file, as programs of software radios write it: RIFF, and RIFF64 for more than 4 GB (EBU Tech
//! 3306).

ghost use Rattle.std.specs.Prelude.{◌≡◌, ◌≤◌, ◌<◌, ◌+◌, length, IfOk};

use crate::form::Form;

/// What a head says of the samples after it.
#[derive(Clone, Copy, Debug)]
pub struct WaveHead {
    /// Samples a second.
    pub rate: u32,
    pub form: Form,
    /// Where the samples begin.
    pub start: usize,
    /// The bytes of the samples, where it is said.
    pub bytes: Option<u64>,
}

/// Why a head is refused.
#[derive(Clone, Copy, Debug, PartialEq, Eq)]
pub enum WaveFault {
    /// There are no two channels, I and Q.
    Channels,
    /// The numbers are not of 8 or 16 bits, nor floats of 32.
    Form,
    /// The samples don't begin within what was given, or their form isn't said before them.
    NoSamples,
}

/// The bytes of the words in front: `RIFF`, a size, and `WAVE`.
const FRONT_BYTES: usize = 12;

/// The bytes in front of a chunk: its name and its size.
const CHUNK_BYTES: usize = 8;

/// Chunks that are looked at.
const MOST_CHUNKS: u32 = 1024;

/// The least bytes of the chunk that says the form, and of RIFF64's sizes.
const FORMAT_BYTES: usize = 16;

const SIZES_BYTES: usize = 16;

/// Where a format of more than these has its true number.
const SUBFORMAT_PLACE: usize = 24;

/// Where a format has the bits of a number, and which these can be.
const BITS_PLACE: usize = 14;

const BYTE_BITS: u16 = 8;

const SHORT_BITS: u16 = 16;

const FLOAT_BITS: u16 = 32;

/// Where RIFF64 has the size of the samples.
const SIZE_PLACE: usize = 8;

const WHOLE_NUMBERS: u16 = 1;

const FLOATS: u16 = 3;

const EXTENSIBLE: u16 = 0xfffe;

/// The size of samples that aren't counted: RIFF64 counts them elsewhere, and a stream has no end.
const UNCOUNTED: u32 = 0xffff_ffff;

fn u16_at(bytes: &[u8], at: usize) -> u16 {
    match bytes.get(at..) {
        Some([low, high, ..]) => u16::from_le_bytes([*low, *high]),
        _ => 0,
    }
}

fn u32_at(bytes: &[u8], at: usize) -> u32 {
    match bytes.get(at..) {
        Some([a, b, c, d, ..]) => u32::from_le_bytes([*a, *b, *c, *d]),
        _ => 0,
    }
}

fn u64_at(bytes: &[u8], at: usize) -> u64 {
    match bytes.get(at..) {
        Some([a, b, c, d, e, f, g, h, ..]) => u64::from_le_bytes([*a, *b, *c, *d, *e, *f, *g, *h]),
        _ => 0,
    }
}

fn has(bytes: &[u8], at: usize, name: &[u8; 4]) -> bool {
    match bytes.get(at..) {
        Some([a, b, c, d, ..]) => *a == name[0] && *b == name[1] && *c == name[2] && *d == name[3],
        _ => false,
    }
}

/// Whether bytes are the front of a WAV file.
pub fn is_wave(bytes: &[u8]) -> bool {
    (has(bytes, 0, b"RIFF") || has(bytes, 0, b"RF64") || has(bytes, 0, b"RIFX"))
        && has(bytes, CHUNK_BYTES, b"WAVE")
}

/// The form that a format chunk says, whose bytes begin at `at`.
fn form_at(bytes: &[u8], at: usize, size: usize) -> Result<Form, WaveFault> {
    if u16_at(bytes, at.saturating_add(2)) != 2 {
        return Err(WaveFault::Channels);
    }
    let number = u16_at(bytes, at);
    let number = if number == EXTENSIBLE && size > SUBFORMAT_PLACE {
        u16_at(bytes, at.saturating_add(SUBFORMAT_PLACE))
    } else {
        number
    };
    match (number, u16_at(bytes, at.saturating_add(BITS_PLACE))) {
        (WHOLE_NUMBERS, BYTE_BITS) => Ok(Form::U8),
        (WHOLE_NUMBERS, SHORT_BITS) => Ok(Form::S16),
        (FLOATS, FLOAT_BITS) => Ok(Form::F32),
        _ => Err(WaveFault::Form),
    }
}

/// The head of a WAV file at the front of these bytes: the first 65,536 of them, or all where there are fewer.
pub fn wave_head(bytes: &[u8]) -> Result<WaveHead, WaveFault> {
    let mut at = FRONT_BYTES;
    let mut format: Option<(u32, Form)> = None;
    let mut counted: Option<u64> = None;
    for _ in 0..MOST_CHUNKS {
        let size = u32_at(bytes, at.saturating_add(4));
        let inside = at.saturating_add(CHUNK_BYTES);
        if inside > bytes.len() {
            break;
        }
        if has(bytes, at, b"fmt ") && size as usize >= FORMAT_BYTES {
            format = Some((
                u32_at(bytes, inside.saturating_add(4)),
                form_at(bytes, inside, size as usize)?,
            ));
        } else if has(bytes, at, b"ds64") && size as usize >= SIZES_BYTES {
            counted = Some(u64_at(bytes, inside.saturating_add(SIZE_PLACE)));
        } else if has(bytes, at, b"data") {
            return head_of(format, inside, size, counted);
        }
        at = inside
            .saturating_add(size as usize)
            .saturating_add(size as usize % 2);
    }
    Err(WaveFault::NoSamples)
}

/// The head where the samples' chunk was found.
fn head_of(
    format: Option<(u32, Form)>,
    start: usize,
    size: u32,
    counted: Option<u64>,
) -> Result<WaveHead, WaveFault> {
    let Some((rate, form)) = format else {
        return Err(WaveFault::NoSamples);
    };
    let bytes = if size == UNCOUNTED {
        counted.filter(|bytes| *bytes > 0)
    } else if size == 0 {
        None
    } else {
        Some(size as u64)
    };
    Ok(WaveHead {
        rate,
        form,
        start,
        bytes,
    })
}
