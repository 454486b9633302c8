//! What the contents of a record say, by its kind.

ghost use Rattle.std.specs.Prelude.{◌≡◌, ◌+◌, ◌≤◌, length, take, false};
ghost use Rattle.std.specs.Int.{cast_signed, w32};
ghost use Rattle.lr_headers.specs.Fields.{content_in, lossless_in, navigation_in, segment_in, stamp_in, structure_in};
ghost use Rattle.lr_headers.specs.Tiling.{has_wrong_length, number_at};

use crate::kinds::{
    ANCILLARY_KIND, ANNOTATION_KIND, IMAGE_FUNCTION_KIND, KEY_KIND, LOSSLESS_BYTES, LOSSLESS_KIND,
    NAVIGATION_KIND, SEGMENT_BYTES, SEGMENT_KIND, STAMP_KIND, STRUCTURE_KIND,
};
use crate::numbers::{i32_at, u16_at, u32_at};
use crate::{Entry, Lossless, Navigation, Segment, Stamp, Structure};

/// What a record says.
#[derive(Clone, Copy)]
pub enum Content {
    /// The first record: the file type, how many bytes the header has, and how many bits the data field is declared to
    /// have.
    Primary {
        file_type: u8,
        header_length: u64,
        data_bits: u64,
    },
    Structure(Structure),
    Navigation(Navigation),
    /// The contents are text: an image data function, an annotation, or an ancillary text.
    Text,
    Stamp(Stamp),
    /// A key of encrypted data.
    Key,
    Segment(Segment),
    Lossless(Lossless),
    /// A record that isn't read.
    Other,
}

pub(crate) fn structure_in(contents: &[u8]) -> Structure
    requires { length contents.now ≡ 6 }
    ensures { result ≡ structure_in contents.now }
{
    Structure {
        bits: contents[0],
        columns: u16_at(contents, 1),
        lines: u16_at(contents, 3),
        compression: contents[5],
    }
}

pub(crate) fn navigation_in(contents: &[u8]) -> Navigation
    requires { length contents.now ≡ 48 }
    ensures { result ≡ navigation_in contents.now }
{
    Navigation {
        name: name_in(contents),
        column_factor: i32_at(contents, 32),
        line_factor: i32_at(contents, 36),
        column_offset: i32_at(contents, 40),
        line_offset: i32_at(contents, 44),
    }
}

pub(crate) fn stamp_in(contents: &[u8]) -> Stamp
    requires { length contents.now ≡ 7 }
    ensures { result ≡ stamp_in contents.now }
{
    Stamp {
        form: contents[0],
        days: u16_at(contents, 1),
        milliseconds: u32_at(contents, 3),
    }
}

pub(crate) fn segment_in(contents: &[u8]) -> Segment
    requires { length contents.now ≡ 14 }
    ensures { result ≡ segment_in contents.now }
{
    Segment {
        image: u16_at(contents, 0),
        number: u16_at(contents, 2),
        start_column: u16_at(contents, 4),
        start_line: u16_at(contents, 6),
        segments: u16_at(contents, 8),
        columns: u16_at(contents, 10),
        lines: u16_at(contents, 12),
    }
}

pub(crate) fn lossless_in(contents: &[u8]) -> Lossless
    requires { length contents.now ≡ 4 }
    ensures { result ≡ lossless_in contents.now }
{
    Lossless {
        flags: u16_at(contents, 0),
        block: contents[2],
        lines: contents[3],
    }
}

/// What a record says that isn't the first one.
pub(crate) fn content_in(entry: Entry, contents: &[u8]) -> Content
    requires size { length contents.now + 3 ≡ entry.length }
    requires right { has_wrong_length entry.kind entry.length ≡ false }
    ensures { result ≡ content_in entry contents.now }
{
    match entry.kind {
        STRUCTURE_KIND => Content::Structure(structure_in(contents)),
        NAVIGATION_KIND => Content::Navigation(navigation_in(contents)),
        IMAGE_FUNCTION_KIND | ANNOTATION_KIND | ANCILLARY_KIND => Content::Text,
        STAMP_KIND => Content::Stamp(stamp_in(contents)),
        KEY_KIND => Content::Key,
        SEGMENT_KIND if entry.length == SEGMENT_BYTES => Content::Segment(segment_in(contents)),
        LOSSLESS_KIND if entry.length == LOSSLESS_BYTES => Content::Lossless(lossless_in(contents)),
        _ => Content::Other,
    }
}

/// The name in the contents of a navigation record.
fn name_in(contents: &[u8]) -> [u8; 32]
    requires { 32 ≤ length contents.now }
    ensures { result ≡ take 32 contents.now }
{
    let mut name = [0; 32];
    name.copy_from_slice(&contents[..32]);
    name
}
