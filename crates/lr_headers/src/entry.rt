//! A record of a header: its kind, its place and its length.

/// A header record: its kind, the place of its first byte, and how many bytes it has, kind and length included.
#[derive(Clone, Copy)]
pub struct Entry {
    pub kind: u8,
    pub at: u64,
    pub length: u16,
}
