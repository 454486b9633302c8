//! Files that the tests share.

use lr_bits::{Bytes, Lengths, MissionFile, NoMemory};
use lr_trials_support::{CODED, FIRST_LINE, SECOND_LINE};
use std::alloc::Global;
use std::test::Fail;

/// The header of the coded image, with a key record that says that the data is encrypted.
pub(crate) const ENCRYPTED: [u8; 47] = [
    0, 1, 0, 0, 0, 0, 0, 0, 1, 48, 0, 0, 16, 0, 0, 0, 0, 37, 0, 0, 0, 0, 0, 0, 0, 48, 1, 0, 9, 8,
    0, 8, 0, 2, 1, 131, 0, 7, 0, 49, 8, 1, 7, 0, 5, 0, 1,
];

/// Ten bytes of transport header, then the header of an image that isn't compressed.
pub(crate) fn plain_header(bits: u8, columns: u16, lines: u16) -> [u8; 35] {
    let mut header = [0; 35];
    header[1] = 1;
    header[12] = 16;
    header[17] = 25;
    header[26] = 1;
    header[28] = 9;
    header[29] = bits;
    header[30..32].copy_from_slice(&columns.to_be_bytes());
    header[32..34].copy_from_slice(&lines.to_be_bytes());
    header
}

/// A list of bodies that grows.
#[derive(Drop)]
pub(crate) struct Bodies {
    lengths: Lengths,
    bytes: Bytes,
}

impl Bodies {
    pub(crate) fn new(alloc: Global) -> Bodies {
        Bodies {
            lengths: Lengths::new(alloc),
            bytes: Bytes::new(alloc),
        }
    }

    pub(crate) fn put(&mut self, body: &[u8]) -> Result<(), NoMemory> {
        self.lengths.push(u16::try_from(body.len()).unwrap_or(0))?;
        self.bytes.extend(body)
    }

    /// The file of these bodies.
    pub(crate) fn file(self) -> Result<MissionFile, Fail> {
        let Bodies { lengths, bytes } = self;
        Ok(MissionFile::build(0, 100, lengths, bytes).ok_or("no file")?)
    }
}

/// The file of these bodies.
pub(crate) fn file_of(alloc: Global, bodies: &[&[u8]]) -> Result<MissionFile, Fail> {
    let mut all = Bodies::new(alloc);
    for body in bodies {
        all.put(body)?;
    }
    all.file()
}

/// A data field of this many bytes.
pub(crate) fn field_of(alloc: Global, size: usize) -> Result<Vec<u8>, Fail> {
    let mut field = Vec::with_capacity(alloc, size)?;
    for place in 0..size {
        // 251 is prime, so no two lines of the tests are alike.
        field.push((place % 251) as u8)?;
    }
    Ok(field)
}

/// The file of the two coded lines.
pub(crate) fn coded_file(alloc: Global) -> Result<MissionFile, Fail> {
    file_of(alloc, &[&CODED, &FIRST_LINE, &SECOND_LINE])
}

/// The file of an image that isn't compressed, whose data field has this many bytes, in bodies of at most 50,000.
pub(crate) fn plain_file(
    alloc: Global,
    bits: u8,
    columns: u16,
    lines: u16,
    size: usize,
) -> Result<MissionFile, Fail> {
    let field = field_of(alloc, size)?;
    let mut all = Bodies::new(alloc);
    all.put(&plain_header(bits, columns, lines))?;
    for body in field.chunks(50_000) {
        all.put(body)?;
    }
    all.file()
}
