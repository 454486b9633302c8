//! The header of a shelf file.
ghost use Rattle.std.specs.Prelude.{◌≡◌, ◌↔◌, ◌⊎◌, ℕ, [], ◌∷◌, ◌++◌, IfSome, IfNone, IsTrue};
ghost use Rattle.lr_shelf_format.specs.Header.{HasHeader, header_bytes};

use byteorder::{BigEndian, ByteOrder};
use lr_bits::crc16;

/// The bytes of a header with the first gate.
pub const HEADER_BYTES: usize = 20;

/// The least capacity of a shelf, in bytes: that of one with no item.
pub const LEAST_CAPACITY: u64 = 20;

/// The greatest capacity of a shelf, in bytes.
pub const MOST_CAPACITY: u64 = 1_099_511_627_776;

/// The place of the first gate.
pub const FIRST_GATE: usize = HEADER_BYTES - 1;

/// The byte of an open gate. Every other one is closed.
pub const OPEN_GATE: u8 = 1;

/// The first byte of a complete shelf.
const COMPLETE: u8 = 0x5A;

/// The version that is written.
const VERSION: u8 = 2;

/// The header of a complete shelf of this capacity, of version 2, and the closed gate after it.
pub fn header_of(capacity: u64) -> [u8; HEADER_BYTES]
    ensures { result ≡ header_bytes 2 capacity ++ 0 ∷ [] }
{
    header_of_version(VERSION, capacity)
}

/// The header of this version, and the closed gate after it.
pub(crate) fn header_of_version(version: u8, capacity: u64) -> [u8; HEADER_BYTES]
    ensures { result ≡ header_bytes version capacity ++ 0 ∷ [] }
{
    let mut header = [0; HEADER_BYTES];
    header[0] = COMPLETE;
    header[1..8].copy_from_slice(b"LRSHELF");
    header[8] = version;
    BigEndian::write_u64(&mut header[9..], capacity);
    let checksum = crc16(&header[1..17]);
    BigEndian::write_u16(&mut header[17..], checksum);
    header
}

/// The capacity in a header of version 1 or 2. `None` exactly where none stands in these bytes.
pub fn read_header(bytes: &[u8; HEADER_BYTES]) -> Option<u64>
    ensures found { IfSome result (HasHeader bytes.now) }
    ensures none { IfNone result ((capacity : ℕ) → HasHeader bytes.now capacity → ⊥) }
{
    let version = bytes[8];
    if !is_known(version) {
        return None;
    }
    let capacity = BigEndian::read_u64(&bytes[9..]);
    if capacity < LEAST_CAPACITY || capacity > MOST_CAPACITY {
        return None;
    }
    let header = header_of_version(version, capacity);
    if bytes[..FIRST_GATE] != header[..FIRST_GATE] {
        return None;
    }
    Some(capacity)
}

/// Whether this is a version that is read.
fn is_known(version: u8) -> bool
    ensures { IsTrue result ↔ ((version ≡ 1) ⊎ (version ≡ 2)) }
{
    version == 1 || version == 2
}
