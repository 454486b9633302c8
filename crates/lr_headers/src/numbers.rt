//! Numbers in bytes, most significant byte first.

ghost use Rattle.std.specs.Prelude.{◌≡◌, ◌+◌, ◌≤◌, length};
ghost use Rattle.std.specs.Int.{cast_signed, w32};
ghost use Rattle.lr_headers.specs.Tiling.{number_at};

use byteorder::{BigEndian, ByteOrder};

/// The number in the two bytes from a place on.
pub(crate) fn u16_at(bytes: &[u8], place: usize) -> u16
    requires { place + 2 ≤ length bytes.now }
    ensures { result ≡ number_at 2 place bytes.now }
{
    BigEndian::read_u16(&bytes[place..])
}

/// The number in the four bytes from a place on.
pub(crate) fn u32_at(bytes: &[u8], place: usize) -> u32
    requires { place + 4 ≤ length bytes.now }
    ensures { result ≡ number_at 4 place bytes.now }
{
    BigEndian::read_u32(&bytes[place..])
}

/// The number in the eight bytes from a place on.
pub(crate) fn u64_at(bytes: &[u8], place: usize) -> u64
    requires { place + 8 ≤ length bytes.now }
    ensures { result ≡ number_at 8 place bytes.now }
{
    BigEndian::read_u64(&bytes[place..])
}

/// The signed number in the four bytes from a place on.
pub(crate) fn i32_at(bytes: &[u8], place: usize) -> i32
    requires { place + 4 ≤ length bytes.now }
    ensures { result ≡ cast_signed w32 (number_at 4 place bytes.now) }
{
    BigEndian::read_i32(&bytes[place..])
}
