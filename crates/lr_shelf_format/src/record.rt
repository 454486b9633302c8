//! Records of files: their fields, the lengths of their bodies, their bytes, and the checksum of all of these.
ghost use Rattle.std.specs.Prelude.{◌≡◌, ◌≤◌, ◌+◌, ◌*◌, ◌∷◌, ◌++◌, [], length, drop, SomeIff, OnOk, OnErr};
ghost use Rattle.std.specs.List.{flat_map};
ghost use Rattle.byteorder.specs.Endian.{big_bytes};
ghost use Rattle.lr_bits.specs.Crc.{crc_of};
ghost use Rattle.lr_bits.specs.File.{IsFile};
ghost use Rattle.lr_shelf_format.specs.Items.{IsOrigin, add_bytes};
ghost use Rattle.lr_shelf_format.specs.declared.item.TheConstants.{ADD};
ghost use Rattle.lr_shelf_format.specs.declared.record.TheConstants.{ADD_FRONT_BYTES};
ghost use Rattle.lr_shelf_format.specs.Record.{
  IsHead,
  StartsWith,
  body_of,
  bytes_of_head,
  head_of,
  head_of_file,
  origin_bytes,
};

use crate::item::ADD;
use byteorder::{BigEndian, ByteOrder};
use lr_bits::{
    Bytes, FILL_CHANNEL, IDLE_APPLICATION, MOST_FILE_BODIES, MOST_FILE_BYTES, MissionFile,
    NoMemory, Origin, Placed, TRANSPORT_HEADER_BYTES, crc16,
};

/// The bytes of a record's fields, from the channel to the number of bytes.
pub const HEAD_BYTES: usize = 11;

/// The bytes of an origin: three numbers.
const ORIGIN_BYTES: usize = 24;

/// The bytes of a body's length.
pub const LENGTH_BYTES: usize = 2;

/// The bytes of a checksum.
pub const CHECKSUM_BYTES: usize = 2;

/// The bytes before the lengths in an Old item: the fields.
pub const OLD_FRONT_BYTES: usize = HEAD_BYTES;

/// The bytes before the lengths in an Add item: its kind, the fields and the origin.
pub const ADD_FRONT_BYTES: usize = 1 + HEAD_BYTES + ORIGIN_BYTES;

/// The fields of a record.
#[derive(Clone, Copy)]
pub struct RecordHead {
    /// The virtual channel, below 64.
    pub vc: u8,
    /// The application, below 2,047.
    pub apid: u16,
    /// How many bodies there are, 1 to 1,048,576.
    pub packets: u32,
    /// How many bytes they have together, 10 to 67,108,864.
    pub bytes: u32,
}

/// How many bytes an Add item has, of this many bodies and this many bytes of the file.
pub fn extent(packets: u32, bytes: u32) -> u64
    ensures { result ≡ 38 + 2 * packets + bytes }
{
    extent_after(ADD_FRONT_BYTES, packets, bytes)
}

/// How many bytes a record has of which this many stand before the lengths.
pub(crate) fn extent_after(front: usize, packets: u32, bytes: u32) -> u64
    requires { front ≤ ADD_FRONT_BYTES }
    ensures { result ≡ front + 2 * packets + bytes + 2 }
{
    let lengths = LENGTH_BYTES as u64 * u64::from(packets);
    (front + CHECKSUM_BYTES) as u64 + lengths + u64::from(bytes)
}

/// The fields in these bytes. `None` exactly where one of them is out of its range.
pub(crate) fn read_fields(bytes: &[u8; HEAD_BYTES]) -> Option<RecordHead>
    ensures { SomeIff result (IsHead (head_of bytes.now)) (head_of bytes.now) }
{
    let head = RecordHead {
        vc: bytes[0],
        apid: BigEndian::read_u16(&bytes[1..]),
        packets: BigEndian::read_u32(&bytes[3..]),
        bytes: BigEndian::read_u32(&bytes[7..]),
    };
    if head.vc > FILL_CHANNEL || head.apid >= IDLE_APPLICATION {
        return None;
    }
    if head.packets == 0 || head.packets as usize > MOST_FILE_BODIES {
        return None;
    }
    let size = head.bytes as usize;
    if size < TRANSPORT_HEADER_BYTES || size > MOST_FILE_BYTES {
        return None;
    }
    Some(head)
}

/// Appends the Add item of the file and the closed gate after it, or leaves the bytes as they were.
pub fn record_of(placed: &Placed, out: &mut Bytes) -> Result<(), NoMemory>
    ensures ok { OnOk result (out.new ≡ out.old ++ (add_bytes placed.now.file placed.now.origin ++ 0 ∷ [])) }
    ensures err { OnErr result (out.new ≡ out.old) }
    ensures file { IsFile placed.now.file }
    ensures origin { IsOrigin placed.now.origin }
{
    let start = out.as_slice().len();
    match put_record(&placed.file, placed.origin, out) {
        Ok(()) => Ok(()),
        Err(NoMemory) => {
            out.truncate(start);
            Err(NoMemory)
        }
    }
}

/// Appends the Add item and the closed gate after it. Without memory a part of them may have been appended.
fn put_record(file: &MissionFile, origin: Origin, out: &mut Bytes) -> Result<(), NoMemory>
    ensures ok { OnOk result (out.new ≡ out.old ++ (add_bytes file.now origin ++ 0 ∷ [])) }
    ensures err { OnErr result (StartsWith out.old out.new) }
    ensures file { IsFile file.now }
    ensures origin { IsOrigin origin }
{
    let start = out.as_slice().len();
    put_front(file, origin, out)?;
    put_body(file, out)?;
    put_end(start, out)
}

/// Appends the bytes of an Add item before the lengths.
fn put_front(file: &MissionFile, origin: Origin, out: &mut Bytes) -> Result<(), NoMemory>
    ensures ok { OnOk result
        (out.new ≡ out.old ++ (ADD ∷ (bytes_of_head (head_of_file file.now) ++ origin_bytes origin))) }
    ensures err { OnErr result (StartsWith out.old out.new) }
    ensures file { IsFile file.now }
{
    let fields = fields_of_file(file);
    out.extend(&[ADD])?;
    out.extend(&fields)?;
    out.extend(&origin_of(origin))
}

/// The bytes of the file's fields.
pub(crate) fn fields_of_file(file: &MissionFile) -> [u8; HEAD_BYTES]
    ensures value { result ≡ bytes_of_head (head_of_file file.now) }
    ensures file { IsFile file.now }
{
    fields(
        file.vc(),
        file.apid(),
        file.lengths().len() as u32,
        file.bytes().len() as u32,
    )
}

/// The bytes of these fields.
fn fields(vc: u8, apid: u16, packets: u32, bytes: u32) -> [u8; HEAD_BYTES]
    ensures { result ≡ vc ∷ (big_bytes 2 apid ++ (big_bytes 4 packets ++ big_bytes 4 bytes)) }
{
    let mut fields = [vc; HEAD_BYTES];
    BigEndian::write_u16(&mut fields[1..], apid);
    BigEndian::write_u32(&mut fields[3..], packets);
    BigEndian::write_u32(&mut fields[7..], bytes);
    fields
}

/// The bytes of an origin.
fn origin_of(origin: Origin) -> [u8; ORIGIN_BYTES]
    ensures { result ≡ origin_bytes origin }
{
    let mut bytes = [0; ORIGIN_BYTES];
    BigEndian::write_u64(&mut bytes[..8], origin.first);
    BigEndian::write_u64(&mut bytes[8..16], origin.last);
    BigEndian::write_u64(&mut bytes[16..], origin.corrected);
    bytes
}

/// Appends the lengths of the bodies and their bytes.
pub(crate) fn put_body(file: &MissionFile, out: &mut Bytes) -> Result<(), NoMemory>
    ensures ok { OnOk result (out.new ≡ out.old ++ body_of file.now) }
    ensures err { OnErr result (StartsWith out.old out.new) }
{
    put_lengths(file.lengths(), out)?;
    out.extend(file.bytes())
}

/// Appends each length in two bytes.
fn put_lengths(lengths: &[u16], out: &mut Bytes) -> Result<(), NoMemory>
    ensures ok { OnOk result (out.new ≡ out.old ++ flat_map (big_bytes 2) lengths.now) }
    ensures err { OnErr result (StartsWith out.old out.new) }
{
    for length in lengths {
        out.extend(&length.to_be_bytes())?;
    }
    Ok(())
}

/// Appends the checksum of the bytes from a place on, and a closed gate.
pub(crate) fn put_end(start: usize, out: &mut Bytes) -> Result<(), NoMemory>
    requires { start ≤ length out.old }
    ensures ok { OnOk result (out.new ≡ out.old ++ (big_bytes 2 (crc_of (drop start out.old)) ++ 0 ∷ [])) }
    ensures err { OnErr result (out.new ≡ out.old) }
{
    let checksum = crc16(&out.as_slice()[start..]);
    out.extend(&end(checksum))
}

/// The bytes of a checksum, and a closed gate.
fn end(checksum: u16) -> [u8; 3]
    ensures { result ≡ big_bytes 2 checksum ++ 0 ∷ [] }
{
    let [high, low] = checksum.to_be_bytes();
    [high, low, 0]
}
