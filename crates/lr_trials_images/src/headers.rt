//! Headers, the faults of bytes that are none, what their records say, and time stamps as text.

use lr_bits::{Bytes, NoMemory};
use lr_headers::{HeaderFault, Records, Stamp, stamp_text};
use std::alloc::Global;
use std::test::Fail;

/// A primary record of file type 2, of a header of 16 bytes.
static PRIMARY: [u8; 16] = [
    0x00, 0x00, 0x10, 0x02, 0x00, 0x00, 0x00, 0x10, 0, 0, 0, 0, 0, 0, 0, 0,
];

/// A header with a time stamp record and one of an unknown kind.
static STAMPED: [u8; 29] = [
    0x00, 0x00, 0x10, 0x02, 0x00, 0x00, 0x00, 0x1D, 0, 0, 0, 0, 0, 0, 0, 0x40, 0x05, 0x00, 0x0A,
    0x40, 0x11, 0x1F, 0x05, 0x26, 0x5B, 0xFF, 0xC8, 0x00, 0x03,
];

/// A header with two key records, of which the second has a content byte that isn't 0, a structure record, a segment
/// record of 16 bytes, which isn't read as one, and one of 17.
static KEYED: [u8; 67] = [
    0x00, 0x00, 0x10, 0x00, 0x00, 0x00, 0x00, 0x43, 0, 0, 0, 0, 0, 0, 0, 0x20, 0x07, 0x00, 0x04,
    0x00, 0x07, 0x00, 0x05, 0x00, 0x01, 0x01, 0x00, 0x09, 8, 0, 64, 0, 48, 1, 0x80, 0x00, 0x10, 0,
    0, 0, 0, 0, 0, 0, 0, 0, 0, 0, 0, 0, 0x80, 0x00, 0x11, 0, 1, 0, 2, 0, 3, 0, 4, 0, 5, 0, 6, 0, 7,
];

/// The kind of a fault, and its numbers.
fn told(fault: HeaderFault) -> (u8, u64, u64) {
    match fault {
        HeaderFault::Ended { at } => (0, at, 0),
        HeaderFault::NotPrimary => (1, 0, 0),
        HeaderFault::ShortRecord { at } => (2, at, 0),
        HeaderFault::Overrun { at } => (3, at, 0),
        HeaderFault::WrongLength { kind, length } => (4, u64::from(kind), u64::from(length)),
        HeaderFault::NoMemory => (5, 0, 0),
    }
}

/// That these bytes have no header, and this fault.
fn fails(alloc: Global, proper: &[u8], wanted: HeaderFault) -> Result<(), Fail> {
    match Records::read(alloc, proper) {
        Err(fault) if told(fault) == told(wanted) => Ok(()),
        Err(fault) => {
            Err(Fail::new(format_args!("{proper:?} have {fault:?}, and not {wanted:?}")))
        }
        Ok(_) => Err(Fail::new(format_args!("{proper:?} have no fault, and not {wanted:?}"))),
    }
}

/// Whether the stamp is written as this text.
fn is_written(alloc: Global, stamp: Stamp, wanted: &[u8]) -> Result<bool, NoMemory> {
    let mut text = Bytes::new(alloc);
    stamp_text(alloc, &stamp, &mut text)?;
    Ok(*text.as_slice() == *wanted)
}

#[test]
fn a_header_of_the_primary_record_alone(rt: HostRuntime) -> Result<(), Fail> {
    let records = Records::read(rt.alloc(), &PRIMARY).ok().ok_or("no header")?;
    assert!(rt; records.count() == 1 && records.file_type() == 2);
    assert!(rt; records.header_length() == 16 && records.data_bits() == 0);
    assert!(rt; records.structure().is_none() && records.navigation().is_none());
    assert!(rt; records.stamp().is_none() && records.segment().is_none());
    assert!(rt; records.lossless().is_none() && !records.is_encrypted());
    Ok(())
}

/// Bytes, and the first fault of the header in them.
struct Faulty(&'static [u8], HeaderFault);

static FAULTY: [Faulty; 7] = [
    Faulty(
        &[0, 0, 16, 2, 0xFF, 0xFF, 0xFF, 0xFF, 0, 0, 0, 0, 0, 0, 0, 0],
        HeaderFault::Ended { at: 16 },
    ),
    Faulty(
        &[0, 0, 16, 2, 0, 0, 0, 16, 0, 0, 0, 0, 0, 0, 0],
        HeaderFault::Ended { at: 15 },
    ),
    Faulty(
        &[0, 0, 16, 2, 0, 0, 0, 15, 0, 0, 0, 0, 0, 0, 0, 0],
        HeaderFault::Overrun { at: 0 },
    ),
    // Two bytes are left; a record is too short, and one too long.
    Faulty(
        &[0, 0, 16, 2, 0, 0, 0, 18, 0, 0, 0, 0, 0, 0, 0, 0, 4, 0],
        HeaderFault::Overrun { at: 16 },
    ),
    Faulty(
        &[0, 0, 16, 2, 0, 0, 0, 19, 0, 0, 0, 0, 0, 0, 0, 0, 4, 0, 2],
        HeaderFault::ShortRecord { at: 16 },
    ),
    Faulty(
        &[0, 0, 16, 2, 0, 0, 0, 19, 0, 0, 0, 0, 0, 0, 0, 0, 4, 0, 4],
        HeaderFault::Overrun { at: 16 },
    ),
    Faulty(
        &[1, 0, 16, 2, 0, 0, 0, 16, 0, 0, 0, 0, 0, 0, 0, 0],
        HeaderFault::NotPrimary,
    ),
];

#[test]
fn the_first_fault_is_named(rt: HostRuntime) -> Result<(), Fail> {
    for Faulty(bytes, fault) in &FAULTY {
        fails(rt.alloc(), bytes, *fault)?;
    }
    Ok(())
}

#[test]
fn a_stamp_of_another_length_is_refused(rt: HostRuntime) -> Result<(), Fail> {
    let mut bytes = STAMPED;
    bytes[18] = 0x0B;
    let fault = HeaderFault::WrongLength {
        kind: 5,
        length: 11,
    };
    fails(rt.alloc(), &bytes, fault)
}

/// The stamp of a header of three records.
fn own_stamp(alloc: Global) -> Result<Stamp, Fail> {
    let records = Records::read(alloc, &STAMPED).ok().ok_or("no header")?;
    if records.count() != 3 {
        return Err(Fail::from("other records"));
    }
    Ok(records.stamp().ok_or("no stamp")?)
}

/// The form, the days and the milliseconds of a stamp, and its text.
struct Written(u8, u16, u32, &'static [u8]);

static WRITTEN: [Written; 5] = [
    Written(0x40, 0, 3_723_004, b"1958-01-01T01:02:03.004Z"),
    Written(0x40, 789, 0, b"1960-02-29T00:00:00.000Z"),
    Written(0x40, 65_535, 0, b"2137-06-06T00:00:00.000Z"),
    Written(0x40, 7, 86_400_000, b"form 64 days 7 milliseconds 86400000"),
    Written(0x41, 7, 0, b"form 65 days 7 milliseconds 0"),
];

#[test]
fn stamps_are_written(rt: HostRuntime) -> Result<(), Fail> {
    let alloc = rt.alloc();
    assert!(rt; is_written(alloc, own_stamp(alloc)?, b"1970-01-01T23:59:59.999Z")?);
    for Written(form, days, milliseconds, text) in &WRITTEN {
        let stamp = Stamp {
            form: *form,
            days: *days,
            milliseconds: *milliseconds,
        };
        assert!(rt; is_written(alloc, stamp, text)?, "after {days} days");
    }
    Ok(())
}

/// Whether the records of `KEYED` say what stands there.
fn say(records: &Records) -> bool {
    let (Some(structure), Some(segment)) = (records.structure(), records.segment()) else {
        return false;
    };
    let size = structure.bits == 8 && structure.columns == 64 && structure.lines == 48;
    let place = segment.image == 1 && segment.number == 2 && segment.start_column == 3;
    let whole = segment.segments == 5 && segment.columns == 6 && segment.lines == 7;
    let keyed = records.is_encrypted() && records.count() == 6;
    size && structure.compression == 1 && place && segment.start_line == 4 && whole && keyed
}

#[test]
fn records_say_what_they_hold(rt: HostRuntime) -> Result<(), Fail> {
    let records = Records::read(rt.alloc(), &KEYED).ok().ok_or("no header")?;
    assert!(rt; say(&records));
    Ok(())
}
