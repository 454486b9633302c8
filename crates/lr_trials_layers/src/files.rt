//! `Files` is given a few packets.
use lr_bits::{MissionFile, NoMemory};
use lr_file::Files;
use lr_packet::GoodPacket;
use std::alloc::Global;
use std::test::Fail;

/// A file counter of 7, a declared length of 136 bits, and sixteen bytes.
static FILE: [u8; 26] = [
    0, 7, 0, 0, 0, 0, 0, 0, 0, 136, 0x00, 0x00, 0x10, 0x02, 0x00, 0x00, 0x00, 0x10, 0, 0, 0, 0, 0,
    0, 0, 0,
];

static DIGITS: [u8; 10] = [0x31, 0x32, 0x33, 0x34, 0x35, 0x36, 0x37, 0x38, 0x39, 0x30];

/// A packet: its channel, application, flags and count, and its body: the digits from one place up to another.
#[derive(Clone, Copy)]
struct Piece(u8, u16, u8, u16, usize, usize);

fn packet(piece: Piece) -> GoodPacket<'static> {
    let Piece(vc, apid, flags, count, from, to) = piece;
    GoodPacket {
        vc: vc % 64,
        apid: apid % 2047,
        flags: flags % 4,
        count: count % 16_384,
        body: DIGITS.get(from..to).unwrap_or(&[]),
    }
}

fn files_of(alloc: Global, packets: &[Piece]) -> Result<Vec<MissionFile>, NoMemory> {
    let mut files = Files::new(alloc);
    let mut found = Vec::new(alloc);
    for one in packets {
        if let Some(file) = files.push(&packet(*one))? {
            found.push(file)?;
        }
    }
    Ok(found)
}

/// A file: its channel and its application, and the lengths of its bodies, which are all digits in their order.
struct Found(u8, u16, &'static [u16]);

/// Packets, and the files that they make up.
struct Case(&'static [Piece], &'static [Found]);

/// That the packets of each case make up their files. Where they don't, the failure says which, and what came.
fn hold(alloc: Global, cases: &[Case]) -> Result<(), Fail> {
    for (place, Case(packets, wanted)) in cases.iter().enumerate() {
        let files = files_of(alloc, packets)?;
        let count = files.len();
        if count != wanted.len() {
            return Err(Fail::new(format_args!("case {place} makes up {count} files")));
        }
        for (file, Found(vc, apid, lengths)) in files.iter().zip(*wanted) {
            let came = (file.vc(), file.apid(), file.lengths());
            if came != (*vc, *apid, *lengths) || file.bytes() != DIGITS.as_slice() {
                let bytes = file.bytes();
                return Err(Fail::new(format_args!("case {place} gives {came:?} with {bytes:?}")));
            }
        }
    }
    Ok(())
}

/// A file of one packet, with its header.
fn single(alloc: Global) -> Result<bool, NoMemory> {
    let mut files = Files::new(alloc);
    let packet = GoodPacket {
        vc: 0,
        apid: 100,
        flags: 3,
        count: 0,
        body: &FILE,
    };
    let Some(file) = files.push(&packet)? else {
        return Ok(false);
    };
    Ok(
        file.counter() == 7
            && file.packets() == 1
            && file.bytes() == FILE.as_slice()
            && file.declared_bits() == 136
            && file.real_bits() == 128,
    )
}

static ONE_PACKET: [Case; 2] = [
    Case(&[Piece(0, 100, 3, 9, 0, 10)], &[Found(0, 100, &[10])]),
    Case(&[Piece(0, 100, 3, 9, 0, 9)], &[]),
];

static SEVERAL: [Case; 2] = [
    Case(
        &[
            Piece(0, 100, 1, 4, 0, 5),
            Piece(0, 100, 0, 5, 5, 5),
            Piece(0, 100, 0, 6, 5, 8),
            Piece(0, 100, 2, 7, 8, 10),
        ],
        &[Found(0, 100, &[5, 0, 3, 2])],
    ),
    Case(
        &[
            Piece(0, 100, 1, 4, 0, 3),
            Piece(0, 100, 0, 5, 3, 6),
            Piece(0, 100, 2, 6, 6, 9),
        ],
        &[],
    ),
];

static COUNTS: [Case; 2] = [
    Case(
        &[
            Piece(0, 100, 1, 16_382, 0, 2),
            Piece(0, 100, 0, 16_383, 2, 4),
            Piece(0, 100, 2, 0, 4, 10),
        ],
        &[Found(0, 100, &[2, 2, 6])],
    ),
    Case(
        &[
            Piece(0, 100, 1, 4, 0, 5),
            Piece(0, 100, 0, 5, 5, 6),
            Piece(0, 100, 2, 7, 8, 10),
            Piece(0, 100, 1, 8, 0, 6),
            Piece(0, 100, 2, 9, 6, 10),
        ],
        &[Found(0, 100, &[6, 4])],
    ),
];

static ANEW: [Case; 2] = [
    Case(
        &[
            Piece(0, 100, 1, 1, 0, 3),
            Piece(0, 100, 1, 2, 0, 5),
            Piece(0, 100, 2, 3, 5, 10),
        ],
        &[Found(0, 100, &[5, 5])],
    ),
    Case(
        &[
            Piece(0, 100, 1, 1, 0, 5),
            Piece(0, 100, 3, 2, 0, 10),
            Piece(0, 100, 2, 3, 5, 10),
        ],
        &[Found(0, 100, &[10])],
    ),
];

static WITHOUT_A_FIRST: [Case; 2] = [
    Case(&[Piece(0, 100, 2, 1, 0, 10)], &[]),
    Case(
        &[Piece(0, 100, 0, 1, 0, 5), Piece(0, 100, 2, 2, 5, 10)],
        &[],
    ),
];

/// Two keys whose packets interleave: the file of the second ends first.
static INTERLEAVED: [Case; 2] = [
    Case(
        &[
            Piece(0, 100, 1, 5, 0, 4),
            Piece(1, 100, 1, 8, 0, 3),
            Piece(0, 100, 0, 6, 4, 6),
            Piece(1, 100, 2, 9, 3, 10),
            Piece(0, 100, 2, 7, 6, 10),
        ],
        &[Found(1, 100, &[3, 7]), Found(0, 100, &[4, 2, 4])],
    ),
    Case(
        &[
            Piece(0, 100, 1, 5, 0, 4),
            Piece(0, 101, 1, 8, 0, 3),
            Piece(0, 100, 0, 6, 4, 6),
            Piece(0, 101, 2, 9, 3, 10),
            Piece(0, 100, 2, 7, 6, 10),
        ],
        &[Found(0, 101, &[3, 7]), Found(0, 100, &[4, 2, 4])],
    ),
];

#[test]
fn one_packet_is_a_file(rt: HostRuntime) -> Result<(), Fail> {
    assert!(rt; single(rt.alloc())?);
    hold(rt.alloc(), &ONE_PACKET)
}

#[test]
fn several_packets_are_a_file(rt: HostRuntime) -> Result<(), Fail> {
    hold(rt.alloc(), &SEVERAL)
}

#[test]
fn counts_follow_one_another(rt: HostRuntime) -> Result<(), Fail> {
    hold(rt.alloc(), &COUNTS)
}

#[test]
fn a_first_packet_begins_anew(rt: HostRuntime) -> Result<(), Fail> {
    hold(rt.alloc(), &ANEW)
}

#[test]
fn without_a_first_packet_there_is_no_file(rt: HostRuntime) -> Result<(), Fail> {
    hold(rt.alloc(), &WITHOUT_A_FIRST)
}

#[test]
fn channels_and_applications_are_apart(rt: HostRuntime) -> Result<(), Fail> {
    hold(rt.alloc(), &INTERLEAVED)
}
