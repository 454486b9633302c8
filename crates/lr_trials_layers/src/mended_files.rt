//! `MendedFiles` is given packets of images, of which some are missing.
use crate::mended_packets::{IMAGE, Piece, packet};
use lr_bits::{Bytes, Lengths, MOST_BODY_BYTES, MissionFile, NoMemory};
use lr_mend::{Ended, MOST_FILLERS, MarkedFile, MendedFiles, mark};
use lr_packet::GoodPacket;
use std::alloc::Global;
use std::test::Fail;

/// A file that comes: its packets, its fillers, the text of its mark, which is empty where it has none, and what comes
/// after its first body.
struct Found(u32, u16, &'static [u8], &'static [u8]);

/// Packets, the most fillers, and the files that come.
struct Case(&'static [Piece], u16, &'static [Found]);

/// How many bytes the first body has.
fn first_of(file: &MissionFile) -> usize {
    if file.packets() == 0 {
        0
    } else {
        usize::from(file.length(0))
    }
}

/// The text of the mark of a file whose header had 35 bytes with its transport header; empty where there is none.
fn mark_of(file: &MissionFile) -> &[u8] {
    file.bytes().get(38..first_of(file)).unwrap_or(&[])
}

fn data_of(file: &MissionFile) -> &[u8] {
    file.bytes().get(first_of(file)..).unwrap_or(&[])
}

/// Appends the files that end with a packet and with the fillers before it.
fn append(ended: Ended, found: &mut Vec<MarkedFile>) -> Result<(), NoMemory> {
    let Ended {
        by_fillers,
        by_packet,
    } = ended;
    if let Some(file) = by_fillers {
        found.push(file)?;
    }
    if let Some(file) = by_packet {
        found.push(file)?;
    }
    Ok(())
}

fn files_of(alloc: Global, case: &Case) -> Result<Vec<MarkedFile>, NoMemory> {
    let mut mended = MendedFiles::new(alloc, case.1.min(MOST_FILLERS));
    let mut found = Vec::new(alloc);
    for piece in case.0 {
        let ended = mended.push(&packet(*piece))?;
        append(ended, &mut found)?;
    }
    Ok(found)
}

fn holds(alloc: Global, case: &Case) -> Result<bool, NoMemory> {
    let found = files_of(alloc, case)?;
    Ok(
        found.len() == case.2.len()
            && found.iter().zip(case.2).all(|(marked, wanted)| {
                marked.file.packets() == wanted.0
                    && marked.fillers == wanted.1
                    && mark_of(&marked.file) == wanted.2
                    && data_of(&marked.file) == wanted.3
            }),
    )
}

/// That the packets of each case make up its files.
fn hold(alloc: Global, cases: &[Case]) -> Result<(), Fail> {
    for (place, case) in cases.iter().enumerate() {
        if !holds(alloc, case)? {
            return Err(Fail::new(format_args!("case {place} makes up other files")));
        }
    }
    Ok(())
}

static CASES: [Case; 8] = [
    Case(
        &[
            Piece(13, 313, 1, 100, 'I'),
            Piece(13, 313, 0, 101, 'a'),
            Piece(13, 313, 0, 103, 'c'),
            Piece(13, 313, 2, 104, 'z'),
        ],
        16,
        &[Found(5, 1, b"gomtasil mended 2 of 5", b"aaa\0\0\0ccczzz")],
    ),
    Case(
        &[
            Piece(13, 313, 1, 100, 'I'),
            Piece(13, 313, 0, 101, 'a'),
            Piece(13, 313, 0, 103, 'c'),
            Piece(13, 313, 2, 104, 'z'),
        ],
        0,
        &[],
    ),
    // The gap after the header, then the end before a file of one packet, which comes too: so its one packet ends two
    // files.
    Case(
        &[
            Piece(13, 313, 1, 16_382, 'I'),
            Piece(13, 313, 0, 1, 'c'),
            Piece(13, 313, 2, 2, 'z'),
            Piece(13, 313, 1, 3, 'I'),
            Piece(13, 313, 0, 4, 'a'),
            Piece(13, 313, 3, 8, 'T'),
        ],
        3,
        &[
            Found(5, 2, b"gomtasil mended 1-2 of 5", b"\0\0\0\0\0\0ccczzz"),
            Found(5, 3, b"gomtasil mended 2-4 of 5", b"aaa\0\0\0\0\0\0\0\0\0"),
            Found(1, 0, b"", b""),
        ],
    ),
    Case(
        &[
            Piece(13, 313, 1, 16_382, 'I'),
            Piece(13, 313, 0, 1, 'c'),
            Piece(13, 313, 2, 2, 'z'),
            Piece(13, 313, 1, 3, 'I'),
            Piece(13, 313, 0, 4, 'a'),
            Piece(13, 313, 3, 8, 'T'),
        ],
        2,
        &[
            Found(5, 2, b"gomtasil mended 1-2 of 5", b"\0\0\0\0\0\0ccczzz"),
            Found(1, 0, b"", b""),
        ],
    ),
    Case(
        &[
            Piece(13, 313, 1, 16_382, 'I'),
            Piece(13, 313, 0, 1, 'c'),
            Piece(13, 313, 2, 2, 'z'),
            Piece(13, 313, 1, 3, 'I'),
            Piece(13, 313, 0, 4, 'a'),
            Piece(13, 313, 3, 8, 'T'),
        ],
        0,
        &[Found(1, 0, b"", b"")],
    ),
    Case(
        &[
            Piece(13, 313, 1, 7, 'I'),
            Piece(13, 313, 0, 8, 'a'),
            Piece(13, 313, 2, 9, 'z'),
        ],
        16,
        &[Found(3, 0, b"", b"aaazzz")],
    ),
    // Lines are coded: a copy stands in, and ends the image before the next file. The end of the lossless record comes
    // before that of the mark.
    Case(
        &[
            Piece(13, 313, 1, 7, 'C'),
            Piece(13, 313, 0, 8, 'd'),
            Piece(13, 313, 1, 10, 'C'),
        ],
        1,
        &[Found(
            3,
            1,
            b"\0\x31\x10\x02\x06\0\x19gomtasil mended 2 of 3",
            b"dd",
        )],
    ),
    // All pixels came, and the last packet is lost.
    Case(
        &[
            Piece(13, 313, 1, 7, 'I'),
            Piece(13, 313, 0, 8, 'l'),
            Piece(13, 313, 1, 10, 'I'),
        ],
        1,
        &[Found(
            3,
            1,
            b"gomtasil mended 2 of 3",
            b"aaabbbcccddd\0\0\0\0\0\0\0\0\0\0\0\0",
        )],
    ),
];

#[test]
fn files_are_mended_and_marked(rt: HostRuntime) -> Result<(), Fail> {
    hold(rt.alloc(), &CASES)
}

/// A file of channel 13 and application 313: the header, and three bodies.
fn example(alloc: Global) -> Result<Option<MissionFile>, NoMemory> {
    let mut lengths = Lengths::new(alloc);
    for length in [35, 3, 3, 3] {
        lengths.push(length)?;
    }
    let mut bytes = Bytes::new(alloc);
    bytes.extend(&IMAGE)?;
    bytes.extend(b"aaabbbccc")?;
    Ok(MissionFile::build(13, 313, lengths, bytes))
}

/// Whether the file above with fillers at these places has these bytes, this first body and this number of fillers.
fn is_marked(
    alloc: Global,
    places: &[u32],
    bytes: &[u8],
    first: usize,
    fillers: u16,
) -> Result<bool, NoMemory> {
    let Some(file) = example(alloc)? else {
        return Ok(false);
    };
    let Some(marked) = mark(alloc, file, places)? else {
        return Ok(false);
    };
    Ok(
        marked.file.bytes() == bytes
            && first_of(&marked.file) == first
            && marked.fillers == fillers
            && marked.file.packets() == 4,
    )
}

/// The header with a length of 54, and a record of 29 bytes with the text `gomtasil mended 1-3 5 of 4`, and the three
/// bodies.
static MARKED: [u8; 73] = [
    0, 1, 0, 0, 0, 0, 0, 0, 1, 64, 0, 0, 16, 0, 0, 0, 0, 54, 0, 0, 0, 0, 0, 0, 0, 96, 1, 0, 9, 8,
    0, 3, 0, 4, 0, 6, 0, 29, 103, 111, 109, 116, 97, 115, 105, 108, 32, 109, 101, 110, 100, 101,
    100, 32, 49, 45, 51, 32, 53, 32, 111, 102, 32, 52, 97, 97, 97, 98, 98, 98, 99, 99, 99,
];

static UNMARKED: [u8; 44] = [
    0, 1, 0, 0, 0, 0, 0, 0, 1, 64, 0, 0, 16, 0, 0, 0, 0, 25, 0, 0, 0, 0, 0, 0, 0, 96, 1, 0, 9, 8,
    0, 3, 0, 4, 0, 97, 97, 97, 98, 98, 98, 99, 99, 99,
];

#[test]
fn a_mark_is_one_record_more(rt: HostRuntime) -> Result<(), Fail> {
    let alloc = rt.alloc();
    // Five isn't a place of this file, but its text is that of one.
    assert!(rt; is_marked(alloc, &[1, 2, 3, 5], &MARKED, 64, 4)?);
    assert!(rt; is_marked(alloc, &[], &UNMARKED, 35, 0)?);
    Ok(())
}

/// A first body of this length: a header of an image of 1,000 columns and 100 lines, and the front of its pixels.
fn long_first(alloc: Global, length: usize) -> Result<Bytes, NoMemory> {
    let mut body = Bytes::new(alloc);
    body.extend(&IMAGE[..30])?;
    body.extend(&[3, 232, 0, 100, 0])?;
    for _ in 35..length.min(MOST_BODY_BYTES) {
        body.extend(&[7])?;
    }
    Ok(body)
}

fn push_one(
    mended: &mut MendedFiles,
    flags: u8,
    count: u16,
    body: &[u8],
    found: &mut Vec<MarkedFile>,
) -> Result<(), NoMemory> {
    if body.len() > MOST_BODY_BYTES {
        return Ok(());
    }
    let packet = GoodPacket {
        vc: 13,
        apid: 313,
        flags: flags % 4,
        count: count % 16_384,
        body,
    };
    append(mended.push(&packet)?, found)
}

/// How many bytes the first body of the file has, where that of its first packet has this length, and its second packet
/// is lost. 0: no file comes.
fn marked_first(alloc: Global, length: usize) -> Result<usize, NoMemory> {
    let first = long_first(alloc, length)?;
    let mut mended = MendedFiles::new(alloc, 16);
    let mut found = Vec::new(alloc);
    push_one(&mut mended, 1, 0, first.as_slice(), &mut found)?;
    push_one(&mut mended, 0, 2, b"zzz", &mut found)?;
    push_one(&mut mended, 2, 3, &[], &mut found)?;
    Ok(match found.first() {
        Some(marked) => first_of(&marked.file),
        None => 0,
    })
}

/// A first body has 65,534 bytes at most, also with the record, which has 25 here.
#[test]
fn a_first_body_keeps_its_limit(rt: HostRuntime) -> Result<(), Fail> {
    let alloc = rt.alloc();
    assert!(rt; marked_first(alloc, 65_509)? == 65_534);
    assert!(rt; marked_first(alloc, 65_510)? == 0);
    assert!(rt; marked_first(alloc, 65_534)? == 0);
    Ok(())
}
