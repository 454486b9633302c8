//! Shelves that received a frame of files, each of them given by its bodies.
use lr_bits::{FRAME_BYTES, crc16};
use lr_disk::MemDisk;
use lr_trials_station::call::{called, printed_on};
use lr_trials_station::steps::{FRAMES, HEADER_1000, Step, hold_on};
use lr_trials_support::{End, disk, faultless, shelf_bytes};
use std::alloc::Global;
use std::test::Fail;

/// The body of a packet: bytes, of which some are others, each by its place.
#[derive(Clone, Copy)]
pub(crate) struct Body(pub(crate) &'static [u8], pub(crate) &'static [(usize, u8)]);

/// The files of a shelf, each by its bodies; and steps over it.
pub(crate) struct Case(
    pub(crate) &'static [&'static [Body]],
    pub(crate) &'static [Step],
);

/// The bodies of a file that isn't exported, and why.
pub(crate) struct Refused(pub(crate) &'static [Body], pub(crate) &'static str);

fn bytes_of(alloc: Global, body: Body) -> Result<Vec<u8>, Fail> {
    let Body(bytes, changes) = body;
    let mut bytes = bytes.to_vec(alloc)?;
    for (place, byte) in changes {
        if let Some(one) = bytes.get_mut(*place) {
            *one = *byte;
        }
    }
    Ok(bytes)
}

/// Appends a packet of application 100.
fn put_packet(bytes: &mut Vec<u8>, flags: u8, count: u8, body: &[u8]) -> Result<(), Fail> {
    let length = u8::try_from(body.len()).ok().ok_or("a body is too long")?;
    bytes.extend_from_slice(&[0, 100, flags, count, 0, length.saturating_add(1)])?;
    bytes.extend_from_slice(body)?;
    bytes.extend_from_slice(&crc16(body).to_be_bytes())?;
    Ok(())
}

/// Appends the packets of a file, and answers the sequence count of the packet after them.
fn put_file(alloc: Global, bytes: &mut Vec<u8>, from: u8, bodies: &[Body]) -> Result<u8, Fail> {
    let mut count = from;
    for (place, body) in bodies.iter().enumerate() {
        let first = if place == 0 { 0x40 } else { 0 };
        let last = if place + 1 == bodies.len() { 0x80 } else { 0 };
        put_packet(bytes, first | last, count, &bytes_of(alloc, *body)?)?;
        count = count.saturating_add(1);
    }
    Ok(count)
}

/// Fills the frame up with an idle packet.
fn put_idle(bytes: &mut Vec<u8>) -> Result<(), Fail> {
    let rest = FRAME_BYTES
        .checked_sub(bytes.len())
        .and_then(|rest| rest.checked_sub(7))
        .ok_or("no room")?;
    let [high, low] = u16::try_from(rest).ok().ok_or("no room")?.to_be_bytes();
    bytes.extend_from_slice(&[0x07, 0xFF, 0xC0, 0, high, low])?;
    bytes.resize(FRAME_BYTES, 0)?;
    Ok(())
}

/// The frame of these files.
fn frame_of(alloc: Global, files: &[&[Body]]) -> Result<Vec<u8>, Fail> {
    let mut frame = [0x40, 0x40, 0, 0, 0, 0, 0, 0].to_vec(alloc)?;
    let mut count = 0;
    for bodies in files {
        count = put_file(alloc, &mut frame, count, bodies)?;
    }
    put_idle(&mut frame)?;
    Ok(frame)
}

/// A shelf of the capacity 1,000 that received it.
fn shelf_of(alloc: Global, files: &[&[Body]]) -> Result<MemDisk, Fail> {
    let bytes = frame_of(alloc, files)?;
    let mut made = disk(alloc, &shelf_bytes(alloc, HEADER_1000, &[])?, 10_000)?;
    let _ = printed_on(alloc, &mut made, &faultless(FRAMES, &bytes, FRAME_BYTES))?;
    Ok(made)
}

/// That each step over the shelf of each case comes to what it must.
pub(crate) fn cases_hold(alloc: Global, cases: &[Case]) -> Result<(), Fail> {
    for (number, Case(files, steps)) in cases.iter().enumerate() {
        let _ = hold_on(alloc, shelf_of(alloc, files)?, steps, number)?;
    }
    Ok(())
}

/// That no file is exported, each for its reason.
pub(crate) fn are_refused(alloc: Global, cases: &[Refused]) -> Result<(), Fail> {
    for Refused(bodies, why) in cases {
        let line = format!(in alloc; "station: cannot export: {why}\n")?;
        let mut made = shelf_of(alloc, &[bodies])?;
        called(alloc, &mut made, &faultless("export 0", &[], 1))?.ended_so(
            why,
            &[],
            End(8, &line),
        )?;
    }
    Ok(())
}
