//! The station is called over sources, disks and sinks in memory.
use lr_bits::NoMemory;
use lr_disk::MemDisk;
use lr_station::station_alone;
use lr_trials_support::{Call, Printed, disk, faultless, parts_of};
use std::alloc::Global;
use std::test::Fail;

/// What comes of a call, over this disk.
pub fn called(alloc: Global, disk: &mut MemDisk, call: &Call<'_>) -> Result<Printed, NoMemory> {
    let mut parts = parts_of(alloc, call)?;
    let status = station_alone(
        alloc,
        &parts.words,
        &mut parts.source,
        disk,
        &mut parts.out,
        &mut parts.err,
    );
    Ok(parts.ended(status))
}

/// What a call prints over this disk. It must be done.
pub fn printed_on(alloc: Global, disk: &mut MemDisk, call: &Call<'_>) -> Result<Vec<u8>, Fail> {
    let printed = called(alloc, disk, call)?;
    printed.has_status(call.words, 0)?;
    Ok(printed.out.as_slice().to_vec(alloc)?)
}

/// What these words print over this disk, with nothing to read and at most N bytes. The call must be done.
pub fn written_on(
    alloc: Global,
    disk: &mut MemDisk,
    words: &str,
    most: usize,
) -> Result<Vec<u8>, Fail> {
    let call = Call {
        out_room: most,
        ..faultless(words, &[], 1)
    };
    printed_on(alloc, disk, &call)
}

/// The same, over a disk of which no call succeeds.
pub fn written(alloc: Global, words: &str, most: usize) -> Result<Vec<u8>, Fail> {
    written_on(alloc, &mut disk(alloc, &[], 0)?, words, most)
}
