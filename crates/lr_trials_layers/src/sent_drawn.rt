//! Drawn lists of files: the checksums of their frames, and that a receiver finds the files in them.

ghost use Rattle.std.specs.Prelude.{◌≤◌};

use lr_bits::{
    Bytes, Corrected, FRAME_BYTES, Lengths, MissionFile, NoMemory, Outcome, Placed, crc16,
};
use lr_conv::STANDARD;
use lr_layers::Layers;
use lr_trials_coding::windows::next_state;
use lr_uplink::Uplink;
use std::alloc::Global;
use std::test::Fail;

/// A generator of files.
#[derive(Clone, Copy)]
struct Draws {
    state: u64,
}

impl Draws {
    fn draw(&mut self) -> u8 {
        self.state = next_state(self.state);
        (self.state >> 56) as u8
    }

    /// How many bytes a body has: very few, up to 255, about as many as fill a zone, or up to 1,785.
    fn size(&mut self) -> u16
        ensures { result ≤ 1785 }
    {
        let kind = self.draw() % 4;
        let drawn = u16::from(self.draw());
        match kind {
            0 => drawn % 8,
            1 => drawn,
            2 => 866 + drawn % 16,
            _ => 7 * drawn,
        }
    }

    /// Appends a body of `size` drawn bytes.
    fn put_body(
        &mut self,
        size: u16,
        lengths: &mut Lengths,
        bytes: &mut Bytes,
    ) -> Result<(), NoMemory> {
        for _ in 0..size {
            let byte = self.draw();
            bytes.extend(&[byte])?;
        }
        lengths.push(size)
    }

    /// A file of one of three channels and one of three applications, with up to twelve bodies.
    fn file(&mut self, alloc: Global) -> Result<Option<MissionFile>, NoMemory> {
        let vc = 31 * (self.draw() % 3);
        let apid = match self.draw() % 3 {
            0 => 0,
            1 => 100,
            _ => 2046,
        };
        let more = self.draw() % 12;
        let mut lengths = Lengths::new(alloc);
        let mut bytes = Bytes::new(alloc);
        let first = self.size() + 10;
        self.put_body(first, &mut lengths, &mut bytes)?;
        for _ in 0..more {
            let size = self.size();
            self.put_body(size, &mut lengths, &mut bytes)?;
        }
        Ok(MissionFile::build(vc, apid, lengths, bytes))
    }
}

/// Sends a file, hands each frame to the layers, and appends its checksum.
fn send(
    uplink: &mut Uplink,
    file: MissionFile,
    layers: &mut Layers,
    found: &mut Vec<Placed>,
    sums: &mut Bytes,
) -> Result<(), NoMemory> {
    if uplink.load(file).is_err() {
        return Ok(());
    }
    for _ in 0..1_000u32 {
        let mut frame = [0u8; FRAME_BYTES];
        if !uplink.next_frame(&mut frame) {
            return Ok(());
        }
        sums.extend(&crc16(&frame).to_be_bytes())?;
        if layers.counts().restored >= 1 << 47 || layers.counts().lost >= 1 << 47 {
            return Ok(());
        }
        layers.push_outcome(&Outcome::Restored(Corrected([0; 4]), frame), found)?;
    }
    Ok(())
}

fn same(file: &MissionFile, other: &MissionFile) -> bool {
    file.vc() == other.vc()
        && file.apid() == other.apid()
        && file.lengths() == other.lengths()
        && file.bytes() == other.bytes()
}

/// That these are the files that are drawn.
fn are_drawn(alloc: Global, seed: u64, count: u8, found: &[Placed]) -> Result<(), Fail> {
    let mut draws = Draws { state: seed };
    let files = found.len();
    if files != usize::from(count) {
        return Err(Fail::new(format_args!("list {seed}: {files} files, and not {count}")));
    }
    for (place, one) in found.iter().enumerate() {
        let file = draws.file(alloc)?.ok_or("no file is drawn")?;
        if !same(&one.file, &file) {
            let lengths = one.file.lengths();
            return Err(Fail::new(format_args!("list {seed}: file {place} has {lengths:?}")));
        }
    }
    Ok(())
}

/// Sends the files that a generator draws, and appends the checksums of their frames. They are found.
fn list_is_found(alloc: Global, seed: u64, sums: &mut Bytes) -> Result<(), Fail> {
    let count = (seed % 5) as u8 + 1;
    let mut draws = Draws { state: seed };
    let mut uplink = Uplink::new(alloc, STANDARD)?;
    let mut layers = Layers::new(alloc);
    let mut found = Vec::new(alloc);
    for _ in 0..count {
        if let Some(file) = draws.file(alloc)? {
            send(&mut uplink, file, &mut layers, &mut found, sums)?;
        }
    }
    are_drawn(alloc, seed, count, &found)
}

/// The checksum of the checksums of all frames of `lists` generators, whose files are found.
fn checksum_of(alloc: Global, first: u64, lists: u64) -> Result<u16, Fail> {
    let mut sums = Bytes::new(alloc);
    for list in 0..lists {
        list_is_found(alloc, first.wrapping_add(list), &mut sums)?;
    }
    Ok(crc16(sums.as_slice()))
}

#[test]
fn drawn_files_are_sent_and_found(rt: HostRuntime) -> Result<(), Fail> {
    assert_eq!(rt; checksum_of(rt.alloc(), 0, 10)?, 0xBA2D);
    assert_eq!(rt; checksum_of(rt.alloc(), 10, 90)?, 0x0B3A);
    assert_eq!(rt; checksum_of(rt.alloc(), 100, 100)?, 0xD26C);
    Ok(())
}
