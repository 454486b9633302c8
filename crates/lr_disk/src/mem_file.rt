//! A disk in memory as a file that moves few bytes at a time, for tests.
ghost use Rattle.std.specs.Prelude.{◌≡◌, ◌<◌};

use crate::{Disk, MemDisk, RandomAccessFile};
use lr_bits::Failed;
use std::io;

/// A disk in memory as a file, which moves at most this many bytes in a call. It tells what the disk tells.
#[derive(Drop)]
pub struct MemFile {
    disk: MemDisk,
    most: usize,
    ghost some: { 0 < most },
}

impl MemFile {
    ghost use Rattle.lr_disk.specs.MemFile.{disk_in, most_moved};

    /// The disk as a file.
    pub fn of(disk: MemDisk, most: usize) -> Self
        requires { 0 < most }
        ensures disk { disk_in result ≡ disk }
        ensures most { most_moved result ≡ most }
    {
        MemFile { disk, most }
    }

    /// The disk.
    pub fn disk(&self) -> &MemDisk
        ensures { result.now ≡ disk_in self.now }
    {
        &self.disk
    }
}

/// The error of a file whose disk failed.
fn failure(_: Failed) -> io::Error {
    io::Error::other("the disk failed")
}

impl RandomAccessFile for MemFile {
    ghost use Rattle.lr_disk.specs.Mem.{leaves_its_contents, counts_this_moment, only_this_moment};
    ghost use Rattle.lr_disk.specs.MemDisk.{held_by, images_by, left_since as left_by, calls_made, faults_of};

    ghost tells = { λ _. Unit {0} };

    ghost errors = { λ f. faults_of f.disk };

    ghost contents = { λ f. held_by f.disk };

    ghost may_leave = { λ f. images_by f.disk };

    ghost moment = { λ f. calls_made f.disk };

    ghost left_since = { λ f. left_by f.disk };

    ghost leaves_contents = { λ f _. leaves_its_contents f.disk.past.first.items f.disk.past.log.items
        f.disk.past.calls.items f.disk.past.bytes.items f.disk.past.same };

    ghost counts_now = { λ f t c _ le image. counts_this_moment f.disk.past.first.items f.disk.past.log.items
        f.disk.past.calls.items t c le image };

    ghost only_now = { λ f c _ left. only_this_moment f.disk.past.first.items f.disk.past.log.items
        f.disk.past.calls.items c left };

    fn length(&mut self) -> io::Result<u64> {
        self.disk.length().map_err(failure)
    }

    fn read_at(&mut self, at: u64, into: &mut [u8]) -> io::Result<usize> {
        let most = into.len().min(self.most);
        self.disk.read(at, &mut into[..most]).map_err(failure)
    }

    fn write_at(&mut self, at: u64, bytes: &[u8]) -> io::Result<usize> {
        let most = bytes.len().min(self.most);
        match self.disk.write_at(at, &bytes[..most]) {
            Ok(()) => Ok(most),
            Err(failed) => Err(failure(failed)),
        }
    }

    fn set_length(&mut self, size: u64) -> io::Result<()> {
        self.disk.cut(size).map_err(failure)
    }

    fn sync(&mut self) -> io::Result<()> {
        self.disk.sync().map_err(failure)
    }
}
