//! A disk that counts what is asked of it.
ghost use Rattle.std.specs.Prelude.{[]};

use lr_bits::Failed;
use lr_disk::{Disk, MemDisk};

/// A disk in memory, how often it was asked what, and how many bytes were read. It tells nothing.
#[derive(Drop)]
pub(crate) struct Counting {
    pub(crate) disk: MemDisk,
    pub(crate) reads: u64,
    pub(crate) bytes: u64,
    pub(crate) writes: u64,
    pub(crate) syncs: u64,
    pub(crate) others: u64,
}

impl Counting {
    pub(crate) fn of(disk: MemDisk) -> Self {
        Counting {
            disk,
            reads: 0,
            bytes: 0,
            writes: 0,
            syncs: 0,
            others: 0,
        }
    }

    /// Counts from 0 again.
    pub(crate) fn clear(&mut self) {
        self.reads = 0;
        self.bytes = 0;
        self.writes = 0;
        self.syncs = 0;
        self.others = 0;
    }
}

fn count(calls: &mut u64) {
    *calls = calls.saturating_add(1);
}

impl Disk for Counting {
    ghost use Rattle.lr_disk.specs.MemDisk.{faults_of};

    ghost faults = { λ counting. faults_of counting.disk };

    ghost tells = { λ _. ⊥ };

    ghost contents = { λ _. [] };

    ghost may_leave = { λ _ _. ⊥ };

    ghost moment = { λ _. 0 };

    ghost left_since = { λ _ _ _. ⊥ };

    ghost only_read = { λ _ _. Unit {0} };

    ghost leaves_contents = { λ _ told. told };

    ghost counts_now = { λ _ _ _ told _ _. told };

    ghost reads_none = { λ _. tt };

    ghost reads_on = { λ _ _ _ _ _. tt };

    ghost only_now = { λ _ _ told _. told };

    fn length(&mut self) -> Result<u64, Failed> {
        count(&mut self.others);
        self.disk.length()
    }

    fn read(&mut self, at: u64, into: &mut [u8]) -> Result<usize, Failed> {
        count(&mut self.reads);
        let read = self.disk.read(at, into)?;
        self.bytes = self.bytes.saturating_add(read as u64);
        Ok(read)
    }

    fn write_at(&mut self, at: u64, bytes: &[u8]) -> Result<(), Failed> {
        count(&mut self.writes);
        self.disk.write_at(at, bytes)
    }

    fn cut(&mut self, length: u64) -> Result<(), Failed> {
        count(&mut self.others);
        self.disk.cut(length)
    }

    fn sync(&mut self) -> Result<(), Failed> {
        count(&mut self.syncs);
        self.disk.sync()
    }
}
