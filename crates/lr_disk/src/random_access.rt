//! Files that are read and written at places, as the system's open files are: what a disk needs of one.
ghost use Rattle.std.specs.Prelude.{◌≡◌, ◌⊎◌, ◌<◌, ◌≤◌, ◌+◌, List, ℕ, min, length, take, IfOk, OnOk, OnErr, ◌^◌};
ghost use Rattle.lr_bits.specs.Faults.{FailsAtOnce, WritesAtOnce};
ghost use Rattle.lr_bits.specs.Telling.{KeepsTelling};
ghost use Rattle.lr_bits.specs.Sizes.{most_u64};
ghost use Rattle.lr_disk.specs.Disk.{
  Written,
  Torn,
  Cut,
  bytes_at,
  FollowsWrite,
  SameImages,
  KeepsImages,
  NoOther,
  Only,
  Elapses,
};

use std::fs::File;
use std::io;
use std::io::{Seek, SeekFrom};
use std::os::unix::fs::FileExt;

/// An open file that is read and written at places. A call may move fewer bytes than it was asked for. What is said of
/// errors, of contents and of crashes holds for a file that tells them, of the last two in the words of `Disk`.
pub trait RandomAccessFile {
    /// Whether it tells its errors, its contents, and what a crash may leave.
    ghost tells: { Self → Type 0 };

    /// How many of its calls gave an error or wrote nothing, where it tells them.
    ghost errors: { Self → ℕ };

    /// The bytes that reads give, where it tells them.
    ghost contents: { Self → List ℕ };

    /// What a crash now may leave.
    ghost may_leave: { Self → List ℕ → Type 0 };

    /// The moment, on a clock that never goes back.
    ghost moment: { Self → ℕ };

    /// What a crash at some moment from that one on might have left.
    ghost left_since: { Self → ℕ → List ℕ → Type 0 };

    /// How many bytes it has.
    fn length(&mut self) -> io::Result<u64>
        ensures tell { KeepsTelling (tells self.old) (tells self.new) }
        ensures errors { tells self.old → FailsAtOnce (errors self.old) (errors self.new) result }
        ensures size { tells self.old → IfOk result (λ n. n ≡ length (contents self.old)) }
        ensures contents { tells self.old → contents self.new ≡ contents self.old }
        ensures crash { tells self.old → SameImages (may_leave self.old) (may_leave self.new) }
        ensures time { tells self.old → Elapses (moment self.old) (moment self.new)
            (left_since self.old) (left_since self.new) (may_leave self.new) };

    /// Fills the front of `into` with bytes that stand from a place on, and answers how many: none only where none
    /// stands there. A file has at most 2^64 - 1 bytes.
    fn read_at(&mut self, at: u64, into: &mut [u8]) -> io::Result<usize>
        requires { 0 < length into.old }
        ensures within { IfOk result (λ n. n ≤ length into.new) }
        ensures tell { KeepsTelling (tells self.old) (tells self.new) }
        ensures errors { tells self.old → FailsAtOnce (errors self.old) (errors self.new) result }
        ensures bytes { tells self.old → IfOk result (λ n. take n into.new ≡ bytes_at at n (contents self.old)) }
        ensures ended { tells self.old → IfOk result (λ n. n ≡ 0 → length (contents self.old) ≤ at) }
        ensures low { tells self.old → IfOk result (λ n. at + n ≤ most_u64) }
        ensures contents { tells self.old → contents self.new ≡ contents self.old }
        ensures crash { tells self.old → SameImages (may_leave self.old) (may_leave self.new) }
        ensures time { tells self.old → Elapses (moment self.old) (moment self.new)
            (left_since self.old) (left_since self.new) (may_leave self.new) };

    /// Writes the first bytes at a place, and answers how many. Whatever it answers, the range and a gap before it may
    /// hold any bytes after a crash, and what a crash might have left before it may leave still.
    fn write_at(&mut self, at: u64, bytes: &[u8]) -> io::Result<usize>
        requires some { 0 < length bytes.now }
        requires low { at + length bytes.now ≤ 2 ^ 62 }
        ensures within { IfOk result (λ n. n ≤ length bytes.now) }
        ensures tell { KeepsTelling (tells self.old) (tells self.new) }
        ensures errors { tells self.old → WritesAtOnce (errors self.old) (errors self.new) result }
        ensures written { tells self.old → IfOk result (λ n. 0 < n
            → Written at (take n bytes.now) (contents self.old) (contents self.new)) }
        ensures torn { tells self.old → Torn (min at (length (contents self.old))) (at + length bytes.now)
            (contents self.old) (contents self.new) }
        ensures crash { tells self.old → FollowsWrite
            (Torn (min at (length (contents self.old))) (at + length bytes.now))
            (may_leave self.old) (may_leave self.new) }
        ensures kept { tells self.old → KeepsImages (may_leave self.old) (may_leave self.new) }
        ensures time { tells self.old → Elapses (moment self.old) (moment self.new)
            (left_since self.old) (left_since self.new) (may_leave self.new) };

    /// Takes away the bytes from a place on, which isn't past the end. What a crash might have left before it may leave
    /// still.
    fn set_length(&mut self, size: u64) -> io::Result<()>
        ensures tell { KeepsTelling (tells self.old) (tells self.new) }
        ensures errors { tells self.old → FailsAtOnce (errors self.old) (errors self.new) result }
        ensures cut { tells self.old → size ≤ length (contents self.old)
            → OnOk result (contents self.new ≡ take size (contents self.old)) }
        ensures failed { tells self.old → size ≤ length (contents self.old)
            → OnErr result ((contents self.new ≡ take size (contents self.old))
            ⊎ (contents self.new ≡ contents self.old)) }
        ensures crash { tells self.old → size ≤ length (contents self.old)
            → FollowsWrite (Cut size) (may_leave self.old) (may_leave self.new) }
        ensures kept { tells self.old → size ≤ length (contents self.old)
            → KeepsImages (may_leave self.old) (may_leave self.new) }
        ensures time { tells self.old → size ≤ length (contents self.old)
            → Elapses (moment self.old) (moment self.new)
            (left_since self.old) (left_since self.new) (may_leave self.new) };

    /// Makes sure that a crash from now on leaves what a read gives, its length too.
    fn sync(&mut self) -> io::Result<()>
        ensures tell { KeepsTelling (tells self.old) (tells self.new) }
        ensures errors { tells self.old → FailsAtOnce (errors self.old) (errors self.new) result }
        ensures durable { tells self.old → OnOk result (Only (contents self.new) (may_leave self.new)) }
        ensures contents { tells self.old → contents self.new ≡ contents self.old }
        ensures crash { tells self.old → NoOther (may_leave self.old) (may_leave self.new) }
        ensures time { tells self.old → Elapses (moment self.old) (moment self.new)
            (left_since self.old) (left_since self.new) (may_leave self.new) };

    /// The contents are themselves a crash image.
    ghost leaves_contents: { (file : Self) → tells file → may_leave file (contents file) };

    /// What a crash now may leave is among what one since an earlier moment might have left.
    ghost counts_now: { (file : Self) (t : ℕ) (c : List ℕ) → tells file → t ≤ moment file
        → may_leave file c → left_since file t c };

    /// Since this moment there is nothing else.
    ghost only_now: { (file : Self) (c : List ℕ) → tells file → left_since file (moment file) c → may_leave file c };
}

/// An open file of the system, or a device of blocks. It tells nothing: that each of these calls of the system does
/// what its name says is trusted.
impl RandomAccessFile for File {
    ghost use Rattle.std.specs.Prelude.{[]};

    ghost tells = { λ _. ⊥ };

    ghost errors = { λ _. 0 };

    ghost contents = { λ _. [] };

    ghost may_leave = { λ _ _. ⊥ };

    ghost moment = { λ _. 0 };

    ghost left_since = { λ _ _ _. ⊥ };

    ghost leaves_contents = { λ _ told. told };

    ghost counts_now = { λ _ _ _ told _ _. told };

    ghost only_now = { λ _ _ told _. told };

    /// A device of blocks has a length too, which only its end tells.
    fn length(&mut self) -> io::Result<u64> {
        self.seek(SeekFrom::End(0))
    }

    fn read_at(&mut self, at: u64, into: &mut [u8]) -> io::Result<usize> {
        FileExt::read_at(self, into, at)
    }

    fn write_at(&mut self, at: u64, bytes: &[u8]) -> io::Result<usize> {
        FileExt::write_at(self, bytes, at)
    }

    fn set_length(&mut self, size: u64) -> io::Result<()> {
        self.set_len(size)
    }

    /// The times of a file need not outlive a crash.
    fn sync(&mut self) -> io::Result<()> {
        self.sync_data()
    }
}
