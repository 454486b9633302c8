//! Reading bytes of the disk to the front of a buffer.

ghost use Rattle.std.specs.Prelude.{◌≡◌, ◌<◌, ◌≤◌, ◌-◌, length, min, take, All, IfOk};
ghost use Rattle.lr_disk.specs.Disk.{bytes_at};
ghost use Rattle.lr_disk.specs.Reads.{OnlyReads};

use lr_bits::Failed;
use lr_disk::Disk;

/// Reads at most this many bytes, from a place on, to the front of the buffer, and answers how many there are.
pub(crate) fn read_front<D: Disk>(
    disk: &mut D,
    at: u64,
    buffer: &mut [u8],
    size: usize,
) -> Result<usize, Failed>
    requires some { 0 < size }
    requires room { size ≤ length buffer.old }
    ensures reads { OnlyReads D.Disk disk.old disk.new result }
    ensures within { IfOk result (λ n. n ≤ size) }
    ensures count { D.tells disk.old → IfOk result (λ n. n ≡ min size (length (D.contents disk.old) - at)) }
    ensures bytes { D.tells disk.old
        → IfOk result (λ n. take n buffer.new ≡ bytes_at at n (D.contents disk.old)) }
    ensures fit { All (λ one. one < 256) buffer.new }
{
    disk.read(at, &mut buffer[..size])
}
