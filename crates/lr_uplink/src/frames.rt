//! The frames of a file that is sent.

ghost use Rattle.std.specs.Prelude.{◌≡◌, ◌<◌, ◌≤◌, ◌+◌, ◌*◌, ◌^◌, ◌++◌, ℕ, List, length, take, drop};
ghost use Rattle.std.specs.List.{concat};
ghost use Rattle.lr_bits.specs.File.{File};
ghost use Rattle.lr_bits.specs.declared.sizes.TheConstants.{FRAME_COUNTS};
ghost use Rattle.lr_make.specs.Frames.{frame_for_zone};
ghost use Rattle.lr_uplink.specs.Packets.{file_packets};
ghost use Rattle.lr_uplink.specs.Sent.{sent_pointer_at, sent_zone_at};
ghost use Rattle.lr_uplink.specs.Progress.{IsSending};

use crate::sending::Sending;
use lr_bits::{FRAME_BYTES, ZONE_BYTES};
use lr_make::put_frame;

/// Writes the next frame of a file, with this counter.
pub(crate) fn put_next(frame: &mut [u8; FRAME_BYTES], sending: &mut Sending, counter: u32)
    requires { counter < FRAME_COUNTS }
    ensures frame { (file : File) (count t : ℕ) →
        ZONE_BYTES * t + ZONE_BYTES ≤ length (concat (file_packets count file)) →
        IsSending sending.old file count (drop (ZONE_BYTES * t) (concat (file_packets count file))) →
        frame.new ≡ frame_for_zone file.vc counter (sent_pointer_at (file_packets count file) t)
        (sent_zone_at (file_packets count file) t) }
    ensures moves { (file : File) (count : ℕ) (rest : List ℕ) → IsSending sending.old file count rest →
        IsSending sending.new file count (drop ZONE_BYTES rest) }
{
    let vc = sending.vc();
    let pointer = sending.pointer();
    let mut zone = [0; ZONE_BYTES];
    sending.fill(&mut zone);
    put_frame(frame, vc, counter, pointer, &zone);
}
