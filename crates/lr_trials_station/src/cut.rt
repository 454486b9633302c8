//! What the contract of `receive` says of a run over one source: a source in memory that is cut at stated places.
ghost use Rattle.std.specs.Prelude.{◌≡◌, ◌<◌, ◌≤◌, ◌-◌, ◌^◌, ◌++◌, ℕ, List, Contains, length, take};
ghost use Rattle.lr_bits.specs.declared.sizes.TheConstants.{FRAME_SYMBOLS};
ghost use Rattle.lr_cmd_receive.specs.Shelving.{shelved_lines};
ghost use Rattle.lr_disk.specs.Pending.{NothingPending};
ghost use Rattle.lr_forms.specs.declared.forms.Input.TheVariants.{Symbols};
ghost use Rattle.lr_io.specs.MemSource.{bytes_moved, cut_places, left_of};
ghost use Rattle.lr_cmd_receive.specs.Noted.{noted_of_outcomes};
ghost use Rattle.lr_mend.specs.Mending.{most_fillers};
ghost use Rattle.lr_lock.specs.declared.sizes.TheConstants.{WINDOW_END};
ghost use Rattle.lr_reading.specs.Inputs.{outcomes_of_bytes};
ghost use Rattle.lr_reading.specs.Readers.{HaveCome};
ghost use Rattle.lr_shelf_format.specs.Way.{IsWay, Way};

use lr_causes::Cause;
use lr_cmd_receive::receive_alone;
use lr_disk::Disk;
use lr_forms::{Decoding, Input};
use lr_io::{MemSource, Sink};
use std::alloc::Global;

/// Receives symbols on one thread. Where the source was asked for what comes after a cut, the files of all frames whose
/// windows it had given before have their lines, however the call ended.
pub fn receive_symbols<D: Disk, O: Sink>(
    alloc: Global,
    decoding: Decoding,
    mend: u16,
    most: u64,
    source: &mut MemSource,
    disk: &mut D,
    out: &mut O,
) -> Cause
    requires few { most ≤ 2 ^ 48 }
    requires mend { mend ≤ most_fillers }
    requires fresh { bytes_moved source.old ≡ 0 }
    ensures lines { (place count : ℕ) (way : Way) → Contains (cut_places source.old) place
        → place < bytes_moved source.new
        → HaveCome (Symbols decoding) (WINDOW_END - FRAME_SYMBOLS) (take place (left_of source.old)) count
        → D.tells disk.old → IsWay (D.contents disk.old) way → NothingPending D.Disk disk.old → O.tells out.old
        → (text : List ℕ) × (O.contents out.new ≡ O.contents out.old
        ++ (shelved_lines (length way.entries) (noted_of_outcomes mend
        (take count (outcomes_of_bytes (Symbols decoding) (take place (left_of source.old))))) ++ text)) }
{
    receive_alone(
        alloc,
        Input::Symbols(decoding),
        mend,
        most,
        source,
        disk,
        out,
    )
}
