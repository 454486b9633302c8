//! A shelf on which nothing stands is taken away again.
ghost use Rattle.std.specs.Prelude.{◌≡◌, ◌⊎◌, ◌<◌, ◌↔◌, [], List, IsTrue, IfOk, OnOk, length};
ghost use Rattle.lr_bits.specs.Telling.{KeepsTelling};
ghost use Rattle.lr_disk.specs.Disk.{Cut};
ghost use Rattle.lr_disk.specs.Reads.{IsCall, OnlyReads};
ghost use Rattle.lr_disk.specs.Pending.{EachImageSince, NothingPending};
ghost use Rattle.lr_shelf_format.specs.Header.{first_gate};
ghost use Rattle.lr_shelf_format.specs.Items.{Item};
ghost use Rattle.lr_shelf_format.specs.Walk.{IsOpen};
ghost use Rattle.lr_shelf.specs.Shelf.{IsDurable};
ghost use Rattle.lr_causes.specs.Causes.{IsEarlier, counts};
ghost use Rattle.lr_cmd_receive.specs.Filling.{IsWithdrawn, LeavesBlankOrItems};
ghost use Rattle.lr_causes.specs.Counts.{CountsTell};
ghost use Rattle.lr_cmd_receive.specs.First.{SourceBesides};
ghost use Rattle.lr_cmd_receive.specs.Trial.{trial_capacity, IsBare};

use lr_bits::Failed;
use lr_causes::{Cause, Party};
use lr_disk::Disk;
use lr_shelf_format::{FIRST_GATE, OPEN_GATE};

/// Whether the first gate on this disk is open. After an open gate stands an item.
fn is_first_gate_open<D: Disk>(disk: &mut D) -> Result<bool, Failed>
    ensures reads { OnlyReads D.Disk disk.old disk.new result }
    ensures gate { D.tells disk.old → first_gate < length (D.contents disk.old)
        → IfOk result (λ found. IsTrue found ↔ IsOpen (D.contents disk.old) first_gate) }
{
    let mut gate = [0];
    disk.read(FIRST_GATE as u64, &mut gate)?;
    Ok(gate[0] == OPEN_GATE)
}

/// Takes all bytes away.
fn clear<D: Disk>(disk: &mut D) -> Result<(), Failed>
    ensures call { IsCall D.Disk disk.old disk.new result }
    ensures cleared { D.tells disk.old → OnOk result (IsBare D.Disk disk.new) }
    ensures left { D.tells disk.old
        → (D.contents disk.new ≡ []) ⊎ (D.contents disk.new ≡ D.contents disk.old) }
    ensures any_moment { D.tells disk.old → NothingPending D.Disk disk.old
        → EachImageSince D.Disk disk.old disk.new (Cut 0 (D.contents disk.old)) }
{
    disk.cut(0)?;
    disk.sync()
}

/// Takes the shelf on this disk away, unless an item stands on it.
fn take_away<D: Disk>(disk: &mut D) -> Result<(), Failed>
    ensures call { IsCall D.Disk disk.old disk.new result }
    ensures ends { D.tells disk.old → (items : List Item)
        → IsDurable D.Disk trial_capacity items disk.old
        → OnOk result (IsWithdrawn D.Disk items disk.new) }
    ensures left { D.tells disk.old
        → (D.contents disk.new ≡ []) ⊎ (D.contents disk.new ≡ D.contents disk.old) }
    ensures any_moment { D.tells disk.old → (items : List Item)
        → IsDurable D.Disk trial_capacity items disk.old
        → LeavesBlankOrItems D.Disk items disk.old disk.new }
{
    if is_first_gate_open(disk)? {
        return Ok(());
    }
    clear(disk)
}

/// Where memory was refused: takes the shelf on this disk away, unless an item stands on it, and answers the cause. It
/// takes no memory.
pub(crate) fn withdraw<D: Disk>(disk: &mut D) -> Cause
    ensures kind { IsEarlier result }
    ensures first { CountsTell SourceBesides result (counts 0 (D.faults disk.old) 0)
        (counts 0 (D.faults disk.new) 0) }
    ensures tell { KeepsTelling (D.tells disk.old) (D.tells disk.new) }
    ensures ends { D.tells disk.old → (items : List Item)
        → IsDurable D.Disk trial_capacity items disk.old
        → result ≡ Cause.NoMemory → IsWithdrawn D.Disk items disk.new }
    ensures left { D.tells disk.old
        → (D.contents disk.new ≡ []) ⊎ (D.contents disk.new ≡ D.contents disk.old) }
    ensures any_moment { D.tells disk.old → (items : List Item)
        → IsDurable D.Disk trial_capacity items disk.old
        → LeavesBlankOrItems D.Disk items disk.old disk.new }
{
    match take_away(disk) {
        Ok(()) => Cause::NoMemory,
        Err(Failed) => Cause::Failed(Party::Disk),
    }
}
