//! `init`: an empty shelf is made.
ghost use Rattle.std.specs.Prelude.{◌≡◌, IfOk, string_bytes};
ghost use Rattle.lr_bits.specs.Telling.{KeepsTelling};
ghost use Rattle.lr_shelf_format.specs.Header.{IsCapacity};
ghost use Rattle.lr_causes.specs.Causes.{IsCaused, counts};
ghost use Rattle.lr_cmd_receive.specs.Init.{capacity_line, InitRun};
ghost use Rattle.lr_causes.specs.Outside.{outlets, outlets_of};

use lr_causes::{Cause, put_text};
use lr_disk::Disk;
use lr_io::Sink;
use lr_refusals::shelf_answer;
use lr_shelf::Shelf;
use std::alloc::{AllocError, Global};

#[tactic(auto, unfolding(crate::specs::Init::capacity_line))]
fn capacity_line(alloc: Global, capacity: u64) -> Result<String, AllocError>
    ensures { IfOk result (λ line. string_bytes line ≡ capacity_line capacity) }
{
    format!(in alloc; "shelf capacity {capacity}\n")
}

/// Makes an empty shelf of this capacity, in bytes, and prints its line, for which memory is taken first.
pub fn init<D: Disk, O: Sink>(alloc: Global, capacity: u64, disk: &mut D, out: &mut O) -> Cause
    requires { IsCapacity capacity }
    ensures cause { IsCaused result (counts 0 (D.faults disk.old) (O.faults out.old))
        (counts 0 (D.faults disk.new) (O.faults out.new)) }
    ensures by_disk { KeepsTelling (D.tells disk.old) (D.tells disk.new) }
    ensures by_out { KeepsTelling (O.tells out.old) (O.tells out.new) }
    ensures run { InitRun (outlets_of D.Disk O.Sink) capacity result
        (outlets disk.old out.old) (outlets disk.new out.new) }
{
    let line = match capacity_line(alloc, capacity) {
        Ok(line) => line,
        Err(_) => return Cause::NoMemory,
    };
    match shelf_answer(Shelf::init(disk, capacity)) {
        Err(cause) => cause,
        Ok(()) => match put_text(line.as_bytes(), out) {
            Ok(()) => Cause::Done,
            Err(cause) => cause,
        },
    }
}
