//! A seat goes round the cells, and does the first job that it can claim.

ghost use Rattle.std.specs.Prelude.{◌≡◌, ◌<◌, ◌≤◌, false};
ghost use Rattle.lr_gate.specs.Calls.{MayClaim, Visits, GoesBetween, GoesRound};

use crate::gate::Gate;
use crate::plays::{Claims, Finishes, Looks};
use crate::slot_value::SlotValue;
use crate::view::View;
use atomic_table::Seat;
use lr_gatecore::Work;

/// The cells from one up to another.
#[derive(Clone, Copy)]
struct CellRange {
    from: usize,
    to: usize,
}

/// Visits each cell once, the one of this number first and then in the order of the ring, until one is claimed and its
/// job is done. The answer is whether one was. Then `start` is the cell after it.
pub(crate) fn go_round<W: Work>(
    gate: &Gate<W>,
    seat: &mut Seat<SlotValue<W::Job, W::Done>, View<W::Job>>,
    number: u64,
    start: &mut usize,
    work: &mut W,
) -> bool
    requires { MayClaim gate.now.table.shared.table_id seat.old number }
    ensures same { (seat.new.table_id ≡ seat.old.table_id) × (seat.new.id ≡ seat.old.id) }
    ensures rounds { GoesRound gate.now.cells seat.old.me seat.new.me result }
{
    let cells = gate.cells as usize;
    let first = *start % cells;
    let rest = CellRange {
        from: first,
        to: cells,
    };
    if go_between(gate, seat, number, start, work, rest) {
        return true;
    }
    let front = CellRange { from: 0, to: first };
    go_between(gate, seat, number, start, work, front)
}

/// Visits these cells, until one is claimed and its job is done.
fn go_between<W: Work>(
    gate: &Gate<W>,
    seat: &mut Seat<SlotValue<W::Job, W::Done>, View<W::Job>>,
    number: u64,
    start: &mut usize,
    work: &mut W,
    cells: CellRange,
) -> bool
    requires mine { MayClaim gate.now.table.shared.table_id seat.old number }
    requires order { cells.from ≤ cells.to }
    requires cells { cells.to ≤ gate.now.cells }
    ensures same { (seat.new.table_id ≡ seat.old.table_id) × (seat.new.id ≡ seat.old.id) }
    ensures mine { result ≡ false → MayClaim gate.now.table.shared.table_id seat.new number }
    ensures goes { GoesBetween gate.now.cells cells seat.old.me seat.new.me result }
{
    for cell in cells.from..cells.to {
        if visit(gate, seat, number, work, cell) {
            *start = cell + 1;
            return true;
        }
    }
    false
}

/// Claims the cell if it is ready, and does its job. The answer is whether it did.
fn visit<W: Work>(
    gate: &Gate<W>,
    seat: &mut Seat<SlotValue<W::Job, W::Done>, View<W::Job>>,
    number: u64,
    work: &mut W,
    cell: usize,
) -> bool
    requires mine { MayClaim gate.now.table.shared.table_id seat.old number }
    requires cell { cell < gate.now.cells }
    ensures same { (seat.new.table_id ≡ seat.old.table_id) × (seat.new.id ≡ seat.old.id) }
    ensures visits { Visits gate.now.cells cell seat.old.me seat.new.me result }
{
    let shared = &gate.table.shared;
    let word = shared.load::<Looks<W>>(seat, cell + 1);
    if word % 4 != 1 {
        return false;
    }
    let busy = word + 4 * number + 2;
    let found = shared.compare_exchange::<Claims<W>>(seat, cell + 1, word, busy);
    if found != word {
        return false;
    }
    match shared.exchange(seat, cell, SlotValue::Empty) {
        SlotValue::Given(job) => {
            let made = work.run(job);
            let _empty = shared.exchange(seat, cell, SlotValue::Made(made));
            shared.store::<Finishes<W>>(seat, cell + 1, word + 1);
            true
        }
        _ => unreachable!(),
    }
}
