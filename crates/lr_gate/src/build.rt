//! How a ring is made, and how it ends.

ghost use Rattle.std.specs.Prelude.{◌≡◌, ◌<◌, ◌≤◌, [], All, IfOk, replicate, vec_len, vec_capacity};
ghost use Rattle.lr_gate.specs.declared.slot_value.SlotValue.TheVariants.{Empty};
ghost use Rattle.lr_gate.specs.Seats.{cells_of, workers_of, IsConductorOf, IsSeatOf, view_of, jobs_put};
ghost use Rattle.lr_gate.specs.Seats.{IsConductorWith, IsNewSeat, opening_view};

use crate::gate::{Conductor, Gate, Tally, WorkerSeat};
use crate::plays::{Joins, Stocks};
use crate::slot_value::SlotValue;
use atomic_table::Table;
use lr_bits::NoMemory;
use lr_gatecore::{MOST_CELLS, MOST_HANDS, RingSize, Work};
use std::alloc::{AllocError, Global};

fn empties<J, D>(alloc: Global, count: usize) -> Result<Vec<SlotValue<J, D>>, AllocError>
where
    J: Drop,
    D: Drop,
    ensures { IfOk result (λ v. v.items ≡ replicate count Empty) }
{
    let mut slots = Vec::with_capacity(alloc, count)?;
    for _ in 0..count {
        slots.push_reserved(SlotValue::Empty);
    }
    Ok(slots)
}

/// Splits off the seats of all workers.
fn seat_workers<W: Work>(
    gate: &Gate<W>,
    conductor: &mut Conductor<W>,
    seats: &mut Vec<WorkerSeat<W>>,
)
    requires mine { IsConductorWith gate.now 0 conductor.old }
    requires opened { view_of conductor.old ≡ opening_view 0 }
    requires seats { (seats.old.items ≡ []) × (workers_of gate.now ≤ vec_capacity seats.old) }
    ensures mine { IsConductorOf gate.now conductor.new }
    ensures opened { view_of conductor.new ≡ opening_view (workers_of gate.now) }
    ensures seats { All (IsSeatOf gate.now) seats.new.items × (vec_len seats.new ≡ workers_of gate.now) }
    ensures new_seats { All IsNewSeat seats.new.items }
{
    for number in 0..gate.workers {
        seats.push_reserved(conductor.split(gate, number + 1));
    }
}

impl<W: Work> Gate<W> {
    /// A ring of this many cells, its conductor, and this many worker seats.
    pub fn build(
        alloc: Global,
        cells: u32,
        workers: u32,
    ) -> Result<(Gate<W>, Conductor<W>, Vec<WorkerSeat<W>>), NoMemory>
        requires cells { (0 < cells) × (cells ≤ MOST_CELLS) }
        requires workers { workers ≤ MOST_HANDS }
        ensures sizes { IfOk result (λ r. (cells_of r.0 ≡ cells) × (workers_of r.0 ≡ workers)) }
        ensures conductor { IfOk result (λ r. IsConductorOf r.0 r.1 × (view_of r.1 ≡ opening_view workers)) }
        ensures seats { IfOk result (λ r. All (IsSeatOf r.0) r.2.items × (vec_len r.2 ≡ workers)) }
        ensures new_seats { IfOk result (λ r. All IsNewSeat r.2.items) }
    {
        let words = Vec::from_elem(alloc, 0u64, cells as usize + 1)?;
        let slots = empties(alloc, cells as usize)?;
        let mut seats = Vec::with_capacity(alloc, workers as usize)?;
        let size = RingSize { cells, workers };
        let Ok((table, mut seat)) = Table::new(alloc, words.as_slice(), slots, &size) else {
            return Err(NoMemory);
        };
        table.shared.load::<Stocks>(&mut seat, 0);
        let gate = Gate {
            table,
            cells: u64::from(cells),
            workers: u64::from(workers),
        };
        let mut conductor = Conductor {
            seat,
            put: 0,
            taken: 0,
        };
        seat_workers(&gate, &mut conductor, &mut seats);
        Ok((gate, conductor, seats))
    }

    /// Takes all seats in, and lets go of the ring.
    pub fn close(self, mut conductor: Conductor<W>, mut seats: Vec<WorkerSeat<W>>) -> Tally
        requires mine { IsConductorOf self conductor }
        requires seats { All (IsSeatOf self) seats.items }
        requires all { vec_len seats ≡ workers_of self }
        ensures put { result.put ≡ jobs_put (view_of conductor) }
        ensures taken { result.taken ≡ (view_of conductor).taken }
    {
        while let Some(WorkerSeat { seat, .. }) = seats.pop() {
            self.table
                .shared
                .join_seat::<Joins>(&mut conductor.seat, seat);
        }
        Tally {
            put: conductor.put,
            taken: conductor.taken,
        }
    }
}
