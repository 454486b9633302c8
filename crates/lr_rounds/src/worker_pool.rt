//! Who works, and the ring that they share.

use lr_bits::NoMemory;
use lr_gate::{Conductor, Gate, WorkerSeat};
use lr_gatecore::{MOST_HANDS, Work};
use std::alloc::Global;
use std::marker::Model;

/// A ring with nothing in it, and all who work at it: the caller, and a worker for each seat.
#[derive(Drop)]
pub struct WorkerPool<W: Work> {
    pub(crate) gate: Gate<W>,
    pub(crate) conductor: Conductor<W>,
    pub(crate) seats: Vec<WorkerSeat<W>>,
    pub(crate) works: Vec<W>,
    pub(crate) own: W,
    /// How many cells the ring has.
    pub(crate) cells: u32,
}

impl<W: Work> Model for WorkerPool<W> {
    ghost use Rattle.std.specs.Prelude.{vec_len};
    ghost use Rattle.lr_rounds.specs.WorkerPools.{PoolView, IsFreshRing};

    ghost Value = { PoolView };

    ghost view = { λ c. record { seats = vec_len c.seats; cells = c.cells } };

    ghost invariant = { λ c. IsFreshRing c.gate c.conductor c.seats.items (vec_len c.works)
        (record { seats = vec_len c.seats; cells = c.cells }) };
}

impl<W: Work + Drop> WorkerPool<W> {
    ghost use Rattle.std.specs.Prelude.{◌≡◌, ◌≤◌, ◌↔◌, IfOk, IsTrue, vec_len};
    ghost use Rattle.lr_rounds.specs.WorkerPools.{pool_with};

    /// The caller, who works with `own`, a seat for each of the other works, and a ring for them all.
    pub fn new(alloc: Global, works: Vec<W>, own: W) -> Result<WorkerPool<W>, NoMemory>
        requires { vec_len works ≤ MOST_HANDS }
        ensures { IfOk result (λ pool. pool ≡ pool_with (vec_len works)) }
    {
        let workers = works.len() as u32;
        let cells = 2 * (workers + 1) + 2;
        let (gate, conductor, seats) = Gate::<W>::build(alloc, cells, workers)?;
        Ok(WorkerPool {
            gate,
            conductor,
            seats,
            works,
            own,
            cells,
        })
    }
    /// Whether the caller works alone.
    pub fn is_alone(&self) -> bool
        ensures { IsTrue result ↔ (self.now.seats ≡ 0) }
    {
        self.seats.is_empty()
    }
}
