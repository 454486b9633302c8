//! The types of a ring.

ghost use Rattle.lr_gate.specs.Sizes.{HasSize};

use crate::plays::Law;
use crate::slot_value::SlotValue;
use crate::view::View;
use atomic_table::{Seat, Table};
use lr_gatecore::{RingSize, Work};
use std::alloc::Global;

/// A ring of cells, which its seats share.
#[derive(Drop)]
pub struct Gate<W: Work> {
    pub(crate) table: Table<SlotValue<W::Job, W::Done>, View<W::Job>, RingSize, Law<W>, Global>,
    pub(crate) cells: u64,
    pub(crate) workers: u64,
    ghost sized: { HasSize table.shared.table_id table.shared.key cells workers },
}

/// The seat that puts the jobs and takes the results.
#[derive(Drop)]
pub struct Conductor<W: Work> {
    pub(crate) seat: Seat<SlotValue<W::Job, W::Done>, View<W::Job>>,
    pub(crate) put: u64,
    pub(crate) taken: u64,
}

/// The seat of a worker.
#[derive(Drop)]
pub struct WorkerSeat<W: Work> {
    pub(crate) seat: Seat<SlotValue<W::Job, W::Done>, View<W::Job>>,
    pub(crate) number: u64,
    /// The cell at which its next round begins: the one after that of its last job.
    pub(crate) start: usize,
}

/// Each cell has a job that wasn't taken. The job comes back.
#[derive(Drop)]
pub struct RingFull<J>(pub J);

/// What a worker's turn did.
#[derive(Clone, Copy)]
pub enum Turn {
    /// A job.
    Did,
    /// Nothing: no cell was ready, or another seat was faster.
    Nothing,
    /// Nothing: the ring is stopped.
    Stopped,
}

/// How many jobs were put and taken.
#[derive(Clone, Copy)]
pub struct Tally {
    pub put: u64,
    pub taken: u64,
}
