//! The seat of a worker, and one turn of its work.

ghost use Rattle.lr_gate.specs.Seats.{cells_of, IsSeatOf, seat_view, Turns};

use crate::gate::{Gate, Turn, WorkerSeat};
use crate::plays::Looks;
use crate::round::go_round;
use lr_gatecore::Work;

impl<W: Work> WorkerSeat<W> {
    /// Does one job, if the ring isn't stopped and some cell is ready.
    pub fn turn(&mut self, gate: &Gate<W>, work: &mut W) -> Turn
        requires mine { IsSeatOf gate.now self.old }
        ensures mine { IsSeatOf gate.now self.new }
        ensures turns { Turns (cells_of gate.now) (seat_view self.old) (seat_view self.new) result }
    {
        if gate.table.shared.load::<Looks<W>>(&mut self.seat, 0) != 0 {
            return Turn::Stopped;
        }
        if go_round(gate, &mut self.seat, self.number, &mut self.start, work) {
            Turn::Did
        } else {
            Turn::Nothing
        }
    }
}
