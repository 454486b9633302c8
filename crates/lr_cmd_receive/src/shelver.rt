//! What `receive` does with each outcome.
use crate::shelve::{Ended, shelve_outcome};
use lr_causes::Cause;
use lr_disk::Disk;
use lr_io::Sink;
use lr_layers::{Counts, Layers};
use lr_reading::{Arrival, Consumer};
use lr_shelf::Shelf;

/// Shelves the files that end with each outcome, and puts their lines.
#[derive(Drop)]
pub(crate) struct Shelver<'a, D, O> {
    /// What the layers counted so far.
    pub counts: Counts,
    pub layers: &'a mut Layers,
    /// Whether images are mended.
    pub mends: bool,
    /// The files that end with the outcome that is shelved.
    pub ended: &'a mut Ended,
    pub shelf: &'a mut Shelf,
    pub disk: &'a mut D,
    pub out: &'a mut O,
}

impl<'a, D: Disk, O: Sink> Consumer for Shelver<'a, D, O> {
    ghost use Rattle.std.specs.Prelude.{◌^◌};
    ghost use Rattle.lr_causes.specs.Outside.{outlets_of};
    ghost use Rattle.lr_cmd_receive.specs.ShelverTaken.{ShelverTook, ShelverStopped};

    type Cause = Cause;

    ghost most = { 2 ^ 48 };

    ghost took = { λ c arrivals now. ShelverTook (outlets_of D.Disk O.Sink) c arrivals now };

    ghost stopped = { λ c arrivals cause now. ShelverStopped (outlets_of D.Disk O.Sink) c arrivals cause now };

    fn take(&mut self, arrival: &Arrival) -> Result<(), Cause> {
        shelve_outcome(
            &arrival.outcome,
            self.layers,
            self.mends,
            self.ended,
            self.shelf,
            self.disk,
            self.out,
        )?;
        self.counts = self.layers.counts();
        Ok(())
    }

    fn no_memory(&self) -> Cause {
        Cause::NoMemory
    }
}
