//! `export`: the image of one file.
ghost use Rattle.lr_causes.specs.Outside.{outlets, outlets_of};
ghost use Rattle.lr_cmd_shelf.specs.Export.{export_query};
ghost use Rattle.lr_cmd_shelf.specs.Runs.{RunsOver};

use crate::one_file::{PutsFile, run_one};
use crate::opened::Opened;
use crate::pgm::put_pgm;
use lr_causes::Cause;
use lr_disk::Disk;
use lr_io::Sink;
use lr_refusals::image_cause;
use std::alloc::Global;

#[derive(Drop)]
struct Exporting;

impl PutsFile for Exporting {
    ghost use Rattle.lr_cmd_shelf.specs.Export.{export_fate};
    ghost use Rattle.lr_cmd_shelf.specs.Looking.{each_image};
    ghost use Rattle.lr_cmd_shelf.specs.Sights.{each_sight};

    ghost sees = { λ s. each_image };

    ghost fate = { λ s number opened. export_fate number opened };

    ghost sight = { λ s. each_sight };

    fn looks(&self) -> bool {
        true
    }

    fn put<O: Sink>(
        &self,
        alloc: Global,
        _: u64,
        opened: &Opened,
        out: &mut O,
    ) -> Result<(), Cause> {
        match &opened.image {
            Some(Ok(image)) => put_pgm(alloc, image, out),
            Some(Err(fault)) => Err(image_cause(*fault)),
            None => Ok(()),
        }
    }
}

/// Puts the image of the file of this number as PGM. It is read whole before the first byte is put.
pub fn export<D: Disk, O: Sink>(alloc: Global, number: u64, disk: &mut D, out: &mut O) -> Cause
    ensures { RunsOver (outlets_of D.Disk O.Sink) (export_query number) result
        (outlets disk.old out.old) (outlets disk.new out.new) }
{
    run_one(alloc, number, Exporting, disk, out)
}
