//! `extract`: one mission file.
ghost use Rattle.lr_causes.specs.Outside.{outlets, outlets_of};
ghost use Rattle.lr_cmd_shelf.specs.Extract.{extract_query};
ghost use Rattle.lr_cmd_shelf.specs.Runs.{RunsOver};

use crate::one_file::{PutsFile, run_one};
use crate::opened::Opened;
use lr_causes::{Cause, put_text};
use lr_disk::Disk;
use lr_io::Sink;
use std::alloc::Global;

#[derive(Drop)]
struct Extracting;

impl PutsFile for Extracting {
    ghost use Rattle.lr_cmd_shelf.specs.Queries.{no_image};
    ghost use Rattle.lr_cmd_shelf.specs.Extract.{extract_fate};
    ghost use Rattle.lr_cmd_shelf.specs.Sights.{no_image_sight};

    ghost sees = { λ s. no_image };

    ghost fate = { λ s number opened. extract_fate number opened };

    ghost sight = { λ s. no_image_sight };

    fn looks(&self) -> bool {
        false
    }

    fn put<O: Sink>(&self, _: Global, _: u64, opened: &Opened, out: &mut O) -> Result<(), Cause> {
        put_text(opened.stored.file.proper(), out)
    }
}

/// Puts the mission file proper of the file of this number: its bytes without the transport header.
pub fn extract<D: Disk, O: Sink>(alloc: Global, number: u64, disk: &mut D, out: &mut O) -> Cause
    ensures { RunsOver (outlets_of D.Disk O.Sink) (extract_query number) result
        (outlets disk.old out.old) (outlets disk.new out.new) }
{
    run_one(alloc, number, Extracting, disk, out)
}
