//! `show`: one file and its header.
ghost use Rattle.std.specs.Prelude.{◌≡◌, IfOk};
ghost use Rattle.lr_causes.specs.Outside.{outlets, outlets_of};
ghost use Rattle.lr_cmd_shelf.specs.Runs.{RunsOver};
ghost use Rattle.lr_cmd_shelf.specs.Show.{show_query, show_text};

use crate::one_file::{PutsFile, run_one};
use crate::opened::Opened;
use lr_bits::{Bytes, NoMemory};
use lr_catalog::{file_line, header_lines};
use lr_causes::{Cause, put_text};
use lr_disk::Disk;
use lr_io::Sink;
use lr_shelf::Stored;
use std::alloc::Global;

/// The line of a file, and those of its header.
fn show_text(alloc: Global, number: u64, stored: &Stored) -> Result<Bytes, NoMemory>
    ensures { IfOk result (λ text. text ≡ show_text number stored.now) }
{
    let mut text = Bytes::new(alloc);
    file_line(alloc, number, &stored.file, stored.origin, &mut text)?;
    header_lines(alloc, stored.file.proper(), &mut text)?;
    Ok(text)
}

#[derive(Drop)]
struct Showing;

impl PutsFile for Showing {
    ghost use Rattle.lr_cmd_shelf.specs.Queries.{no_image};
    ghost use Rattle.lr_cmd_shelf.specs.Show.{show_fate};
    ghost use Rattle.lr_cmd_shelf.specs.Sights.{no_image_sight};

    ghost sees = { λ s. no_image };

    ghost fate = { λ s number opened. show_fate number opened };

    ghost sight = { λ s. no_image_sight };

    fn looks(&self) -> bool {
        false
    }

    fn put<O: Sink>(
        &self,
        alloc: Global,
        number: u64,
        opened: &Opened,
        out: &mut O,
    ) -> Result<(), Cause> {
        let text = show_text(alloc, number, &opened.stored)?;
        put_text(text.as_slice(), out)
    }
}

/// Puts the line of the file of this number and a line for each record of its header, or one for the header's first
/// fault.
pub fn show<D: Disk, O: Sink>(alloc: Global, number: u64, disk: &mut D, out: &mut O) -> Cause
    ensures { RunsOver (outlets_of D.Disk O.Sink) (show_query number) result
        (outlets disk.old out.old) (outlets disk.new out.new) }
{
    run_one(alloc, number, Showing, disk, out)
}
