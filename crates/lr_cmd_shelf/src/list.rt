//! `list`: a line for each entry, and one for the shelf.
ghost use Rattle.std.specs.Prelude.{◌≡◌, Ok, OnOk, IfErr};
ghost use Rattle.lr_catalog.specs.Entries.{file_line, shelf_line};
ghost use Rattle.lr_causes.specs.Outside.{outlets, outlets_of};
ghost use Rattle.lr_cmd_shelf.specs.List.{list_query};
ghost use Rattle.lr_cmd_shelf.specs.Runs.{RunsOver};
ghost use Rattle.lr_cmd_shelf.specs.Steps.{PutsText, TextStops};

use crate::files::{Files, ReadsFiles};
use crate::gone::put_gone;
use crate::opened::Opened;
use crate::range::Range;
use crate::run::run_entries;
use lr_bits::{Bytes, NoMemory};
use lr_catalog::{file_line, shelf_line};
use lr_causes::{Cause, Note, put_text};
use lr_disk::Disk;
use lr_io::Sink;
use lr_shelf::{Shelf, Stored};
use std::alloc::Global;

/// Puts the line of a file.
fn put_file<O: Sink>(alloc: Global, number: u64, stored: &Stored, out: &mut O) -> Result<(), Cause>
    ensures put { OnOk result (PutsText O.Sink (Ok (file_line number stored.now.file stored.now.origin))
        out.old out.new) }
    ensures stopped { IfErr result (λ cause. TextStops O.Sink
        (Ok (file_line number stored.now.file stored.now.origin)) cause out.old out.new) }
{
    let mut line = Bytes::new(alloc);
    file_line(alloc, number, &stored.file, stored.origin, &mut line)?;
    put_text(line.as_slice(), out)
}

/// Puts the line of a shelf.
fn put_shelf<O: Sink>(
    alloc: Global,
    count: u64,
    used: u64,
    capacity: u64,
    out: &mut O,
) -> Result<(), Cause>
    ensures put { OnOk result (PutsText O.Sink (Ok (shelf_line count used capacity)) out.old out.new) }
    ensures stopped { IfErr result (λ cause.
        TextStops O.Sink (Ok (shelf_line count used capacity)) cause out.old out.new) }
{
    let mut line = Bytes::new(alloc);
    shelf_line(alloc, count, used, capacity, &mut line)?;
    put_text(line.as_slice(), out)
}

#[derive(Drop)]
struct ListAll;

impl ReadsFiles for ListAll {
    ghost use Rattle.lr_cmd_shelf.specs.List.{list_files_query};
    ghost use Rattle.lr_cmd_shelf.specs.Sights.{no_image_sight};

    type Gathered = ();

    ghost query = { λ s. list_files_query };

    ghost gathers = { λ s gathered read. Unit {0} };

    ghost sight = { λ s. no_image_sight };

    fn range(&self, count: u64) -> Option<Range> {
        Some(Range { from: 0, to: count })
    }

    fn start(&self, _: Global) -> Result<(), NoMemory> {
        Ok(())
    }

    fn looks(&self, _: Global, _: &Stored) -> Result<bool, NoMemory> {
        Ok(false)
    }

    fn file<O: Sink>(
        &self,
        alloc: Global,
        number: u64,
        opened: &Opened,
        _: &mut (),
        out: &mut O,
    ) -> Result<(), Cause> {
        put_file(alloc, number, &opened.stored, out)
    }

    fn gone_entry<O: Sink>(&self, alloc: Global, number: u64, out: &mut O) -> Result<(), Cause> {
        put_gone(alloc, number, out)
    }

    fn last<O: Sink>(
        &self,
        alloc: Global,
        _: (),
        shelf: &Shelf,
        out: &mut O,
    ) -> Result<Option<Note>, Cause> {
        put_shelf(alloc, shelf.len(), shelf.end(), shelf.capacity(), out)?;
        Ok(None)
    }
}

/// A line for each entry, of its file or that it is gone, and a last one with the number of entries, the shelf's end
/// and its capacity, both in bytes. A file whose checksum is wrong is refused.
pub fn list<D: Disk, O: Sink>(alloc: Global, disk: &mut D, out: &mut O) -> Cause
    ensures { RunsOver (outlets_of D.Disk O.Sink) list_query result
        (outlets disk.old out.old) (outlets disk.new out.new) }
{
    run_entries(alloc, &Files(ListAll), disk, out)
}
