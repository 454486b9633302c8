//! `verify`: a line for each entry.
ghost use Rattle.std.specs.Prelude.{◌≡◌, Ok, OnOk, IfErr};
ghost use Rattle.lr_catalog.specs.Files.{check_line};
ghost use Rattle.lr_causes.specs.Outside.{outlets, outlets_of};
ghost use Rattle.lr_cmd_shelf.specs.Runs.{RunsOver};
ghost use Rattle.lr_cmd_shelf.specs.Steps.{PutsText, TextStops};
ghost use Rattle.lr_cmd_shelf.specs.Comparing.{IsCompared};
ghost use Rattle.lr_cmd_shelf.specs.Verify.{verify_query};

use crate::gone::put_gone;
use crate::range::Range;
use crate::reads::ReadsEntries;
use crate::run::run_entries;
use lr_bits::{Bytes, NoMemory};
use lr_catalog::check_line;
use lr_causes::{Cause, Note, Refusal, put_text};
use lr_disk::Disk;
use lr_io::Sink;
use lr_refusals::shelf_cause;
use lr_shelf::{Shelf, ShelfError};
use std::alloc::Global;

/// Puts the line of a file whose checksum was compared.
fn put_check<O: Sink>(
    alloc: Global,
    number: u64,
    bad: Option<(u16, u16)>,
    out: &mut O,
) -> Result<(), Cause>
    ensures put { OnOk result (PutsText O.Sink (Ok (check_line number bad)) out.old out.new) }
    ensures stopped { IfErr result (λ cause. TextStops O.Sink (Ok (check_line number bad)) cause out.old out.new) }
{
    let mut line = Bytes::new(alloc);
    check_line(alloc, number, bad, &mut line)?;
    put_text(line.as_slice(), out)
}

/// What the comparison of an entry's checksum finds.
#[derive(Drop)]
pub(crate) enum Finding {
    /// The checksum is that of the file's bytes.
    Right,
    /// It is another one.
    Wrong { stored: u16, computed: u16 },
    /// The file is gone.
    Gone,
}

/// What is found of an entry, by what the shelf answers for it, or the cause of its error. So a refusal keeps its own
/// cause.
fn compared(answer: Result<(), ShelfError>) -> Result<Finding, Cause>
    ensures { IsCompared answer result }
{
    match answer {
        Ok(()) => Ok(Finding::Right),
        Err(error) => match error {
            ShelfError::Crc { stored, computed } => Ok(Finding::Wrong { stored, computed }),
            ShelfError::Discarded => Ok(Finding::Gone),
            refused => Err(shelf_cause(refused)),
        },
    }
}

#[derive(Drop)]
struct VerifyAll;

impl ReadsEntries for VerifyAll {
    ghost use Rattle.std.specs.Prelude.{◌≡◌};
    ghost use Rattle.lr_cmd_shelf.specs.Sights.{no_image_sight};
    ghost use Rattle.lr_cmd_shelf.specs.Verify.{verify_query, none_bad};

    /// Whether no checksum was wrong.
    type Gathered = bool;

    ghost query = { λ s. verify_query };

    ghost gathers = { λ s gathered read. gathered ≡ none_bad read };

    ghost sight = { λ s. no_image_sight };

    fn range(&self, count: u64) -> Option<Range> {
        Some(Range { from: 0, to: count })
    }

    fn start(&self, _: Global) -> Result<bool, NoMemory> {
        Ok(true)
    }

    fn entry<D: Disk, O: Sink>(
        &self,
        number: u64,
        sound: &mut bool,
        shelf: &mut Shelf,
        disk: &mut D,
        out: &mut O,
    ) -> Result<(), Cause> {
        let alloc = shelf.allocator();
        match compared(shelf.check(disk, number)) {
            Ok(Finding::Right) => put_check(alloc, number, None, out),
            Ok(Finding::Wrong { stored, computed }) => {
                *sound = false;
                put_check(alloc, number, Some((stored, computed)), out)
            }
            Ok(Finding::Gone) => put_gone(alloc, number, out),
            Err(cause) => Err(cause),
        }
    }

    fn last<O: Sink>(
        &self,
        _: Global,
        sound: bool,
        _: &Shelf,
        _: &mut O,
    ) -> Result<Option<Note>, Cause> {
        if sound {
            Ok(None)
        } else {
            Err(Cause::Refused(Refusal::BadChecksum))
        }
    }
}

/// A line for each entry: whether its checksum is right, or that it is gone. It goes on to the last where one is wrong.
pub fn verify<D: Disk, O: Sink>(alloc: Global, disk: &mut D, out: &mut O) -> Cause
    ensures { RunsOver (outlets_of D.Disk O.Sink) verify_query result
        (outlets disk.old out.old) (outlets disk.new out.new) }
{
    run_entries(alloc, &VerifyAll, disk, out)
}
