//! `assemble`: the segments of an image, put together.
ghost use Rattle.std.specs.Prelude.{◌≡◌, ◌≢◌, ◌+◌, ◌<◌, ◌^◌, ◌∷◌, ◌++◌, ℕ, [], length, List, Ok, Err, Some, IfErr};
ghost use Rattle.std.specs.Prelude.{IfOk, OnOk};
ghost use Rattle.lr_segment.specs.Canvas.{Member, member};
ghost use Rattle.lr_causes.specs.Outside.{outlets, outlets_of};
ghost use Rattle.lr_cmd_shelf.specs.Assemble.{
  assemble_query,
  if_of,
  is_without,
  join_fate,
  member_with,
  segment_for_image,
  segment_read,
};
ghost use Rattle.lr_cmd_shelf.specs.Gathered.{GathersMembers, IsCanvasOf, IsStop, with_member, with_skipped};
ghost use Rattle.lr_cmd_shelf.specs.Runs.{RunsOver};

use crate::files::{Files, ReadsFiles};
use crate::gathering::Gathering;
use crate::opened::Opened;
use crate::pgm::put_pgm;
use crate::range::Range;
use crate::run::run_entries;
use lr_bits::{MissionFile, NoMemory};
use lr_causes::{Cause, ExportFault, Note, Refusal};
use lr_disk::Disk;
use lr_headers::{HeaderFault, Records, Segment};
use lr_image::Image;
use lr_io::Sink;
use lr_refusals::assembly_cause;
use lr_segment::Assembly;
use lr_shelf::{Shelf, Stored};
use std::alloc::Global;

/// The segment record of a file of this application, if it names this image.
fn segment_in(
    alloc: Global,
    apid: u16,
    image: u16,
    file: &MissionFile,
) -> Result<Option<Segment>, NoMemory>
    ensures { IfOk result (λ segment. segment ≡ segment_for_image apid image file.now) }
{
    if file.apid() != apid {
        return Ok(None);
    }
    segment_by(image, Records::read(alloc, file.proper()))
}

/// The segment record of a header that was read, if it names this image. One with a fault has none.
fn segment_by(
    image: u16,
    read: Result<Records<'_>, HeaderFault>,
) -> Result<Option<Segment>, NoMemory>
    ensures segment { IfOk result (λ segment. (segment ≡ if_of image (segment_read read.entry))
        × (read.entry ≢ Err HeaderFault.NoMemory)) }
    ensures refused { IfErr result (λ _. read.entry ≡ Err HeaderFault.NoMemory) }
{
    match read {
        Ok(records) => Ok(segment_of_image(image, records.segment())),
        Err(fault) => match fault {
            HeaderFault::NoMemory => Err(NoMemory),
            _ => Ok(None),
        },
    }
}

/// The record, if it names this image.
fn segment_of_image(image: u16, segment: Option<Segment>) -> Option<Segment>
    ensures { result ≡ if_of image segment }
{
    match segment {
        Some(segment) if segment.image == image => Some(segment),
        _ => None,
    }
}

/// The assembly of one segment, of its size and depth.
fn first_assembly(alloc: Global, image: &Image, segment: &Segment) -> Result<Assembly, Cause>
    ensures added { IfOk result (λ canvas. IsCanvasOf (member image.now segment.now ∷ []) (Some canvas)) }
    ensures fits { IfOk result (λ canvas. join_fate [] (Some (member image.now segment.now)) ≡ Ok []) }
    ensures stops { IfErr result (IsStop (join_fate [] (Some (member image.now segment.now)))) }
{
    let mut assembly = match Assembly::new(alloc, segment, image.bits()) {
        Ok(assembly) => assembly,
        Err(fault) => return Err(assembly_cause(fault)),
    };
    match assembly.add(image, segment) {
        Ok(()) => Ok(assembly),
        Err(fault) => Err(assembly_cause(fault)),
    }
}

/// The assembly with one segment more, which is the first where there is no assembly yet.
fn assembly_with(
    alloc: Global,
    assembly: Option<Assembly>,
    image: &Image,
    segment: &Segment,
) -> Result<Assembly, Cause>
    ensures added { (members : List Member) → IsCanvasOf members assembly
        → IfOk result (λ canvas. IsCanvasOf (members ++ member image.now segment.now ∷ []) (Some canvas)) }
    ensures fits { (members : List Member) → IsCanvasOf members assembly
        → IfOk result (λ canvas. join_fate members (Some (member image.now segment.now)) ≡ Ok []) }
    ensures stops { (members : List Member) → IsCanvasOf members assembly
        → IfErr result (IsStop (join_fate members (Some (member image.now segment.now)))) }
{
    let Some(mut assembly) = assembly else {
        return first_assembly(alloc, image, segment);
    };
    match assembly.add(image, segment) {
        Ok(()) => Ok(assembly),
        Err(fault) => Err(assembly_cause(fault)),
    }
}

/// Adds a segment with its image.
fn add_segment(
    alloc: Global,
    image: &Image,
    segment: &Segment,
    gathering: &mut Gathering,
) -> Result<(), Cause>
    ensures added { (members : List Member) (skipped : ℕ) → length members + 1 < 2 ^ 64
        → GathersMembers members skipped gathering.old
        → OnOk result (GathersMembers (members ++ member image.now segment.now ∷ []) skipped gathering.new) }
    ensures fits { (members : List Member) (skipped : ℕ) → GathersMembers members skipped gathering.old
        → OnOk result (join_fate members (Some (member image.now segment.now)) ≡ Ok []) }
    ensures stops { (members : List Member) (skipped : ℕ) → GathersMembers members skipped gathering.old
        → IfErr result (IsStop (join_fate members (Some (member image.now segment.now)))) }
{
    match assembly_with(alloc, gathering.assembly.take(), image, segment) {
        Ok(assembly) => {
            gathering.assembly = Some(assembly);
            gathering.added = gathering.added.saturating_add(1);
            Ok(())
        }
        Err(cause) => Err(cause),
    }
}

/// Adds a segment that has an image, and counts one that has none as skipped. Other files change nothing.
fn take_file(
    alloc: Global,
    segment: Option<Segment>,
    opened: &Opened,
    gathering: &mut Gathering,
) -> Result<(), Cause>
    ensures gathered { (members : List Member) (skipped : ℕ) → length members + 1 < 2 ^ 64 → skipped + 1 < 2 ^ 64
        → GathersMembers members skipped gathering.old
        → OnOk result (GathersMembers (with_member members (member_with segment opened.now.image))
        (with_skipped skipped (is_without segment opened.now.image)) gathering.new) }
    ensures fits { (members : List Member) (skipped : ℕ) → GathersMembers members skipped gathering.old
        → OnOk result (join_fate members (member_with segment opened.now.image) ≡ Ok []) }
    ensures stops { (members : List Member) (skipped : ℕ) → GathersMembers members skipped gathering.old
        → IfErr result (IsStop (join_fate members (member_with segment opened.now.image))) }
{
    let Some(segment) = segment else {
        return Ok(());
    };
    match &opened.image {
        Some(Ok(image)) => add_segment(alloc, image, &segment, gathering),
        Some(Err(_)) => {
            gathering.skipped = gathering.skipped.saturating_add(1);
            Ok(())
        }
        None => Ok(()),
    }
}

/// The segments of this image among the files of this application: of the entries from one number up to another.
#[derive(Drop)]
struct AssembleRange {
    from: u64,
    to: u64,
    apid: u16,
    image: u16,
}

impl ReadsFiles for AssembleRange {
    ghost use Rattle.std.specs.Prelude.{is_some};
    ghost use Rattle.lr_cmd_shelf.specs.Assemble.{assemble_files_query, members_of, segment_for_image, skipped_of};
    ghost use Rattle.lr_cmd_shelf.specs.Gathered.{GathersMembers};
    ghost use Rattle.lr_cmd_shelf.specs.Sights.{images_sight};

    type Gathered = Gathering;

    ghost query = { λ s. assemble_files_query s.from s.to s.apid s.image };

    ghost gathers = { λ s gathered read. GathersMembers (members_of s.apid s.image read)
        (skipped_of s.apid s.image read)
        gathered };

    ghost sight = { λ s. images_sight (λ stored. is_some (segment_for_image s.apid s.image stored.file)) };

    fn range(&self, count: u64) -> Option<Range> {
        Range::between(self.from, self.to, count)
    }

    fn start(&self, _: Global) -> Result<Gathering, NoMemory> {
        Ok(Gathering::new())
    }

    fn looks(&self, alloc: Global, stored: &Stored) -> Result<bool, NoMemory> {
        let segment = segment_in(alloc, self.apid, self.image, &stored.file)?;
        Ok(segment.is_some())
    }

    fn file<O: Sink>(
        &self,
        alloc: Global,
        _: u64,
        opened: &Opened,
        gathering: &mut Gathering,
        _: &mut O,
    ) -> Result<(), Cause> {
        let segment = segment_in(alloc, self.apid, self.image, &opened.stored.file)?;
        take_file(alloc, segment, opened, gathering)
    }

    fn gone_entry<O: Sink>(&self, _: Global, _: u64, _: &mut O) -> Result<(), Cause> {
        Ok(())
    }

    fn last<O: Sink>(
        &self,
        alloc: Global,
        gathering: Gathering,
        _: &Shelf,
        out: &mut O,
    ) -> Result<Option<Note>, Cause> {
        let Gathering {
            assembly,
            added,
            skipped,
        } = gathering;
        let Some(assembly) = assembly else {
            return Err(Cause::Refused(Refusal::CannotExport(ExportFault::NoSegment)));
        };
        let (image, uncovered) = assembly.finish();
        match put_pgm(alloc, &image, out) {
            Ok(()) => Ok(Some(Note::Assembled {
                added,
                skipped,
                uncovered,
            })),
            Err(cause) => Err(cause),
        }
    }
}

/// Puts together the segments of the image of this identifier among the files of this application, of the entries from
/// one number up to another, and puts the whole image as PGM. Where that is done it tells how many segments there were,
/// how many were skipped, and how many pixels none of them covers.
pub fn assemble<D: Disk, O: Sink>(
    alloc: Global,
    from: u64,
    to: u64,
    apid: u16,
    image: u16,
    disk: &mut D,
    out: &mut O,
) -> Cause
    ensures { RunsOver (outlets_of D.Disk O.Sink) (assemble_query from to apid image) result
        (outlets disk.old out.old) (outlets disk.new out.new) }
{
    let command = AssembleRange {
        from,
        to,
        apid,
        image,
    };
    run_entries(alloc, &Files(command), disk, out)
}
