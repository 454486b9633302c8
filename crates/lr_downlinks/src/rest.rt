//! What is left over once the threads have ended.
ghost use Rattle.std.specs.Prelude.{◌≡◌, ◌<◌, false, length, OnOk, IfErr};
ghost use Rattle.lr_downlinks.specs.Books.{IsBookOf};
ghost use Rattle.lr_downlinks.specs.Ending.{BookGoesOn, IsLeftAt, RunEndsWith};
ghost use Rattle.lr_downlinks.specs.Members.{AreMembers};
ghost use Rattle.lr_downlinks.specs.Merge.{times_in_order};
ghost use Rattle.lr_downlinks.specs.Start.{files_in};

use crate::book::Book;
use crate::member::Member;
use crate::run::RunEnd;
use crate::run_start::RunStart;
use lr_bits::Placed;
use lr_disk::Disk;
use lr_shelf::ShelfError;

/// Appends the files of a downlink that aren't appended yet.
fn append_left<N: RunStart<D>, D: Disk>(
    book: &mut Book<'_, N, D>,
    downlink: u8,
    files: &[Placed],
) -> Result<(), ShelfError>
    requires known { downlink < length (N.start).streams }
    requires files { files.now ≡ files_in N.start downlink }
    requires working { book.old.failed ≡ false }
    ensures goes_on { BookGoesOn book.old book.new }
    ensures is { IsBookOf N.start book.new }
    ensures all { OnOk result (times_in_order downlink book.new.order ≡ length files.now) }
    ensures works { OnOk result (book.new.failed ≡ false) }
    ensures left { IfErr result (IsLeftAt N.start downlink book.new) }
{
    'files: loop {
        match book.append_next(downlink, files) {
            Ok(true) => {}
            Ok(false) => return Ok(()),
            Err(error) => return Err(error),
        }
    }
}

/// Appends what is left, downlink by downlink, until nothing is left or a file is refused.
fn append_rest<N: RunStart<D>, D: Disk>(book: &mut Book<'_, N, D>, members: &[Member]) -> RunEnd
    requires members { AreMembers N.start members.now }
    requires working { book.old.failed ≡ false }
    ensures { RunEndsWith N.start book.new result }
{
    for member in members {
        let Some(files) = &member.files else {
            return RunEnd::NoMemory;
        };
        match append_left(book, member.downlink, files) {
            Ok(()) => {}
            Err(ShelfError::Capacity { needed, capacity }) => {
                return RunEnd::Capacity { needed, capacity };
            }
            Err(ShelfError::Disk) => return RunEnd::Disk,
            Err(_) => return RunEnd::NoMemory,
        }
    }
    RunEnd::All
}

/// How the run ends: where the disk failed in a thread, with that, and else with what is left.
pub(crate) fn end_run<N: RunStart<D>, D: Disk>(
    book: &mut Book<'_, N, D>,
    members: &[Member],
) -> RunEnd
    requires { AreMembers N.start members.now }
    ensures { RunEndsWith N.start book.new result }
{
    if book.failed {
        return RunEnd::Disk;
    }
    append_rest(book, members)
}
