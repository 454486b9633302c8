//! Why a call ends, and the status that it answers.
use crate::fault::{BundleFlaw, CodingFault, ExportFault};
use crate::note::Note;
use lr_bits::NoMemory;

/// Who failed, and counted it.
#[derive(Clone, Copy)]
pub enum Party {
    /// What the input is read from.
    Source,
    /// What the shelf stands on.
    Disk,
    /// What the lines and bytes of a command are put to.
    Output,
}

/// What is refused for what it finds, with the values that the line tells.
#[derive(Clone, Copy)]
pub enum Refusal {
    /// No header stands on the disk (at 0), or no item after the open gate at this place.
    NotAShelf { at: u64 },
    /// The shelf has this many files, and a number that was asked for isn't allowed.
    NoSuchFile { count: u64 },
    /// With the next item the shelf would end here, which is past its capacity.
    Capacity { needed: u64, capacity: u64 },
    /// The disk that an empty shelf was to be made on has this many bytes.
    NotEmpty { length: u64 },
    /// The checksum at the end of a file's item isn't that of its bytes.
    BadChecksum,
    /// The file of the number that was asked for is discarded.
    Discarded,
    /// What was found gives no PGM.
    CannotExport(ExportFault),
    /// What was read is no bundle of recordings.
    BadBundle(BundleFlaw),
    /// The next file is of the channel of fill, which no file is sent on.
    CannotSend,
    /// The image that was found isn't coded anew.
    CannotRepack(CodingFault),
}

/// Why a call ended.
#[derive(Clone, Copy)]
pub enum Cause {
    /// The work is done.
    Done,
    /// Done, and this is told of it.
    DoneWith(Note),
    /// The words give no command.
    Usage,
    /// This party failed.
    Failed(Party),
    /// No memory was left.
    NoMemory,
    /// The work is refused for what was found.
    Refused(Refusal),
}

impl Cause {
    ghost use Rattle.std.specs.Prelude.{◌≡◌};
    ghost use Rattle.lr_causes.specs.Causes.{done_with, cause_of_fault, status_of};

    /// The status that the call answers.
    pub fn status(self) -> u8
        ensures { result ≡ status_of self }
    {
        match self {
            Cause::Done | Cause::DoneWith(_) => 0,
            Cause::Usage => 2,
            Cause::Failed(Party::Source) => 3,
            Cause::Failed(Party::Disk) => 4,
            Cause::Failed(Party::Output) => 5,
            Cause::NoMemory => 9,
            Cause::Refused(Refusal::NotAShelf { .. }) => 6,
            Cause::Refused(Refusal::NoSuchFile { .. }) => 7,
            Cause::Refused(Refusal::CannotExport(_)) => 8,
            Cause::Refused(Refusal::Capacity { .. }) => 10,
            Cause::Refused(Refusal::NotEmpty { .. }) => 11,
            Cause::Refused(Refusal::BadChecksum) => 12,
            Cause::Refused(Refusal::Discarded) => 13,
            Cause::Refused(Refusal::BadBundle(_)) => 14,
            Cause::Refused(Refusal::CannotSend) => 15,
            Cause::Refused(Refusal::CannotRepack(_)) => 16,
        }
    }

    /// Done, with what is told of it, if anything.
    pub fn done_with(note: Option<Note>) -> Self
        ensures { result ≡ done_with note }
    {
        match note {
            Some(note) => Cause::DoneWith(note),
            None => Cause::Done,
        }
    }

    /// No PGM can be put for this fault; without one memory was refused.
    pub fn of_fault(fault: Option<ExportFault>) -> Self
        ensures { result ≡ cause_of_fault fault }
    {
        match fault {
            Some(fault) => Cause::Refused(Refusal::CannotExport(fault)),
            None => Cause::NoMemory,
        }
    }
}

impl From<NoMemory> for Cause {
    ghost use Rattle.std.specs.Prelude.{◌≡◌};
    ghost use Rattle.lr_causes.specs.declared.cause.Cause.TheVariants.{NoMemory};

    ghost from_gives = { λ _ cause. cause ≡ NoMemory };

    fn from(_: NoMemory) -> Self {
        Cause::NoMemory
    }
}
