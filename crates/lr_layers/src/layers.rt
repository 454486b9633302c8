//! From outcomes to files.

ghost use Rattle.std.specs.Prelude.{◌≡◌, ◌+◌, ◌*◌, ◌^◌, ◌<◌, ◌≤◌, ◌++◌, ◌∷◌, [], ℕ, List, OnOk, OnErr, IsOk, IsErr};
ghost use Rattle.std.specs.Prelude.{length};
ghost use Rattle.std.specs.Prelude.{IsTrue, None, false, sum};
ghost use Rattle.lr_bits.specs.declared.outcome.Outcome.{Outcome as Outcome'};
ghost use Rattle.lr_layers.specs.Layers.{frame_in, is_fill};
ghost use Rattle.lr_mend.specs.Mending.{most_fillers};
ghost use Rattle.lr_layers.specs.Standing.{AddsFound, AddsMarked, AddsMended, AreFew, AreLayersSpent, LayersStandFor};
ghost use Rattle.lr_layers.specs.Standing.{MendingLayersStandFor, numbers};
ghost use Rattle.lr_layers.specs.Starts.{found};

use crate::counts::Counts;
use crate::frames::{FrameLayers, push_frame, read_frame};
use crate::packets::Joiner;
use crate::starts::{Now, Start, Starts};
use lr_bits::{BLOCK_BYTES, Corrected, NoMemory, Outcome, Placed};
use lr_mend::MendedFiles;
use lr_vc::{Channels, MOST_ENDING_PACKETS};
use std::alloc::Global;
use std::marker::Model;

/// The mission files of outcomes, which are pushed one after another.
///
/// It keeps what `Channels` and `MendedFiles` keep, and its counts. After `NoMemory` it is spent, and every later call
/// answers `NoMemory`.
#[derive(Drop)]
pub struct Layers {
    alloc: Global,
    frames: FrameLayers,
    /// How many bytes were changed in all outcomes so far.
    corrected: u64,
    counts: Counts,
    spent: bool,
}

impl Model for Layers {
    ghost use Rattle.std.specs.Prelude.{◌≤◌, ◌*◌};
    ghost use Rattle.lr_layers.specs.Standing.{KeptLayers, AreFew, numbers};
    ghost use Rattle.lr_bits.specs.declared.sizes.TheConstants.{BLOCK_BYTES};

    ghost Value = { KeptLayers };

    ghost view = { λ l. record {
      spent = l.spent;
      channels = l.frames.channels;
      files = l.frames.joiner.files;
      starts = l.frames.joiner.starts;
      corrected = l.corrected;
      numbers = numbers l.counts;
    } };

    ghost invariant = { λ l. AreFew l.frames.joiner.files.images.most (numbers l.counts)
        × (l.corrected ≤ BLOCK_BYTES * (numbers l.counts).restored) };
}

/// How many bytes were changed in the four words of a block.
fn changed_bytes(corrected: &Corrected) -> u64
    ensures value { result ≡ sum corrected.now.0 }
    ensures few { result ≤ BLOCK_BYTES }
{
    let [first, second, third, fourth] = corrected.0;
    u64::from(first) + u64::from(second) + u64::from(third) + u64::from(fourth)
}

impl Layers {
    /// No outcomes yet, and no packets are mended. This takes no memory.
    pub fn new(alloc: Global) -> Self
        ensures { LayersStandFor result [] }
    {
        Layers::mending(alloc, 0)
    }

    /// No outcomes yet, and images with at most this many fillers each: with 0 no packets are mended. It takes no
    /// memory.
    pub fn mending(alloc: Global, most: u16) -> Self
        requires { most ≤ most_fillers }
        ensures { MendingLayersStandFor most result [] }
    {
        let joiner = Joiner {
            files: MendedFiles::new(alloc, most),
            starts: Starts::new(alloc),
        };
        Layers {
            alloc,
            frames: FrameLayers {
                channels: Channels::new(alloc),
                packets: Vec::new(alloc),
                joiner,
            },
            corrected: 0,
            counts: Counts {
                restored: 0,
                lost: 0,
                bad_versions: 0,
                fill: 0,
                packets: 0,
                files: 0,
            },
            spent: false,
        }
    }

    /// The next outcome, in which this many bytes were changed.
    fn now(&self, changed: u64) -> Now
        requires few { self.now.numbers.restored + self.now.numbers.lost < 2 ^ 48 }
        requires changed { changed ≤ BLOCK_BYTES }
        ensures place { result.start.place ≡ self.now.numbers.restored + self.now.numbers.lost }
        ensures before { result.start.corrected ≡ self.now.corrected }
        ensures after { result.corrected ≡ self.now.corrected + changed }
    {
        let start = Start {
            place: self.counts.restored + self.counts.lost,
            corrected: self.corrected,
        };
        Now {
            start,
            corrected: self.corrected + changed,
        }
    }

    /// How many outcomes, good packets and files there were so far. Of a spent object they are those up to the last
    /// outcome that was taken.
    pub fn counts(&self) -> Counts
        ensures value { numbers result ≡ self.now.numbers }
        ensures few { AreFew self.now.files.images.most (numbers result) }
    {
        self.counts
    }

    /// Appends the files that end with this outcome, and how many fillers each has, if that is counted.
    fn take(
        &mut self,
        outcome: &Outcome,
        counted: bool,
        files: &mut Vec<Placed>,
        fillers: &mut Vec<u16>,
    ) -> Result<(), NoMemory>
        requires { self.old.numbers.restored + self.old.numbers.lost < 2 ^ 48 }
        ensures stands { (mend : ℕ) (outcomes : List Outcome') → MendingLayersStandFor mend self.old outcomes →
            OnOk result (MendingLayersStandFor mend self.new (outcomes ++ outcome.now ∷ [])) }
        ensures files { (mend : ℕ) (outcomes : List Outcome') → MendingLayersStandFor mend self.old outcomes →
            OnOk result (AddsFound mend counted outcomes outcome.now
            (found files.old.items fillers.old.items) (found files.new.items fillers.new.items)) }
        ensures few { OnOk result (length files.new.items ≤ length files.old.items + 2 * MOST_ENDING_PACKETS) }
        ensures few_plain { self.old.files.images.most ≡ 0
            → OnOk result (length files.new.items ≤ length files.old.items + MOST_ENDING_PACKETS) }
        ensures succeeds { self.old.spent ≡ false → frame_in outcome.now ≡ None → IsOk result }
        ensures fill { (mend : ℕ) (outcomes : List Outcome') → MendingLayersStandFor mend self.old outcomes
            → IsTrue (is_fill outcome.now) → IsOk result }
        ensures refused { OnErr result (files.new.items ≡ files.old.items) }
        ensures refused_fillers { OnErr result (fillers.new.items ≡ fillers.old.items) }
        ensures counts_stay { OnErr result (self.new.numbers ≡ self.old.numbers) }
        ensures spends { OnErr result (AreLayersSpent self.new) }
        ensures stays_spent { AreLayersSpent self.old → IsErr result × AreLayersSpent self.new }
    {
        if self.spent {
            return Err(NoMemory);
        }
        let (corrected, bytes) = match outcome {
            Outcome::Restored(corrected, bytes) => (changed_bytes(corrected), bytes),
            Outcome::Lost(_) => {
                self.counts.lost += 1;
                return Ok(());
            }
        };
        let mut counts = self.counts;
        let read = read_frame(bytes, &mut counts);
        counts.restored += 1;
        let now = self.now(corrected);
        let Some(frame) = &read else {
            self.counts = counts;
            self.corrected = now.corrected;
            return Ok(());
        };
        let before = files.len();
        let fillers_before = fillers.len();
        match push_frame(frame, now, &mut self.frames, counted, files, fillers) {
            Ok(gained) => {
                counts.packets += gained.packets;
                counts.files += gained.files;
                self.counts = counts;
                self.corrected = now.corrected;
                Ok(())
            }
            Err(NoMemory) => {
                self.spent = true;
                files.truncate(before);
                fillers.truncate(fillers_before);
                Err(NoMemory)
            }
        }
    }

    /// Appends the files that end with this outcome, the next one of those for which the object stands. Fewer than 2^48
    /// outcomes were pushed before. Each file comes with its origin: the places of the outcomes in which its first
    /// packet and its last one end, and the changed bytes of all restored outcomes from the first of them to the last.
    ///
    /// `NoMemory`: memory was wanting in this call or in an earlier one. The files are as they were.
    pub fn push_outcome(
        &mut self,
        outcome: &Outcome,
        files: &mut Vec<Placed>,
    ) -> Result<(), NoMemory>
        requires { self.old.numbers.restored + self.old.numbers.lost < 2 ^ 48 }
        ensures stands { (mend : ℕ) (outcomes : List Outcome') → MendingLayersStandFor mend self.old outcomes →
            OnOk result (MendingLayersStandFor mend self.new (outcomes ++ outcome.now ∷ [])) }
        ensures files { (mend : ℕ) (outcomes : List Outcome') → MendingLayersStandFor mend self.old outcomes →
            OnOk result (AddsMended mend outcomes outcome.now files.old.items files.new.items) }

        // A frame ends at most 885 packets, and each of them one file, or with the fillers before it two.
        ensures few { OnOk result (length files.new.items ≤ length files.old.items + 2 * MOST_ENDING_PACKETS) }
        ensures few_plain { self.old.files.images.most ≡ 0
            → OnOk result (length files.new.items ≤ length files.old.items + MOST_ENDING_PACKETS) }

        // A lost block, and a frame of another version, take no memory; nor does one of fill.
        ensures succeeds { self.old.spent ≡ false → frame_in outcome.now ≡ None → IsOk result }
        ensures fill { (mend : ℕ) (outcomes : List Outcome') → MendingLayersStandFor mend self.old outcomes
            → IsTrue (is_fill outcome.now) → IsOk result }

        ensures refused { OnErr result (files.new.items ≡ files.old.items) }
        ensures counts_stay { OnErr result (self.new.numbers ≡ self.old.numbers) }
        ensures spends { OnErr result (AreLayersSpent self.new) }
        ensures stays_spent { AreLayersSpent self.old → IsErr result × AreLayersSpent self.new }
    {
        let mut uncounted = Vec::new(self.alloc);
        self.take(outcome, false, files, &mut uncounted)
    }

    /// The same, and for each file that is appended its number of fillers, which is 0 for one that came whole.
    ///
    /// `NoMemory`: memory was wanting in this call or in an earlier one. Files and numbers are as they were.
    pub fn push_mended(
        &mut self,
        outcome: &Outcome,
        files: &mut Vec<Placed>,
        fillers: &mut Vec<u16>,
    ) -> Result<(), NoMemory>
        requires { self.old.numbers.restored + self.old.numbers.lost < 2 ^ 48 }
        ensures stands { (mend : ℕ) (outcomes : List Outcome') → MendingLayersStandFor mend self.old outcomes →
            OnOk result (MendingLayersStandFor mend self.new (outcomes ++ outcome.now ∷ [])) }
        ensures files { (mend : ℕ) (outcomes : List Outcome') → MendingLayersStandFor mend self.old outcomes →
            OnOk result (AddsMarked mend outcomes outcome.now
            (found files.old.items fillers.old.items) (found files.new.items fillers.new.items)) }
        ensures few { OnOk result (length files.new.items ≤ length files.old.items + 2 * MOST_ENDING_PACKETS) }
        ensures few_plain { self.old.files.images.most ≡ 0
            → OnOk result (length files.new.items ≤ length files.old.items + MOST_ENDING_PACKETS) }

        // A lost block, and a frame of another version, take no memory; nor does one of fill.
        ensures succeeds { self.old.spent ≡ false → frame_in outcome.now ≡ None → IsOk result }
        ensures fill { (mend : ℕ) (outcomes : List Outcome') → MendingLayersStandFor mend self.old outcomes
            → IsTrue (is_fill outcome.now) → IsOk result }

        ensures refused { OnErr result (files.new.items ≡ files.old.items) }
        ensures refused_fillers { OnErr result (fillers.new.items ≡ fillers.old.items) }
        ensures counts_stay { OnErr result (self.new.numbers ≡ self.old.numbers) }
        ensures spends { OnErr result (AreLayersSpent self.new) }
        ensures stays_spent { AreLayersSpent self.old → IsErr result × AreLayersSpent self.new }
    {
        self.take(outcome, true, files, fillers)
    }
}
