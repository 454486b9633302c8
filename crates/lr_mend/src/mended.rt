//! The files of good packets that are mended, one packet after another.

ghost use Rattle.std.specs.Prelude.{◌≡◌, ◌≤◌, ◌<◌, ◌++◌, ◌∷◌, [], ℕ, List, None, map, option_to_list, IfOk, OnOk};
ghost use Rattle.std.specs.Prelude.{OnErr, IsErr};
ghost use Rattle.lr_packet.specs.Verdict.{Good};
ghost use Rattle.lr_packet.specs.Reading.{good};
ghost use Rattle.lr_file.specs.Standing.{FilesStandFor};
ghost use Rattle.std.specs.Option.{option_map};
ghost use Rattle.lr_mend.specs.Laws.{packet_mended};
ghost use Rattle.lr_mend.specs.Marks.{whole_file};
ghost use Rattle.lr_mend.specs.MendedFiles.{AreMendedSpent, MendedStandFor, SeamsStandFor, TakesMended, TakesOneMended};
ghost use Rattle.lr_mend.specs.MendedFiles.{TakesPacket, file_of_packet, files_of_gap, kept_mended};
ghost use Rattle.lr_mend.specs.Mending.{Mended as Mended', came, filler_of, gap_before, mended_packets, most_fillers};
ghost use Rattle.lr_mend.specs.Seams.{Seams};
ghost use Rattle.lr_mend.specs.Standing.{KeptImages, MenderStandsFor};

use crate::gap::Gap;
use crate::marks::{MarkedFile, mark};
use crate::mender::Mender;
use crate::seams::SeamsOfFiles;
use lr_bits::{MissionFile, NoMemory};
use lr_file::Files;
use lr_packet::GoodPacket;
use std::alloc::Global;
use std::marker::Model;

/// The files that end with a packet and with the fillers before it.
#[derive(Drop)]
pub struct Ended {
    pub by_fillers: Option<MarkedFile>,
    pub by_packet: Option<MarkedFile>,
}

/// Takes one of the mended packets, and answers the file that ends with it, with its mark.
fn take_one(
    alloc: Global,
    files: &mut Files,
    seams: &mut SeamsOfFiles,
    packet: &GoodPacket,
    filler: bool,
) -> Result<Option<MarkedFile>, NoMemory>
    ensures { (before : List Mended') → FilesStandFor files.old (map packet_mended before)
        → SeamsStandFor seams.old before →
        IfOk result (TakesOneMended before (record { packet = good packet.now; filler = filler }) files.new seams.new) }
{
    seams.note(packet, filler)?;
    let Some(file) = files.push(packet)? else {
        return Ok(None);
    };
    mark(alloc, file, seams.fillers_of(packet))
}

/// Appends the file, if there is one.
fn push_file(file: Option<MarkedFile>, out: &mut Vec<MarkedFile>) -> Result<(), NoMemory>
    ensures { OnOk result (out.new.items ≡ out.old.items ++ option_to_list file) }
{
    if let Some(file) = file {
        out.push(file)?;
    }
    Ok(())
}

/// Takes the fillers of a gap, and appends the files that end with them.
fn take_gap(
    alloc: Global,
    files: &mut Files,
    seams: &mut SeamsOfFiles,
    gap: Gap,
    out: &mut Vec<MarkedFile>,
) -> Result<(), NoMemory>
    ensures { (before : List Mended') → FilesStandFor files.old (map packet_mended before)
        → SeamsStandFor seams.old before →
        OnOk result (TakesMended before (map filler_of gap.entry) files.new seams.new out.old.items out.new.items) }
{
    let mut left = gap;
    while let Some(filler) = left.next() {
        let file = take_one(alloc, files, seams, &filler, true)?;
        push_file(file, out)?;
    }
    Ok(())
}

/// Takes a packet, and before it its fillers. The files that end with these are appended, and the one that ends with
/// the packet is answered.
fn take_packet(
    alloc: Global,
    mender: &mut Mender,
    files: &mut Files,
    seams: &mut SeamsOfFiles,
    packet: &GoodPacket,
    out: &mut Vec<MarkedFile>,
) -> Result<Option<MarkedFile>, NoMemory>
    ensures takes { (packets : List Good) → MenderStandsFor mender.old packets →
        FilesStandFor files.old (map packet_mended (mended_packets mender.old.most packets)) →
        SeamsStandFor seams.old (mended_packets mender.old.most packets) →
        IfOk result (TakesOneMended (mended_packets mender.old.most packets ++ map filler_of (gap_before mender.old.most
        packets (good packet.now))) (came (good packet.now)) files.new seams.new) }
    ensures gap { (packets : List Good) → MenderStandsFor mender.old packets →
        FilesStandFor files.old (map packet_mended (mended_packets mender.old.most packets)) →
        SeamsStandFor seams.old (mended_packets mender.old.most packets) →
        OnOk result (out.new.items ≡ out.old.items ++ files_of_gap mender.old.most packets (good packet.now)) }
    ensures images { (packets : List Good) → MenderStandsFor mender.old packets →
        OnOk result (MenderStandsFor mender.new (packets ++ good packet.now ∷ [])) }
    ensures most { mender.new.most ≡ mender.old.most }
{
    let gap = mender.gap_before(packet);
    take_gap(alloc, files, seams, gap, out)?;
    let file = take_one(alloc, files, seams, packet, false)?;
    mender.push(packet)?;
    Ok(file)
}

/// Takes a packet with its fillers, with which at most one file ends.
fn take_mended(
    alloc: Global,
    mender: &mut Mender,
    files: &mut Files,
    seams: &mut SeamsOfFiles,
    packet: &GoodPacket,
) -> Result<Ended, NoMemory>
    ensures takes { (packets : List Good) → 0 < mender.old.most →
        MendedStandFor (kept_mended mender.old files.old seams.old) packets →
        IfOk result (TakesPacket mender.old.most packets (good packet.now)
        (kept_mended mender.new files.new seams.new)) }
    ensures most { mender.new.most ≡ mender.old.most }
{
    let mut ended = Vec::new(alloc);
    let by_packet = take_packet(alloc, mender, files, seams, packet, &mut ended)?;
    Ok(Ended {
        by_fillers: ended.pop(),
        by_packet,
    })
}

/// The file as it came, which has no fillers.
fn whole(file: Option<MissionFile>) -> Option<MarkedFile>
    ensures { result ≡ option_map whole_file file }
{
    match file {
        Some(file) => Some(MarkedFile { file, fillers: 0 }),
        None => None,
    }
}

/// Takes a packet where no fillers are allowed.
fn take_plain(files: &mut Files, packet: &GoodPacket) -> Result<Ended, NoMemory>
    ensures takes { (images : KeptImages) (seams : List ((ℕ × ℕ) × Seams)) (packets : List Good) → images.most ≡ 0 →
        MendedStandFor (kept_mended images files.old seams) packets →
        IfOk result (TakesPacket 0 packets (good packet.now) (kept_mended images files.new seams)) }
    ensures none { IfOk result (λ ended. ended.by_fillers ≡ None) }
{
    let file = files.push(packet)?;
    Ok(Ended {
        by_fillers: None,
        by_packet: whole(file),
    })
}

/// Takes a packet, the next one of those for which all stands.
fn take(
    alloc: Global,
    mender: &mut Mender,
    files: &mut Files,
    seams: &mut SeamsOfFiles,
    packet: &GoodPacket,
) -> Result<Ended, NoMemory>
    ensures takes { (packets : List Good) → MendedStandFor (kept_mended mender.old files.old seams.old) packets →
        IfOk result (TakesPacket mender.old.most packets (good packet.now)
        (kept_mended mender.new files.new seams.new)) }
    ensures most { mender.new.most ≡ mender.old.most }
    ensures none { mender.old.most ≡ 0 → IfOk result (λ ended. ended.by_fillers ≡ None) }
    ensures untouched { mender.old.most ≡ 0 → (mender.new ≡ mender.old) × (seams.new ≡ seams.old) }
{
    if mender.mends() {
        return take_mended(alloc, mender, files, seams, packet);
    }
    take_plain(files, packet)
}

/// The mission files of good packets of all channels and applications, which are mended, and marked where they are.
///
/// After `NoMemory` it is spent, and every later call answers `NoMemory`.
#[derive(Drop)]
pub struct MendedFiles {
    alloc: Global,
    mender: Mender,
    files: Files,
    seams: SeamsOfFiles,
    spent: bool,
}

impl Model for MendedFiles {
    ghost use Rattle.lr_mend.specs.MendedFiles.{KeptMended};

    ghost Value = { KeptMended };

    ghost view = { λ m. record { spent = m.spent; images = m.mender; files = m.files; seams = m.seams } };
}

impl MendedFiles {
    /// No packets yet, and images with at most this many fillers each; 0 mends nothing. This takes no memory.
    pub fn new(alloc: Global, most: u16) -> Self
        requires { most ≤ most_fillers }
        ensures stands { MendedStandFor result [] }
        ensures most { result.images.most ≡ most }
    {
        MendedFiles {
            alloc,
            mender: Mender::new(alloc, most),
            files: Files::new(alloc),
            seams: SeamsOfFiles::new(alloc),
            spent: false,
        }
    }

    /// The files that end with the fillers before this packet, the next one of the packets for which the object stands,
    /// and with the packet itself.
    ///
    /// `NoMemory`: memory was wanting in this call or in an earlier one.
    pub fn push(&mut self, packet: &GoodPacket) -> Result<Ended, NoMemory>
        ensures stands { (packets : List Good) → MendedStandFor self.old packets →
            OnOk result (MendedStandFor self.new (packets ++ good packet.now ∷ [])) }
        ensures gap { (packets : List Good) → MendedStandFor self.old packets → IfOk result (λ ended.
            option_to_list ended.by_fillers ≡ files_of_gap self.old.images.most packets (good packet.now)) }
        ensures file { (packets : List Good) → MendedStandFor self.old packets → IfOk result (λ ended.
            ended.by_packet ≡ file_of_packet self.old.images.most packets (good packet.now)) }
        ensures most { self.new.images.most ≡ self.old.images.most }
        ensures plain { self.old.images.most ≡ 0 → IfOk result (λ ended. ended.by_fillers ≡ None) }
        ensures untouched { self.old.images.most ≡ 0
            → (self.new.images ≡ self.old.images) × (self.new.seams ≡ self.old.seams) }
        ensures spends { OnErr result (AreMendedSpent self.new) }
        ensures stays_spent { AreMendedSpent self.old → IsErr result × AreMendedSpent self.new }
    {
        if self.spent {
            return Err(NoMemory);
        }
        let result = take(
            self.alloc,
            &mut self.mender,
            &mut self.files,
            &mut self.seams,
            packet,
        );
        self.spent = result.is_err();
        result
    }
}
