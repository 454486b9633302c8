//! The files of good packets, one packet after another.

ghost use Rattle.std.specs.Prelude.{◌≡◌, ◌++◌, ◌∷◌, [], List, None, IfOk, OnOk, OnErr, IsOk, IsErr, false};
ghost use Rattle.lr_packet.specs.Verdict.{Good};
ghost use Rattle.lr_packet.specs.Reading.{good};
ghost use Rattle.lr_file.specs.Files.{file_at};
ghost use Rattle.lr_file.specs.Standing.{AreFilesSpent, FilesStandFor, kept_of_key};
ghost use Rattle.lr_file.specs.Steps.{SetsKey, IsFileOf, JoinsNothing, file_begun_by, completed_file, continued_file};
ghost use Rattle.lr_file.specs.Steps.{next_open};

use crate::open_file::OpenFile;
use crate::part::{Part, part_of};
use lr_bits::{MissionFile, NoMemory};
use lr_packet::GoodPacket;
use std::alloc::Global;
use std::collections::BTreeMap;
use std::marker::Model;

/// The open files by their channels and applications.
type OpenFiles = BTreeMap<(u8, u16), OpenFile>;

/// Opens a file with its first packet, in place of one that was open.
fn open_first(alloc: Global, files: &mut OpenFiles, packet: &GoodPacket) -> Result<(), NoMemory>
    ensures { OnOk result (SetsKey files.old.entries files.new.entries (good packet.now)
        (Some (file_begun_by (good packet.now)))) }
{
    let file = OpenFile::begin(alloc, packet)?;
    files.insert((packet.vc, packet.apid), file)?;
    Ok(())
}

/// Goes on with the open file, or drops it where the packet doesn't follow.
fn go_on(files: &mut OpenFiles, packet: &GoodPacket) -> Result<(), NoMemory>
    ensures succeeds { continued_file (kept_of_key files.old.entries packet.now.vc packet.now.apid)
        (good packet.now) ≡ None →
        IsOk result }
    ensures file { OnOk result (SetsKey files.old.entries files.new.entries (good packet.now)
        (continued_file (kept_of_key files.old.entries packet.now.vc packet.now.apid) (good packet.now))) }
{
    let key = (packet.vc, packet.apid);
    let Some(file) = files.get_mut(&key) else {
        return Ok(());
    };
    if file.is_followed_by(packet) {
        return file.append(packet);
    }
    files.remove(&key);
    Ok(())
}

/// Takes the open file out, and ends it with its last packet, where that follows.
fn end(files: &mut OpenFiles, packet: &GoodPacket) -> Result<Option<MissionFile>, NoMemory>
    ensures succeeds { continued_file (kept_of_key files.old.entries packet.now.vc packet.now.apid)
        (good packet.now) ≡ None →
        IsOk result }
    ensures files { SetsKey files.old.entries files.new.entries (good packet.now) None }
    ensures file { IfOk result (IsFileOf (good packet.now)
        (continued_file (kept_of_key files.old.entries packet.now.vc packet.now.apid) (good packet.now))) }
{
    let Some(mut file) = files.remove(&(packet.vc, packet.apid)) else {
        return Ok(None);
    };
    if !file.is_followed_by(packet) {
        return Ok(None);
    }
    file.append(packet)?;
    Ok(file.finish(packet.vc, packet.apid))
}

/// Takes the open file out, and makes one of this packet alone.
fn whole(
    alloc: Global,
    files: &mut OpenFiles,
    packet: &GoodPacket,
) -> Result<Option<MissionFile>, NoMemory>
    ensures files { SetsKey files.old.entries files.new.entries (good packet.now) None }
    ensures file { IfOk result (IsFileOf (good packet.now) (Some (file_begun_by (good packet.now)))) }
{
    files.remove(&(packet.vc, packet.apid));
    let file = OpenFile::begin(alloc, packet)?;
    Ok(file.finish(packet.vc, packet.apid))
}

/// Does with the packet what its part says: it opens a file, goes on with the open one, ends it, or is a file alone.
/// A packet that joins no file takes no memory.
fn join(
    alloc: Global,
    files: &mut OpenFiles,
    packet: &GoodPacket,
) -> Result<Option<MissionFile>, NoMemory>
    ensures succeeds { JoinsNothing (kept_of_key files.old.entries packet.now.vc packet.now.apid) (good packet.now)
        → IsOk result }
    ensures files { OnOk result (SetsKey files.old.entries files.new.entries (good packet.now)
        (next_open (kept_of_key files.old.entries packet.now.vc packet.now.apid) (good packet.now))) }
    ensures file { IfOk result (IsFileOf (good packet.now)
        (completed_file (kept_of_key files.old.entries packet.now.vc packet.now.apid) (good packet.now))) }
{
    match part_of(packet.flags) {
        Part::First => {
            open_first(alloc, files, packet)?;
            Ok(None)
        }
        Part::Between => {
            go_on(files, packet)?;
            Ok(None)
        }
        Part::Last => end(files, packet),
        Part::Single => whole(alloc, files, packet),
    }
}

/// The mission files of the good packets of all channels and applications.
///
/// Of each channel and application it keeps at most one open file, which is within the limits of a file. One that
/// would pass a limit is dropped at once, with its bytes. After `NoMemory` it is spent, and every later call answers
/// `NoMemory`.
#[derive(Drop)]
pub struct Files {
    alloc: Global,
    files: OpenFiles,
    spent: bool,
}

impl Model for Files {
    ghost use Rattle.lr_file.specs.Standing.{KeptFiles};

    ghost Value = { KeptFiles };

    ghost view = { λ f. record { spent = f.spent; files = f.files.entries } };
}

impl Files {
    /// No packets yet. This takes no memory.
    pub fn new(alloc: Global) -> Self
        ensures { FilesStandFor result [] }
    {
        Files {
            alloc,
            files: BTreeMap::new(alloc),
            spent: false,
        }
    }

    /// The file that ends with this packet, the next one of the packets for which the object stands, if one does.
    ///
    /// `NoMemory`: memory was wanting in this call or in an earlier one.
    pub fn push(&mut self, packet: &GoodPacket) -> Result<Option<MissionFile>, NoMemory>
        ensures stands { (packets : List Good) → FilesStandFor self.old packets →
            OnOk result (FilesStandFor self.new (packets ++ good packet.now ∷ [])) }
        ensures file { (packets : List Good) → FilesStandFor self.old packets →
            IfOk result (λ file. file ≡ file_at packets (good packet.now)) }
        // A packet that joins no file takes no memory.
        ensures succeeds { self.old.spent ≡ false
            → JoinsNothing (kept_of_key self.old.files packet.now.vc packet.now.apid) (good packet.now)
            → IsOk result }
        ensures spends { OnErr result (AreFilesSpent self.new) }
        ensures stays_spent { AreFilesSpent self.old → IsErr result × AreFilesSpent self.new }
    {
        if self.spent {
            return Err(NoMemory);
        }
        let result = join(self.alloc, &mut self.files, packet);
        self.spent = result.is_err();
        result
    }
}
