//! `transmit`: the files of some entries, as symbols.
ghost use Rattle.std.specs.Prelude.{◌≡◌, ◌<◌, ◌≤◌, ◌++◌, ◌∷◌, [], ℕ, List, Err, IfErr, OnErr, OnOk, length};
ghost use Rattle.lr_bits.specs.File.{File};
ghost use Rattle.lr_bits.specs.declared.sizes.TheConstants.{FILL_CHANNEL};
ghost use Rattle.lr_conv.specs.declared.line.LineCode.{LineCode as LineCode'};
ghost use Rattle.lr_causes.specs.Outside.{outlets, outlets_of};
ghost use Rattle.lr_causes.specs.Puts.{Puts, PutFails};
ghost use Rattle.lr_cmd_shelf.specs.Runs.{RunsOver};
ghost use Rattle.lr_cmd_shelf.specs.Steps.{PutsText, TextStops};
ghost use Rattle.lr_cmd_transmit.specs.Received.{Transmits};
ghost use Rattle.lr_cmd_transmit.specs.Standing.{HasSent, IsUplinkAt, rest_bytes};
ghost use Rattle.lr_cmd_transmit.specs.Transmit.{sent_entry_text, transmit_query, sending};

use lr_bits::{BLOCK_BYTES, FRAME_BYTES, FRAME_SYMBOLS, MissionFile, NoMemory};
use lr_causes::{Cause, Note, Party, Refusal, put_text};
use lr_cmd_shelf::{Range, ReadsEntries, run_entries};
use lr_conv::LineCode;
use lr_disk::Disk;
use lr_io::Sink;
use lr_make::{put_block, put_bytes};
use lr_refusals::file_or_gone;
use lr_shelf::Shelf;
use lr_uplink::{Uplink, UplinkFault};
use std::alloc::Global;

/// Puts the symbols of all frames that are left to give, with `wrong` wrong bytes in each word of their blocks. It
/// takes no memory.
fn put_frames<O: Sink>(uplink: &mut Uplink, wrong: u8, out: &mut O) -> Result<(), Cause>
    requires { wrong ≤ 16 }
    ensures put { (line : LineCode') (files : List File) (given : ℕ) → IsUplinkAt line wrong files given uplink.old
        → OnOk result (Puts O.Sink (rest_bytes line wrong files given) out.old out.new) }
    ensures sent { (line : LineCode') (files : List File) (given : ℕ) → IsUplinkAt line wrong files given uplink.old
        → OnOk result (HasSent line wrong files uplink.new) }
    ensures failed { (line : LineCode') (files : List File) (given : ℕ) → IsUplinkAt line wrong files given uplink.old
        → OnErr result (PutFails O.Sink (rest_bytes line wrong files given) out.old out.new) }
    ensures some { (line : LineCode') (files : List File) (given : ℕ) → IsUplinkAt line wrong files given uplink.old
        → OnErr result (0 < length (rest_bytes line wrong files given)) }
    ensures cause { IfErr result (λ cause. cause ≡ Cause.Failed Party.Output) }
{
    let mut frame = [0; FRAME_BYTES];
    let mut block = [0; BLOCK_BYTES];
    let mut symbols = [0; FRAME_SYMBOLS];
    let mut bytes = [0; FRAME_SYMBOLS];
    'frames: for _given in 0..u64::MAX {
        if !uplink.next_frame(&mut frame) {
            return Ok(());
        }
        put_block(&frame, wrong, &mut block);
        uplink.symbols(&block, &mut symbols);
        put_bytes(&symbols, &mut bytes);
        if let Err(cause) = put_text(&bytes, out) {
            return Err(cause);
        }
    }
    Ok(())
}

/// Loads a file, and puts the symbols of its frames. Memory is taken before the first of them.
fn send_file<O: Sink>(
    uplink: &mut Uplink,
    file: MissionFile,
    wrong: u8,
    out: &mut O,
) -> Result<(), Cause>
    requires { wrong ≤ 16 }
    ensures puts { (line : LineCode') (files : List File) → HasSent line wrong files uplink.old
        → OnOk result (PutsText O.Sink (sent_entry_text line wrong files file) out.old out.new) }
    ensures sent { (line : LineCode') (files : List File) → HasSent line wrong files uplink.old
        → OnOk result (HasSent line wrong (files ++ file ∷ []) uplink.new) }
    ensures stops { (line : LineCode') (files : List File) → HasSent line wrong files uplink.old
        → IfErr result (λ cause. TextStops O.Sink (sent_entry_text line wrong files file) cause out.old out.new) }
    // A file of the channel of fill is refused before memory is taken.
    ensures channel { file.vc ≡ FILL_CHANNEL → result ≡ Err (Cause.Refused Refusal.CannotSend) }
{
    match uplink.load(file) {
        Ok(()) => put_frames(uplink, wrong, out),
        Err(UplinkFault::Fill) => Err(Cause::Refused(Refusal::CannotSend)),
        Err(UplinkFault::NoMemory) => Err(Cause::NoMemory),
    }
}

/// The files of the entries from one number up to another.
#[derive(Drop)]
struct TransmitRange {
    from: u64,
    to: u64,
    wrong: u8,
    line: LineCode,
    ghost few: { wrong ≤ 16 },
}

impl ReadsEntries for TransmitRange {
    ghost use Rattle.lr_cmd_shelf.specs.Files.{files_of};
    ghost use Rattle.lr_cmd_shelf.specs.Sights.{no_image_sight};
    ghost use Rattle.lr_cmd_transmit.specs.Standing.{HasSent};
    ghost use Rattle.lr_cmd_transmit.specs.Transmit.{files_read, transmit_query};

    type Gathered = Uplink;

    ghost query = { λ s. transmit_query (sending s.from s.to s.wrong s.line) };

    ghost gathers = { λ s uplink read. HasSent s.line s.wrong (files_read (files_of read)) uplink };

    ghost sight = { λ s. no_image_sight };

    fn range(&self, count: u64) -> Option<Range> {
        Range::between(self.from, self.to, count)
    }

    fn start(&self, alloc: Global) -> Result<Uplink, NoMemory> {
        Uplink::new(alloc, self.line)
    }

    fn entry<D: Disk, O: Sink>(
        &self,
        number: u64,
        uplink: &mut Uplink,
        shelf: &mut Shelf,
        disk: &mut D,
        out: &mut O,
    ) -> Result<(), Cause> {
        match file_or_gone(shelf.get(disk, number)) {
            Ok(Some(stored)) => send_file(uplink, stored.file, self.wrong, out),
            Ok(None) => Ok(()),
            Err(cause) => Err(cause),
        }
    }

    fn last<O: Sink>(
        &self,
        _: Global,
        _: Uplink,
        _: &Shelf,
        _: &mut O,
    ) -> Result<Option<Note>, Cause> {
        Ok(None)
    }
}

/// Puts the symbols of the files of the entries from one number up to another, without those that are gone, each in a
/// byte: 100 for 1 and -100 for 0. In each word of a frame's block `wrong` bytes are wrong. Symbols go out a frame at a
/// time. Where it is done, a receiver of the symbols finds these files. Refused, in this order: no shelf, a number that
/// isn't allowed, and at each file no item, a wrong checksum, the channel of fill.
pub fn transmit<D: Disk, O: Sink>(
    alloc: Global,
    from: u64,
    to: u64,
    wrong: u8,
    line: LineCode,
    disk: &mut D,
    out: &mut O,
) -> Cause
    requires { wrong ≤ 16 }
    ensures runs { RunsOver (outlets_of D.Disk O.Sink) (transmit_query (sending from to wrong line)) result
        (outlets disk.old out.old) (outlets disk.new out.new) }
    ensures sent { Transmits (outlets_of D.Disk O.Sink) (sending from to wrong line) result
        (outlets disk.old out.old) (outlets disk.new out.new) }
{
    let command = TransmitRange {
        from,
        to,
        wrong,
        line,
    };
    run_entries(alloc, &command, disk, out)
}
