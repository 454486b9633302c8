//! `packets`: a line for each packet of the frames.
ghost use Rattle.std.specs.Prelude.{
  ◌≡◌,
  ◌≢◌,
  ◌<◌,
  ◌≤◌,
  ◌+◌,
  ◌^◌,
  ◌++◌,
  ◌∷◌,
  [],
  List,
  ℕ,
  IfOk,
  IfErr,
  IsOk,
  IsErr,
  OnOk,
  OnErr,
  length,
  if◌then◌else◌,
};
ghost use Rattle.lr_bits.specs.Packet.{Packet};
ghost use Rattle.lr_vc.specs.Frame.{frame_of};
ghost use Rattle.lr_vc.specs.Standing.{ChannelsStandFor};
ghost use Rattle.lr_packet.specs.Verdict.{good_of, good_packets};
ghost use Rattle.lr_reading.specs.Reading.{units_of};
ghost use Rattle.lr_reading.specs.Runs.{ReadsInput};
ghost use Rattle.lr_forms.specs.declared.forms.Input.TheVariants.{Units};
ghost use Rattle.lr_forms.specs.declared.forms.UnitForm.TheVariants.{Frames};
ghost use Rattle.lr_cmd_print.specs.Added.{packets_added, lines_added};
ghost use Rattle.lr_cmd_print.specs.Packets.{frames_read, lines_from, packets_count, packets_text, packets_printed};
ghost use Rattle.lr_cmd_print.specs.PacketsRead.{IsAfter, IsPacketCount};
ghost use Rattle.lr_cmd_print.specs.Printing.{Prints, PrintsAll};
ghost use Rattle.lr_cmd_print.specs.Progress.{LinesComeFirst};
ghost use Rattle.lr_causes.specs.Outside.{pipe, pipe_of};
ghost use Rattle.lr_causes.specs.Puts.{Puts, PutStops};
ghost use Rattle.lr_causes.specs.declared.cause.Cause.TheVariants.{NoMemory as NoMemory'};

use crate::packet_count::PacketCount;
use lr_bits::{Bytes, FRAME_BYTES, NoMemory, Outcome, RawPacket};
use lr_catalog::{Summary, packet_line, summary_line};
use lr_causes::{Cause, cause_at, put_text};
use lr_forms::{Input, Stop, UnitForm};
use lr_frame::FrameWork;
use lr_io::{Sink, Source};
use lr_packet::check;
use lr_reading::{Arrival, Consumer, ReadCounts, Reader};
use lr_vc::{Channels, MOST_ENDING_PACKETS, TransferFrame};
use std::alloc::Global;

/// Puts the lines of the packets of each frame, and counts them.
#[derive(Drop)]
pub(crate) struct PacketLines<'a, O> {
    pub alloc: Global,
    pub channels: &'a mut Channels,
    /// The packets that end in the frame that is taken.
    pub packets: &'a mut Vec<RawPacket>,
    pub counted: PacketCount,
    pub out: &'a mut O,
}

impl<'a, O: Sink> Consumer for PacketLines<'a, O> {
    ghost use Rattle.std.specs.Prelude.{◌^◌, ◌-◌};
    ghost use Rattle.lr_cmd_print.specs.PacketsTaken.{PacketsTook, PacketsStopped};

    type Cause = Cause;

    ghost most = { 2 ^ 64 - 1 };

    ghost took = { λ c arrivals now. PacketsTook O.Sink c arrivals now };

    ghost stopped = { λ c arrivals cause now. PacketsStopped O.Sink c arrivals cause now };

    /// A block that was lost has no packets.
    fn take(&mut self, arrival: &Arrival) -> Result<(), Cause> {
        let Outcome::Restored(_, frame) = &arrival.outcome else {
            return Ok(());
        };
        put_frame(
            self.alloc,
            frame,
            self.channels,
            self.packets,
            &mut self.counted,
            self.out,
        )?;
        Ok(())
    }

    fn no_memory(&self) -> Cause {
        Cause::NoMemory
    }
}

fn is_good(raw: &RawPacket) -> bool
    ensures { good_packets (raw.now ∷ []) ≡ (if result then good_of raw.now ∷ [] else []) }
{
    check(raw).is_ok()
}

/// How many of the packets are good.
fn count_good(packets: &[RawPacket]) -> u64
    ensures good { result ≡ length (good_packets packets.now) }
    ensures few { result ≤ length packets.now }
{
    let mut good = 0;
    for raw in packets {
        if is_good(raw) {
            good += 1;
        }
    }
    good
}

/// The lines of these packets, the first of which has that number.
fn compose(
    alloc: Global,
    first: u64,
    packets: &[RawPacket],
    lines: &mut Bytes,
) -> Result<(), NoMemory>
    requires { first + length packets.now < 2 ^ 64 }
    ensures succeeds { packets.now ≡ [] → IsOk result }
    ensures lines { OnOk result (lines.new ≡ lines.old ++ lines_from first packets.now) }
{
    for (place, raw) in packets.iter().enumerate() {
        packet_line(alloc, first + place as u64, raw, lines)?;
    }
    Ok(())
}

/// The packets that end in one frame more.
fn read_packets(
    frame: &[u8; FRAME_BYTES],
    channels: &mut Channels,
    packets: &mut Vec<RawPacket>,
) -> Result<(), NoMemory>
    // A frame of another version takes no memory, and has no packets.
    ensures succeeds { IsErr (frame_of frame.now) → IsOk result }
    ensures none { IsErr (frame_of frame.now) → packets.new.items ≡ packets.old.items }
    ensures stands { (frames : List (List ℕ)) → ChannelsStandFor channels.old (frames_read frames)
        → OnOk result (ChannelsStandFor channels.new (frames_read (frames ++ frame.now ∷ []))) }
    ensures packets { (frames : List (List ℕ)) → ChannelsStandFor channels.old (frames_read frames)
        → OnOk result (packets.new.items ≡ packets.old.items ++ packets_added frames frame.now) }
    ensures few { OnOk result (length packets.new.items ≤ length packets.old.items
        + MOST_ENDING_PACKETS) }
{
    match TransferFrame::read(frame) {
        Ok(frame) => channels.push(&frame, packets),
        Err(_) => Ok(()),
    }
}

/// Puts the lines of the packets that end in one frame more, and counts them.
fn put_frame<O: Sink>(
    alloc: Global,
    frame: &[u8; FRAME_BYTES],
    channels: &mut Channels,
    packets: &mut Vec<RawPacket>,
    counted: &mut PacketCount,
    out: &mut O,
) -> Result<(), Cause>
    requires room { counted.old.packets + MOST_ENDING_PACKETS < 2 ^ 64 }
    ensures stands { (frames : List (List ℕ)) → IsAfter channels.old counted.old frames
        → OnOk result (IsAfter channels.new counted.new (frames ++ frame.now ∷ [])) }
    ensures put { (frames : List (List ℕ)) → IsAfter channels.old counted.old frames
        → OnOk result (Puts O.Sink (lines_added frames frame.now) out.old out.new) }
    ensures stopped { (frames : List (List ℕ)) → IsAfter channels.old counted.old frames
        → IfErr result (λ cause. PutStops O.Sink (lines_added frames frame.now) cause
        out.old out.new) }
    ensures few { OnOk result (counted.new.packets ≤ counted.old.packets + MOST_ENDING_PACKETS) }
    // A frame of another version takes no memory, and nothing is put.
    ensures succeeds { IsErr (frame_of frame.now) → IfErr result (λ cause. cause ≢ NoMemory') }
{
    packets.clear();
    read_packets(frame, channels, packets)?;
    let mut lines = Bytes::new(alloc);
    compose(alloc, counted.packets, packets, &mut lines)?;
    put_text(lines.as_slice(), out)?;
    *counted = PacketCount {
        packets: counted.packets + packets.len() as u64,
        good: counted.good + count_good(packets),
    };
    Ok(())
}

/// Puts all lines, and answers how many packets there are.
fn put_each_packet<S: Source, O: Sink>(
    alloc: Global,
    reader: Reader<FrameWork>,
    source: &mut S,
    out: &mut O,
) -> Result<(ReadCounts, PacketCount), Cause>
    requires input { reader.input ≡ Units Frames }
    requires alone { reader.workers ≡ 1 }
    requires few { reader.most < 2 ^ 64 }
    ensures all { IfOk result (λ sums. (bytes : List ℕ)
        × ReadsInput S.Source (Units Frames) reader.most bytes sums.0 source.old source.new
        × IsPacketCount sums.1 (units_of FRAME_BYTES bytes) × Puts O.Sink (packets_text bytes)
        out.old out.new
        × LinesComeFirst S.Source (packets_printed reader.most) bytes source.old source.new) }
    ensures stopped { IfErr result (λ cause.
        Prints (pipe_of S.Source O.Sink) (packets_printed reader.most) cause
        (pipe source.old out.old) (pipe source.new out.new)) }
{
    let mut channels = Channels::new(alloc);
    let mut packets = Vec::new(alloc);
    let mut lines = PacketLines {
        alloc,
        channels: &mut channels,
        packets: &mut packets,
        counted: PacketCount {
            packets: 0,
            good: 0,
        },
        out,
    };
    let totals = reader.read_alone(source, &mut lines)?;
    Ok((totals, lines.counted))
}

fn put_last<O: Sink>(
    alloc: Global,
    totals: &ReadCounts,
    counted: PacketCount,
    out: &mut O,
) -> Result<(), Cause>
    ensures put { (frames : List (List ℕ)) → IsPacketCount counted frames
        → IfOk result (λ _. Puts O.Sink (packets_count frames totals.now.frames totals.now.left
        totals.now.stop) out.old out.new) }
    ensures stopped { (frames : List (List ℕ)) → IsPacketCount counted frames
        → IfErr result (λ cause. PutStops O.Sink
        (packets_count frames totals.now.frames totals.now.left totals.now.stop) cause
        out.old out.new) }
{
    let mut line = Bytes::new(alloc);
    let summary = Summary::Packets {
        frames: totals.frames,
        packets: counted.packets,
        good: counted.good,
        left: totals.left,
    };
    summary_line(alloc, &summary, totals.stop, &mut line)?;
    put_text(line.as_slice(), out)
}

fn put_packets<S: Source, O: Sink>(
    alloc: Global,
    most: u64,
    source: &mut S,
    out: &mut O,
) -> Result<Stop, Cause>
    ensures all { IfOk result
        (λ stop. PrintsAll (pipe_of S.Source O.Sink) (packets_printed most) stop
        (pipe source.old out.old) (pipe source.new out.new)) }
    ensures stopped { IfErr result
        (λ cause. Prints (pipe_of S.Source O.Sink) (packets_printed most) cause
        (pipe source.old out.old) (pipe source.new out.new)) }
{
    let input = Input::Units(UnitForm::Frames);
    let reader = Reader::<FrameWork>::new(alloc, input, 1, most, &())?;
    let (totals, counted) = put_each_packet(alloc, reader, source, out)?;
    put_last(alloc, &totals, counted, out)?;
    Ok(totals.stop)
}

/// A line for each packet of the frames of the source, and a last line. At most `most` bytes are
/// taken.
pub fn packets<S: Source, O: Sink>(alloc: Global, most: u64, source: &mut S, out: &mut O) -> Cause
    ensures { Prints (pipe_of S.Source O.Sink) (packets_printed most) result
        (pipe source.old out.old) (pipe source.new out.new) }
{
    match put_packets(alloc, most, source, out) {
        Ok(stop) => cause_at(stop),
        Err(cause) => cause,
    }
}
