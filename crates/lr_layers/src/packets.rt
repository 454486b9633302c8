//! The packets of a frame, one after another.

ghost use Rattle.std.specs.Prelude.{◌≡◌, ◌≤◌, ◌+◌, ◌*◌, ◌++◌, ◌∷◌, [], List, map, option_to_list, IfOk, IsOk, OnOk};
ghost use Rattle.std.specs.Prelude.{None, length, if◌then◌else◌};
ghost use Rattle.lr_bits.specs.declared.outcome.Outcome.{Outcome as Outcome'};
ghost use Rattle.lr_packet.specs.Verdict.{good_packets};
ghost use Rattle.lr_layers.specs.Origins.{PlacedPacket, with_origin};
ghost use Rattle.lr_layers.specs.Starts.{IsNow, JoinerStandsFor, Joins, found, found_and};
ghost use Rattle.lr_layers.specs.Steps.{KeepsFilesBefore};

use crate::starts::{Now, Starts};
use lr_bits::{NoMemory, Origin, Placed, RawPacket};
use lr_mend::{MarkedFile, MendedFiles};
use lr_packet::check;

/// What joins good packets to files with origins.
#[derive(Drop)]
pub(crate) struct Joiner {
    pub files: MendedFiles,
    pub starts: Starts,
}

/// Appends a file with its origin, if there is one, and how many fillers it has, if that is counted.
fn push_file(
    marked: Option<MarkedFile>,
    origin: Origin,
    counted: bool,
    out: &mut Vec<Placed>,
    fillers: &mut Vec<u16>,
) -> Result<(), NoMemory>
    ensures added { OnOk result (found out.new.items fillers.new.items
        ≡ found_and counted (found out.old.items fillers.old.items)
        (map (with_origin origin) (option_to_list marked))) }
    ensures few { length out.new.items ≤ length out.old.items + 1 }
    ensures none { marked ≡ None → length out.new.items ≤ length out.old.items }
    ensures kept { KeepsFilesBefore (found out.old.items fillers.old.items) (found out.new.items fillers.new.items) }
{
    let Some(marked) = marked else {
        return Ok(());
    };
    if counted {
        fillers.push(marked.fillers)?;
    }
    let file = marked.file;
    out.push(Placed { file, origin })?;
    Ok(())
}

/// Checks a packet, appends the files that end with it and with its fillers, and answers whether it is good.
fn push_packet(
    raw: &RawPacket,
    now: Now,
    joiner: &mut Joiner,
    counted: bool,
    out: &mut Vec<Placed>,
    fillers: &mut Vec<u16>,
) -> Result<bool, NoMemory>
    ensures joins { (outcomes : List Outcome') (before : List PlacedPacket)
        → JoinerStandsFor joiner.old outcomes before → IsNow outcomes now
        → OnOk result (Joins (record {
          mend = joiner.old.files.images.most;
          counted = counted;
          outcomes = outcomes;
          place = now.start.place;
          before = before;
        }) (good_packets (raw.now ∷ [])) joiner.new (found out.old.items fillers.old.items)
        (found out.new.items fillers.new.items)) }
    ensures mend { joiner.new.files.images.most ≡ joiner.old.files.images.most }
    ensures succeeds { good_packets (raw.now ∷ []) ≡ [] → IsOk result }
    ensures good { IfOk result (λ good. (if good then 1 else 0) ≡ length (good_packets (raw.now ∷ []))) }
    ensures few { IfOk result (λ good. length out.new.items ≤ length out.old.items + 2 * (if good then 1 else 0)) }
    ensures few_plain { joiner.old.files.images.most ≡ 0
        → IfOk result (λ good. length out.new.items ≤ length out.old.items + (if good then 1 else 0)) }
    ensures kept { KeepsFilesBefore (found out.old.items fillers.old.items) (found out.new.items fillers.new.items) }
{
    match check(raw) {
        Err(_) => Ok(false),
        Ok(good) => {
            let before = joiner.starts.start_of(&good);
            let ended = joiner.files.push(&good)?;
            joiner.starts.note(&good, now.start)?;
            let since = joiner.starts.start_of(&good);
            let first = now.origin_from(before);
            push_file(ended.by_fillers, first, counted, out, fillers)?;
            let second = now.origin_from(since);
            push_file(ended.by_packet, second, counted, out, fillers)?;
            Ok(true)
        }
    }
}

/// Checks packets, appends the files that end with them, and answers how many are good.
pub(crate) fn push_packets(
    packets: &[RawPacket],
    now: Now,
    joiner: &mut Joiner,
    counted: bool,
    out: &mut Vec<Placed>,
    fillers: &mut Vec<u16>,
) -> Result<u64, NoMemory>
    ensures joins { (outcomes : List Outcome') (before : List PlacedPacket)
        → JoinerStandsFor joiner.old outcomes before → IsNow outcomes now
        → OnOk result (Joins (record {
          mend = joiner.old.files.images.most;
          counted = counted;
          outcomes = outcomes;
          place = now.start.place;
          before = before;
        }) (good_packets packets.now) joiner.new (found out.old.items fillers.old.items)
        (found out.new.items fillers.new.items)) }
    ensures mend { joiner.new.files.images.most ≡ joiner.old.files.images.most }
    ensures succeeds { good_packets packets.now ≡ [] → IsOk result }
    ensures good { IfOk result (λ good. good ≡ length (good_packets packets.now)) }
    ensures few { IfOk result (λ good. good ≤ length packets.now) }
    ensures few_files { IfOk result (λ good. length out.new.items ≤ length out.old.items + 2 * good) }
    ensures few_plain { joiner.old.files.images.most ≡ 0
        → IfOk result (λ good. length out.new.items ≤ length out.old.items + good) }
    ensures kept { KeepsFilesBefore (found out.old.items fillers.old.items) (found out.new.items fillers.new.items) }
{
    let mut good = 0;
    for raw in packets {
        if push_packet(raw, now, joiner, counted, out, fillers)? {
            good += 1;
        }
    }
    Ok(good)
}
