//! Commands on a shelf, and what they put and answer.
use lr_bits::{MissionFile, Origin, Placed};
use lr_causes::Cause;
use lr_cmd_shelf::discard::discard;
use lr_cmd_shelf::export::export;
use lr_cmd_shelf::extract::extract;
use lr_cmd_shelf::list::list;
use lr_cmd_shelf::repack::repack;
use lr_cmd_shelf::show::show;
use lr_cmd_shelf::verify::verify;
use lr_disk::MemDisk;
use lr_io::MemSink;
use lr_shelf::Shelf;
use lr_trials_support::{is_number, is_text};
use std::alloc::Global;
use std::test::Fail;

/// A command, with the number of its file. Images are coded anew in blocks of 8.
#[derive(Clone, Copy, Debug)]
pub(crate) enum Call {
    Extract(u64),
    Verify,
    Discard(u64),
    List,
    Show(u64),
    Export(u64),
    Repack(u64),
}

fn called(alloc: Global, call: Call, made: &mut MemDisk, out: &mut MemSink) -> Cause {
    match call {
        Call::Extract(number) => extract(alloc, number, made, out),
        Call::Verify => verify(alloc, made, out),
        Call::Discard(number) => discard(alloc, number, made, out),
        Call::List => list(alloc, made, out),
        Call::Show(number) => show(alloc, number, made, out),
        Call::Export(number) => export(alloc, number, made, out),
        Call::Repack(number) => repack(alloc, number, 8, made, out),
    }
}

/// What came of a command.
#[derive(Drop)]
pub(crate) struct Outcome {
    pub(crate) cause: Cause,
    pub(crate) out: MemSink,
}

/// What comes of a command that has this much room for what it puts.
pub(crate) fn ended(
    alloc: Global,
    made: &mut MemDisk,
    call: Call,
    room: usize,
) -> Result<Outcome, Fail> {
    let mut out = MemSink::of(alloc, Vec::new(alloc), room)?;
    let cause = called(alloc, call, made, &mut out);
    Ok(Outcome { cause, out })
}

/// Whether it ends with this status, and puts this. Where it doesn't, the failure says in which case, and what differs.
pub(crate) fn ends(
    alloc: Global,
    case: &str,
    made: &mut MemDisk,
    call: Call,
    room: usize,
    wanted: (u8, &[u8]),
) -> Result<bool, Fail> {
    let Outcome { cause, out } = ended(alloc, made, call, room)?;
    let status = u64::from(cause.status());
    Ok(
        is_number(
            format_args!("{case}, {call:?}: the status"),
            status,
            u64::from(wanted.0),
        )? && is_text(
            format_args!("{case}, {call:?}: out"),
            out.as_slice(),
            wanted.1,
        )?,
    )
}

/// Adds a file, which came with the outcome 0.
pub(crate) fn add(alloc: Global, made: &mut MemDisk, file: MissionFile) -> Result<(), Fail> {
    let origin = Origin {
        first: 0,
        last: 0,
        corrected: 0,
    };
    let mut shelf = Shelf::load(alloc, made)?;
    shelf.append(made, &Placed { file, origin })?;
    Ok(())
}
