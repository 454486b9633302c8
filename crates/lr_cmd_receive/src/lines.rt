//! The lines of files that are shelved, with their fillers where images are mended.
ghost use Rattle.std.specs.Prelude.{◌≡◌, ◌++◌, IfOk, OnOk, OnErr, string_bytes};
ghost use Rattle.lr_cmd_receive.specs.Shelving.{line_with, mended_line};

use lr_bits::{Bytes, MissionFile, NoMemory};
use lr_catalog::shelved_line;
use std::alloc::{AllocError, Global};

fn mended_text(
    alloc: Global,
    number: u64,
    file: &MissionFile,
    fillers: u16,
) -> Result<String, AllocError>
    ensures { IfOk result (λ line. string_bytes line ≡ mended_line number file.now fillers) }
{
    let vc = file.vc();
    let apid = file.apid();
    let counter = file.counter();
    let bytes = file.bytes().len();
    let packets = file.packets();
    format!(in alloc;
        "shelved {number} vc {vc} apid {apid} counter {counter} bytes {bytes} packets {packets} mended {fillers}\n"
    )
}

/// Appends the line of a file that was shelved, with its number of fillers, or nothing.
fn mended_line(
    alloc: Global,
    number: u64,
    file: &MissionFile,
    fillers: u16,
    out: &mut Bytes,
) -> Result<(), NoMemory>
    ensures ok { OnOk result (out.new ≡ out.old ++ mended_line number file.now fillers) }
    ensures err { OnErr result (out.new ≡ out.old) }
{
    let text = mended_text(alloc, number, file, fillers)?;
    out.extend(text.as_bytes())
}

/// Appends the line of a file that was shelved, or nothing. It tells the number of fillers where that is noted. Numbers
/// count from 0.
pub(crate) fn noted_line(
    alloc: Global,
    number: u64,
    file: &MissionFile,
    fillers: Option<u16>,
    out: &mut Bytes,
) -> Result<(), NoMemory>
    ensures ok { OnOk result (out.new ≡ out.old ++ line_with number file.now fillers) }
    ensures err { OnErr result (out.new ≡ out.old) }
{
    match fillers {
        None => shelved_line(alloc, number, file, out),
        Some(fillers) => mended_line(alloc, number, file, fillers, out),
    }
}
