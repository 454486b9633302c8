//! The header and the record of version 1, which are read and no longer written.
ghost use Rattle.std.specs.Prelude.{◌≡◌, ◌∷◌, ◌++◌, [], OnOk, OnErr};
ghost use Rattle.lr_bits.specs.File.{IsFile};
ghost use Rattle.lr_shelf_format.specs.Header.{header_bytes};
ghost use Rattle.lr_shelf_format.specs.Items.{old_bytes};
ghost use Rattle.lr_shelf_format.specs.Record.{StartsWith};

use crate::header::header_of_version;
use crate::record::{fields_of_file, put_body, put_end};
use lr_bits::{Bytes, MissionFile, NoMemory};

/// The header of a complete shelf of this capacity, of version 1, and the closed gate after it.
pub fn old_header_of(capacity: u64) -> [u8; 20]
    ensures { result ≡ header_bytes 1 capacity ++ 0 ∷ [] }
{
    header_of_version(1, capacity)
}

/// Appends the Old item of the file and the closed gate after it, or leaves the bytes as they were.
pub fn old_record_of(file: &MissionFile, out: &mut Bytes) -> Result<(), NoMemory>
    ensures ok { OnOk result (out.new ≡ out.old ++ (old_bytes file.now ++ 0 ∷ [])) }
    ensures err { OnErr result (out.new ≡ out.old) }
    ensures file { IsFile file.now }
{
    let start = out.as_slice().len();
    match put_old(file, out) {
        Ok(()) => Ok(()),
        Err(NoMemory) => {
            out.truncate(start);
            Err(NoMemory)
        }
    }
}

/// Appends the Old item and the closed gate after it. Without memory a part of them may have been appended.
fn put_old(file: &MissionFile, out: &mut Bytes) -> Result<(), NoMemory>
    ensures ok { OnOk result (out.new ≡ out.old ++ (old_bytes file.now ++ 0 ∷ [])) }
    ensures err { OnErr result (StartsWith out.old out.new) }
    ensures file { IsFile file.now }
{
    let start = out.as_slice().len();
    out.extend(&fields_of_file(file))?;
    put_body(file, out)?;
    put_end(start, out)
}
