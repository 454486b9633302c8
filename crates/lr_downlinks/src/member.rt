//! The work on one downlink.
ghost use Rattle.std.specs.Prelude.{◌≡◌, ◌<◌, ◌≤◌, length, IfOk};
ghost use Rattle.lr_downlinks.specs.Members.{AreMembers, IsMember};
ghost use Rattle.lr_downlinks.specs.Start.{files_in};

use crate::book::Book;
use crate::bundle::Bundle;
use crate::files::files_of;
use crate::run_start::RunStart;
use crate::sizes::MOST_DOWNLINKS;
use lr_bits::{NoMemory, Placed};
use lr_conv::LineCode;
use lr_disk::Disk;
use std::alloc::Global;
use std::sync::{Mutex, Wait};

/// A downlink, and its files, once they are there.
#[derive(Drop)]
pub(crate) struct Member {
    pub(crate) downlink: u8,
    pub(crate) files: Option<Vec<Placed>>,
}

/// A member for each downlink, without its files.
pub(crate) fn new_members<N: RunStart<D>, D>(
    alloc: Global,
    count: usize,
) -> Result<Vec<Member>, NoMemory>
    requires count { count ≡ length (N.start).streams }
    requires few { count ≤ MOST_DOWNLINKS }
    ensures { IfOk result (λ members. AreMembers N.start members.items) }
{
    let mut members = Vec::with_capacity(alloc, count)?;
    for downlink in 0..count {
        members.push(Member {
            downlink: downlink as u8,
            files: None,
        })?;
    }
    Ok(members)
}

/// Appends the files in their order, until one is refused. What is left over the caller of the threads appends.
fn append_files<N: RunStart<D>, D: Disk, R: Wait>(
    rt: &R,
    book: &Mutex<Book<'_, N, D>>,
    downlink: u8,
    files: &[Placed],
)
    requires known { downlink < length (N.start).streams }
    requires files { files.now ≡ files_in N.start downlink }
{
    for _ in 0..files.len() {
        let Ok(true) = book.lock(rt).append_next(downlink, files) else {
            return;
        };
    }
}

/// Finds the files of the downlink, and appends them.
pub(crate) fn work<N: RunStart<D>, D: Disk, R: Wait>(
    rt: &R,
    alloc: Global,
    bundle: &Bundle,
    line: LineCode,
    book: &Mutex<Book<'_, N, D>>,
    member: &mut Member,
)
    requires streams { bundle.now ≡ (N.start).streams }
    requires line { line ≡ (N.start).line }
    requires known { member.old.downlink < length (N.start).streams }
    ensures { IsMember N.start member.old.downlink member.new }
{
    let downlink = member.downlink;
    member.files = None;
    if let Ok(files) = files_of(alloc, bundle.stream(downlink as usize), line) {
        append_files(rt, book, downlink, &files);
        member.files = Some(files);
    }
}
