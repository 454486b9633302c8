//! The shelf, its disk, and what came onto it.
ghost use Rattle.std.specs.Prelude.{◌≡◌, ◌<◌, ◌⊎◌, ◌^◌};
ghost use Rattle.lr_downlinks.specs.Appending.{
  AppendsFile,
  WantsMemory,
  failed_after,
  book_view_of,
  downlink_file,
  downlink_files,
};
ghost use Rattle.lr_downlinks.specs.Merge.{times_in_order};

use crate::order::Order;
use crate::run_start::RunStart;
use crate::sizes::MOST_DOWNLINKS;
use lr_bits::Placed;
use lr_disk::Disk;
use lr_shelf::{Shelf, ShelfError, is_item};
use std::marker::{Model, PhantomData};

/// Appends the file to the shelf, and the downlink to the order. The order comes first, so memory for it is asked for
/// before the shelf may refuse the file.
fn append_file<D: Disk>(
    shelf: &mut Shelf,
    disk: &mut D,
    order: &mut Order,
    downlink: u8,
    placed: &Placed,
) -> Result<bool, ShelfError>
    requires known { downlink < MOST_DOWNLINKS }
    requires few { times_in_order downlink order.old < 2 ^ 63 }
    ensures { AppendsFile D.Disk (downlink_file downlink placed.now) (book_view_of shelf.old disk.old order.old)
        (book_view_of shelf.new disk.new order.new) result
        ⊎ WantsMemory (book_view_of shelf.old disk.old order.old) (book_view_of shelf.new disk.new order.new) result }
{
    order.push(downlink)?;
    match shelf.append(disk, placed) {
        Ok(_) => Ok(true),
        Err(error) => {
            order.take_back(downlink);
            Err(error)
        }
    }
}

/// Whether the disk failed, with the answer of the next append.
fn is_failed_after(failed: bool, answer: &Result<bool, ShelfError>) -> bool
    ensures { result ≡ failed_after failed answer.now }
{
    match answer {
        Err(ShelfError::Disk) => true,
        _ => failed,
    }
}

/// A shelf and its disk, on which the files of several downlinks come together. It keeps which downlink each file came
/// from, in the order in which they were appended. Its type keeps that they are a merge of the downlinks' files, and
/// that shelf and disk stand for them (`Books.KeepsBook`).
#[derive(Drop)]
pub struct Book<'a, N: RunStart<D>, D: Disk> {
    pub(crate) disk: &'a mut D,
    pub(crate) shelf: Shelf,
    pub(crate) order: Order,
    pub(crate) failed: bool,
    pub(crate) start: PhantomData<N>,
}

impl<'a, N: RunStart<D>, D: Disk> Model for Book<'a, N, D> {
    ghost use Rattle.lr_downlinks.specs.Books.{BookView};

    ghost Value = { BookView D };

    ghost use Rattle.lr_downlinks.specs.Books.{KeepsBook};

    ghost view = { λ b. record { shelf = b.shelf; disk = b.disk.now; order = b.order; failed = b.failed } };

    ghost invariant = { λ b. KeepsBook D.Disk N.start N.handed b.disk.ghost_name (record {
      shelf = b.shelf;
      disk = b.disk.now;
      order = b.order;
      failed = b.failed;
    }) };
}

impl<'a, N: RunStart<D>, D: Disk> Book<'a, N, D> {
    ghost use Rattle.std.specs.Prelude.{◌≡◌, ◌<◌, length};
    ghost use Rattle.lr_downlinks.specs.Appending.{AppendsNext};
    ghost use Rattle.lr_downlinks.specs.Books.{IsBookOf, StandsSince};
    ghost use Rattle.lr_downlinks.specs.Start.{files_in};

    /// Appends the next file of a downlink, whose files these are: the one after as many as were appended. `false`
    /// where there is none. Refused as `Shelf::append` is, but that memory for the order is asked for first: `NoMemory`
    /// may come in place of a refusal of the shelf. After a refusal but `Disk` the book is as it was.
    pub fn append_next(&mut self, downlink: u8, files: &[Placed]) -> Result<bool, ShelfError>
        requires known { downlink < length (N.start).streams }
        requires files { files.now ≡ files_in N.start downlink }
        ensures appends { AppendsNext D.Disk (downlink_files downlink files.now) self.old self.new result }
        ensures was { IsBookOf N.start self.old }
        ensures is { IsBookOf N.start self.new }
        ensures stood { StandsSince D.Disk N.start N.handed self.old }
        ensures stands { StandsSince D.Disk N.start N.handed self.new }
    {
        let place = self.order.count(downlink);
        let Some(placed) = files.get(place) else {
            return Ok(false);
        };
        is_item(&placed.file, placed.origin);
        let answer = append_file(
            &mut self.shelf,
            self.disk,
            &mut self.order,
            downlink,
            placed,
        );
        self.failed = is_failed_after(self.failed, &answer);
        answer
    }
}
