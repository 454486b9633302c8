//! Marking a file as discarded, by an item of its own.

use crate::add::add;
use crate::error::ShelfError;
use crate::shelf::Shelf;
use crate::walk::mark;
use lr_bits::Failed;
use lr_disk::Disk;
use lr_shelf_format::discard_of;

impl Shelf {
    ghost use Rattle.lr_shelf.specs.Discards.{Discards};
    ghost use Rattle.lr_shelf.specs.Kept.{shelf_on};

    /// Discards the file of this number, and takes no memory. Refused, in this order, with `Failed`, `NoSuchFile`,
    /// `Discarded`, `Capacity`, after which disk and shelf are as before, and with `Disk`, after which the shelf
    /// answers `Failed` until it is loaded again.
    pub fn discard<D: Disk>(&mut self, disk: &mut D, number: u64) -> Result<(), ShelfError>
        ensures { Discards D.Disk number (shelf_on self.old disk.old) (shelf_on self.new disk.new) result }
    {
        let _entry = self.entry(number)?;
        let staged = discard_of(number);
        let needed = self.end.saturating_add(staged.len() as u64);
        let capacity = self.capacity;
        if needed > capacity {
            return Err(ShelfError::Capacity { needed, capacity });
        }
        match add(disk, self.end - 1, &staged) {
            Ok(()) => {
                mark(&mut self.entries, number as usize);
                self.end = needed;
                Ok(())
            }
            Err(Failed) => {
                self.failed = true;
                Err(ShelfError::Disk)
            }
        }
    }
}
