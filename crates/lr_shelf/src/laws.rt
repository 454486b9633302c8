//! Laws on what stands on a shelf. Each is the contract of a function that changes nothing.
ghost use Rattle.lr_shelf.specs.InitialShelves.{FilesComeOntoShelves};
ghost use Rattle.lr_shelf_format.specs.Items.{IsItem, add_item};

use lr_bits::{MissionFile, Origin};

/// That bytes of a shelf that get files at their end stand for the shelf with these files.
pub fn files_come_onto_shelves()
    ensures { FilesComeOntoShelves }
{}

/// That a file and its origin make up an item: their types keep the numbers in their ranges.
pub fn is_item(file: &MissionFile, origin: Origin)
    ensures { IsItem (add_item file.now origin) }
{
    let _ = file.bytes();
}
