//! Laws on the bytes of shelves. Each is the contract of a function that does nothing.
ghost use Rattle.std.specs.Prelude.{ℕ, List};
ghost use Rattle.lr_shelf_format.specs.ShelfBytes.{HasOneReading, IsOneWalk};
ghost use Rattle.lr_shelf_format.specs.Way.{HasOneWay, HasWay, IsFoundOnce, IsFoundThere};
ghost use Rattle.lr_shelf_format.specs.declared.entry.Entry.{Entry};

/// That no bytes stand for two shelves.
pub fn shelf_has_one_reading()
    ensures { HasOneReading }
{}

/// That the bytes of a shelf have a walk, over the gates of its items.
pub fn shelf_is_one_walk()
    ensures { IsOneWalk }
{}

/// That the bytes of a shelf have the way of its items.
pub fn shelf_has_its_way()
    ensures { HasWay }
{}

/// That all bytes have one way, or one place at which they are no shelf, and not both.
pub fn bytes_have_one_way()
    ensures { (bytes : List ℕ) → HasOneWay bytes }
{}

/// That no two things stand at an entry.
pub fn entry_is_found_once()
    ensures { (bytes : List ℕ) (entry : Entry) → IsFoundOnce bytes entry }
{}

/// That something stands at each entry.
pub fn entry_is_found()
    ensures { (bytes : List ℕ) (entry : Entry) → IsFoundThere bytes entry }
{}
