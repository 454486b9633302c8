//! What is true of every run.
ghost use Rattle.lr_causes.specs.Outside.{world_of};
ghost use Rattle.lr_station.specs.Laws.{OnlyWritersWrite, OnlyWritingWordsWrite};

use lr_disk::Disk;
use lr_io::{Sink, Source};

/// Every run of a command that may not write leaves the disk only read, whatever the disk tells; so does every run by
/// words of which `writes_shelf` is false, on several threads or on one.
pub fn only_writers_write<S: Source, D: Disk, O: Sink>()
    ensures commands { OnlyWritersWrite (world_of S.Source D.Disk O.Sink) }
    ensures words { OnlyWritingWordsWrite (world_of S.Source D.Disk O.Sink) }
{}
