//! Laws of mended packets.

ghost use Rattle.lr_mend.specs.FileLaws.{FilesAreAmongMended, NoFileIsMended, OneFileEndsAGap, PacketAddsMendedFiles};
ghost use Rattle.lr_mend.specs.Laws.{FilesStay, FillersAreFew, MendedGoOn, NothingIsMended, PacketAddsItsFillers};
ghost use Rattle.lr_mend.specs.Laws.{PacketsStay};

/// Where no fillers are allowed, the packets are as they came.
pub fn nothing_is_mended()
    ensures { NothingIsMended }
{}

/// One packet more adds itself, and before it its fillers, after all that the packets before it made.
pub fn a_packet_adds_its_fillers()
    ensures { PacketAddsItsFillers }
{}

/// Without the fillers they are the packets that came.
pub fn packets_stay()
    ensures { PacketsStay }
{}

/// A file that ends with a packet ends with it where fillers stand among the packets before it too.
pub fn files_stay()
    ensures { FilesStay }
{}

/// The mended packets of the first packets of a list are the first of its mended packets.
pub fn mended_packets_go_on()
    ensures { MendedGoOn }
{}

/// A file has at most as many fillers as are allowed.
pub fn fillers_are_few()
    ensures { FillersAreFew }
{}

/// One packet more adds the files that end with it, or with the fillers before it.
pub fn a_packet_adds_mended_files()
    ensures { PacketAddsMendedFiles }
{}

/// Where no fillers are allowed, the files are those of the packets as they came.
pub fn no_file_is_mended()
    ensures { NoFileIsMended }
{}

/// Each file of the packets as they came is among those of the mended ones, as it is, and in the same order.
pub fn files_are_among_mended()
    ensures { FilesAreAmongMended }
{}

/// At most one file ends with the fillers before a packet.
pub fn one_file_ends_a_gap()
    ensures { OneFileEndsAGap }
{}
