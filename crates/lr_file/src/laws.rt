//! Laws of the files of a list of packets.

ghost use Rattle.lr_file.specs.Laws.{FilesAreSome, FilesFitThePackets, FilesKeepTheirOrder, OneFileEnds, OneFileIsOpen};
ghost use Rattle.lr_file.specs.Laws.{PacketAddsItsFile};

/// One packet more adds the file that ends with it, if one does, after those of the packets before.
pub fn a_packet_adds_its_file()
    ensures { PacketAddsItsFile }
{}

/// The files of the first packets of a list are the first of its files.
pub fn files_keep_their_order()
    ensures { FilesKeepTheirOrder }
{}

/// At most one file ends with a packet.
pub fn one_file_ends_with_a_packet()
    ensures { OneFileEnds }
{}

/// At most one file of a channel and application is open.
pub fn one_file_is_open()
    ensures { OneFileIsOpen }
{}

/// The files of packets weigh at most what the packets do, whatever the first and the last packet of a file and each
/// packet weigh besides the bytes of their bodies.
pub fn files_fit_the_packets()
    ensures { FilesFitThePackets }
{}

/// Each file has at least one body and ten bytes.
pub fn files_are_some()
    ensures { FilesAreSome }
{}
