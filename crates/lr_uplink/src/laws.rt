//! The laws.

ghost use Rattle.lr_uplink.specs.Agreeing.{ZonesAgree};
ghost use Rattle.lr_uplink.specs.Received.{FilesAreReceived, SentFilesAreReceived};

/// The files of the frames that files are sent in are these files, in their order.
pub fn files_are_received()
    ensures { FilesAreReceived }
{}

/// The files of the symbols that files are sent in are these files, in their order, under every line code and wherever
/// the wrong bytes are.
pub fn sent_files_are_received()
    ensures { SentFilesAreReceived }
{}

/// Zones and pointers of the first ones of packets are those of all packets, as the test stream has them.
pub fn zones_agree()
    ensures { ZonesAgree }
{}
