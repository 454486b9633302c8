//! Laws of the packets of a list of frames.

ghost use Rattle.lr_vc.specs.Laws.{FramesAddTheirPackets, PacketsFitTheZones, PacketsKeepTheirOrder, StartsGoOn};

/// One frame more adds exactly the packets that end in it, after those of the frames before.
pub fn frames_add_their_packets()
    ensures { FramesAddTheirPackets }
{}

/// The packets of the first frames of a history are the first of its packets.
pub fn packets_keep_their_order()
    ensures { PacketsKeepTheirOrder }
{}

/// In each zone of a run the starts go on to the zone's end: none is left out.
pub fn starts_go_on()
    ensures { StartsGoOn }
{}

/// Packets fit the zones in which they came: they have at most 884 bytes for each frame that isn't fill.
pub fn packets_fit_the_zones()
    ensures { PacketsFitTheZones }
{}
