//! The sizes of the services, each with its unit, and the numbers that the standards give to fields.

/// The bytes of a transfer frame (CCSDS 732.0-B, in the length of the LRIT and HRIT services).
pub const FRAME_BYTES: usize = 892;

/// The bytes of a frame's packet zone, after its header of 8 bytes.
pub const ZONE_BYTES: usize = 884;

/// How many virtual channels there are: their numbers have 6 bits (CCSDS 732.0-B).
pub const CHANNELS: usize = 64;

/// The channel of fill frames, the last one (CCSDS 732.0-B).
pub const FILL_CHANNEL: u8 = CHANNELS as u8 - 1;

/// How many frame counts there are: they have 24 bits (CCSDS 732.0-B, section 4.1.2.4).
pub const FRAME_COUNTS: u32 = 1 << 24;

/// The first header pointer of a zone in which no packet starts (CCSDS 732.0-B, section 4.1.4.2).
pub const NO_PACKET_START: u16 = 2_047;

/// The bytes of a received block: four Reed-Solomon words of 255 bytes, interleaved (CCSDS 131.0-B).
pub const BLOCK_BYTES: usize = 1_020;

/// The symbols of a frame: those of its marker of 32 bits and of its block, two for each bit.
pub const FRAME_SYMBOLS: usize = 16_384;

/// The symbols of a frame's window: those of its block, and of the first six bits of the next marker.
pub const WINDOW_SYMBOLS: usize = 16_332;

/// The bytes of a packet's header (CCSDS 133.0-B).
pub const PACKET_HEADER_BYTES: usize = 6;

/// The application identifier of idle packets (CCSDS 133.0-B), the last one.
pub const IDLE_APPLICATION: u16 = 2_047;

/// How many sequence counts there are: the packets of an application are counted in 14 bits (CCSDS 133.0-B, section
/// 4.1.3).
pub const SEQUENCE_COUNTS: u16 = 1 << 14;

/// The most bytes of a packet's body, whose data field of 65,536 bytes at most has a checksum of two at its end.
pub const MOST_BODY_BYTES: usize = 65_534;

/// The bytes of a transport header, which each file has (CGMS 03).
pub const TRANSPORT_HEADER_BYTES: usize = 10;

/// The most bodies that a file has.
pub const MOST_FILE_BODIES: usize = 1_048_576;

/// The most bytes that a file has, with its transport header.
pub const MOST_FILE_BYTES: usize = 67_108_864;
