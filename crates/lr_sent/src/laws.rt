//! The laws.

ghost use Rattle.lr_sent.specs.Carried.{PacketsWereSent};
ghost use Rattle.lr_sent.specs.Made.{FillIsFill, MadeFilesFit, StreamIsReceived};
ghost use Rattle.lr_sent.specs.Sent.{BlocksAreReceived, SentIsReceived, SentIsRedecoded};

/// The symbols of blocks have the outcomes of the blocks, in their order, under every line code.
pub fn blocks_are_received()
    ensures { BlocksAreReceived }
{}

/// What is sent is received: the symbols of blocks that are sent for frames have these frames as their outcomes,
/// restored and in their order, under every line code and wherever the wrong bytes are.
pub fn sent_is_received()
    ensures { SentIsReceived }
{}

/// What is sent is received the same, however many passes are made over the windows: with one pass each frame is
/// restored.
pub fn sent_is_redecoded()
    ensures { SentIsRedecoded }
{}

/// Each packet that comes of a channel whose frames carry packets, one after another, is one of these.
pub fn packets_were_sent()
    ensures { PacketsWereSent }
{}

/// The symbols of the test stream are decoded to its frames, in their order, where each block is received as its
/// frame.
pub fn stream_is_received()
    ensures { StreamIsReceived }
{}

/// Each fourth frame of the test stream is of channel 63, the channel of fill.
pub fn fill_is_fill()
    ensures { FillIsFill }
{}

/// For the files of the first frames of the test stream, each with 2 bytes more for each body and 39 more for itself,
/// as many bytes are enough as the zones of these frames have, and of one frame more.
pub fn made_files_fit()
    ensures { MadeFilesFit }
{}
