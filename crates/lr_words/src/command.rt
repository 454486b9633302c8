//! The commands that words give, with their numbers.

use lr_conv::LineCode;
use lr_forms::{Input, Output};

/// A command with what its words say.
#[derive(Clone, Copy)]
pub enum Command {
    /// Makes an empty shelf of this many bytes.
    Init {
        capacity: u64,
    },
    /// Lines of the transfer frames; at most `most` bytes are taken.
    Frames {
        lines: FrameLines,
        most: u64,
    },
    /// Work on a stream; at most `most` bytes are taken. Of symbols this many work on windows, the caller among them.
    Intake {
        action: IntakeAction,
        input: Input,
        workers: u32,
        most: u64,
    },
    /// Puts each mission file of the recordings of a bundle onto the shelf, symbols of this line code.
    Downlinks {
        line: LineCode,
    },
    /// Something on all entries.
    OnShelf(ShelfAction),
    /// Something on the file of this number.
    OnFile(FileAction, u64),
    /// The images of all files, as PGM. This many work on strips of them, the caller among them.
    Render {
        workers: u32,
    },
    /// The segments of the image of this identifier among the files of this application, put together: those of the
    /// entries from one number up to another.
    Assemble {
        from: u64,
        to: u64,
        apid: u16,
        image: u16,
    },
    /// The symbols of the files of the entries from one number up to another, with `wrong` wrong bytes in each word,
    /// under this line code.
    Transmit {
        from: u64,
        to: u64,
        wrong: u8,
        line: LineCode,
    },
    /// Codes the image of the file of this number anew, in blocks of this many samples, and adds the file.
    Repack {
        number: u64,
        block: u32,
    },
    /// `frames` frames of the test stream of this start, with `wrong` wrong bytes in each word, in this form.
    Make {
        start: u64,
        frames: u64,
        wrong: u8,
        form: Output,
    },
    /// The main job on `frames` frames of that stream: the symbols are made and received onto a shelf that is made for
    /// them. This many work on windows, the caller among them.
    Trial {
        start: u64,
        frames: u64,
        wrong: u8,
        workers: u32,
    },
}

/// What is printed of the transfer frames.
#[derive(Clone, Copy)]
pub enum FrameLines {
    /// A line for each transfer frame.
    Frames,
    /// A line for each packet of the transfer frames.
    Packets,
}

/// What is done with a stream.
#[derive(Clone, Copy)]
pub enum IntakeAction {
    /// A line for what became of each window or block.
    Decode,
    /// Puts each mission file onto the shelf. An image that lacks packets gets this many fillers at most; with 0 none
    /// is mended.
    Receive { mend: u16 },
}

/// What is done with all entries.
#[derive(Clone, Copy)]
pub enum ShelfAction {
    /// A line for each entry, and one for the shelf.
    List,
    /// A line for each file's checksum.
    Verify,
}

/// What is done with the file of a number.
#[derive(Clone, Copy)]
pub enum FileAction {
    /// Puts its bytes.
    Extract,
    /// Puts its line, and a line for each record of its header.
    Show,
    /// Puts its image as PGM.
    Export,
    /// Discards its entry.
    Discard,
}
