//! Why no PGM can be put, why an image isn't coded anew, and why bytes are no bundle of recordings.

/// Why no PGM can be put: the fault of an image or of an assembly, without its values, or that no segment was met.
#[derive(Clone, Copy)]
pub enum ExportFault {
    /// The header of the file can't be read.
    Headers,
    /// The file type isn't that of images.
    NotImage,
    /// There is no image structure record.
    NoStructure,
    /// The file is encrypted.
    Encrypted,
    /// It is compressed in a way that isn't decoded.
    Compression,
    /// A pixel has a number of bits that isn't read.
    Depth,
    /// The image has no columns or no lines.
    Empty,
    /// The image has more than 268,435,456 pixels.
    TooLarge,
    /// The lossless record lacks the flag of value 32, the unit delay predictor.
    Flags,
    /// The lossless record has a number of samples that no block has.
    BlockSize,
    /// The lossless record says that a packet has no lines.
    LinesPerPacket,
    /// A piece of coded lines can't be decoded.
    Rice,
    /// There are fewer pixels than columns times lines.
    Short,
    /// The pixels of a segment have other bits than those before it.
    Depths,
    /// A segment passes the columns or the lines of the whole image.
    Outside,
    /// No segment of the image was met whose own image can be read.
    NoSegment,
}

impl ExportFault {
    ghost use Rattle.std.specs.Prelude.{◌≡◌};
    ghost use Rattle.lr_causes.specs.Faults.{fault_word};

    /// Its word on `err`.
    pub fn word(self) -> &'static str
        ensures { result.now ≡ fault_word self }
    {
        match self {
            ExportFault::Headers => "headers",
            ExportFault::NotImage => "not-image",
            ExportFault::NoStructure => "no-structure",
            ExportFault::Encrypted => "encrypted",
            ExportFault::Compression => "compression",
            ExportFault::Depth => "depth",
            ExportFault::Empty => "empty",
            ExportFault::TooLarge => "too-large",
            ExportFault::Flags => "flags",
            ExportFault::BlockSize => "block-size",
            ExportFault::LinesPerPacket => "lines-per-packet",
            ExportFault::Rice => "rice",
            ExportFault::Short => "short",
            ExportFault::Depths => "depths",
            ExportFault::Outside => "outside",
            ExportFault::NoSegment => "no-segment",
        }
    }
}

/// Why an image isn't coded anew: it has fewer than 5 bits a pixel, or a line, the header or the file would be too
/// long.
#[derive(Clone, Copy)]
pub enum CodingFault {
    /// A pixel has fewer than 5 bits.
    Depth,
    /// A line would take more than 65,534 bytes.
    Line,
    /// The first body would have more than 65,534 bytes.
    Header,
    /// The file would have more than 67,108,864 bytes.
    File,
}

impl CodingFault {
    ghost use Rattle.std.specs.Prelude.{◌≡◌};
    ghost use Rattle.lr_causes.specs.Faults.{coding_word};

    /// Its word on `err`.
    pub fn word(self) -> &'static str
        ensures { result.now ≡ coding_word self }
    {
        match self {
            CodingFault::Depth => "depth",
            CodingFault::Line => "line",
            CodingFault::Header => "header",
            CodingFault::File => "file",
        }
    }
}

/// Why bytes are no bundle of recordings: they end before it does, or begin with a count that no bundle has, or go on
/// after it, or are more than a bundle can have.
#[derive(Clone, Copy)]
pub enum BundleFlaw {
    /// The bytes end here, and a bundle that begins with them goes on.
    Ended { at: u64 },
    /// The first byte is no number of recordings.
    Count { count: u8 },
    /// A bundle ends here, and further bytes follow.
    Rest { at: u64 },
    /// There are more bytes than a bundle has at most.
    TooLong,
}
