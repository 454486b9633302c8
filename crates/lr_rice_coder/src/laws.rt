//! What holds of all codings.

ghost use Rattle.lr_rice_coder.specs.Laws.{CodedIsDecoded, CodedLinesAreOne, DecodingGivesTheLine, FillingsAreWhole};
ghost use Rattle.lr_rice_coder.specs.Laws.{NoCodingIsShorter};
ghost use Rattle.lr_rice_coder.specs.Laws.{RepackedKeepsImage, RepackedKeepsName, RepackedTellsLengths};
ghost use Rattle.lr_rice_coder.specs.Laws.{RepacksAreOne, ShortestCodesLine};

/// The string that `code_line` appends codes the line's mapped values, and the line.
pub fn shortest_codes_line()
    ensures { ShortestCodesLine }
{}

/// No coding of the same mapped values is shorter, whichever number stands in it as the reference.
pub fn no_coding_is_shorter()
    ensures { NoCodingIsShorter }
{}

/// What `code_line` appends begins with a coding of this line, so that decoding gives the line back.
pub fn coded_is_decoded()
    ensures { CodedIsDecoded }
{}

/// Decoding one line of what `code_line` appends gives the samples of the line.
pub fn decoding_gives_the_line()
    ensures { DecodingGivesTheLine }
{}

/// A line has one list of bytes.
pub fn coded_lines_are_one()
    ensures { CodedLinesAreOne }
{}

/// A string fills as many bytes as its bits need.
pub fn fillings_are_whole()
    ensures { FillingsAreWhole }
{}

/// A file that is coded anew has the image of the old one.
pub fn repacked_keeps_image()
    ensures { RepackedKeepsImage }
{}

/// It has the channel, the application and the file counter of the old one.
pub fn repacked_keeps_name()
    ensures { RepackedKeepsName }
{}

/// It tells its lengths as they are.
pub fn repacked_tells_lengths()
    ensures { RepackedTellsLengths }
{}

/// A file is coded anew in one way, or has one first refusal, and not both. So `repack` refuses exactly where a refusal
/// stands, as long as there is memory.
pub fn repacks_are_one()
    ensures { RepacksAreOne }
{}
