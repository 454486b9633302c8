//! Laws of strips and images.

ghost use Rattle.lr_render.specs.Laws.{RefusalsAreFaults, StripsHaveOneOutcome, StripsMakeTheImage};

/// A strip has one outcome: its pixels, or the fault of its lines and pixels of 0, follow from what they are read from.
pub fn strips_have_one_outcome()
    ensures { StripsHaveOneOutcome }
{}

/// What the strips of an image make together, kept in their order, is the image: its pixels, or its first fault.
pub fn strips_make_the_image()
    ensures { StripsMakeTheImage }
{}

/// Where there is no plan of a file's image, that is for the first fault of the file.
pub fn refusals_are_faults()
    ensures { RefusalsAreFaults }
{}
