//! The laws that a file has an outcome, its image or its first fault, and only one.

ghost use Rattle.lr_image.specs.Laws.{FilesHaveOutcomes, OutcomesAreOne};

/// A file has one image, or one first fault, and not both. So `image_of` answers an image exactly where there is one,
/// and a fault exactly where that is the first, as long as there is memory.
pub fn outcomes_are_one()
    ensures { OutcomesAreOne }
{}

/// Each file has an image or a first fault.
pub fn files_have_outcomes()
    ensures { FilesHaveOutcomes }
{}
