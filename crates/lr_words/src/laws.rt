//! What is true of all words.
ghost use Rattle.lr_words.specs.Commands.{OnlyWritersMayWrite};

/// Where `writes_shelf` is false of words, the command that they give isn't one that may change the shelf.
pub fn only_writers_may_write()
    ensures { OnlyWritersMayWrite }
{}
