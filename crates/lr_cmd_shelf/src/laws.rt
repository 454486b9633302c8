//! What is true of all bytes.
ghost use Rattle.lr_cmd_shelf.specs.Laws.{
  BegunComesFirst,
  ExportHasReasons,
  ExtractHasReasons,
  OneFilePutsOneText,
  ShowHasReasons,
  HasAnAnswer,
  HasOneAnswer,
  VerifyHasReasons,
};

/// Bytes have an answer to each thing that a command asks: a text, or a refusal.
pub fn bytes_have_an_answer()
    ensures { HasAnAnswer }
{}

/// They have one answer at most: so a run is refused for one thing, the first.
pub fn bytes_have_one_answer()
    ensures { HasOneAnswer }
{}

/// What a run puts before an event ends it is a prefix of what it would have put.
pub fn begun_texts_come_first()
    ensures { BegunComesFirst }
{}

/// What `extract` is refused for, reason by reason, and what it puts.
pub fn extract_has_reasons()
    ensures { ExtractHasReasons }
{}

/// What `show` is refused for, reason by reason, and what it puts.
pub fn show_has_reasons()
    ensures { ShowHasReasons }
{}

/// A command on a file's number puts the text of one entry, and nothing else: so do `extract`, `export` and `show`.
pub fn one_file_puts_one_text()
    ensures { OneFilePutsOneText }
{}

/// What `export` is refused for, reason by reason, and what it puts.
pub fn export_has_reasons()
    ensures { ExportHasReasons }
{}

/// What `verify` is refused for, reason by reason.
pub fn verify_has_reasons()
    ensures { VerifyHasReasons }
{}
