//! The commands of the station, and the words that give them.
//!
//! The first word names the command, and so what the words after it look like (`Shape`). They are read by one simple
//! `clap` command of that name, whose arguments are places that have to be there and options with one value. Numbers
//! and names are read here. `read_words` answers the command; `command_of` is its definition, in `clap`'s own words
//! for which lists of words a command takes and which values they give. A command carries the kind of its words, so
//! one whose words look like those of another is a variant of that kind (as `FileAction`) and a line in the table of
//! names: `shape_named`, and `shape_of`, its function.
#![tactic(auto)]

mod arguments;
mod command;
mod given;
mod laws;
mod lines;
mod numbers;
mod parsing;
mod read;
mod shape;
mod values;

pub use command::{Command, FileAction, FrameLines, IntakeAction, ShelfAction};
pub use laws::only_writers_may_write;
pub use lines::{NO_MEMORY, NO_TEXT, words_of};
pub use read::{read_words, runs_alone, writes_shelf};
