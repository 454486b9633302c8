//! Why a call of a station ends.
//!
//! A `Cause` has a status, which the call answers, and a line, which it puts on `err`. What a disk, a shelf or an image
//! is refused for is a `Refusal` with its values. `put_text` puts a text on `out`, or says why it could not.
#![tactic(auto)]

mod cause;
mod ended;
mod fault;
mod laws;
mod line;
mod note;
mod put;

pub use cause::{Cause, Party, Refusal};
pub use ended::cause_at;
pub use fault::{BundleFlaw, CodingFault, ExportFault};
pub use laws::statuses_have_one_kind;
pub use line::{Line, line_for};
pub use note::Note;
pub use put::put_text;
