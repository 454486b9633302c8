//! Redecoding: the outcome of a frame's window after several passes, where the words that are restored pin bits of the
//! path (state pinning; CCSDS 131.0-B, section 3.3 with section 4 at interleaving depth 4).
//!
//! The nearest path of a window gives a block of four words. Where some of them are restored, their bytes are known,
//! and the nearest path among the bit strings that agree with them (`lr_pinned`) is a better one: the words that
//! weren't restored are decoded again from its block. `Redecoded` in specs/ defines what is known after each pass, and
//! the outcome: that of one pass is the usual one (`one_pass_is_plain`), a frame that is restored stays so
//! (`restored_stays`), and after four passes nothing changes any more (`known_stays`).
//!
//! The four numbers of a restored frame are those of bytes in which a word differs from the block of the first path,
//! since they say what the channel did. A word that is restored from a later one may differ in more than sixteen.
#![tactic(auto)]

mod known;
mod laws;
mod pins;
mod redecoder;

pub use laws::{known_is_agreed, known_stays, one_pass_is_plain, restored_stays};
pub use redecoder::Redecoder;
