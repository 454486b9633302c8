//! Reed-Solomon (255,223) as CCSDS 131.0-B, section 4, has it: words are encoded, and restored
//! exactly.
//!
//! A word is 255 bytes in the dual basis (the section's dual basis symbol representation), most
//! significant bit first; 223 of them are information, the other 32 check bytes. The way back out of
//! the dual basis makes byte i the coefficient of x^(254 - i), and a codeword is a word whose
//! polynomial is zero at α^(11 j) for each j in 112..143. No symbols are interleaved here, but
//! `Remainder` divides a word byte by byte, so that words which come interleaved need no copies.
//!
//! `encode` gives the codeword that begins with the information. `restore` leads a word to the
//! codeword that differs from it in at most sixteen bytes, wherever there is one;
//! `at_most_one_is_restored` is the law that there is never a second. Nothing here takes memory:
//! `RsScratch` holds the working arrays, and serves one call after another. The file `Words` of
//! specs/ is what the layers above rest on.
#![tactic(auto)]

mod correction;
mod division;
mod encoding;
mod equations;
mod generator;
mod restoring;
mod roots;
mod sizes;
mod syndromes;
mod terms;

ghost use Rattle.lr_rs.specs.Words.{AtMostOneIsRestored};

pub use correction::distance_of;
pub use division::Remainder;
pub use encoding::encode;
pub use restoring::{BeyondSixteen, RsScratch, restore};
pub use sizes::{CHECK_BYTES, INFORMATION_BYTES, WORD_BYTES};

/// At most one codeword differs from a word in at most sixteen bytes.
pub fn at_most_one_is_restored()
    ensures { AtMostOneIsRestored }
{}
