//! Why a call of a station ends where a shelf, an image or an assembly of segments was refused.
//!
//! `lr_causes` knows nothing of shelves and images. Here stands what each of their errors is as a `Cause`. Each is a
//! function of the error, or of the whole answer, so a want of memory comes only of a want of memory there.
#![tactic(auto)]

mod causes;

pub use causes::{assembly_cause, file_or_gone, image_cause, shelf_answer, shelf_cause};
