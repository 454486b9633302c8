//! Laws of mended files, of their headers and images, and of what `discard` and `repack` decide. Nothing stands on this
//! crate.
#![tactic(auto)]

mod additions;
mod mending;

pub use additions::{additions_are_decided, additions_are_one, repacks_have_outcomes};
pub use mending::{
    a_mark_names_the_fillers, a_marked_file_has_one_record_more, kept_lines_are_the_same,
    kept_pixels_are_the_same, made_ends_come, mended_images_come, only_images_have_fillers,
    sent_images_are_read, whole_files_are_those_that_came,
};
