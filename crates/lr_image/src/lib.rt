//! Images of mission files: the faults of a file that has none, the pixels of one that has, and their text as PGM.
//!
//! `image_of` reads an image: its pixels stand in the data field one after another, most significant bit first, or they
//! are coded without loss, packet by packet (CCSDS 121.0-B, by the definitions of `lr_rice`). `Shapes` in specs/ says
//! which records are looked at and in which order the faults come, `Plain` and `Pieces` which pixels a data field has,
//! `Images` which image a file has, and `Pgm` how an image is written. `Laws` says that a file has one image or one
//! first fault.
//!
//! The steps of `image_of` are public for those who read an image in parts: `layout_of` reads the header, `next_piece`
//! gives the pieces of a losslessly coded image one after another, `most_pixels` tells for how many pixels memory is
//! taken, and `read_pixels` reads pixels from any bit on.
#![tactic(auto)]

mod coded;
mod fault;
mod image;
mod laws;
mod layout;
mod pgm;
mod pieces;
mod plain;
mod reading;
mod room;
mod shape;

pub use fault::ImageFault;
pub use image::{Image, whole_image};
pub use laws::{files_have_outcomes, outcomes_are_one};
pub use layout::{Layout, layout_of};
pub use pgm::{pgm_head, pgm_line, write_pixels};
pub use pieces::{PiecePlace, first_piece, next_piece};
pub use plain::{missing_pixels, read_pixels};
pub use reading::image_of;
pub use room::most_pixels;
pub use shape::{MOST_PIXELS, Shape, shape_of};
