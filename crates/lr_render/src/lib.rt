//! Images in strips: whole lines, which are decoded apart from each other and put together again.
//!
//! A `Plan` cuts the image of a mission file into strips, in order: a piece of a losslessly coded image, or at most 64
//! lines and 65,536 pixels of one that isn't compressed. `RenderWork` decodes a strip, whoever does it and in which
//! order. The plan keeps what comes of the strips, in their order, and becomes the image that `lr_image` defines, or
//! its first fault. `Strips` in specs/ says what a strip is and which pixels it has, `Tiling` which strips an image
//! has, `Making` what strips make together, and `Plans` what a plan shows.
#![tactic(auto)]

mod alone;
mod cut;
mod decode;
mod done;
mod giving;
mod keeping;
mod laws;
mod plan;
mod strip;
mod work;

pub use alone::outcome_in_strips;
pub use cut::{MOST_STRIP_LINES, MOST_STRIP_PIXELS};
pub use done::DoneStrip;
pub use laws::{refusals_are_faults, strips_have_one_outcome, strips_make_the_image};
pub use plan::Plan;
pub use strip::{Coding, Strip, StripSource};
pub use work::RenderWork;
