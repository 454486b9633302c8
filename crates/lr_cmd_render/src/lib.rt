//! `render`: the images of all files of a shelf, one after another, by all who work.
//!
//! A `RenderSource` leads the rounds of `lr_rounds` over the entries of a shelf. It reads the next entry when the image
//! before it has no strip left to give, gives the strips of the images in order, and keeps what comes of them. An image
//! is put once all its strips were kept, and what an entry is refused for waits until all earlier images were put. So
//! what is put doesn't depend on how many work. `Leading` in specs/ says what the job source has become by the strips
//! that it gave and kept. `render_alone` leads on the caller's thread, `render` with a thread for each other worker.
#![tactic(auto)]

mod content;
mod laws;
mod outcome;
mod queue;
mod render_source;
mod run;
mod sizes;
mod tally;

pub use laws::render_puts_images;
pub use run::{render, render_alone};
