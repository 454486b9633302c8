//! Images that come in segments, put together.
//!
//! An `Assembly` takes the segments of one image one after another; where two cover a place, the later one counts. It
//! is seen as a `Canvas`, and `CanvasStandsFor` says which canvas a list of segments has.
#![tactic(auto)]

mod assembly;
mod fault;
mod rows;

pub use assembly::Assembly;
pub use fault::AssembleFault;
