//! The nearest path of a frame's window, as `lr_trellis` defines and finds it, found by 32 lanes at once: a Viterbi
//! decoder in vectors.
//!
//! A window goes in as 16,332 symbols with a line code, and 1,020 bytes come out: those of its nearest path, the first
//! bit of each the most significant one. The forward pass keeps the least costs of the 64 states in two vectors, the
//! states 0 to 31 and those above, and each step adds, compares, selects, and packs 64 decisions into a word. What a
//! step leads to stands in two vectors at first, the even states and the odd ones, and one fixed permutation brings
//! them back into the order of their numbers. The way back is that of `lr_trellis`.
//!
//! `nearest_lanes` has lanes of 32 bits. A path of 8,166 steps costs at most 4,148,328, so no sum passes 2^24.
//!
//! `nearest_narrow_lanes` has lanes of sixteen bits, so a vector has twice as many states, and it is the faster one.
//! Its first six steps are those of `nearest_lanes`. After them every state has been reached from every other one, so
//! the costs of two states differ by at most 3,048. From there on a lane holds the cost of its state less a number that
//! is the same for all lanes, so a comparison of two lanes is that of their costs.
//!
//! Each step takes 254 off all lanes, half of the most that it costs. What a level then costs is the negative of what
//! the other one costs, so a step has one vector of costs, which is added to lanes and taken off others. It comes from
//! two tables. Every 32 steps the lanes are led back to where they were at first, and the number changes by as much.
//!
//! These lanes aren't in the order of the states: of each 32 the second and the third eight have changed places
//! (`lane_of`). Where a register has sixteen lanes, the costs are then the same for both registers of a vector, and its
//! instructions that join two registers half by half give what a step leads to, and the word, in the right order.
//!
//! The two have one contract. The first is the plainer text, and what it answers is compared with the second's.
#![tactic(auto)]

mod cost_rows;
mod decode;
mod forward;
mod lanes;
mod narrow_forward;
mod narrow_lanes;
mod narrow_step;
mod scratch;
mod step;

pub use decode::{nearest_lanes, nearest_narrow_lanes};
pub use scratch::LaneScratch;
