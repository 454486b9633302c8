//! The field GF(2^8) of CCSDS 131.0-B, section 4, its dual basis, and small linear systems over it.
//!
//! An element is a byte: bit i is the coefficient of x^i in a polynomial of degree below 8. A sum is the
//! exclusive or, a product the carry-less product modulo x^8 + x^7 + x^2 + x + 1. The powers of 2, the
//! class of x, are all elements but 0, and come round after 255.
//!
//! A conventional byte is an element. On the channel it stands in the dual basis, most significant bit
//! first: `to_dual` and `from_dual` lead there and back.
//!
//! A polynomial is the slice of its coefficients, the highest power first. A `System` has 16 rows of 17
//! entries; `kernel` finds a vector other than 0 that its rows send to 0, and `solve` a solution of its
//! equations, each wherever there is one. Nothing here takes memory. The files `Field`, `Dual` and
//! `Systems` of specs/ are what the layers above rest on.
#![tactic(auto)]

mod dual;
mod element;
mod system;
mod tables;

pub use dual::{from_dual, to_dual};
pub use element::{Gf, value};
pub use system::{NoSolution, System};
