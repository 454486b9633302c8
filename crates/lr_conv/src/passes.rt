//! How often a frame is decoded.

/// How many passes a decoder makes over a window. Each pass after the first takes the nearest path among those that
/// agree with the words that are restored already (redecoding with pinned states).
#[derive(Clone, Copy)]
pub enum Passes {
    One,
    Two,
    Three,
    Four,
}
