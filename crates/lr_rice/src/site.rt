//! Where a part of a line stands.

ghost use Rattle.std.specs.Prelude.{◌≡◌, ◌≤◌, ◌%◌};

/// What stands where in a line.
#[derive(Clone, Copy)]
pub(crate) struct Site {
    /// How many bits a sample has.
    pub bits: u32,
    /// How many samples a block has.
    pub block: u32,
    /// Whether it is the first block of the line.
    pub first: bool,
    /// How many blocks are left in the segment.
    pub left: u32,
    ghost least_bits: { 5 ≤ bits },
    ghost most_bits: { bits ≤ 16 },
    ghost least_block: { 2 ≤ block },
    ghost most_block: { block ≤ 64 },
    ghost even: { block % 2 ≡ 0 },
    ghost least_left: { 1 ≤ left },
    ghost most_left: { left ≤ 64 },
}
