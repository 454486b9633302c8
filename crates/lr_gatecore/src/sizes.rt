//! How large a ring may be, and the layout of its words.

/// The seats that a ring has at most: the conductor's, of number 0, and those of its workers.
pub const MOST_SEATS: u64 = 64;

/// The workers that a ring has at most, beside its conductor.
pub const MOST_HANDS: u32 = MOST_SEATS as u32 - 1;

/// The cells that a ring has at most.
pub const MOST_CELLS: u32 = 4 * MOST_SEATS as u32;

/// What a job's number is multiplied by in the word of its cell. Below it stand its stage, in 0 to 3, and four times
/// the number of the seat that is busy with it.
pub const WORD_BASE: u64 = 4 * MOST_SEATS;

/// The jobs that are put at most: the word of each is below 2^64.
pub const MOST_JOBS: u64 = u64::MAX / WORD_BASE + 1;
