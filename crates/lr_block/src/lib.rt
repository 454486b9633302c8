//! Blocks as they are sent: the randomiser, four interleaved Reed-Solomon words, and what becomes of a received block
//! (CCSDS 131.0-B, the pseudo-randomiser, and section 4 with interleaving at depth 4). The standard calls a block a
//! codeblock, and a block with its marker a CADU, a channel access data unit.
//!
//! A frame is 892 bytes and a block 1,020, both as they are sent, the first byte first and of each byte the most
//! significant bit. Byte k of a block is byte k / 4 of word k % 4. Each word has 223 bytes of information and then 32
//! check bytes, so the frame is the first 892 bytes of its block.
//!
//! `encode_block` leads from a frame to its block, without the randomiser. `derandomise` adds the randomiser's
//! sequence or takes it away. `restore_block` restores all four words or names the first that has no codeword within
//! sixteen bytes, and `information` is the frame of a block. `outcome_of` does all that for a block as it is
//! received. The layers above rest on the function `outcome_of_block` of specs/Outcomes; `outcome_is_the_one` says
//! that it is the outcome as `IsOutcome` has it, for each block the only one. `take_word` and `put_word` copy one word.
//! Nothing here takes memory.
#![tactic(auto)]

mod encoding;
mod frames;
mod outcome;
mod randomiser;
mod restoring;
mod words;

pub use encoding::encode_block;
pub use frames::information;
pub use outcome::{outcome_is_the_one, outcome_of, restored_is_found, sent_is_received};
pub use randomiser::{derandomise, randomised_twice_is_the_same};
pub use restoring::{BlockLost, restore_block};
pub use words::{put_word, take_word};
