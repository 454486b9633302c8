//! What becomes of a received block.
#![tactic(auto)]

ghost use Rattle.std.specs.Prelude.{◌≡◌};
ghost use Rattle.lr_block.specs.Outcomes.{
  IsOutcome,
  OutcomeIsTheOne,
  RestoredIsFound,
  SentBlockIsReceived,
  outcome_of_block,
};

use crate::frames::information;
use crate::randomiser::derandomise;
use crate::restoring::{BlockLost, restore_block};
use lr_bits::{BLOCK_BYTES, FRAME_BYTES, Outcome};
use lr_rs::RsScratch;

/// What becomes of a block as it is received: the randomiser's sequence is taken away and the block restored.
pub fn outcome_of(block: &[u8; BLOCK_BYTES], scratch: &mut RsScratch) -> Outcome
    ensures outcome { IsOutcome block.now result }
    ensures value { result ≡ outcome_of_block block.now }
{
    let mut plain = *block;
    derandomise(&mut plain);
    match restore_block(&mut plain, scratch) {
        Ok(corrected) => {
            let mut frame = [0u8; FRAME_BYTES];
            information(&plain, &mut frame);
            Outcome::Restored(corrected, frame)
        }
        Err(BlockLost(word)) => Outcome::Lost(word),
    }
}

/// That a word's restored word is found among all words of 255 bytes.
pub fn restored_is_found()
    ensures { RestoredIsFound }
{}

/// That each block has one outcome.
pub fn outcome_is_the_one()
    ensures { OutcomeIsTheOne }
{}

/// That an encoded frame, received with at most sixteen wrong bytes in each word, is restored.
pub fn sent_is_received()
    ensures { SentBlockIsReceived }
{}
