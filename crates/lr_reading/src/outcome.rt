//! What becomes of a unit.
ghost use Rattle.std.specs.Prelude.{◌≡◌};
ghost use Rattle.lr_reading.specs.Arrivals.{HasWholeFrame};
ghost use Rattle.lr_reading.specs.Inputs.{unit_bytes, outcome_of_unit};

use lr_bits::{BLOCK_BYTES, Corrected, FRAME_BYTES, Outcome};
use lr_block::outcome_of;
use lr_forms::UnitForm;
use lr_rs::RsScratch;

/// What becomes of a block or a frame.
pub(crate) fn unit_outcome<const N: usize>(
    form: UnitForm,
    unit: &[u8; N],
    scratch: &mut RsScratch,
) -> Outcome
    requires { N ≡ unit_bytes form }
    ensures value { result ≡ outcome_of_unit form unit.now }
    ensures whole { HasWholeFrame result }
{
    match form {
        UnitForm::Blocks => {
            let mut block = [0; BLOCK_BYTES];
            block.copy_from_slice(&unit[..]);
            outcome_of(&block, scratch)
        }
        UnitForm::Frames => {
            let mut frame = [0; FRAME_BYTES];
            frame.copy_from_slice(&unit[..]);
            Outcome::Restored(Corrected([0; 4]), frame)
        }
    }
}
