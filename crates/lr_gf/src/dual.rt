//! The dual basis of CCSDS 131.0-B, and the way back out of it.
#![tactic(auto)]

ghost use Rattle.std.specs.Prelude.{◌≡◌};
ghost use Rattle.lr_gf.specs.Dual.{dual_of, conventional_of};

use crate::tables::{FROM_DUAL, TO_DUAL};

/// A conventional byte in the dual basis.
pub fn to_dual(byte: u8) -> u8
    ensures to { result ≡ dual_of byte }
    ensures back { conventional_of result ≡ byte }
{
    TO_DUAL[byte as usize]
}

/// A byte of the dual basis as the conventional byte.
pub fn from_dual(byte: u8) -> u8
    ensures from { result ≡ conventional_of byte }
    ensures back { dual_of result ≡ byte }
{
    FROM_DUAL[byte as usize]
}
