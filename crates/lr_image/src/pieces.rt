//! The parts of a file's bodies that lie in its data field.

ghost use Rattle.std.specs.Prelude.{◌≡◌, ◌∷◌, ◌<◌, ◌^◌, [], IfNone, IfSome, drop, length};
ghost use Rattle.lr_image.specs.Places.{IsPlaceIn, first_piece_place, pieces_at};

use lr_bits::MissionFile;

/// How far the pieces of a file were taken.
#[derive(Clone, Copy)]
pub struct PiecePlace {
    /// How many bodies were passed.
    pub bodies: usize,
    /// How many bytes these have.
    pub bytes: usize,
    /// How many bytes of the others come before the data field.
    pub skipped: usize,
}

/// The place of a file's first piece, where this many bytes come before the data field.
pub fn first_piece(skipped: usize) -> PiecePlace
    ensures { result ≡ first_piece_place skipped }
{
    PiecePlace {
        bodies: 0,
        bytes: 0,
        skipped,
    }
}

/// The piece at this place of the file. The place moves on to the next one.
pub fn next_piece<'a>(file: &'a MissionFile, place: &mut PiecePlace) -> Option<&'a [u8]>
    requires { IsPlaceIn file.now place.old }
    ensures some { IfSome result (λ piece. pieces_at file.now place.old ≡ piece.now ∷ pieces_at file.now place.new) }
    ensures none { IfNone result (pieces_at file.now place.old ≡ []) }
    ensures short { IfSome result (λ piece. length piece.now < 2 ^ 61) }
    ensures place { IsPlaceIn file.now place.new }
{
    let lengths = file.lengths();
    let bytes = file.bytes();
    while place.bodies < lengths.len() {
        let length = usize::from(lengths[place.bodies]);
        let body = &bytes[place.bytes..place.bytes + length];
        let piece = part_after(body, place.skipped);
        place.bodies += 1;
        place.bytes += length;
        place.skipped = place.skipped.saturating_sub(length);
        if !piece.is_empty() {
            return Some(piece);
        }
    }
    None
}

/// The bytes after the first `skipped` ones.
fn part_after(bytes: &[u8], skipped: usize) -> &[u8]
    ensures { result.now ≡ drop skipped bytes.now }
{
    &bytes[skipped.min(bytes.len())..]
}
