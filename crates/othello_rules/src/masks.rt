//! Masks: sets of squares as numbers, with A1 as bit 0 and H8 as bit 63.

ghost use Rattle.std.specs.Prelude.{◌≡◌};
ghost use Rattle.othello_rules.specs.Masks.{in_mask, squares_of};

use crate::square::Square;
use arrayvec::ArrayVec;

/// Whether a square is in a mask: square n is bit n, so A1 is bit 0.
#[inline]
pub fn has_square(mask: u64, square: Square) -> bool
    ensures { result ≡ in_mask mask square }
{
    mask >> square.number() & 1 == 1
}

/// The squares of a mask, in the order of their numbers: square n is bit n, so A1 is bit 0.
pub fn squares_in(mask: u64) -> ArrayVec<Square, 64>
    ensures { result.items ≡ squares_of mask }
{
    let mut squares = ArrayVec::new();
    for square in Square::all().iter() {
        if has_square(mask, *square) {
            squares.push(*square);
        }
    }
    squares
}
