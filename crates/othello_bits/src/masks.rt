//! A mask's squares, one after another.

ghost use Rattle.std.specs.Prelude.{◌≡◌, ℕ, ◌<◌, ◌&&◌, ◌||◌, ◌==◌, not, true, false};
ghost use Rattle.othello_rules.specs.Masks.{in_mask};

use othello_rules::Square;

/// The lowest square of a mask that is not 0. Bit n is square n: A1 is bit 0.
#[inline(always)]
pub fn lowest(mask: u64) -> Square
    requires { 0 < mask }
    ensures member { in_mask mask result ≡ true }
    ensures first { (i : ℕ) → i < result → in_mask mask i ≡ false }
{
    Square::at(mask.trailing_zeros() as u8)
}

/// The mask with the bit of a square cleared. Bit n is square n: A1 is bit 0.
#[inline(always)]
pub fn without(mask: u64, square: Square) -> u64
    ensures { (i : ℕ) → in_mask result i ≡ (in_mask mask i && not (square == i)) }
{
    mask & !(1u64 << square.number())
}

/// The mask with the bit of a square set. Bit n is square n: A1 is bit 0.
#[inline(always)]
pub fn including(mask: u64, square: Square) -> u64
    ensures { (i : ℕ) → in_mask result i ≡ (in_mask mask i || square == i) }
{
    mask | 1u64 << square.number()
}
