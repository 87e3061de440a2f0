//! The symmetries of the board by their numbers, and the canonical position.

ghost use Rattle.std.specs.Prelude.{◌≡◌, ◌≢◌, bit_and, slice_get, IfOk, IfErr};
ghost use Rattle.othello_rules.specs.declared.discs.Side.TheVariants.{Black};
ghost use Rattle.othello_bits.specs.Pos.{position_of};
ghost use Rattle.othello_bits.specs.Symmetries.{canonical_of, first_symmetry, place, symmetries};
ghost use Rattle.ffosolve_c.specs.declared.call_refusal.CallRefusal.TheVariants as refusal;
ghost use Rattle.ffosolve_c.specs.CValues.{c_position, discs_at};

use crate::call_refusal::CallRefusal;
use crate::position::{FfosolvePosition, position_of};
use othello_bits::Sym;

/// The symmetry with a number, from 0 to 7 in the order of `Sym::all`.
pub fn numbered_symmetry(number: u32) -> Option<Sym>
    ensures { result ≡ slice_get symmetries number }
{
    Sym::all().get(number as usize).copied()
}

// The number of a symmetry.
fn symmetry_number(sym: Sym) -> u32
    ensures { result ≡ place sym }
{
    match sym {
        Sym::Identity => 0,
        Sym::FlipColumns => 1,
        Sym::FlipRows => 2,
        Sym::HalfTurn => 3,
        Sym::Transpose => 4,
        Sym::TurnRight => 5,
        Sym::TurnLeft => 6,
        Sym::AntiTranspose => 7,
    }
}

/// The canonical position of the two masks, and the number of the first symmetry that leads to it.
/// `SharedSquare` if the masks share a square.
pub fn canonical_position(
    position: FfosolvePosition,
) -> Result<(FfosolvePosition, u32), CallRefusal>
    ensures apart { IfOk result (λ found. bit_and position.own position.opp ≡ 0) }
    ensures canonical { IfOk result (λ found.
        found.0 ≡ c_position (canonical_of (discs_at position))) }
    ensures symmetry { IfOk result (λ found.
        found.1 ≡ place (first_symmetry (position_of Black (discs_at position)))) }
    ensures shared { IfErr result (λ r. bit_and position.own position.opp ≢ 0) }
    ensures refused { IfErr result (λ r. r ≡ refusal.SharedSquare) }
{
    let (canonical, sym) = position_of(position)?.canonical();
    let found = FfosolvePosition {
        own: canonical.own(),
        opp: canonical.opp(),
    };
    Ok((found, symmetry_number(sym)))
}
