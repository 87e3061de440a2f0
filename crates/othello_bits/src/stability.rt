//! Discs that no move can turn.

ghost use Rattle.std.specs.Prelude.{◌≡◌, bit_and};
ghost use Rattle.othello_bits.specs.Pos.{discs, AreStable};

use crate::mobility::Direction;

// At least as many rounds as discs: each finds another one, or is the last.
const MOST_ROUNDS: u8 = 64;

/// Stable discs of the opponent, as a mask, found in rounds: each of the four lines through such a
/// disc is full, or ends there, or has a disc of an earlier round beside it.
#[inline(never)]
pub fn stable_opp(own: u64, opp: u64) -> u64
    requires { bit_and own opp ≡ 0 }
    ensures { AreStable (discs own opp) result }
{
    let free = !(own | opp);
    let column = Direction::North.safe_alone(free);
    let rising = Direction::NorthEast.safe_alone(free);
    let row = Direction::East.safe_alone(free);
    let falling = Direction::SouthEast.safe_alone(free);
    let mut found = 0u64;
    for _round in 0..MOST_ROUNDS {
        let more = opp
            & Direction::North.held(column, found)
            & Direction::NorthEast.held(rising, found)
            & Direction::East.held(row, found)
            & Direction::SouthEast.held(falling, found);
        if more == found {
            break;
        }
        found = more;
    }
    found
}
