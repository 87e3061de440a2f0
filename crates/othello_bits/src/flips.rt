//! Discs that are turned along one line from a square, by the line's ray as a mask.

ghost use Rattle.std.specs.Prelude.{◌≡◌, ℕ, ◌<◌, ◌||◌, List, map, nat_lt};
ghost use Rattle.othello_rules.specs.Masks.{in_mask};
ghost use Rattle.othello_bits.specs.Shifts.{IsRay, line, turns};
ghost use Rattle.othello_bits.specs.Symmetries.{target};

use crate::mobility::Direction;
use crate::sym::{Sym, mirror_rows};

// The mask of all columns to the west of a square.
macro_rules! west_of {
    ($square:expr) => {
        0x0101_0101_0101_0101 * ((1 << ($square % 8)) - 1)
    };
}

// The mask of all columns to the east of a square.
macro_rules! east_of {
    ($square:expr) => {
        0x0101_0101_0101_0101 * ((0xfe << ($square % 8)) & 0xff)
    };
}

// The masks of the rays from each of the squares: to the south-west, south, south-east, east and
// west. Steps of 7, 8 and 9 squares lead to the south, also over the edge of the board.
macro_rules! rays_from {
    ($($square:expr),*) => {
        [$([
            (0x0102_0408_1020_4080 << $square) & west_of!($square),
            0x0101_0101_0101_0100 << $square,
            (0x8040_2010_0804_0200 << $square) & east_of!($square),
            (0xff << ($square / 8 * 8)) & east_of!($square),
            (0xff << ($square / 8 * 8)) & west_of!($square),
        ]),*]
    };
}

// The rays from all squares.
static RAYS: [[u64; 5]; 64] = rays_from![
    0, 1, 2, 3, 4, 5, 6, 7, 8, 9, 10, 11, 12, 13, 14, 15, 16, 17, 18, 19, 20, 21, 22, 23, 24, 25,
    26, 27, 28, 29, 30, 31, 32, 33, 34, 35, 36, 37, 38, 39, 40, 41, 42, 43, 44, 45, 46, 47, 48, 49,
    50, 51, 52, 53, 54, 55, 56, 57, 58, 59, 60, 61, 62, 63
];

// The mask of the discs that are turned on a ray to higher squares. The lowest square of the ray
// that is not the opponent's ends the run. The run is turned if that square is the mover's.
#[inline(always)]
fn flips_ahead(own: u64, opp: u64, ray: u64) -> u64
    ensures { (met : List ℕ) → IsRay nat_lt ray met
        → (i : ℕ) → in_mask result i ≡ turns own opp met i }
{
    let rest = ray & !opp;
    let end = own & rest & !rest.wrapping_sub(1);
    ray & end.wrapping_sub((end != 0) as u64)
}

// The mask of the discs that are turned on a ray to lower squares. The highest square of the ray
// that is not the opponent's ends the run. The run is turned if that square is the mover's.
#[inline(always)]
fn flips_back(own: u64, opp: u64, ray: u64) -> u64
    ensures { (met : List ℕ) → IsRay (λ i j. nat_lt j i) ray met
        → (i : ℕ) → in_mask result i ≡ turns own opp met i }
{
    let rest = ray & !opp;
    let end = own & rest & (0x8000_0000_0000_0000 >> (rest | 1).leading_zeros());
    ray & !(end | end.wrapping_sub(1))
}

// The mask of the discs that the mover turns to the east by a disc on the square.
#[inline(always)]
pub fn to_east(own: u64, opp: u64, square: u8) -> u64
    requires { square < 64 }
    ensures { (i : ℕ) → in_mask result i ≡ turns own opp (line Direction.East square) i }
{
    flips_ahead(own, opp, RAYS[square as usize][3])
}

// The mask of the discs that the mover turns to the west by a disc on the square.
#[inline(always)]
pub fn to_west(own: u64, opp: u64, square: u8) -> u64
    requires { square < 64 }
    ensures { (i : ℕ) → in_mask result i ≡ turns own opp (line Direction.West square) i }
{
    flips_back(own, opp, RAYS[square as usize][4])
}

// The mask of the discs that the mover turns to the south-west, south and south-east by a disc on
// the square.
#[inline(always)]
pub fn to_south(own: u64, opp: u64, square: u8) -> u64
    requires { square < 64 }
    ensures { (i : ℕ) → in_mask result i
        ≡ (turns own opp (line Direction.SouthWest square) i
        || (turns own opp (line Direction.South square) i
        || turns own opp (line Direction.SouthEast square) i)) }
{
    let rays = RAYS[square as usize];
    flips_ahead(own, opp, rays[0]) | flips_ahead(own, opp, rays[1]) | flips_ahead(own, opp, rays[2])
}

// The mask of the discs that are turned on a ray to the north. `ray` is the ray on the board turned
// over, where row 8 is the first row, so that it leads to higher squares.
#[inline(always)]
fn flips_turned_over(own: u64, opp: u64, ray: u64) -> u64
    ensures { (met : List ℕ) → IsRay nat_lt ray met
        → (i : ℕ) → in_mask result i ≡ turns own opp (map (target Sym.FlipRows) met) i }
{
    mirror_rows(flips_ahead(mirror_rows(own), mirror_rows(opp), ray))
}

// The place of a square on the board turned over: row 1 becomes row 8, and the column stays.
#[inline(always)]
fn mirror_square(square: u8) -> u8
    requires { square < 64 }
    ensures { result ≡ target Sym.FlipRows square }
{
    square ^ 56
}

// The mask of the discs that the mover turns to the north-west, north and north-east by a disc on
// the square. Each mask is turned over by itself: the compiler makes a byte swap of that, and none
// if the masks are joined first.
#[inline(always)]
pub fn to_north(own: u64, opp: u64, square: u8) -> u64
    requires { square < 64 }
    ensures { (i : ℕ) → in_mask result i
        ≡ (turns own opp (line Direction.NorthWest square) i
        || (turns own opp (line Direction.North square) i
        || turns own opp (line Direction.NorthEast square) i)) }
{
    let rays = RAYS[mirror_square(square) as usize];
    flips_turned_over(own, opp, rays[0])
        | flips_turned_over(own, opp, rays[1])
        | flips_turned_over(own, opp, rays[2])
}
