//! Positions that are worked out by hand, and their answers under each scoring.

ghost use Rattle.std.specs.Prelude.{◌≡◌};

use endgame_search::Task;
use othello_bits::Pos;
use othello_rules::{Best, Scoring, Side, Square};
use std::process::Abort;

// The masks of Black's discs and of White's: A1 is the lowest bit, H8 the highest. The comments
// show the rows, row 1 first: X is a black disc, O a white disc, - an empty square.
pub(super) type Discs = (u64, u64);

// XXXXXXXX in all rows
pub(super) const BLACK_BOARD: Discs = (!0, 0);

// Three rows XXXXXXXX, two empty ones and three rows OOOOOOOO
pub(super) const LEVEL_HALVES: Discs = (0xff_ffff, 0xffff_ff00_0000_0000);

// Four rows XXXXXXXX, two empty ones and two rows OOOOOOOO
pub(super) const UNEQUAL_HALVES: Discs = (0xffff_ffff, 0xffff_0000_0000_0000);

// -OOOOOOX and seven rows XXXXXXXX
pub(super) const LAST_CORNER: Discs = (!0x7f, 0x7e);

// --OOOOOX and seven rows XXXXXXXX
pub(super) const CORNER_LEFT_OVER: Discs = (!0x7f, 0x7c);

// -OOXXOO- and seven rows XXXXXXXX
pub(super) const EQUAL_CORNERS: Discs = (!0xe7, 0x66);

// -OXXXXX- XXXXXXXO XXXXXXXX XXXXXXXX XXXOXXXX and three rows XXXXXXXX
pub(super) const UNEQUAL_CORNERS: Discs = (!0x8_0000_8083, 0x8_0000_8002);

// O--OOOOX -OOOOOOX OOXXOOOX OOXOOOXX OOOOOOXX ---OOOOX ----O--X --------
pub(super) const TWENTY_EMPTY_SQUARES: Discs = (0x80_80c0_c48c_8080, 0x10_783f_3b73_7e79);

const A1: Best = Best::Moves(0x1);

const B1: Best = Best::Moves(0x2);

const H1: Best = Best::Moves(0x80);

const BOTH: Best = Best::Moves(0x81);

// A position, its mover, and its scores and best moves under Winner, Discs and Sign.
pub(super) type Worked = (Discs, Side, [i8; 3], [Best; 3]);

pub(super) const WORKED: [Worked; 9] = [
    (BLACK_BOARD, Side::White, [-64, -64, -1], [Best::Over; 3]),
    (LEVEL_HALVES, Side::Black, [0, 0, 0], [Best::Over; 3]),
    (UNEQUAL_HALVES, Side::Black, [32, 16, 1], [Best::Over; 3]),
    (LAST_CORNER, Side::Black, [64, 64, 1], [A1; 3]),
    (LAST_CORNER, Side::White, [-64, -64, -1], [Best::Pass; 3]),
    (CORNER_LEFT_OVER, Side::Black, [64, 63, 1], [B1; 3]),
    (EQUAL_CORNERS, Side::Black, [64, 64, 1], [BOTH; 3]),
    (UNEQUAL_CORNERS, Side::Black, [62, 62, 1], [H1, H1, BOTH]),
    (UNEQUAL_CORNERS, Side::White, [-40, -39, -1], [H1; 3]),
];

pub(super) fn pos_of(rt: &impl Abort, (black, white): Discs, side: Side) -> Pos {
    let (own, opp) = match side {
        Side::Black => (black, white),
        Side::White => (white, black),
    };
    Pos::new(own, opp).expect(rt, "no square is taken twice")
}

pub(super) fn task_of(rt: &impl Abort, position: Pos, scoring: Scoring) -> Task
    ensures { result.scoring ≡ scoring }
{
    Task::new(position, 22, scoring).expect(rt, "at most 22 empty squares")
}

pub(super) fn square_of(rt: &impl Abort, name: &[u8]) -> Square {
    Square::from_name(name).expect(rt, "a square's name")
}
