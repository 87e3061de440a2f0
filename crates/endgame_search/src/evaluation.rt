//! What a position is worth, as a guess: it orders moves and begins searches, and no contract depends
//! on it. The unit is an eighth of a disc, as the mover sees it.

ghost use Rattle.std.specs.Prelude.{◌<◌};

use crate::move_order::CORNERS;
use crate::tuning::{OWN_MOVE, THEIR_MOVE, corner_worth, turn_worth};
use crate::weights::WEIGHTS;
use bound_table::Advice;
use othello_bits::{Pos, Sym};

// What the mover's discs on four squares of a row add to the number of their state, by their mask:
// the sum of 3^i for square i from the left, and from the right.
static STATES_FROM_LEFT: [u8; 16] = [0, 1, 3, 4, 9, 10, 12, 13, 27, 28, 30, 31, 36, 37, 39, 40];

static STATES_FROM_RIGHT: [u8; 16] = [0, 27, 9, 36, 3, 30, 12, 39, 1, 28, 10, 37, 4, 31, 13, 40];

// Both sides' discs on a row: its eight squares are the lowest bits of each mask.
#[derive(Clone, Copy)]
struct Row {
    own: u64,
    opp: u64,
}

impl Row {
    // The row whose first square is that of the bit.
    #[inline(always)]
    fn at(own: u64, opp: u64, bit: u32) -> Row
        requires { bit < 64 }
    {
        Row {
            own: own >> bit,
            opp: opp >> bit,
        }
    }

    // The number of the state of the four squares on the left.
    #[inline(always)]
    fn left_state(self) -> u16 {
        let own = STATES_FROM_LEFT[(self.own % 16) as usize];
        let opp = STATES_FROM_LEFT[(self.opp % 16) as usize];
        u16::from(own) + 2 * u16::from(opp)
    }

    // The same for the four squares on the right, from the last square on.
    #[inline(always)]
    fn right_state(self) -> u16 {
        let own = STATES_FROM_RIGHT[(self.own / 16 % 16) as usize];
        let opp = STATES_FROM_RIGHT[(self.opp / 16 % 16) as usize];
        u16::from(own) + 2 * u16::from(opp)
    }
}

// What the squares at a corner are worth, by the states of the four squares on an edge, and of the
// four beside them.
#[inline(always)]
fn region_worth(edge: u16, inner: u16) -> i16 {
    let state = usize::from(edge) + 81 * usize::from(inner);
    i16::from(WEIGHTS[state.min(WEIGHTS.len() - 1)])
}

// What the squares at both ends of an edge are worth, by the row on it and the one beside it.
#[inline(always)]
fn edge_worth(edge: Row, inner: Row) -> i32 {
    let left = region_worth(edge.left_state(), inner.left_state());
    let right = region_worth(edge.right_state(), inner.right_state());
    i32::from(left) + i32::from(right)
}

// What the squares at the four corners are worth, by rows.
#[inline(always)]
fn rows_worth(own: u64, opp: u64) -> i32 {
    let first = edge_worth(Row::at(own, opp, 0), Row::at(own, opp, 8));
    first.wrapping_add(edge_worth(Row::at(own, opp, 56), Row::at(own, opp, 48)))
}

// The number of squares in a mask.
#[inline(always)]
fn number(mask: u64) -> u8 {
    mask.count_ones() as u8
}

// What this number of corners is worth.
#[inline(always)]
fn corners_worth(corners: u8, empties: u8) -> i32 {
    (u32::from(corner_worth(empties)) * u32::from(corners)) as i32
}

// What the two sides' moves are worth.
#[inline(always)]
fn mobility_worth(moves: u64, replies: u64) -> i16 {
    OWN_MOVE * i16::from(number(moves)) - THEIR_MOVE * i16::from(number(replies))
}

// What a position is worth for the mover, whose moves are given. No sum wraps, but nothing depends
// on that.
pub(crate) fn evaluate<T: Advice>(table: &T, position: Pos, moves: u64) -> i32 {
    table.note_evaluation();
    let own = position.own();
    let opp = position.opp();
    let empties = position.empties();
    let mobility = mobility_worth(moves, position.pass().moves());
    turn_worth(empties)
        .wrapping_add(i32::from(mobility))
        .wrapping_add(corners_worth(number(own & CORNERS), empties))
        .wrapping_sub(corners_worth(number(opp & CORNERS), empties))
        .wrapping_add(rows_worth(own, opp))
        .wrapping_add(rows_worth(Sym::Transpose.mask(own), Sym::Transpose.mask(opp)))
}
