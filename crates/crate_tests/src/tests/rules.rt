//! Worked positions by the rules: what each move turns, which moves are refused, and the answers by
//! full minimax.

use super::worked::{
    Discs, EQUAL_CORNERS, LAST_CORNER, UNEQUAL_CORNERS, WORKED, pos_of, square_of,
};
use othello_bits::{Pos, including};
use othello_rules::{RuleFault, Scoring, Side, Square};

// The mover's discs and the opponent's, a square, and the numbers of the discs that a move there
// turns: from north round to north-west, the nearest first.
type Turned = (Discs, &'static [u8], &'static [u8]);

// The mover's discs and the opponent's of UNEQUAL_CORNERS with White to move.
const UNEQUAL_WHITE: Discs = (UNEQUAL_CORNERS.1, UNEQUAL_CORNERS.0);

const TURNED: [Turned; 13] = [
    (UNEQUAL_CORNERS, b"A1", &[1]),
    (UNEQUAL_CORNERS, b"H1", &[15]),
    // Occupied squares, and empty ones on which nothing is turned.
    (UNEQUAL_CORNERS, b"B1", &[]),
    (UNEQUAL_WHITE, b"A1", &[]),
    // G2, F3 and E4, and then G1 to C1.
    (UNEQUAL_WHITE, b"h1", &[14, 21, 28, 6, 5, 4, 3, 2]),
    (LAST_CORNER, b"A1", &[1, 2, 3, 4, 5, 6]),
    // Two discs in each direction.
    (
        (0x49_0000_4100_0049, 0x2a1c_361c_2a00),
        b"D4",
        &[
            19, 11, 20, 13, 28, 29, 36, 45, 35, 43, 34, 41, 26, 25, 18, 9,
        ],
    ),
    // No line goes round the edge: east, west, north-east, south-east, north-west, south-west.
    ((0x100, 0x80), b"G1", &[]),
    ((0x80, 0x100), b"B2", &[]),
    ((0x100, 0x8000), b"G3", &[]),
    ((0x100_0000, 0x8000), b"G1", &[]),
    ((0x80, 0x1_0000), b"B4", &[]),
    ((0x8000, 0x100), b"B1", &[]),
];

// Whether a move turns these discs in this order, on cells and on bitboards.
fn turns(position: Pos, square: Square, turned: &[u8]) -> bool {
    let mut mask = 0;
    for number in turned {
        if let Some(disc) = Square::new(*number) {
            mask = including(mask, disc);
        }
    }
    let flips = position.to_grid(Side::White).flips(square);
    flips
        .iter()
        .map(|disc| disc.number())
        .eq(turned.iter().copied())
        && position.flips(square) == mask
}

#[test]
fn discs_are_turned_in_order(rt: HostRuntime) {
    for (discs, name, turned) in TURNED {
        let position = pos_of(&rt, discs, Side::Black);
        assert!(rt; turns(position, square_of(&rt, name), turned));
    }
    assert!(rt; Pos::new(1, 1).is_none());
}

// A position, its mover, the mask of its moves, a square, and the refusal of a move there. A disc
// on an occupied square would turn nothing either.
const PLAYED: [(Discs, Side, u64, &[u8], Option<RuleFault>); 6] = [
    (
        LAST_CORNER,
        Side::Black,
        0x1,
        b"B1",
        Some(RuleFault::Occupied),
    ),
    (
        LAST_CORNER,
        Side::White,
        0,
        b"A1",
        Some(RuleFault::TurnsNothing),
    ),
    (UNEQUAL_CORNERS, Side::Black, 0x81, b"A1", None),
    (
        UNEQUAL_CORNERS,
        Side::White,
        0x80,
        b"A1",
        Some(RuleFault::TurnsNothing),
    ),
    (UNEQUAL_CORNERS, Side::White, 0x80, b"H1", None),
    (
        EQUAL_CORNERS,
        Side::Black,
        0x81,
        b"D1",
        Some(RuleFault::Occupied),
    ),
];

#[test]
fn moves_are_refused_in_order(rt: HostRuntime) {
    for (discs, side, moves, name, fault) in PLAYED {
        let (position, square) = (pos_of(&rt, discs, side), square_of(&rt, name));
        assert!(rt; position.to_grid(side).play(square).err() == fault);
        assert!(rt;
            position.moves() == moves && position.play(square).is_some() == fault.is_none()
        );
    }
}

#[test]
fn worked_positions_have_their_answers(rt: HostRuntime) {
    for (discs, side, scores, bests) in WORKED {
        let grid = pos_of(&rt, discs, side).to_grid(side);
        for i in 0..3 {
            let answer = grid.plain_answer(Scoring::ALL[i]);
            assert!(rt; answer.score == scores[i] && answer.best == bests[i]);
            assert!(rt; grid.plain_value(Scoring::ALL[i]) == scores[i]);
        }
    }
}
