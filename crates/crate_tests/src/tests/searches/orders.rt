//! The order in which the moves of a position are searched.

ghost use Rattle.othello_rules.specs.declared.scoring.Scoring.TheVariants.{Winner};

use super::super::worked::{Discs, pos_of, square_of};
use super::{
    EQUAL_CORNERS, FOUR_WITH_UNEQUAL_REPLIES, OPEN_CORNERS, UNEQUAL_CORNERS, after, is_first_enough,
};
use arrayvec::ArrayVec;
use bound_table::{Advice, Bounds, NoTable, Range};
use endgame_search::value_in;
use othello_bits::Pos;
use othello_rules::{Scoring, Side, Square};
use std::cell::Cell;
use std::process::Abort;

// Keeps nothing. Counts the positions of a list as they are probed, and notes whether one was probed
// before one that comes earlier in the list.
#[derive(Drop)]
struct OrderNoter {
    children: ArrayVec<Option<Pos>, 8>,
    met: Cell<usize>,
    is_mixed: Cell<bool>,
}

impl Advice for OrderNoter {}

impl Bounds for OrderNoter {
    ghost scoring = { λ noter. Winner };

    fn scoring(&self) -> Scoring {
        Scoring::Winner
    }

    fn probe(&self, position: &Pos) -> Option<Range> {
        let met = self.met.get();
        let index = self
            .children
            .iter()
            .position(|child| *child == Some(*position));
        match index {
            Some(index) if index == met => self.met.set(met.wrapping_add(1)),
            Some(index) if index > met => self.is_mixed.set(true),
            _ => {}
        }
        None
    }

    fn store(&self, _position: &Pos, _range: Range) {}
}

// Whether these are all moves of a position where Black is to move, in the order of the search. No
// move is worth more than the value, and White has too few stable discs to show it, so the window
// that begins there takes all of them.
fn are_searched_so(rt: &impl Abort, discs: Discs, names: &[&[u8]]) -> bool {
    let position = pos_of(rt, discs, Side::Black);
    let mut noter = OrderNoter {
        children: ArrayVec::new(),
        met: Cell::new(0),
        is_mixed: Cell::new(false),
    };
    for name in names {
        let child = after(rt, position, square_of(rt, name));
        let _ = noter.children.try_push(Some(child));
    }
    let value = value_in(&NoTable::new(Scoring::Winner), position, -65, 65);
    value_in(&noter, position, value, value + 1) == value
        && position.moves().count_ones() as usize == names.len()
        && noter.met.get() == names.len()
        && !noter.is_mixed.get()
}

// A position and its moves in the order of the search: by the opponent's replies, each of which counts
// 2, but 4 on a corner and 1 on an X-square; then by the order of squares; then the lower square.
type Order = (Discs, &'static [&'static [u8]]);

const ORDERS: [Order; 6] = [
    // --OOOOXX --OOOXXX XXOOOXXX -OXXXXXX OOOXXXXO XOXOXXO- -XOXXXXX XXXXXXX-
    // B2 leaves B1, A4, H6 and A7: 8. Each other move leaves B2, H8 and two more: 9. H6 is ordered
    // like C1, and A4 like D1; B1 and A7 are next to corners.
    (
        (0x7ffa_3578_fce3_e0c0, 0x4_4a87_021c_1c3c),
        &[b"B2", b"H6", b"A4", b"B1", b"A7"],
    ),
    // XOOOOO-- OOOOOO-- OOXXOO-- OOOOOOXX OOOOOOOX OOOOOOOX OOOOOOO- OOOO-OOO
    // G1 and H7 leave G3 and H3: 4. G3 leaves G2, H2 and H3: 5. E8 leaves G3, H3 and H7: 6.
    (
        (0x8080_c00c_0001, 0xef7f_7f7f_3f33_3f3e),
        &[b"G1", b"H7", b"G3", b"E8"],
    ),
    // OXO-OOOO OXXXXOXX OXOOXXXX OXOOOOXX OXOXOXOX OO-XXOOX O-OXOOO- -OOOOOO-
    // D1 leaves C6 and H7: 4. C6 leaves D1, B7 and H7: 5. H8, a corner, and B7, an X-square, leave D1,
    // C6 and H7: 6. H7 leaves D1, C6 and H8: 8.
    (
        (0x8_98aa_c2f2_de02, 0x7e75_6355_3d0d_21f5),
        &[b"D1", b"C6", b"H8", b"B7", b"H7"],
    ),
    // XO-OXXX- XXOOOXX- XOXOXXXO XXOOXX-X XXXOOX-O XXOOXOXO -OXOOOOO OOOOOOOO
    // H2 and A7 leave H1 and three more: 10. C1 leaves H1 and four more: 12.
    (
        (0x4_5327_b375_6371, 0xfffa_ac98_0c8a_1c0a),
        &[b"H2", b"A7", b"C1"],
    ),
    // XXXXXXXX XXXXXXXX XXXXXOXO XXXXXXO- XXXXXOXX -XXXXOXX -XXXXOXX X-X---X-
    // F8 leaves no reply, H4 four and E8 five.
    (
        (0x45de_dedf_3f5f_ffff, 0x20_2020_40a0_0000),
        &[b"F8", b"H4", b"E8"],
    ),
    // The same with a disc on B8, so that seven squares are empty.
    (
        (0x47de_dedf_3f5f_ffff, 0x20_2020_40a0_0000),
        &[b"F8", b"H4", b"E8"],
    ),
];

// Of positions with eight empty squares, and with six or seven. A move that leaves no reply is searched
// before the others are listed.
#[test]
fn moves_are_searched_in_order(rt: HostRuntime) {
    for (discs, names) in ORDERS {
        assert!(rt; are_searched_so(&rt, discs, names));
    }
}

#[test]
fn the_higher_of_the_last_squares_comes_first(rt: HostRuntime) {
    // In the first position neither move leaves a reply, in the second each leaves one, in the third
    // only A1. In the last G8 leaves three replies, and B8 two.
    for (discs, first, second) in [
        (EQUAL_CORNERS, 7, 0),
        (OPEN_CORNERS, 7, 0),
        (UNEQUAL_CORNERS, 7, 0),
        (FOUR_WITH_UNEQUAL_REPLIES, 62, 57),
    ] {
        let (first, second) = (Square::at(first), Square::at(second));
        assert!(rt; is_first_enough(&rt, rt.alloc(), discs, first, second));
    }
}
