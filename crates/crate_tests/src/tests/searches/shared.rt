//! Which child a thread searches next while other threads are searching some of them.

ghost use Rattle.othello_rules.specs.declared.scoring.Scoring.TheVariants.{Winner};

use super::super::worked::{Discs, pos_of};
use bound_table::{Advice, BoundTable, Bounds, Range};
use endgame_search::value_in;
use othello_bits::Pos;
use othello_rules::{Scoring, Side};
use std::alloc::Global;
use std::cell::Cell;
use std::test::Fail;

// The most moves of the positions below.
const MOST_MOVES: usize = 9;

// The mover's discs and the opponent's, the number of moves, and how many eldest children are searched
// in any case. With 12, 15, 16, 18 and 21 empty squares.
const ROWS: [(Discs, usize, usize); 5] = [
    // -O-X--O- -OOXXOXX OOXOO-XX XOXOOXXX OOOOOOX- -OOOOOXX OOOOOOO- X-XXXO-O
    ((0x1d00_c040_e5c4_d808, 0xa07f_3e3f_1a1b_2642), 8, 1),
    // -----X-- X----XOO OOOOOOX- -OOOOOOX -OOXXOOO XXOXOOOO XXXOOOOO XX-OOOOO
    ((0x307_0b18_8040_2120, 0xf8f8_f4e6_7e3f_c000), 9, 1),
    // -------O X--XO-OX OXX-OOX- OOXXOXO- OOXXOXXX OOOOOXOO OOO-XXOO -XOXX-XO
    ((0x5a30_20ec_2c46_8900, 0x84c7_df13_5331_5080), 9, 2),
    // --XX---- --XXXO-O OXOOOOO- X--OOOXX --XOOOXX X-XOXOOX -XXOOXXX --XOOOOO
    ((0x4e6_95c4_c102_1c0c, 0xf818_6838_387d_a000), 9, 2),
    // --OO-X-O ---OXXOX X-OXOOO- OXOXXOXO OOOXOXOO -OOXXXXO --XX-X-- --XX----
    ((0xc2c_7828_5a09_b020, 0x86d7_a574_488c), 9, 3),
];

// Says that other threads are searching some positions, and notes in order which positions with so many
// empty squares the calling thread begins to search.
#[derive(Drop)]
struct Others {
    table: BoundTable,
    searching: Vec<Pos>,
    empties: u8,
    begun: Vec<Cell<Option<Pos>>>,
    count: Cell<usize>,
}

impl Bounds for Others {
    ghost scoring = { λ others. others.table.scoring };

    fn scoring(&self) -> Scoring {
        self.table.scoring()
    }

    fn probe(&self, position: &Pos) -> Option<Range> {
        self.table.probe(position)
    }

    fn store(&self, position: &Pos, range: Range) {
        self.table.store(position, range);
    }
}

impl Advice for Others {
    fn begin(&self, position: &Pos) {
        if position.empties() != self.empties {
            return;
        }
        let count = self.count.get();
        if let Some(place) = self.begun.get(count) {
            place.set(Some(*position));
        }
        self.count.set(count.wrapping_add(1));
    }

    fn is_begun(&self, position: &Pos) -> bool {
        self.searching.contains(position)
    }
}

// The children of the position in the order in which they are searched while other threads search these.
// No move is worth 36, and White has too few stable discs to show it, so the window from 35 to 36 takes
// all of them.
fn begun_beside(
    alloc: Global,
    position: Pos,
    searching: Vec<Pos>,
) -> Result<Vec<Option<Pos>>, Fail> {
    let mut begun = Vec::new(alloc);
    for _ in 0..MOST_MOVES {
        begun.push(Cell::new(None))?;
    }
    let others = Others {
        table: BoundTable::new(alloc, 4_096, Scoring::Winner)?,
        searching,
        empties: position.empties().saturating_sub(1),
        begun,
        count: Cell::new(0),
    };
    let _ = value_in(&others, position, 35, 36);
    let mut order = Vec::new(alloc);
    for place in &others.begun {
        order.push(place.get())?;
    }
    order.truncate(others.count.get());
    Ok(order)
}

// Others search the eldest children, the next one, and the one after the one after it. The eldest ones
// are searched in any case; then those that no other thread searches, and at last those two.
#[test]
fn children_that_others_search_are_left_for_later(rt: HostRuntime) -> Result<(), Fail> {
    let alloc = rt.alloc();
    for (discs, moves, eldest) in ROWS {
        let position = pos_of(&rt, discs, Side::Black);
        let alone = begun_beside(alloc, position, Vec::new(alloc))?;
        assert!(rt; alone.len() == moves);
        let mut searching = Vec::new(alloc);
        let mut expected = Vec::new(alloc);
        let mut left = Vec::new(alloc);
        for (index, child) in alone.iter().enumerate() {
            let is_left = index == eldest || index == eldest.wrapping_add(2);
            if index < eldest || is_left {
                searching.push(child.unwrap_or(position))?;
            }
            if is_left {
                left.push(*child)?;
            } else {
                expected.push(*child)?;
            }
        }
        for child in &left {
            expected.push(*child)?;
        }
        let shared = begun_beside(alloc, position, searching)?;
        assert!(rt; shared == expected && !shared.contains(&Some(position)));
    }
    Ok(())
}
