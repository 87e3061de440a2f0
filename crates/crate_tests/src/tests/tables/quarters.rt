//! That positions with few empty squares don't replace those with many.

use super::shows;
use bound_table::BoundTable;
use endgame_search::value_in;
use othello_bits::Pos;
use othello_rules::Scoring;
use std::process::Abort;
use std::test::Fail;

// XOOO---- and seven rows of X in which these squares of rows 3 to 8 are empty. The one move, E1,
// turns all discs of the opponent, so the value is 64.
fn with_empty_squares(rt: &impl Abort, squares: u64) -> Pos {
    Pos::new(!(squares << 16 | 0xfe), 0xe).expect(rt, "no square is taken twice")
}

// The same with this number of empty squares, 4 to 52.
fn with_empties(rt: &impl Abort, empties: u32) -> Pos {
    with_empty_squares(rt, !(u64::MAX << (empties.wrapping_sub(4) & 63)))
}

// Whether a position with this number of empty squares is shown after one with one more is stored,
// by a table with one entry in each quarter.
fn is_shown_after_one_more(rt: &impl Abort, table: &BoundTable, empties: u32) -> bool {
    let position = with_empties(rt, empties);
    for stored in [position, with_empties(rt, empties.wrapping_add(1))] {
        let _ = value_in(table, stored, -65, 65);
    }
    shows(table, position, 64)
}

#[test]
fn a_quarter_begins_at_13_16_and_19_empty_squares(rt: HostRuntime) -> Result<(), Fail> {
    let table = BoundTable::new(rt.alloc(), 4, Scoring::Winner)?;
    for empties in 4..52u32 {
        let ends_quarter = [12, 15, 18].contains(&empties);
        assert!(rt; is_shown_after_one_more(&rt, &table, empties) == ends_quarter);
    }
    Ok(())
}

// Calls of `value_in` store 3,302 positions with 4 to 11 empty squares. Returns how many of them the
// table shows then.
fn count_shown_of_many(rt: &impl Abort, table: &BoundTable) -> u32 {
    let mut shown = 0u32;
    for is_stored in [false, true] {
        for squares in 0..4096u64 {
            let position = with_empty_squares(rt, squares);
            if squares.count_ones() > 7 {
                continue;
            }
            if !is_stored {
                let _ = value_in(table, position, -65, 65);
            } else if shows(table, position, 64) {
                shown = shown.wrapping_add(1);
            }
        }
    }
    shown
}

#[test]
fn many_stores_of_few_empty_squares_replace_none_of_more(rt: HostRuntime) -> Result<(), Fail> {
    let table = BoundTable::new(rt.alloc(), 64, Scoring::Winner)?;
    for empties in [13, 16, 19] {
        let _ = value_in(&table, with_empties(&rt, empties), -65, 65);
    }
    assert!(rt; count_shown_of_many(&rt, &table) <= 16);
    for empties in [13, 16, 19] {
        assert!(rt; shows(&table, with_empties(&rt, empties), 64));
    }
    Ok(())
}

// 3,302 stores to 4,096 entries that are chosen at random leave 2,267 positions.
#[test]
fn all_entries_of_a_quarter_are_used(rt: HostRuntime) -> Result<(), Fail> {
    let table = BoundTable::new(rt.alloc(), 16_384, Scoring::Winner)?;
    assert!(rt; count_shown_of_many(&rt, &table) > 2_100);
    Ok(())
}
