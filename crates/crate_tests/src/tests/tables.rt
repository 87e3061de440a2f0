//! What no contract says: that a store is shown, to every image, and which calls succeed.

mod quarters;
mod threads;

ghost use Rattle.std.specs.Prelude.{◌≡◌};
ghost use Rattle.othello_rules.specs.declared.scoring.Scoring.TheVariants.{Winner};
ghost use Rattle.bound_table.specs.Range.{IsTrueOf};

use super::published::MOST_ENTRIES;
use bound_table::{Advice, BoundTable, Bounds, Foreseen, NoTable, Range, TableFault};
use othello_bits::{Pos, Sym};
use othello_rules::{Scoring, Side};
use std::process::Abort;
use std::test::Fail;

// A position and the range of its value alone.
#[derive(Clone, Copy)]
struct Exact {
    position: Pos,
    range: Range,
    ghost is_true: { IsTrueOf Winner position range },
}

impl Exact {
    // The position where the opponent has the discs `opp`, A1 and H1 are empty, and the mover has
    // all other squares. The range is its value by full minimax.
    fn of(rt: &impl Abort, opp: u64) -> Exact {
        let position = Pos::new(!(opp | 0x81), opp).expect(rt, "no square is taken twice");
        let value = position.to_grid(Side::Black).plain_value(Scoring::Winner);
        let range = Range::new(value, value).unwrap();
        Exact { position, range }
    }

    // -OXXXXX- XXXXXXXO XXXXXXXX XXXXXXXX XXXOXXXX and three rows of X: 62
    fn of_unequal_corners(rt: &impl Abort) -> Exact {
        Exact::of(rt, 0x0000_0008_0000_8002)
    }

    // -OOXXOO- and seven rows of X: 64
    fn of_equal_corners(rt: &impl Abort) -> Exact {
        Exact::of(rt, 0x66)
    }
}

// Whether the table shows that the position has this value.
fn shows(table: &BoundTable, position: Pos, value: i8) -> bool {
    table.probe(&position) == Range::new(value, value)
}

// Whether a store is shown to each image of the position, and nothing before it.
fn is_shown_once_stored(table: &BoundTable, exact: &Exact, value: i8) -> bool
    requires { table.now.scoring ≡ Winner }
{
    let before = table.probe(&exact.position);
    table.store(&exact.position, exact.range);
    for sym in Sym::all() {
        if !shows(table, exact.position.image(sym), value) {
            return false;
        }
    }
    before.is_none()
}

#[test]
fn a_store_is_shown_to_every_image(rt: HostRuntime) -> Result<(), Fail> {
    let table = BoundTable::new(rt.alloc(), 1, Scoring::Winner)?;
    let unequal = Exact::of_unequal_corners(&rt);
    let equal = Exact::of_equal_corners(&rt);
    assert!(rt; is_shown_once_stored(&table, &unequal, 62));
    assert!(rt; is_shown_once_stored(&table, &equal, 64));
    // There is one entry.
    assert!(rt; table.probe(&unequal.position).is_none());
    Ok(())
}

// Whether the table shows nothing after a range was offered to it.
fn keeps_nothing<T: Bounds>(table: &T, exact: &Exact) -> bool
    requires { T.scoring table.now ≡ Winner }
{
    table.store(&exact.position, exact.range);
    table.probe(&exact.position).is_none()
}

#[test]
fn tables_of_each_size(rt: HostRuntime) -> Result<(), Fail> {
    let exact = Exact::of_equal_corners(&rt);
    let no_table = NoTable::new(Scoring::Winner);
    assert!(rt; no_table.scoring() == Scoring::Winner && keeps_nothing(&no_table, &exact));
    let empty = BoundTable::new(rt.alloc(), 0, Scoring::Winner)?;
    assert!(rt; keeps_nothing(&empty, &exact));
    let table = BoundTable::new(rt.alloc(), 16, Scoring::Winner)?;
    assert!(rt; table.scoring() == Scoring::Winner && !keeps_nothing(&table, &exact));
    let too_many = BoundTable::new(rt.alloc(), MOST_ENTRIES as usize + 1, Scoring::Winner).err();
    assert!(rt; too_many == Some(TableFault::TooMany));
    Ok(())
}

// The positions where the opponent has some of the squares A2 to E2, and A1 and H1 are empty.
fn with_row_2(rt: &impl Abort, discs: u64) -> Exact {
    Exact::of(rt, (discs & 0x1f) << 8)
}

// How many of 31 positions a table shows after all of them were stored.
fn count_shown(rt: &impl Abort, table: &BoundTable) -> usize
    requires { table.now.scoring ≡ Winner }
{
    for discs in 1..32u64 {
        let exact = with_row_2(rt, discs);
        table.store(&exact.position, exact.range);
    }
    (1..32u64)
        .filter(|discs| table.probe(&with_row_2(rt, *discs).position).is_some())
        .count()
}

#[test]
fn positions_have_entries_of_their_own(rt: HostRuntime) -> Result<(), Fail> {
    let table = BoundTable::new(rt.alloc(), 64, Scoring::Winner)?;
    assert!(rt; count_shown(&rt, &table) >= 8);
    Ok(())
}

// What the table finds noted of a position after this note.
fn found_after(table: &BoundTable, position: &Pos, note: Foreseen) -> Foreseen {
    table.note_foreseen(position, 5, note);
    table.foreseen(position, 5)
}

// Notes are kept beside 4,096 entries or more, each for its position in its respect.
#[test]
fn notes_are_found(rt: HostRuntime) -> Result<(), Fail> {
    let Exact { position, .. } = Exact::of_unequal_corners(&rt);
    let other = Exact::of_equal_corners(&rt).position;
    let table = BoundTable::new(rt.alloc(), 4_096, Scoring::Winner)?;
    assert!(rt; table.foreseen(&position, 5) == Foreseen::Unknown);
    for note in [Foreseen::Begun, Foreseen::Worth(0), Foreseen::Worth(4_000)] {
        assert!(rt; found_after(&table, &position, note) == note);
    }
    assert!(rt; table.foreseen(&position, 6) == Foreseen::Unknown);
    assert!(rt; table.foreseen(&other, 5) == Foreseen::Unknown);
    let small = BoundTable::new(rt.alloc(), 4_095, Scoring::Winner)?;
    assert!(rt; found_after(&small, &position, Foreseen::Worth(1)) == Foreseen::Unkept);
    assert!(rt; NoTable::new(Scoring::Winner).foreseen(&position, 5) == Foreseen::Unkept);
    Ok(())
}

// The position where the opponent has some of the squares from A2 on, A1 and H1 are empty, and the
// mover has all other squares.
fn with_discs(rt: &impl Abort, discs: u64) -> Pos {
    let opp = discs << 8;
    Pos::new(!(opp | 0x81), opp).expect(rt, "no square is taken twice")
}

// After notes of 20,000 positions, beside a table of 4,096 entries, nothing is noted of others.
#[test]
fn a_note_is_of_its_position_alone(rt: HostRuntime) -> Result<(), Fail> {
    let table = BoundTable::new(rt.alloc(), 4_096, Scoring::Winner)?;
    for discs in 0..20_000u64 {
        table.note_foreseen(&with_discs(&rt, discs), 5, Foreseen::Worth(7));
    }
    for discs in 20_000..21_000u64 {
        assert!(rt; table.foreseen(&with_discs(&rt, discs), 5) == Foreseen::Unknown);
    }
    Ok(())
}
