//! Probes and stores of several threads at once.

ghost use Rattle.std.specs.Prelude.{◌≡◌};
ghost use Rattle.othello_rules.specs.declared.scoring.Scoring.TheVariants.{Winner};

use super::Exact;
use bound_table::{BoundTable, Bounds};
use othello_bits::{Pos, Sym};
use othello_rules::Scoring;
use std::test::Fail;
use std::thread;

// Whether what the table shows of an image holds the value.
fn shows_truth(table: &BoundTable, position: Pos, value: i8) -> bool {
    for sym in Sym::all() {
        if let Some(range) = table.probe(&position.image(sym)) {
            if value < range.low() || range.high() < value {
                return false;
            }
        }
    }
    true
}

// Stores both positions by turns in two of the threads, and probes them in the others. The result
// says whether only what is true was shown.
fn store_or_probe(table: &BoundTable, thread: usize, unequal: &Exact, equal: &Exact) -> bool {
    if table.scoring() != Scoring::Winner {
        return false;
    }
    for _ in 0..2_000u32 {
        if thread < 2 {
            for _ in 0..5u32 {
                table.store(&unequal.position, unequal.range);
                table.store(&equal.position, equal.range);
            }
        } else if !shows_truth(table, unequal.position, 62)
            || !shows_truth(table, equal.position, 64)
        {
            return false;
        }
    }
    true
}

#[test]
fn threads_are_shown_only_what_is_true(rt: HostRuntime) -> Result<(), Fail> {
    let unequal = Exact::of_unequal_corners(&rt);
    let equal = Exact::of_equal_corners(&rt);
    for entries in [1, 2] {
        let table = BoundTable::new(rt.alloc(), entries, Scoring::Winner)?;
        let shown = thread::map_indices(
            &rt,
            rt.alloc(),
            4,
            &|thread| { store_or_probe(&table, thread, &unequal, &equal) },
        )?;
        assert!(rt; shown.as_slice() == [true; 4].as_slice());
    }
    Ok(())
}
