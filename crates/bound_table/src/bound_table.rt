//! A transposition table, whose entries are ranges, that many threads share.

ghost use Rattle.std.specs.Prelude.{◌≡◌, ◌<◌, ◌≤◌, ◌↔◌, IfSome, IfOk, IsOk, IsNone, IsTrue};
ghost use Rattle.bound_table.specs.Limits.{most_entries};
ghost use Rattle.bound_table.specs.declared.table_fault.TableFault.TheVariants as fault;
ghost use Rattle.bound_table.specs.Range.{IsTrueOf};

use crate::advice::Advice;
use crate::begun::Begun;
use crate::bounds::Bounds;
use crate::entry::{Entry, Slot, empty_slot, read, write};
use crate::range::Range;
use crate::table_fault::TableFault;
use crate::tuning::{FEWEST_SHARED_ENTRIES, MOST_BEGUN, MOST_WORTHS, quarter_of};
use crate::worths::{Foreseen, Worths};
use othello_bits::Pos;
use othello_rules::Scoring;
use std::alloc::Global;
use std::marker::Model;
use std::sync::atomic::{AtomicU8, Ordering};

// One more than the greatest number of empty squares.
const ABOVE_ALL_EMPTIES: u8 = 65;

// How many places there are for what threads foresee, beside this number of entries.
fn worths_beside(entries: usize) -> usize
    ensures { entries ≡ 0 → result ≡ 0 }
{
    if entries < FEWEST_SHARED_ENTRIES {
        0
    } else {
        entries.min(MOST_WORTHS)
    }
}

/// A transposition table with a fixed number of entries, which threads share by reference. No call
/// waits, and only `new` takes memory. An entry holds a canonical position and a range that is true
/// of it. A store replaces what its entry holds. It is skipped if another thread reads or writes
/// the entry. A probe shows None if another thread writes the entry, and may show None if one
/// reads it.
#[derive(Drop)]
pub struct BoundTable {
    scoring: Scoring,
    // The fewest empty squares of a position that was stored. `ABOVE_ALL_EMPTIES` before the first
    // store.
    fewest_empties: AtomicU8,
    slots: Vec<Slot>,
    // The positions that threads are searching.
    begun: Begun,
    // What threads foresee that positions are worth.
    worths: Worths,
}

impl Model for BoundTable {
    ghost use Rattle.std.specs.Prelude.{length};
    ghost use Rattle.bound_table.specs.Table.{TableView, IsTable};

    ghost Value = { TableView };

    ghost view = { λ t. record { scoring = t.scoring; entries = length t.slots.items } };

    ghost invariant = { λ t. IsTable t.scoring t.slots.items };
}

// A number that depends on all bits of both masks: each mask times an odd constant, joined by xor,
// then mixed by a shift and a third product. The constants are those of splitmix64 and xxHash64.
#[inline]
fn hash_of(position: Pos) -> u64 {
    let products = position.own().wrapping_mul(0x9e37_79b9_7f4a_7c15)
        ^ position.opp().wrapping_mul(0xc2b2_ae3d_27d4_eb4f);
    (products ^ (products >> 29)).wrapping_mul(0xbf58_476d_1ce4_e5b9)
}

// The same of a position in a respect.
#[inline]
fn hash_in(position: Pos, respect: u16) -> u64 {
    (hash_of(position) ^ u64::from(respect)).wrapping_mul(0x9e37_79b9_7f4a_7c15)
}

// The number of the entry of a position, counted from 0. The position's quarter, plus the upper half
// of its hash over 2^32, is from 0 to 4, and a fourth of that is a fraction of 1. The number is that
// fraction of the number of entries, rounded down.
#[inline]
fn entry_index(position: Pos, entries: usize) -> usize
    requires some { 0 < entries }
    requires few { entries ≤ most_entries }
    ensures { result < entries }
{
    let fraction = (quarter_of(position.empties()) << 32) + (hash_of(position) >> 32);
    ((fraction * entries as u64) >> 34) as usize
}

impl BoundTable {
    /// The greatest number of entries of a table.
    pub const MOST_ENTRIES: usize = 4_194_304;

    /// A table under the scoring with `entries` entries, all empty. With 0 entries it
    /// keeps nothing. `TooMany` above `MOST_ENTRIES`, before any memory is asked for. `Memory`
    /// if memory was refused.
    pub fn new(alloc: Global, entries: usize, scoring: Scoring) -> Result<BoundTable, TableFault>
        ensures too_many { (result ≡ Err fault.TooMany) ↔ (most_entries < entries) }
        ensures made { IfOk result
            (λ table. table ≡ record { scoring = scoring; entries = entries }) }
        ensures without_memory { entries ≡ 0 → IsOk result }
    {
        if entries > Self::MOST_ENTRIES {
            return Err(TableFault::TooMany);
        }
        let Ok(mut slots) = Vec::with_capacity(alloc, entries) else {
            return Err(TableFault::Memory);
        };
        for _ in 0..entries {
            slots.push_reserved(empty_slot(scoring));
        }
        let Ok(begun) = Begun::new(alloc, entries.min(MOST_BEGUN)) else {
            return Err(TableFault::Memory);
        };
        let Ok(worths) = Worths::new(alloc, worths_beside(entries)) else {
            return Err(TableFault::Memory);
        };
        Ok(BoundTable {
            scoring,
            fewest_empties: AtomicU8::new(ABOVE_ALL_EMPTIES),
            slots,
            begun,
            worths,
        })
    }

    // Whether the table has no entries, and so keeps nothing.
    #[inline]
    fn is_empty(&self) -> bool
        ensures { IsTrue result ↔ (self.now.entries ≡ 0) }
    {
        self.slots.is_empty()
    }

    // Whether each stored position has more than `empties` empty squares. Then no position with
    // `empties` empty squares is stored, and a probe for one need not look at the entries.
    #[inline]
    fn is_below_all(&self, empties: u8) -> bool {
        empties < self.fewest_empties.load(Ordering::SeqCst)
    }

    // Lowers the fewest empty squares to those of a position that is stored.
    #[inline]
    fn note_empties(&self, empties: u8) {
        if self.is_below_all(empties) {
            self.fewest_empties.fetch_min(empties, Ordering::SeqCst);
        }
    }

    // The slot of a canonical position.
    #[inline]
    fn slot(&self, canonical: Pos) -> &Slot
        requires { 0 < self.now.entries }
        ensures { result.now ≡ self.now.scoring }
    {
        &self.slots[entry_index(canonical, self.slots.len())]
    }
}

impl Bounds for BoundTable {
    ghost scoring = { λ table. table.scoring };

    #[inline]
    fn scoring(&self) -> Scoring {
        self.scoring
    }

    #[inline]
    fn probe(&self, position: &Pos) -> Option<Range>
        ensures shown { IfSome result (IsTrueOf self.now.scoring position.now) }
        ensures empty { self.now.entries ≡ 0 → IsNone result }
    {
        if self.is_empty() || self.is_below_all(position.empties()) {
            return None;
        }
        let canonical = position.least_image();
        let entry = read(self.slot(canonical))?;
        entry.range_of(canonical)
    }

    #[inline]
    fn store(&self, position: &Pos, range: Range) {
        if self.is_empty() {
            return;
        }
        self.note_empties(position.empties());
        let entry = Entry::of(position, range);
        write(self.slot(entry.position), entry);
    }
}

impl Advice for BoundTable {
    #[inline]
    fn is_worth_sharing(&self) -> bool {
        self.slots.len() >= FEWEST_SHARED_ENTRIES
    }

    #[inline]
    fn begin(&self, position: &Pos) {
        self.begun.begin(hash_of(*position));
    }

    #[inline]
    fn end(&self, position: &Pos) {
        self.begun.end(hash_of(*position));
    }

    #[inline]
    fn is_begun(&self, position: &Pos) -> bool {
        self.begun.has(hash_of(*position))
    }

    #[inline]
    fn foreseen(&self, position: &Pos, respect: u16) -> Foreseen {
        self.worths.find(hash_in(*position, respect))
    }

    #[inline]
    fn note_foreseen(&self, position: &Pos, respect: u16, foreseen: Foreseen) {
        self.worths.keep(hash_in(*position, respect), foreseen);
    }
}
