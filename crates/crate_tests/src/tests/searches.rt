//! The answers of worked positions, the order of moves, and which positions a search asks its table for.

mod claims;
mod counts;
mod foreseen;
mod orders;
mod probes;
mod shared;

ghost use Rattle.std.specs.Prelude.{◌≡◌};
ghost use Rattle.othello_rules.specs.declared.scoring.Scoring.TheVariants.{Winner};

use super::worked::{
    BLACK_BOARD, Discs, EQUAL_CORNERS, LAST_CORNER, TWENTY_EMPTY_SQUARES, UNEQUAL_CORNERS, WORKED,
    pos_of, task_of,
};
use bound_table::{Advice, BoundTable, Bounds, Range};
use endgame_search::value_in;
use othello_bits::Pos;
use othello_rules::{Scoring, Side, Square};
use std::alloc::Global;
use std::cell::Cell;
use std::process::Abort;

// -XXOXXX- XOXXXXOX and six rows XXXXXXXX
const OPEN_CORNERS: Discs = (!0x4289, 0x4208);

// XXXXXXXX XXXOXXXX XXXXXXXX XXXXXXXX XOXXXXXX XXOOOXXX XXXXOXX- X-OXOO--
const FOUR_WITH_UNEQUAL_REPLIES: Discs = (0x96f_e3fd_ffff_f7ff, 0x3410_1c02_0000_0800);

// OOOOOOOX OXXXXXXX OOXXOXOX OOOXXOXX OXOOXOXX OOXXOXXX --OXXXXX --------
const TEN_EMPTY_SQUARES: Discs = (0xf8_ecd2_d8ac_fe80, 0x4_132d_2753_017f);

const H1: u64 = 0x80;

// A table that counts its probes and stores, and its stores of the first of two positions, and notes
// whether either was probed.
#[derive(Drop)]
pub(super) struct ProbeCounter {
    table: BoundTable,
    watched: [Pos; 2],
    pub(super) probes: Cell<u32>,
    stores: Cell<u32>,
    stored: Cell<u32>,
    seen: [Cell<bool>; 2],
}

impl Advice for ProbeCounter {}

impl Bounds for ProbeCounter {
    ghost scoring = { λ counter. counter.table.scoring };

    fn scoring(&self) -> Scoring {
        self.table.scoring()
    }

    fn probe(&self, position: &Pos) -> Option<Range> {
        self.probes.set(self.probes.get().wrapping_add(1));
        note(&self.watched[0], &self.seen[0], position);
        note(&self.watched[1], &self.seen[1], position);
        self.table.probe(position)
    }

    fn store(&self, position: &Pos, range: Range) {
        self.stores.set(self.stores.get().wrapping_add(1));
        if self.watched[0] == *position {
            self.stored.set(self.stored.get().wrapping_add(1));
        }
        self.table.store(position, range);
    }
}

// Sets `seen` if the watched position is the one probed.
fn note(watched: &Pos, seen: &Cell<bool>, probed: &Pos) {
    if watched == probed {
        seen.set(true);
    }
}

// A counter over a new table of `entries` entries under Winner.
pub(super) fn count_probes(
    rt: &impl Abort,
    alloc: Global,
    entries: usize,
    watched: [Pos; 2],
) -> ProbeCounter
    ensures { result.table ≡ record { scoring = Winner; entries = entries } }
{
    ProbeCounter {
        table: BoundTable::new(alloc, entries, Scoring::Winner).expect(rt, "memory"),
        watched,
        probes: Cell::new(0),
        stores: Cell::new(0),
        stored: Cell::new(0),
        seen: [Cell::new(false), Cell::new(false)],
    }
}

fn after(rt: &impl Abort, position: Pos, square: Square) -> Pos {
    position.play(square).expect(rt, "a move")
}

// Whether the move to the first of two squares is enough for the window from 0 to 1, and the
// position after the second is not probed.
fn is_first_enough(
    rt: &impl Abort,
    alloc: Global,
    discs: Discs,
    first: Square,
    second: Square,
) -> bool {
    let position = pos_of(rt, discs, Side::Black);
    let watched = [after(rt, position, first), after(rt, position, second)];
    let counter = count_probes(rt, alloc, 0, watched);
    value_in(&counter, position, 0, 1) >= 1 && counter.seen[0].get() && !counter.seen[1].get()
}
