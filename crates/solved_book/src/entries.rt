//! One line of a book.

ghost use Rattle.std.specs.Prelude.{◌≡◌, option_map, IfOk, IfErr};
ghost use Rattle.obf_text.specs.Obf.{entry_of, item_of};
ghost use Rattle.othello_bits.specs.Pos.{discs_of};
ghost use Rattle.solved_book.specs.Claims.{claim_in_entry, is_canonical_entry};
ghost use Rattle.solved_book.specs.Claims.{claim_in_line};
ghost use Rattle.solved_book.specs.Order.{position_at};
ghost use Rattle.solved_book.specs.Reading.{GivesLine};

use crate::book_fault::BookFault;
use crate::listing::claim_of;
use crate::order::{Masks, is_behind, masks_of};
use endgame_search::Claim;
use obf_text::{Item, Line, LineFault, read_line};
use othello_bits::Pos;
use othello_rules::{Grid, Side};
use std::alloc::Global;

// Whether Black is to move, and the position is the least of its eight images.
fn is_canonical(grid: &Grid, position: Pos) -> bool
    requires { position ≡ discs_of grid.now }
    ensures { result ≡ is_canonical_entry grid.now }
{
    grid.side() == Side::Black && position.least_image() == position
}

// The claim of an entry in line `number`, with the masks of its position. `before` has the masks of
// the last claim's position.
fn claim_in_entry(
    number: usize,
    before: Option<Masks>,
    entry: &Line,
) -> Result<Option<(Masks, Claim)>, BookFault>
    ensures { GivesLine result
        (claim_in_entry number (option_map position_at before) (entry_of entry.now)) }
{
    let Some(claim) = claim_of(&entry.listed) else {
        return Err(BookFault::NoMoves(number));
    };
    let position = Pos::of_grid(&entry.grid);
    let masks = masks_of(position);
    if !is_behind(before, masks) {
        return Err(BookFault::Unsorted(number));
    }
    if is_canonical(&entry.grid, position) {
        Ok(Some((masks, claim)))
    } else {
        Err(BookFault::NotCanonical(number))
    }
}

/// The claim of line `number`, from 1, with the masks of its position. None if the line is
/// skipped. `before` has the masks of the last claim's position.
pub(crate) fn claim_in_line(
    alloc: Global,
    number: usize,
    before: Option<Masks>,
    line: &[u8],
) -> Result<Option<(Masks, Claim)>, BookFault>
    ensures { GivesLine result
        (claim_in_line number (option_map position_at before) (item_of line.now)) }
{
    match read_line(alloc, line) {
        Ok(Item::Skip) => Ok(None),
        Ok(Item::Entry(entry)) => claim_in_entry(number, before, &entry),
        Err(LineFault::Memory) => Err(BookFault::Memory),
        Err(fault) => Err(BookFault::Line(number, fault)),
    }
}
