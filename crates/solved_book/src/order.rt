//! The order in which a book holds its positions.

ghost use Rattle.std.specs.Prelude.{◌≡◌, option_map};
ghost use Rattle.solved_book.specs.Order.{is_behind, position_at};

use othello_bits::Pos;

/// The masks of a position: the mover's discs, then the other side's. The order of positions is
/// that of these pairs of numbers, and a map with these keys is in this order.
pub(crate) type Masks = (u64, u64);

pub(crate) fn masks_of(position: Pos) -> Masks
    ensures { position_at result ≡ position }
{
    (position.own(), position.opp())
}

/// Whether a position is greater than the one before it. True if there is none before it.
pub(crate) fn is_behind(before: Option<Masks>, masks: Masks) -> bool
    ensures { result ≡ is_behind (option_map position_at before) (position_at masks) }
{
    match before {
        None => true,
        Some(last) => masks > last,
    }
}
