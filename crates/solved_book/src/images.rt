//! The best moves on an image of a position.

ghost use Rattle.std.specs.Prelude.{◌≡◌};
ghost use Rattle.othello_bits.specs.Symmetries.{best_image};

use othello_bits::Sym;
use othello_rules::Best;

/// The best moves on the image of a position under `sym`. A pass and the end of the game stay what
/// they are.
pub(crate) fn best_on_image(best: Best, sym: Sym) -> Best
    ensures { result ≡ best_image sym best }
{
    match best {
        Best::Moves(mask) => Best::Moves(sym.mask(mask)),
        Best::Pass => Best::Pass,
        Best::Over => Best::Over,
    }
}
