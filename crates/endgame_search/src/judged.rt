//! The order of moves where many squares are empty: by what a shallow search finds that the children
//! are worth, and by the opponent's mobility. Threads that search one position share that work by
//! notes in the table.

ghost use Rattle.std.specs.Prelude.{◌≡◌, ◌<◌, ◌≤ℤ◌, pos, negsuc, All};
ghost use Rattle.othello_bits.specs.Pos.{moves_of};
ghost use Rattle.endgame_search.specs.Children.{AreChildrenOf, IsChildOf};

use crate::foresight::{GREATEST_WORTH, foresee};
use crate::move_order::Child;
use crate::tuning::{DISC, ENOUGH, FEWEST_JUDGED, MOST_WORTH, plies_ahead};
use bound_table::{Advice, Foreseen};
use othello_bits::Pos;

// How children are judged: how many plies are foreseen; up to which worth for the opponent all
// children count alike; and the number under which threads note what they find.
#[derive(Clone, Copy)]
struct Look {
    plies: u8,
    enough: i32,
    respect: u16,
}

impl Look {
    // How the children of a position with this number of empty squares are judged, in a search for
    // moves that are worth more than the bound.
    fn at(empties: u8, bound: i8) -> Look
        ensures least { negsuc 1999 ≤ℤ result.enough }
        ensures most { result.enough ≤ℤ pos 2000 }
    {
        Look {
            plies: plies_ahead(empties),
            enough: DISC * (-i32::from(bound) - ENOUGH),
            respect: 2 * u16::from(bound.unsigned_abs()) + u16::from(bound < 0),
        }
    }

    // What the child is worth for the opponent after some plies, above what makes no difference.
    #[inline(always)]
    fn foresee<T: Advice>(self, table: &T, child: Child) -> u16
        requires replies { child.replies ≡ moves_of child.position }
        requires least { negsuc 1999 ≤ℤ self.enough }
        requires most { self.enough ≤ℤ pos 2000 }
        ensures { result < 8192 }
    {
        let worth = foresee(
            table,
            child.position,
            child.replies,
            self.plies,
            self.enough,
            GREATEST_WORTH,
        );
        (worth.clamp(self.enough, MOST_WORTH) - self.enough) as u16
    }

    // The same, as a thread has noted it, otherwise as it is foreseen.
    #[inline(always)]
    fn find<T: Advice>(self, table: &T, child: Child) -> u16
        requires replies { child.replies ≡ moves_of child.position }
        requires least { negsuc 1999 ≤ℤ self.enough }
        requires most { self.enough ≤ℤ pos 2000 }
        ensures { result < 8192 }
    {
        match table.foreseen(&child.position, self.respect) {
            Foreseen::Worth(worth) => worth.min(8191),
            _ => self.foresee(table, child),
        }
    }

    // Notes what each child is worth, but for those that another thread notes.
    fn note<T: Advice>(self, table: &T, position: Pos, children: &[Child])
        requires children { All (IsChildOf position) children.now }
        requires least { negsuc 1999 ≤ℤ self.enough }
        requires most { self.enough ≤ℤ pos 2000 }
    {
        for child in children {
            if table.foreseen(&child.position, self.respect) == Foreseen::Unknown {
                table.note_foreseen(&child.position, self.respect, Foreseen::Begun);
                let worth = self.foresee(table, *child);
                table.note_foreseen(&child.position, self.respect, Foreseen::Worth(worth));
            }
        }
    }
}

// Gives each child of a position its place in the order of a search for moves that are worth more
// than the bound, if many squares are empty; with fewer it stays that by mobility. Nothing is sorted.
pub(crate) fn judge_children<T: Advice>(table: &T, position: Pos, bound: i8, children: &mut [Child])
    requires { AreChildrenOf position children.old }
    ensures { AreChildrenOf position children.new }
{
    let empties = position.empties();
    if empties < FEWEST_JUDGED || children.len() == 1 {
        return;
    }
    let look = Look::at(empties, bound);
    look.note(table, position, children);
    for child in children.iter_mut() {
        *child = child.judged(look.find(table, *child));
    }
}
