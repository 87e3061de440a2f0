//! What threads tell each other that search over one table.

use crate::worths::Foreseen;
use othello_bits::Pos;

/// What threads tell each other that search over one table, so that they share the work. All of it
/// is advice: any answer is right.
pub trait Advice {
    /// Whether threads that search one position over the table are faster together than one of them
    /// alone.
    #[inline]
    fn is_worth_sharing(&self) -> bool {
        false
    }

    /// Is told that a thread begins to search a position, so that others may leave it for later
    /// (ABDADA: Weill, 1996).
    #[inline]
    fn begin(&self, _position: &Pos) {}

    /// Is told that a thread has searched a position.
    #[inline]
    fn end(&self, _position: &Pos) {}

    /// Whether a thread seems to be searching a position.
    #[inline]
    fn is_begun(&self, _position: &Pos) -> bool {
        false
    }

    /// What threads have noted that a position is worth, in a respect: a number that the search
    /// chooses for what is asked of the position.
    #[inline]
    fn foreseen(&self, _position: &Pos, _respect: u16) -> Foreseen {
        Foreseen::Unkept
    }

    /// Is told what a thread foresees that a position is worth in this respect, or that it has begun to
    /// look, so that others need not look.
    #[inline]
    fn note_foreseen(&self, _position: &Pos, _respect: u16, _foreseen: Foreseen) {}

    /// Is told of each evaluation that orders moves or begins a search. Tests count them.
    #[inline]
    fn note_evaluation(&self) {}
}
