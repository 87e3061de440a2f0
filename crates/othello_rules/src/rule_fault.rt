//! Why a move is refused.

use thiserror::Error;

/// Why a move is refused.
#[derive(Clone, Copy, PartialEq, Eq, Debug, Error)]
pub enum RuleFault {
    /// A disc stands on the square.
    #[error("the square is occupied")]
    Occupied,
    /// The square is empty, and a disc on it would turn nothing.
    #[error("the move turns nothing")]
    TurnsNothing,
}
