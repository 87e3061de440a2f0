//! The criteria by which the lines of a file are refused and checked.

/// The criteria by which the lines of a file are refused and checked.
#[derive(Clone, Copy, PartialEq, Eq, Debug)]
pub struct Criteria {
    /// The most empty squares of a position that is solved. One with more is refused.
    pub limit: u8,
    /// Whether a line that lists any move must list all best ones.
    pub complete: bool,
}
