//! Why a table can't be made.

use crate::bound_table::BoundTable;
use thiserror::Error;

/// Why a table can't be made.
#[derive(Clone, Copy, PartialEq, Eq, Debug, Error)]
pub enum TableFault {
    /// More entries were asked for than a table may have.
    #[error("more than {} table entries", BoundTable::MOST_ENTRIES)]
    TooMany,
    /// Memory for the table was refused.
    #[error("out of memory")]
    Memory,
}
