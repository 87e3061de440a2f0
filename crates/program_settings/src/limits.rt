//! The limits of a run, and the defaults of its settings.

use bound_table::BoundTable;
use endgame_search::Task;

/// The greatest limit of empty squares that settings may have.
pub const MOST_EMPTIES: u8 = Task::MOST_EMPTIES;
/// The most worker threads.
pub const MOST_WORKERS: u8 = 64;
/// The most entries of a table of bounds.
pub const MOST_ENTRIES: u32 = BoundTable::MOST_ENTRIES as u32;
/// The most files of a run.
pub const MOST_FILES: usize = 64;
/// The most bytes of a file.
pub const MOST_BYTES: usize = 1_048_576;
/// The limit of empty squares if none is given.
pub const DEFAULT_EMPTIES: u8 = 20;
/// The number of worker threads if none is given.
pub const DEFAULT_WORKERS: u8 = 2;
/// The entries of the table of bounds if no number is given.
pub const DEFAULT_ENTRIES: u32 = 65_536;
/// `DEFAULT_EMPTIES` as the words of a command line have it.
pub const DEFAULT_EMPTIES_TEXT: &str = "20";
/// `DEFAULT_WORKERS` as the words of a command line have it.
pub const DEFAULT_WORKERS_TEXT: &str = "2";
/// `DEFAULT_ENTRIES` as the words of a command line have it.
pub const DEFAULT_ENTRIES_TEXT: &str = "65536";
