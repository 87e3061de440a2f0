//! What is set for a run and for every program: limits, settings, the version, and which files are
//! refused.
//!
//! ```rust
//! use program_settings::{MOST_FILES, Settings, check_files};
//! use othello_rules::Scoring;
//!
//! let settings = Settings::new(24, 2, 1_000_000, Scoring::Winner);
//! let settings = settings.expect(&rt, "no number is too great");
//! assert!(rt; settings.max_empties() == 24 && settings != Settings::default());
//! assert!(rt; check_files(&files).is_err() || files.len() <= MOST_FILES);
//! ```
#![tactic(auto)]

mod criteria;
mod input_fault;
mod limits;
mod settings;
mod version;

pub use criteria::Criteria;
pub use input_fault::{InputFault, check_files};
pub use limits::{
    DEFAULT_EMPTIES, DEFAULT_EMPTIES_TEXT, DEFAULT_ENTRIES, DEFAULT_ENTRIES_TEXT, DEFAULT_WORKERS,
    DEFAULT_WORKERS_TEXT, MOST_BYTES, MOST_EMPTIES, MOST_ENTRIES, MOST_FILES, MOST_WORKERS,
};
pub use settings::Settings;
pub use version::{VERSION, VERSION_NUMBER};
