//! Runs over the files of a suite. The lines of each file are read and solved, on the calling
//! thread or on several. A run makes a report for each file, and one book of all solved positions.
//!
//! ```rust
//! use program_settings::Settings;
//! use suite_runs::{NoGate, solve_files};
//!
//! let solved = solve_files(&rt, alloc, &files, &Settings::default(), None, &NoGate)?;
//! assert!(rt; solved.reports(alloc)?.len() == files.len());
//! solved.book(alloc)?.write(&mut text)?;
//! ```
//!
//! Programs call `solve_files`. `run` is for callers that want reports and book at once, and
//! `run_serial` for those without threads. `worker_part` and the modules `joined` and `started_client`
//! are public for the tests, which are in `crate_tests`.
#![tactic(auto)]

mod client;
mod gate;
pub mod joined;
pub mod laws;
mod outcome;
mod part;
mod run_fault;
mod runs;
mod serial;
mod shared;
mod solved_files;
mod solver;
pub mod started_client;
mod threads;
mod worker;

pub use gate::{Gate, NoGate};
pub use outcome::Outcome;
pub use part::Part;
pub use run_fault::RunFault;
pub use runs::{run, run_serial};
pub use solved_files::SolvedFiles;
pub use threads::solve_files;
pub use worker::worker_part;
