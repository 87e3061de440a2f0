//! Jobs of many senders: solved in any order, by anyone, and handed back to each sender in the
//! order of its submits.
//!
//! ```rust
//! use job_board::{Board, Handed};
//!
//! let mut board = Board::new(alloc, 1)?;
//! board.submit(0, task)?;
//! let job = board.take().expect(&rt, "one job waits");
//! board.finish(job.id, solve(&NoTable::new(task.scoring()), job.task))?;
//! assert!(rt; matches!(board.deliver(0), Handed::Next(_)));
//! ```
//!
//! A `Board` is a state machine of six steps, which runs on one thread. A `Desk` is a board that
//! threads share under a lock. A `Client` stores which tasks one sender sent to a desk, and how
//! many of their answers came back.
#![tactic(auto)]

mod board;
mod client;
mod desk;
mod faults;
mod job_queue;
mod jobs;
pub mod laws;
mod sender;
mod shared_jobs;
mod steps;

pub use board::Board;
pub use client::{Client, Turn};
pub use desk::{Desk, Errand};
pub use faults::{BoardFault, JobFault, Mixed, NoSender, SubmitFault};
pub use jobs::{Delivery, Handed, Job, JobId, SharedJob};
pub use steps::{Reply, Step, run_steps};
