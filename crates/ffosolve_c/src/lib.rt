//! The solver for C: exact answers for positions given as masks.
//!
//! ```c
//! #include "ffosolve.h"
//!
//! /* H1 and seven full rows against B1 to G1: +64, by A1 */
//! ffosolve_position position = {~0x7fULL, 0x7e};
//! ffosolve_answer answer;
//! if (ffosolve_solve(position, FFOSOLVE_WINNER, 0, &answer) == FFOSOLVE_DONE)
//!     printf("%d %" PRIx64 "\n", answer.score, answer.best);
//! ```
#![tactic(auto)]

mod answer;
mod call_refusal;
mod calls;
mod line;
mod listed;
mod many_positions;
mod one_position;
mod position;
mod scores;
mod symmetry;
mod table;

pub use answer::FfosolveAnswer;
pub use call_refusal::CallRefusal;
pub use calls::{
    ffosolve_canonical, ffosolve_confirm, ffosolve_image, ffosolve_limit, ffosolve_move_scores,
    ffosolve_move_scores_all, ffosolve_moves, ffosolve_play, ffosolve_read_line, ffosolve_solve,
    ffosolve_solve_all, ffosolve_version,
};
pub use line::FfosolveLine;
pub use listed::FfosolveListed;
pub use position::FfosolvePosition;
pub use scores::FfosolveMoveScores;
