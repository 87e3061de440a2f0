//! What faults print where `thiserror` makes the text, which has no contract.

use super::published::{MOST_ENTRIES, MOST_JOBS, MOST_SENDERS};
use bound_table::TableFault;
use endgame_search::TooMany;
use job_board::{BoardFault, JobFault, Mixed, NoSender, SubmitFault};
use list_printer::ListFault;
use othello_rules::RuleFault;
use std::alloc::{AllocError, Global};
use std::io::ErrorKind;

fn texts(alloc: Global) -> Result<String, AllocError> {
    format!(in alloc;
        "{}; {}; {}; {}; {}; {}; {}; {}; {}; {}; {}; {}; {}; {}; {}; {}; {}",
        RuleFault::Occupied,
        RuleFault::TurnsNothing,
        TableFault::TooMany,
        TableFault::Memory,
        TooMany(61),
        BoardFault::TooManySenders,
        BoardFault::Memory,
        SubmitFault::NoSender,
        SubmitFault::Closed,
        SubmitFault::Full,
        SubmitFault::Memory,
        JobFault::NotTaken,
        JobFault::OtherPosition,
        NoSender,
        Mixed,
        ListFault::Memory,
        ListFault::CannotWrite(ErrorKind::Other)
    )
}

fn wanted(alloc: Global) -> Result<String, AllocError> {
    format!(in alloc;
        "the square is occupied; the move turns nothing; more than {MOST_ENTRIES} table entries; \
out of memory; 61 empty squares are too many; more than {MOST_SENDERS} senders; out of memory; \
no such sender; the sender is closed; more than {MOST_JOBS} jobs; out of memory; \
the job is not taken; the answer is of another position; no such sender; answers mixed; \
out of memory; cannot write"
    )
}

#[test]
fn texts_of_faults(rt: HostRuntime) -> Result<(), AllocError> {
    assert!(rt; texts(rt.alloc())?.as_str() == wanted(rt.alloc())?.as_str());
    Ok(())
}
