//! Runs over worked files: the same texts by each number of threads and each size of the table.

ghost use Rattle.std.specs.Prelude.{◌≤◌, length};

use super::runs::{files_of, texts_of};
use super::{BOOK, BOTH, BOTH_BOOK, ONE, TWO};
use bound_table::NoTable;
use job_board::Desk;
use othello_rules::Scoring;
use program_settings::MOST_BYTES;
use solved_book::Claims;
use std::alloc::{AllocError, Global};
use std::sync::Wait;
use std::test::Fail;
use std::thread::Threads;
use suite_solver::laws::client_part;
use suite_solver::{NoGate, Outcome, Part, RunFault, Settings, run, run_serial, write_report};

// Texts, the limit of empty squares, their reports and their book.
type Case = (&'static [&'static [u8]], u8, &'static [u8], &'static [u8]);

const NO_BOOK: &[u8] = b"% ffobook 2 winner\n";

const TWENTY_EMPTY: &[u8] = b"O--OOOOX-OOOOOOXOOXXOOOXOOXOOOXXOOOOOOXX---OOOOX----O--X-------- X\n";

const CASES: [Case; 4] = [
    (&[ONE, TWO], 20, BOTH, BOTH_BOOK),
    (&[], 20, b"", NO_BOOK),
    (&[b""], 20, b"[1]\nsolved 0 refused 0\n", NO_BOOK),
    (
        &[TWENTY_EMPTY],
        19,
        b"[1]\n1 refused: 20 empties, limit 19\nsolved 0 refused 1\n",
        NO_BOOK,
    ),
];

// Whether the outcome has these reports and this book.
fn has_texts(alloc: Global, outcome: Result<Outcome, RunFault>, case: &Case) -> Result<bool, Fail> {
    let (texts, _, reports, book) = *case;
    let outcome = outcome?;
    let files = outcome.reports.len();
    let (given, written) = texts_of(alloc, outcome)?;
    Ok(files == texts.len() && given.as_slice() == reports && written.as_slice() == book)
}

// Whether both runs return the case's texts, by the claims of a book or by none.
fn is_run<R: Threads + Wait + Sync>(
    rt: &R,
    alloc: Global,
    case: &Case,
    workers: u8,
    table: u32,
    claims: Option<&Claims>,
) -> Result<bool, Fail> {
    let (texts, limit, _, _) = *case;
    let files = files_of(alloc, texts)?;
    let Some(settings) = Settings::new(limit, workers, table, Scoring::Winner) else {
        return Ok(false);
    };
    let serial = run_serial(alloc, &files, &settings, claims);
    let threaded = run(rt, alloc, &files, &settings, claims, &NoGate);
    Ok(has_texts(alloc, serial, case)? && has_texts(alloc, threaded, case)?)
}

#[test]
fn each_run_gives_the_same(rt: HostRuntime) -> Result<(), Fail> {
    let claims = Claims::read(rt.alloc(), BOOK)?;
    for case in &CASES {
        for workers in [0, 1, 4] {
            assert!(rt; is_run(&rt, rt.alloc(), case, workers, 0, None)?);
            assert!(rt; is_run(&rt, rt.alloc(), case, workers, 16, Some(&claims))?);
        }
    }
    for workers in [0, 1, 4] {
        assert!(rt; is_run(&rt, rt.alloc(), &CASES[0], workers, 65_536, None)?);
    }
    Ok(())
}

// The part of a client that is alone at the desk.
fn part_of<R: Wait>(
    rt: &R,
    alloc: Global,
    desk: &Desk,
    text: &[u8],
    sender: u32,
) -> Result<Part, RunFault>
    requires { length text.now ≤ MOST_BYTES }
{
    let table = NoTable::new(Scoring::Winner);
    client_part(rt, alloc, text, sender, 20, desk, &table, None, &NoGate)
}

// The reports of two clients, one after the other at one desk.
#[test]
fn clients_alone_give_the_rows_of_a_run(rt: HostRuntime) -> Result<(), Fail> {
    let alloc = rt.alloc();
    let desk = Desk::new(alloc, 2)?;
    let first = part_of(&rt, alloc, &desk, ONE, 0)?;
    let second = part_of(&rt, alloc, &desk, TWO, 1)?;
    let mut text = Vec::new(alloc);
    write_report(&mut text, 0, &first.rows)?;
    write_report(&mut text, 1, &second.rows)?;
    assert!(rt; text.as_slice() == BOTH && first.solved.len() == 3 && second.solved.len() == 3);
    Ok(())
}
