//! A module for each crate that does more than its clauses say: `rules` for `othello_rules`, `written_lines`
//! for `obf_text`, `tables` for `bound_table`, `searches` for `endgame_search`, `lists` for `list_printer`,
//! `books` for `solved_book`, `boards` for `job_board`, `programs` for the crates above it. `worked` has the
//! positions whose values are worked out by hand, `published` the limits that are promised. What lines and
//! books say, and what is printed for them, is tested through the programs by tests/test_rows.py.

mod boards;
mod books;
mod fault_texts;
mod lists;
mod programs;
mod published;
mod rules;
mod searches;
mod tables;
mod worked;
mod written_lines;
