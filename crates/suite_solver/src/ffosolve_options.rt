//! The options of `ffosolve`, which `clap` reads from the words of a command line.

ghost use Rattle.std.specs.Prelude.{◌≡◌, false, IfOk, IfErr, map, option_map, string_bytes};
ghost use Rattle.clap.specs.Words.{app_of, first_value, found_of, rule_of};
ghost use Rattle.suite_solver.specs.Options.{Asks, IsFaultOf, IsTaken, book_rule, ffosolve, request_of};
ghost use Rattle.program_parts.specs.declared.option_fault.OptionFault.TheVariants.{Memory};

use clap::{Arg, ArgMatches, Command};
use othello_rules::Scoring;
use program_parts::OptionFault;
use program_parts::settings_args::{
    bare_command, files_arg, files_of, flag_arg, settings_of, with_settings,
};
use program_settings::Settings;
use std::alloc::{AllocError, Global};

const ABOUT: &str = "\
Solves Othello endgames exactly. For each position in OBF files it prints the
exact score in discs for the side to move, every best move, and whether what
the line lists agrees with them.";

const AFTER_HELP: &str = "\
The words of a report:
  agree     the highest listed score is the exact one, and every move listed
            with it is a best move
  differ    the highest listed score is not the exact one, or a move listed with
            it is not a best move, or, with --complete, a best move is missing
  unlisted  the line lists no move with a score
  refused   the line is not a position, or more squares are empty than
            --max-empties allows

In place of moves:
  PS  the side to move has to pass
  --  the game is over

Exit status:
  0  all reports were printed; also for --help and --version
  1  more than 64 files, a file larger than 1 MiB (ffosolve-many takes longer
     lists), or out of memory
  2  the command line is refused
  3  a file or a stream can't be read or written, the book of --book-in is
     refused, or --book-out would overwrite another file

Examples:
  # show the rows of the lines that differ
  ffosolve --workers 4 suite.obf | grep differ
  # write the answers as a book, which --book-in reads
  ffosolve --book-out suite.book suite.obf";

/// The options of a command line of `ffosolve`.
#[derive(Debug, Drop)]
pub struct Options {
    pub settings: Settings,
    /// The name of the file of a book to read, as given; None if none is to be read.
    pub book_in: Option<String>,
    /// The name of the file of a book to write, as given; None if none is to be written.
    pub book_out: Option<String>,
    /// Whether progress is reported on standard error.
    pub progress: bool,
    /// The names of the files as given, in their order. Without any, standard input is the one
    /// file.
    pub files: Vec<String>,
}

// An option with the name of a book's file.
fn book_arg<'a>(alloc: Global, name: &'a str, help: &'a str) -> Arg<'a>
    ensures rule { rule_of result ≡ book_rule name.entry.now }
    ensures local { result.global ≡ false }
{
    Arg::new(alloc, name)
        .long(name)
        .value_name("FILE")
        .help(help)
}

// The whole command `ffosolve`.
fn ffosolve_command<'a>(alloc: Global, names: &'a [&'a str]) -> Result<Command<'a>, AllocError>
    ensures { IfOk result (λ c. app_of c ≡ ffosolve names.entry) }
{
    let bare = bare_command(alloc, "ffosolve", ABOUT, AFTER_HELP);
    let workers = "Add N solver threads, 0 to 64, to the one per file;\nreports stay the same";
    let complete = "Also report differ if a line lists moves, but omits a\nbest one";
    let for_runs = with_settings(alloc, bare, workers, complete, names)?;
    let book_in = book_arg(
        alloc,
        "book-in",
        "Read a book of solved positions and test its claims\nfirst; reports stay the same",
    );
    let reading_books = for_runs.arg(book_in)?;
    let book_out = book_arg(
        alloc,
        "book-out",
        "Write all solved positions to FILE as a book",
    );
    let writing_books = reading_books.arg(book_out)?;
    let progress = flag_arg(
        alloc,
        "progress",
        "Report on standard error how many positions are\n\
         solved, at most every five seconds, and at the end",
    );
    let reporting = writing_books.arg(progress)?;
    reporting.arg(files_arg(alloc))
}

// The name of a book's file under this option; None if the words have none.
fn book_name_of(
    alloc: Global,
    matches: &ArgMatches<'_>,
    id: &str,
) -> Result<Option<String>, AllocError>
    ensures { IfOk result (λ name. option_map string_bytes name
        ≡ first_value (found_of matches.now) id.now) }
{
    match matches.get_str(id) {
        Some(name) => Ok(Some(String::from_str(alloc, name)?)),
        None => Ok(None),
    }
}

/// Reads the words of a command line of `ffosolve`, the program's name first. The error is `Memory`
/// if memory was refused. Any other error is clap's; clap returns the help and the version as
/// errors, too.
pub fn read_options(alloc: Global, words: &[&str]) -> Result<Options, OptionFault>
    // For words that clap takes, the only error is `Memory`.
    ensures taken { IsTaken (map (λ word. word.now) words.now)
        → IfErr result (λ fault. fault ≡ Memory) }
    // Any other error holds a fault that clap, as defined, finds in the words.
    ensures refused { IfErr result (IsFaultOf (map (λ word. word.now) words.now)) }
    // Clap takes the words, and the settings and names are those of the matches that it defines.
    ensures asked { IfOk result
        (λ found. Asks (map (λ word. word.now) words.now) (request_of found)) }
{
    let names = Scoring::names();
    let command = ffosolve_command(alloc, names.as_slice())?;
    let matches = command.try_get_matches_from(words)?;
    // Each option of the settings has a default, and clap keeps each number in its range.
    let settings = settings_of(&matches).unwrap();
    let book_in = book_name_of(alloc, &matches, "book-in")?;
    let book_out = book_name_of(alloc, &matches, "book-out")?;
    let files = files_of(alloc, &matches)?;
    Ok(Options {
        settings,
        book_in,
        book_out,
        progress: matches.get_flag("progress"),
        files,
    })
}
