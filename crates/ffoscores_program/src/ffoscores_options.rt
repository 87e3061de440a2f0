//! The options of `ffoscores`, which `clap` reads from the words of a command line.

ghost use Rattle.std.specs.Prelude.{◌≡◌, IfOk, IfErr, map};
ghost use Rattle.clap.specs.Words.{app_of};
ghost use Rattle.program_parts.specs.CommandLine.{IsFaultFor, IsTakenBy};
ghost use Rattle.program_parts.specs.declared.option_fault.OptionFault.TheVariants.{Memory};
ghost use Rattle.ffoscores_program.specs.Options.{AsksLists, ffoscores, list_request_of};

use clap::Command;
use othello_rules::Scoring;
use program_parts::OptionFault;
use program_parts::settings_args::{bare_command, files_arg, files_of, settings_of, with_settings};
use program_settings::Settings;
use std::alloc::{AllocError, Global};

const ABOUT: &str = "\
Prints OBF files again, line by line: each position with every legal move and
its exact score in discs for the side to move, and a remark wherever a line
lists something else.";

const AFTER_HELP: &str = "\
In place of moves:
  PS  the side to move has to pass
  --  the game is over

Exit status:
  0  no line is refused and there is no remark; also for --help and --version
  1  a line is refused, or there is a remark
  2  the command line is refused
  3  more than 64 files, a file that can't be read or is larger than 1 MiB,
     standard output that can't be written, or out of memory

Examples:
  # show what is wrong in a file that lists every move of each position
  ffoscores scored.obf | diff scored.obf -
  # score every move, four positions at once
  ffoscores --workers 3 list.obf > scored.obf";

/// The options of a command line of `ffoscores`.
#[derive(Debug, Drop)]
pub struct ListOptions {
    pub settings: Settings,
    /// The names of the files as given, in their order. Without any, standard input is the one
    /// file.
    pub files: Vec<String>,
}

// The whole command `ffoscores`.
fn ffoscores_command<'a>(alloc: Global, names: &'a [&'a str]) -> Result<Command<'a>, AllocError>
    ensures { IfOk result (λ c. app_of c ≡ ffoscores names.entry) }
{
    let bare = bare_command(alloc, "ffoscores", ABOUT, AFTER_HELP);
    let workers =
        "Score up to N + 1 positions at once, for N from 0 to\n64; the output stays the same";
    let complete = "Add a remark for each best move that a line with\nlisted moves leaves out";
    let with_settings = with_settings(alloc, bare, workers, complete, names)?;
    with_settings.arg(files_arg(alloc))
}

/// Reads the words of a command line of `ffoscores`, the program's name first. The error is
/// `Memory` if memory was refused. Any other error is clap's; clap returns the help and the
/// version as errors, too.
pub fn read_list_options(alloc: Global, words: &[&str]) -> Result<ListOptions, OptionFault>
    // For words that clap takes, the only error is `Memory`.
    ensures taken { IsTakenBy ffoscores (map (λ word. word.now) words.now)
        → IfErr result (λ fault. fault ≡ Memory) }
    // Any other error holds a fault that clap, as defined, finds in the words.
    ensures refused { IfErr result (IsFaultFor ffoscores (map (λ word. word.now) words.now)) }
    // Clap takes the words, and the settings and names are those of the matches that it defines.
    ensures asked { IfOk result
        (λ found. AsksLists (map (λ word. word.now) words.now) (list_request_of found)) }
{
    let names = Scoring::names();
    let command = ffoscores_command(alloc, names.as_slice())?;
    let matches = command.try_get_matches_from(words)?;
    // Each option has a default, and clap keeps each number in its range.
    let settings = settings_of(&matches).unwrap();
    let files = files_of(alloc, &matches)?;
    Ok(ListOptions { settings, files })
}
