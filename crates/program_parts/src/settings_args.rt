//! The arguments that both programs take, by `clap`, and what the matches hold of them.

ghost use Rattle.std.specs.Prelude.{◌≡◌, ◌<◌, ◌^◌, ℕ, false, IfOk, IfSome, IsSome, Some, [], codes, map};
ghost use Rattle.std.specs.Prelude.{option_map, unwrap_or};
ghost use Rattle.program_settings.specs.Limits.{default_empties, default_entries, default_workers};
ghost use Rattle.program_settings.specs.Limits.{most_empties, most_entries, most_workers};
ghost use Rattle.std.specs.Fmt.{decimal};
ghost use Rattle.clap.specs.Words.{app_of, found_of, matched_of, raw_values, rows_of, rule_of};
ghost use Rattle.program_settings.specs.Settings.{IsWithinLimits, SettingsView};
ghost use Rattle.program_parts.specs.CommandLine.{HasNumber, HasSettings, files_rule, flag_rule};
ghost use Rattle.program_parts.specs.Inputs.{names_of};
ghost use Rattle.program_parts.specs.CommandLine.{number_rule, scoring_rule, versioned, with_settings};

use clap::builder::ValueParser;
use clap::{Arg, ArgAction, ArgMatches, Command};
use othello_rules::Scoring;
use program_settings::{
    DEFAULT_EMPTIES_TEXT, DEFAULT_ENTRIES_TEXT, DEFAULT_WORKERS_TEXT, MOST_EMPTIES, MOST_ENTRIES,
    MOST_WORKERS, Settings, VERSION,
};
use std::alloc::{AllocError, Global};

/// A command with `--help` and `--version`, and with no other option.
pub fn bare_command<'a>(
    alloc: Global,
    name: &'a str,
    about: &'a str,
    after_help: &'a str,
) -> Command<'a>
    ensures { app_of result ≡ versioned name.entry.now }
{
    Command::new(alloc, name)
        .version(VERSION)
        .about(about)
        .after_help(after_help)
}

// An option with a number from 0 to `most`. `default` is a decimal numeral.
fn number_arg<'a>(
    alloc: Global,
    name: &'a str,
    most: u32,
    default: &'a str,
    help: &'a str,
) -> Arg<'a>
    ensures rule { (n : ℕ) → default.entry.now ≡ decimal n
        → rule_of result ≡ number_rule name.entry.now most n }
    ensures local { result.global ≡ false }
{
    Arg::new(alloc, name)
        .long(name)
        .action(ArgAction::Set)
        .value_name("N")
        .default_value(default)
        .value_parser(ValueParser::signed(0, i64::from(most)))
        .help(help)
}

// The option `--scoring`, with one of these names.
fn scoring_arg<'a>(alloc: Global, names: &'a [&'a str]) -> Arg<'a>
    ensures rule { rule_of result ≡ scoring_rule names.entry }
    ensures local { result.global ≡ false }
{
    Arg::new(alloc, "scoring")
        .long("scoring")
        .action(ArgAction::Set)
        .value_name("NAME")
        .default_value("winner")
        .value_parser(names)
        .hide_default_value(true)
        .help(
            "Score a finished game with its empty squares given to\n\
             the winner (winner), by discs alone (discs), or as a\n\
             win, draw or loss (sign) [default: winner]\n",
        )
}

/// A flag, which takes no value.
pub fn flag_arg<'a>(alloc: Global, name: &'a str, help: &'a str) -> Arg<'a>
    ensures rule { rule_of result ≡ flag_rule name.entry.now }
    ensures local { result.global ≡ false }
{
    Arg::new(alloc, name)
        .long(name)
        .action(ArgAction::SetTrue)
        .help(help)
}

/// The names of the files, of which there may be any number.
pub fn files_arg<'a>(alloc: Global) -> Arg<'a>
    ensures rule { rule_of result ≡ files_rule }
    ensures local { result.global ≡ false }
{
    Arg::new(alloc, "FILES")
        .num_args(0..)
        .action(ArgAction::Append)
        .help("OBF files, at most 64, each of at most 1 MiB\n[default: standard input]")
}

// The option `--max-empties`.
fn max_empties_arg<'a>(alloc: Global) -> Arg<'a>
    ensures rule { rule_of result ≡ number_rule (codes "max-empties") most_empties default_empties }
    ensures local { result.global ≡ false }
{
    number_arg(
        alloc,
        "max-empties",
        u32::from(MOST_EMPTIES),
        DEFAULT_EMPTIES_TEXT,
        "Solve positions with at most N empty squares,\n0 to 60",
    )
}

// The option `--workers`.
fn workers_arg<'a>(alloc: Global, help: &'a str) -> Arg<'a>
    ensures rule { rule_of result ≡ number_rule (codes "workers") most_workers default_workers }
    ensures local { result.global ≡ false }
{
    number_arg(
        alloc,
        "workers",
        u32::from(MOST_WORKERS),
        DEFAULT_WORKERS_TEXT,
        help,
    )
}

// The option `--table`.
fn table_arg<'a>(alloc: Global) -> Arg<'a>
    ensures rule { rule_of result ≡ number_rule (codes "table") most_entries default_entries }
    ensures local { result.global ≡ false }
{
    number_arg(
        alloc,
        "table",
        MOST_ENTRIES,
        DEFAULT_ENTRIES_TEXT,
        "Use a transposition table of N entries,\n32 bytes each",
    )
}

/// The command with the options of the settings added. `workers` and `complete` are the helps of
/// `--workers` and `--complete`.
pub fn with_settings<'a>(
    alloc: Global,
    bare: Command<'a>,
    workers: &'a str,
    complete: &'a str,
    names: &'a [&'a str],
) -> Result<Command<'a>, AllocError>
    ensures { IfOk result (λ c. app_of c ≡ with_settings (app_of bare.entry) names.entry) }
{
    let with_empties = bare.arg(max_empties_arg(alloc))?;
    let with_workers = with_empties.arg(workers_arg(alloc, workers))?;
    let with_table = with_workers.arg(table_arg(alloc))?;
    let with_scoring = with_table.arg(scoring_arg(alloc, names))?;
    with_scoring.arg(flag_arg(alloc, "complete", complete))
}

// The number under this option; None if it has no number of 8 bits. This and `u32_of` are
// functions of their own so that their contracts say which number clap returns.
fn u8_of(matches: &ArgMatches<'_>, id: &str) -> Option<u8>
    ensures value { IfSome result (λ n. HasNumber id.now (rows_of (found_of matches.now)) n) }
    ensures found { (n : ℕ) → n < 2 ^ 8 → HasNumber id.now (rows_of (found_of matches.now)) n
        → result ≡ Some n }
{
    matches.get_one::<u8>(id)
}

// The number under this option; None if it has no number of 32 bits.
fn u32_of(matches: &ArgMatches<'_>, id: &str) -> Option<u32>
    ensures value { IfSome result (λ n. HasNumber id.now (rows_of (found_of matches.now)) n) }
    ensures found { (n : ℕ) → n < 2 ^ 32 → HasNumber id.now (rows_of (found_of matches.now)) n
        → result ≡ Some n }
{
    matches.get_one::<u32>(id)
}

/// The settings in the matches; None if an option has no value, or a number above its limit, or if
/// `--scoring` has another name than those of the scorings.
pub fn settings_of(matches: &ArgMatches<'_>) -> Option<Settings>
    ensures value { IfSome result
        (λ settings. HasSettings settings (rows_of (found_of matches.now))) }
    ensures found { (c : SettingsView) → IsWithinLimits c
        → HasSettings c (rows_of (found_of matches.now)) → IsSome result }
{
    let max_empties = u8_of(matches, "max-empties")?;
    let workers = u8_of(matches, "workers")?;
    let table = u32_of(matches, "table")?;
    let scoring = Scoring::from_name(matches.get_str("scoring")?.as_bytes())?;
    let settings = Settings::new(max_empties, workers, table, scoring)?;
    Some(settings.with_complete(matches.get_flag("complete")))
}

// Copies of the names, in their order.
fn copy_names(alloc: Global, names: &[&str]) -> Result<Vec<String>, AllocError>
    ensures { IfOk result (λ all. names_of all.items ≡ map (λ name. name.now) names.now) }
{
    let mut all = Vec::new(alloc);
    for name in names {
        all.push(String::from_str(alloc, name)?)?;
    }
    Ok(all)
}

/// The names of the files in the matches, in their order.
pub fn files_of(alloc: Global, matches: &ArgMatches<'_>) -> Result<Vec<String>, AllocError>
    ensures { IfOk result (λ all. names_of all.items ≡ unwrap_or
        (option_map raw_values (matched_of (found_of matches.now) (codes "FILES"))) []) }
{
    match matches.get_strs("FILES") {
        Some(names) => copy_names(alloc, names),
        None => Ok(Vec::new(alloc)),
    }
}
