//! The program `ffoscores`.

ghost use Rattle.std.specs.Prelude.{◌≡◌, ◌⊎◌, map, IfErr, IfOk, OnErr, OnOk};
ghost use Rattle.std.specs.Io.KnownBytes.{Appends};
ghost use Rattle.obf_text.specs.LineText.{texts_of};
ghost use Rattle.scored_lines.specs.Lines.{lists_right, lists_text};
ghost use Rattle.written_bytes.specs.WrittenBytes.{AppendsFront};
ghost use Rattle.program_settings.specs.Settings.{criteria_of};
ghost use Rattle.program_parts.specs.Inputs.{names_of};
ghost use Rattle.program_parts.specs.declared.program_error.ProgramError.TheVariants.{Memory, CannotWriteOutput};
ghost use Rattle.ffoscores_program.specs.Options.{list_request_of};
ghost use Rattle.ffoscores_program.specs.Lists.{EndsFfoscores, IsListError, IsSilent, NamesListOf};
ghost use Rattle.ffoscores_program.specs.Lists.{PrintsLists, ShowsEnding, StopsLists, list_status_of};

use crate::exit_status::print_error;
use crate::ffoscores_options::{ListOptions, read_list_options};
use bound_table::BoundTable;
use list_printer::{ListFault, write_lists};
use program_parts::{ErrorStream, OptionFault, ProgramError, end_without_options, read_files};
use program_settings::{Settings, check_files};
use std::alloc::Global;
use std::io::{Read, Write};
use std::rt::Files;
use std::sync::Wait;
use std::thread::Threads;

// The error of the program for a fault of printing: out of memory, or standard output can't
// be written.
fn list_error(fault: ListFault) -> ProgramError<'static>
    ensures reason { IsListError fault result }
    ensures status { list_status_of result ≡ 3 }
    ensures kind { (result ≡ Memory) ⊎ (result ≡ CannotWriteOutput) }
{
    match fault {
        ListFault::Memory => ProgramError::Memory,
        ListFault::CannotWrite(_) => ProgramError::CannotWriteOutput,
    }
}

// Prints lists again with every move's score, over one table of bounds. At most as many positions
// are scored at once as the settings have workers, plus one. The result says whether nothing in the
// lists is wrong.
fn print_lists<T: Threads + Wait, W: Write>(
    rt: &T,
    alloc: Global,
    settings: &Settings,
    texts: &[Vec<u8>],
    output: &mut W,
) -> Result<bool, ProgramError<'static>>
    ensures written { OnOk result (Appends (W.contents output.old) (W.contents output.new)
        (lists_text settings.now.scoring (criteria_of settings.now) (texts_of texts.now))) }
    ensures front { OnErr result (AppendsFront (W.contents output.old) (W.contents output.new)
        (lists_text settings.now.scoring (criteria_of settings.now) (texts_of texts.now))) }
    ensures right { IfOk result (λ right. right
        ≡ lists_right settings.now.scoring (criteria_of settings.now) (texts_of texts.now)) }
    ensures kind { IfErr result (λ error. (error ≡ Memory) ⊎ (error ≡ CannotWriteOutput)) }
    ensures status { IfErr result (λ error. list_status_of error ≡ 3) }
{
    let entries = settings.table() as usize;
    let Ok(table) = BoundTable::new(alloc, entries, settings.scoring()) else {
        return Err(ProgramError::Memory);
    };
    let workers = settings.workers();
    let criteria = settings.criteria();
    match write_lists(rt, table, alloc, output, criteria, workers, texts) {
        Ok(right) => Ok(right),
        Err(fault) => Err(list_error(fault)),
    }
}

// Reads the lists that the options name, and prints them again. All are read before anything is
// printed. The result says whether nothing in them is wrong.
fn carry_out<'a, T: Files + Threads + Wait, R: Read, W: Write>(
    rt: &T,
    alloc: Global,
    asked: &'a ListOptions,
    input: &mut R,
    output: &mut W,
) -> Result<bool, ProgramError<'a>>
    ensures printed { IfOk result
        (PrintsLists (list_request_of asked.now)
        (R.remaining input.old) (W.contents output.old) (W.contents output.new)) }
    ensures stopped { OnErr result
        (StopsLists (list_request_of asked.now)
        (R.remaining input.old) (W.contents output.old) (W.contents output.new)) }
    ensures status { IfErr result (λ error. list_status_of error ≡ 3) }
    ensures named { IfErr result (NamesListOf (names_of asked.now.files.items)) }
    ensures silent { IfErr result
        (λ error. IsSilent error → W.contents output.new ≡ W.contents output.old) }
{
    let texts = read_files(rt, alloc, &asked.files, input)?;
    check_files(&texts)?;
    print_lists(rt, alloc, &asked.settings, &texts, output)
}

/// The whole program `ffoscores`, for the words of its command line, the program's name first. It
/// reads the lists that the words name, or standard input. It prints them again on standard output
/// with every move's score, each line as soon as it and all lines before it are solved.
///
/// The status is 0 if nothing in the lists is wrong, or if help or the version was asked for
/// and printed; 1 if a line is refused or there is a remark; 2 if the command line is
/// refused; 3 if a list can't be read, is too large or one of too many, if standard output
/// can't be written, or if memory ran out. An error that ends the program early is printed on
/// standard error, as one or two lines or as clap's text, and the lines that were printed before
/// stay; a failure of standard error changes nothing.
#[tactic(auto, using(crate::proofs::ListEndings::asked_faultless))]
pub fn list_program<T: Files + Threads + Wait, R: Read, W: Write, E: ErrorStream>(
    rt: &T,
    alloc: Global,
    words: &[&str],
    input: &mut R,
    output: &mut W,
    errors: &mut E,
) -> u8
    ensures ends { EndsFfoscores (map (λ word. word.now) words.now)
        (R.remaining input.old) (W.contents output.old) (W.contents output.new) result }
    ensures shown { ShowsEnding (map (λ word. word.now) words.now)
        (E.contents errors.old) (E.contents errors.new)
        (W.contents output.old) (W.contents output.new) result }
{
    match read_list_options(alloc, words) {
        Ok(asked) => match carry_out(rt, alloc, &asked, input, output) {
            Ok(true) => 0,
            Ok(false) => 1,
            Err(error) => print_error(&error, errors),
        },
        Err(OptionFault::Memory) => print_error(&ProgramError::Memory, errors),
        Err(OptionFault::Refused(error)) => {
            end_without_options("ffoscores", &error, output, errors)
        }
    }
}
