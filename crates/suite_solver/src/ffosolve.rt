//! The program `ffosolve`.

ghost use Rattle.std.specs.Prelude.{◌≡◌, ◌⊎◌, ◌↔◌, map, option_map, string_bytes, false, None, Some, OnOk, IfOk, IfErr, IfSome, IsErrOf, IsSome, OnErr};
ghost use Rattle.std.specs.List.{concat};
ghost use Rattle.std.specs.Io.KnownBytes.{Appends};
ghost use Rattle.program_parts.specs.Inputs.{names_of};
ghost use Rattle.book_files.specs.BookPlace.{IsBookTextOf, IsFree};
ghost use Rattle.suite_runs.specs.declared.solved_files.SolvedFiles.{SolvedFiles};
ghost use Rattle.suite_runs.specs.Runs.{AreFilesOf};
ghost use Rattle.book_files.specs.SolveError.{IsSilent, solve_status_of};
ghost use Rattle.program_parts.specs.declared.program_error.ProgramError.TheVariants.{BadInput};
ghost use Rattle.book_files.specs.declared.solve_error.SolveError.TheVariants.{Program};
ghost use Rattle.written_bytes.specs.WrittenBytes.{AppendsFront};
ghost use Rattle.suite_solver.specs.Programs.{EndsFfosolve, IfLimit, IsBookUnwritten, NamesFileOf};
ghost use Rattle.suite_solver.specs.Programs.{PassesLimit, PrintsFront, PrintsReports};
ghost use Rattle.suite_solver.specs.Programs.{PrintsReportsOf, ShowsEnding, StopsReports};
ghost use Rattle.suite_solver.specs.Options.{request_of};
ghost use Rattle.obf_text.specs.LineText.{texts_of};
ghost use Rattle.program_settings.specs.InputFault.{refusal_of};
ghost use Rattle.program_settings.specs.declared.input_fault.InputFault.{InputFault};

use crate::exit_status::print_error;
use crate::ffosolve_options::{Options, read_options};
use crate::progress::solve_with_progress;
use book_files::{BookPlace, NewFile, SolveError, find_place, read_claims, ready_book, write_book};
use program_parts::{ErrorStream, OptionFault, ProgramError, end_without_options, read_files};
use program_settings::check_files;
use solved_book::Claims;
use std::alloc::Global;
use std::io;
use std::io::{Read, Write};
use std::marker::{Send, Sync};
use std::rt::{Clock, Files};
use std::sync::Wait;
use std::thread::Threads;
use written_bytes::send;

// Writes the reports one after the other, and flushes the output. If it fails, a prefix of them is
// written.
fn write_reports<W: Write>(output: &mut W, reports: &[Vec<u8>]) -> io::Result<()>
    ensures written { OnOk result
        (Appends (W.contents output.old) (W.contents output.new) (concat (texts_of reports.now))) }
    ensures front { OnErr result (AppendsFront
        (W.contents output.old) (W.contents output.new) (concat (texts_of reports.now))) }
{
    for report in reports {
        send(output, report)?;
    }
    Ok(())
}

// Solves the positions of the files, whose texts these are, and prints the reports. The text of the
// book to be written is made before the reports are printed, so that memory can't run out once
// anything was printed.
#[tactic(auto, using(crate::proofs::LimitLemmas::run_limited))]
fn solve_and_print<'a, T: Files + Clock + Threads + Wait + Sync, W: Write, E: Write + Send>(
    rt: &T,
    alloc: Global,
    asked: &Options,
    texts: &[Vec<u8>],
    claims: Option<&Claims>,
    place: Option<BookPlace<'a>>,
    output: &mut W,
    errors: &mut E,
) -> Result<Option<NewFile<'a>>, SolveError<'a>>
    requires { IfSome place (λ p. IsFree p.found) }
    ensures reported { OnOk result (PrintsReports asked.now.settings (texts_of texts.now)
        (W.contents output.old) (W.contents output.new)) }
    ensures silent { IfErr result
        (λ error. IsSilent error → W.contents output.new ≡ W.contents output.old) }
    ensures unwritten { IfErr result
        (λ error. solve_status_of error ≡ 1 → W.contents output.new ≡ W.contents output.old) }
    ensures status { IfErr result
        (λ error. (solve_status_of error ≡ 1) ⊎ (solve_status_of error ≡ 3)) }
    ensures quiet { asked.now.progress ≡ false → E.contents errors.new ≡ E.contents errors.old }
    ensures book { IfOk result (λ book. IfSome book (λ file. (files : SolvedFiles)
        × (AreFilesOf asked.now.settings (texts_of texts.now) files)
        × (IsBookTextOf files file.text.items))) }
    ensures placed { IfOk result (λ book. book ≡ None ↔ place.entry ≡ None) }
    ensures place { IfOk result (λ book. IfSome book
        (λ file. IfSome place.entry (λ p. file.place ≡ p))) }
    ensures error { IfErr result (NamesFileOf (request_of asked.now)) }
    ensures unbooked { IfErr result (λ error. IsBookUnwritten error → ⊥) }
    ensures limits { IfErr result
        (IfLimit (λ fault. refusal_of (texts_of texts.now) ≡ Some fault)) }
    ensures front { OnErr result ((W.contents output.new ≡ W.contents output.old)
        ⊎ PrintsFront asked.now.settings (texts_of texts.now)
        (W.contents output.old) (W.contents output.new)) }
{
    let solved = solve_with_progress(
        rt,
        alloc,
        texts,
        &asked.settings,
        claims,
        asked.progress,
        errors,
    )?;
    let book = ready_book(rt, alloc, place, &solved)?;
    let reports = solved.reports(alloc)?;
    match write_reports(output, &reports) {
        Ok(()) => Ok(book),
        Err(_) => Err(SolveError::Program(ProgramError::CannotWriteOutput)),
    }
}

// The place of the book that is to be written. Files that are too many or too large are refused
// first, and then a place where the book can't be put or would destroy what is there. `solve_files`
// checks the files again, since its callers may pass any.
#[tactic(auto, using(crate::proofs::LimitLemmas::place_unlimited))]
fn place_of_run<'a, T: Files>(
    rt: &T,
    alloc: Global,
    asked: &'a Options,
    texts: &[Vec<u8>],
) -> Result<Option<BookPlace<'a>>, SolveError<'a>>
    ensures named { IfOk result (λ place. option_map (λ p. p.name.now) place
        ≡ option_map string_bytes asked.now.book_out) }
    ensures book_in { IfOk result (λ place. IfSome place
        (λ p. p.book_in.now ≡ asked.now.book_in)) }
    ensures lists { IfOk result (λ place. IfSome place
        (λ p. p.lists.now ≡ asked.now.files.items)) }
    ensures free { IfOk result (λ place. IfSome place (λ p. IsFree p.found)) }
    ensures files { (fault : InputFault) → refusal_of (texts_of texts.now) ≡ Some fault
        → IsErrOf result (Program (BadInput fault)) }
    ensures limits { IfErr result
        (IfLimit (λ fault. refusal_of (texts_of texts.now) ≡ Some fault)) }
    ensures error { IfErr result (NamesFileOf (request_of asked.now)) }
    ensures silent { IfErr result IsSilent }
    ensures status { IfErr result
        (λ error. (solve_status_of error ≡ 1) ⊎ (solve_status_of error ≡ 3)) }
{
    check_files(texts)?;
    let Some(name) = &asked.book_out else {
        return Ok(None);
    };
    let name = name.as_str();
    let place = find_place(rt, alloc, name, &asked.book_in, &asked.files)?;
    Ok(Some(place))
}

// Reads the book and then the files, tests them and the place of the book to be written, solves,
// prints the reports, and writes the book.
#[tactic(auto, using(crate::proofs::ProgramLemmas::silent_not_book, crate::proofs::ProgramLemmas::of_none, crate::proofs::LimitLemmas::limit_of_files))]
fn carry_out<'a, T: Files + Clock + Threads + Wait + Sync, R: Read, W: Write, E: Write + Send>(
    rt: &T,
    alloc: Global,
    asked: &'a Options,
    input: &mut R,
    output: &mut W,
    errors: &mut E,
) -> Result<(), SolveError<'a>>
    ensures reported { OnOk result (PrintsReportsOf asked.now.settings
        (names_of asked.now.files.items)
        (R.remaining input.old) (W.contents output.old) (W.contents output.new)) }
    ensures error { IfErr result (NamesFileOf (request_of asked.now)) }
    ensures stopped { OnErr result (StopsReports asked.now.settings
        (names_of asked.now.files.items)
        (R.remaining input.old) (W.contents output.old) (W.contents output.new)) }
    ensures booked { IfErr result (λ error. IsBookUnwritten error
        → PrintsReportsOf asked.now.settings (names_of asked.now.files.items)
        (R.remaining input.old) (W.contents output.old) (W.contents output.new)) }
    ensures limits { IfErr result (IfLimit
        (PassesLimit (names_of asked.now.files.items) (R.remaining input.old))) }
    ensures silent { IfErr result
        (λ error. IsSilent error → W.contents output.new ≡ W.contents output.old) }
    ensures unwritten { IfErr result
        (λ error. solve_status_of error ≡ 1 → W.contents output.new ≡ W.contents output.old) }
    ensures status { IfErr result
        (λ error. (solve_status_of error ≡ 1) ⊎ (solve_status_of error ≡ 3)) }
    ensures quiet { asked.now.progress ≡ false → E.contents errors.new ≡ E.contents errors.old }
{
    let claims = read_claims(rt, alloc, &asked.book_in)?;
    let texts = read_files(rt, alloc, &asked.files, input)?;
    let place = place_of_run(rt, alloc, asked, &texts)?;
    let book = solve_and_print(
        rt,
        alloc,
        asked,
        &texts,
        claims.as_ref(),
        place,
        output,
        errors,
    )?;
    write_book(rt, &book)
}

/// The whole program `ffosolve`, for the words of its command line, the program's name first. It
/// reads the book and the files that the words name, or standard input. It prints the files'
/// reports, in the order of the files, on standard output. Then it writes the book that the words
/// name.
///
/// The status is 0 if everything is done, or if help or the version was asked for and
/// printed; 1 if the run is refused, for memory or for the number or size of its files, or ends
/// with `Mixed`; 2 if the command line is refused; 3 if a file or standard input can't be read, if
/// the book to read is not one, if standard output or the book can't be written, or if the book
/// would destroy another file or the book that is read. An error that ends the program early is
/// printed on standard error, as one or two lines or as clap's text; a failure of standard error
/// changes nothing. The call may wait for its threads.
#[tactic(auto, using(crate::proofs::ProgramLemmas::asked_faultless))]
pub fn program<T: Files + Clock + Threads + Wait + Sync, R: Read, W: Write, E: ErrorStream>(
    rt: &T,
    alloc: Global,
    words: &[&str],
    input: &mut R,
    output: &mut W,
    errors: &mut E,
) -> u8
    ensures ends { EndsFfosolve (map (λ word. word.now) words.now)
        (R.remaining input.old) (W.contents output.old) (W.contents output.new) result }
    ensures shown { ShowsEnding (map (λ word. word.now) words.now)
        ((stream : E) → IsSome (E.contents stream)) (R.remaining input.old)
        (E.contents errors.old) (E.contents errors.new)
        (W.contents output.old) (W.contents output.new) result }
{
    match read_options(alloc, words) {
        Ok(asked) => match carry_out(rt, alloc, &asked, input, output, errors) {
            Ok(()) => 0,
            Err(error) => print_error(&error, errors),
        },
        Err(OptionFault::Memory) => {
            print_error(&SolveError::Program(ProgramError::Memory), errors)
        }
        Err(OptionFault::Refused(error)) => end_without_options("ffosolve", &error, output, errors),
    }
}
