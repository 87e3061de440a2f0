//! The part of one client: it sends the tasks of a text to a desk, and receives their answers.

ghost use Rattle.std.specs.Prelude.{◌≡◌, ◌≤◌, ◌++◌, length, false, Ok, IfOk, IfErr, OnOk, IsErr, IsErrOf};
ghost use Rattle.endgame_search.specs.Limits.{most_empties};
ghost use Rattle.program_settings.specs.Limits.{most_bytes};
ghost use Rattle.suite_reports.specs.ParsedLine.{tasks_in};
ghost use Rattle.suite_runs.specs.Part.{IsPartFault};
ghost use Rattle.suite_reports.specs.Rows.{rows, tasks};
ghost use Rattle.suite_runs.specs.declared.run_fault.RunFault.TheVariants.{Memory, Mixed};

use crate::gate::Gate;
use crate::part::Part;
use crate::run_fault::{RunFault, worse_fault};
use crate::solver::Solver;
use crate::worker::Worker;
use bound_table::Bounds;
use endgame_search::Solved;
use job_board::{Client, Desk, Errand, Turn};
use program_settings::Criteria;
use solved_book::Claims;
use std::alloc::{AllocError, Global};
use std::sync::Wait;
use suite_reports::{NumberedLine, parse_lines, rows_of};

// Submits the task of each line that has one, in the order of the lines.
fn send_all<R: Wait>(
    rt: &R,
    desk: &Desk,
    client: &mut Client,
    lines: &[NumberedLine],
) -> Result<(), RunFault>
    ensures sent { OnOk result (client.new
        ≡ record client.old { sent = client.old.sent ++ tasks_in lines.now }) }
    ensures faults { IfErr result IsPartFault }
{
    for line in lines {
        if let Some(task) = line.task() {
            desk.submit(rt, client, task)?;
        }
    }
    Ok(())
}

// Receives the answers of all tasks that the client sent, in the order of the tasks. Between two
// answers the thread solves the jobs that it takes, and helps with jobs of other threads. `Memory`
// if the list can't grow; `Mixed` if the desk refuses a turn or an answer, or if a job is under
// another scoring.
fn receive_all<R: Wait, T: Bounds, G: Gate>(
    rt: &R,
    alloc: Global,
    client: &mut Client,
    worker: &Worker<'_, T, G>,
) -> Result<Vec<Solved>, RunFault>
    requires { client.old.received ≡ 0 }
    ensures answers { IfOk result (λ solved. solved.items ≡ client.old.sent) }
    ensures faults { IfErr result IsPartFault }
{
    let mut solved = Vec::new(alloc);
    let mut helped = 0;
    for _ in rt.forever() {
        match worker.turn(rt, client, helped) {
            Ok(Errand::Own(Turn::Next(delivery))) => {
                solved.push(delivery.solved)?;
            }
            Ok(Errand::Own(Turn::Work(job))) => {
                worker.solve_job(rt, job)?;
            }
            Ok(Errand::Own(Turn::Drained)) => return Ok(solved),
            Ok(Errand::Help(shared)) => helped = worker.help(shared),
            Err(_) => return Err(RunFault::Mixed),
        }
    }
    unreachable!()
}

// Submits the tasks of the lines, and then closes the client's sender in any case, since
// workers wait until each sender is closed. Returns the lines. `Memory` if `read` is
// an error, or if a submit was refused for memory; `Mixed` for any other refusal of the desk.
fn send_and_close<R: Wait>(
    rt: &R,
    desk: &Desk,
    client: &mut Client,
    read: Result<Vec<NumberedLine>, AllocError>,
) -> Result<Vec<NumberedLine>, RunFault>
    ensures read { IfOk result (λ lines. read ≡ Ok lines) }
    ensures sent { IfOk result (λ lines. client.new
        ≡ record client.old { sent = client.old.sent ++ tasks_in lines.items }) }
    ensures wanting { IsErr read → IsErrOf result Memory }
    ensures faults { IfErr result IsPartFault }
{
    let sent = match &read {
        Ok(lines) => send_all(rt, desk, client, lines),
        Err(_) => Err(RunFault::Memory),
    };
    let Ok(_) = desk.close(rt, client) else {
        return Err(worse_fault(sent.err(), RunFault::Mixed));
    };
    sent?;
    Ok(read?)
}

/// Does the work of `client_part`, but refuses and checks lines by these criteria.
pub(crate) fn client_part_by_criteria<R: Wait, T: Bounds, G: Gate>(
    rt: &R,
    alloc: Global,
    text: &[u8],
    sender: u32,
    criteria: Criteria,
    worker: &Worker<'_, T, G>,
) -> Result<Part, RunFault>
    requires few_empties { criteria.limit ≤ most_empties }
    requires short { length text.now ≤ most_bytes }
    ensures rows { IfOk result (λ part. part.rows.items
        ≡ rows (T.scoring worker.now.solver.table.now) criteria text.now) }
    ensures solved { IfOk result (λ part. part.solved.items
        ≡ tasks (T.scoring worker.now.solver.table.now) criteria.limit text.now) }
    ensures faults { IfErr result IsPartFault }
{
    let mut client = Client::new(alloc, sender);
    let read = parse_lines(alloc, criteria, worker.solver.scoring(), text);
    let lines = send_and_close(rt, worker.desk, &mut client, read)?;
    worker.gate.submitted(rt, sender, client.sent().len());
    let solved = receive_all(rt, alloc, &mut client, worker)?;
    let rows = rows_of(alloc, &lines, &solved)?;
    Ok(Part { rows, solved })
}

/// Does the whole part of one client. It submits the tasks of the text's lines for `sender`, which
/// is counted from 0, and closes that sender. Then it solves the jobs that it takes until all of its
/// own answers came back. A position with more than `limit` empty squares is refused, and a line may
/// leave out best moves; the tasks are under the scoring of the table.
///
/// If the result is Ok, its rows are those of the text, and its solved positions are those of
/// the text's lines, in their order: at any desk, for any claims, and whatever other threads do
/// there. `Memory` comes if memory was refused; `Mixed` if the desk refused a step for
/// another reason, or if a job under another scoring was taken. After a fault the desk keeps the
/// steps that were made, and the sender is closed. The call may wait for other threads.
pub fn client_part<R: Wait, T: Bounds, G: Gate>(
    rt: &R,
    alloc: Global,
    text: &[u8],
    sender: u32,
    limit: u8,
    desk: &Desk,
    table: &T,
    claims: Option<&Claims>,
    gate: &G,
) -> Result<Part, RunFault>
    requires few_empties { limit ≤ most_empties }
    requires short { length text.now ≤ most_bytes }
    ensures rows { IfOk result (λ part. part.rows.items
        ≡ rows (T.scoring table.now) (record { limit = limit; complete = false }) text.now) }
    ensures solved { IfOk result
        (λ part. part.solved.items ≡ tasks (T.scoring table.now) limit text.now) }
    ensures faults { IfErr result IsPartFault }
{
    let worker = Worker {
        desk,
        solver: Solver::new(table, claims),
        gate,
    };
    let criteria = Criteria {
        limit,
        complete: false,
    };
    client_part_by_criteria(rt, alloc, text, sender, criteria, &worker)
}
