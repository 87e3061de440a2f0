//! Clients that are joined.

ghost use Rattle.std.specs.Prelude.{◌≡◌, ◌≤◌, [], ◌⊎◌, IfOk, vec_len, vec_capacity};
ghost use Rattle.suite_runs.specs.declared.run_fault.RunFault.TheVariants.{Memory, Mixed};

use othello_rules::Scoring;
use program_settings::Criteria;
use started_threads::{Making, Started};
use std::alloc::{AllocError, Global};
use std::test::Fail;
use std::thread::Threads;
use suite_runs::joined::{Joined, join_all};
use suite_runs::started_client::{PartPromise, StartedClient};
use suite_solver::RunFault;

// A client that has ended with a fault.
fn ended_with(fault: RunFault) -> StartedClient<'static>
    requires { (fault ≡ Memory) ⊎ (fault ≡ Mixed) }
{
    Started {
        promise: PartPromise {
            scoring: Scoring::Winner,
            criteria: Criteria {
                limit: 20,
                complete: false,
            },
            text: b"",
        },
        making: Making::Ready(Err(fault)),
    }
}

// The fault that is reported for two clients.
fn told_of<R: Threads>(
    rt: &R,
    alloc: Global,
    first: RunFault,
    second: RunFault,
) -> Result<Option<RunFault>, AllocError>
    requires first { (first ≡ Memory) ⊎ (first ≡ Mixed) }
    requires second { (second ≡ Memory) ⊎ (second ≡ Mixed) }
{
    let mut clients = Vec::new(alloc);
    clients.push(ended_with(first))?;
    clients.push(ended_with(second))?;
    let mut joined = Joined {
        parts: Vec::with_capacity(alloc, 2)?,
        fault: None,
    };
    join_all(rt, clients, &mut joined);
    Ok(joined.fault)
}

// Running out of memory is reported before mixed answers, whichever client has it.
#[test]
fn memory_comes_first(rt: HostRuntime) -> Result<(), Fail> {
    let (memory, mixed) = (RunFault::Memory, RunFault::Mixed);
    assert!(rt; told_of(&rt, rt.alloc(), memory, mixed)? == Some(memory));
    assert!(rt; told_of(&rt, rt.alloc(), mixed, memory)? == Some(memory));
    assert!(rt; told_of(&rt, rt.alloc(), mixed, mixed)? == Some(mixed));
    Ok(())
}
