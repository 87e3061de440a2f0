//! The parts of the clients of a run, joined one after the other.

ghost use Rattle.std.specs.Prelude.{◌≡◌, ◌<◌, ◌≤◌, ◌+◌, ◌++◌, ◌∷◌, IfOk, IfErr, Some, None, [], vec_len, vec_capacity};
ghost use Rattle.suite_runs.specs.RunFault.{worse_fault};
ghost use Rattle.suite_runs.specs.Threads.{AreJoined};

use crate::part::Part;
use crate::run_fault::{RunFault, worse_fault};
use crate::started_client::StartedClient;
use std::thread::Threads;

/// The parts of the clients that were joined, and which of their faults is kept.
#[derive(Drop)]
pub struct Joined {
    pub parts: Vec<Part>,
    pub fault: Option<RunFault>,
}

impl Joined {
    // Adds the result of one more client. An earlier `Memory` is kept before a later fault.
    fn take(&mut self, given: Result<Part, RunFault>)
        requires { vec_len self.old.parts < vec_capacity self.old.parts }
        ensures part { IfOk given (λ part.
            (self.new.parts.items ≡ self.old.parts.items ++ part ∷ [])
            × (self.new.fault ≡ self.old.fault)) }
        ensures fault { IfErr given (λ fault.
            self.new.fault ≡ Some (worse_fault self.old.fault fault)) }
        ensures room { vec_capacity self.new.parts ≡ vec_capacity self.old.parts }
        ensures len { vec_len self.new.parts ≤ vec_len self.old.parts + 1 }
    {
        match given {
            Ok(part) => self.parts.push_reserved(part),
            Err(fault) => self.fault = Some(worse_fault(self.fault, fault)),
        }
    }

    /// The parts; the error is the fault that was kept.
    pub(crate) fn into_parts(self) -> Result<Vec<Part>, RunFault>
        ensures ok { IfOk result (λ parts. (parts ≡ self.parts) × (self.fault ≡ None)) }
        ensures err { IfErr result (λ fault. self.fault ≡ Some fault) }
    {
        let Joined { parts, fault } = self;
        match fault {
            None => Ok(parts),
            Some(fault) => Err(fault),
        }
    }
}

/// Joins all clients, in their order, and adds their results to `joined`, which is empty and has
/// room for all.
pub fn join_all<R: Threads>(rt: &R, clients: Vec<StartedClient<'_>>, joined: &mut Joined)
    requires none { (joined.old.parts.items ≡ []) × (joined.old.fault ≡ None) }
    requires room { vec_len clients ≤ vec_capacity joined.old.parts }
    ensures { AreJoined clients.entry.items joined.new.parts.items joined.new.fault }
{
    for client in clients {
        joined.take(client.join(rt));
    }
}
