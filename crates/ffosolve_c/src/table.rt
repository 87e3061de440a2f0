//! The table of a call, and the scoring that it is for.

ghost use Rattle.std.specs.Prelude.{◌≡◌, ◌≢◌, ◌≤◌, Some, None, IfOk, IfErr};
ghost use Rattle.bound_table.specs.Limits.{most_entries};
ghost use Rattle.ffosolve_c.specs.declared.call_refusal.CallRefusal.TheVariants as refusal;
ghost use Rattle.ffosolve_c.specs.CValues.{numbered_scoring};
ghost use Rattle.ffosolve_c.specs.Refusals.{call_status, table_refusal, IsOfPosition};

use crate::call_refusal::CallRefusal;
use bound_table::{BoundTable, Bounds};
use othello_rules::Scoring;
use std::alloc::Global;

#[tactic(auto, unfolding(crate::specs::CValues::numbered_scoring))]
fn numbered_scoring(number: u32) -> Option<Scoring>
    ensures { result ≡ numbered_scoring number }
{
    Scoring::ALL.get(number as usize).copied()
}

/// The scoring with the number `number`, for a table of `entries` entries. `UnknownScoring` if
/// none has the number; `TooManyEntries` above `BoundTable::MOST_ENTRIES`.
#[tactic(auto, unfolding(crate::specs::Refusals::table_refusal, crate::specs::CValues::numbered_scoring))]
pub fn table_scoring(number: u32, entries: usize) -> Result<Scoring, CallRefusal>
    ensures good { IfOk result (λ g. table_refusal number entries ≡ None) }
    ensures few { IfOk result (λ g. entries ≤ most_entries) }
    ensures scoring { IfOk result (λ g. numbered_scoring number ≡ Some g) }
    ensures refused { IfErr result (λ r. table_refusal number entries ≡ Some r) }
    ensures kinds { IfErr result (λ r. IsOfPosition (call_status r) → ⊥) }
    ensures not_memory { IfErr result (λ r. r ≢ refusal.NoMemory) }
{
    let Some(scoring) = numbered_scoring(number) else {
        return Err(CallRefusal::UnknownScoring);
    };
    if entries > BoundTable::MOST_ENTRIES {
        return Err(CallRefusal::TooManyEntries);
    }
    Ok(scoring)
}

/// A new table of `entries` entries. `NoMemory` if memory was refused, but never with 0 entries.
pub fn table_of(alloc: Global, entries: usize, scoring: Scoring) -> Result<BoundTable, CallRefusal>
    requires { entries ≤ most_entries }
    ensures made { IfOk result
        (λ table. table ≡ record { scoring = scoring; entries = entries }) }
    ensures refused { IfErr result (λ r. r ≡ refusal.NoMemory) }
    ensures without_memory { IfErr result (λ r. entries ≢ 0) }
{
    match BoundTable::new(alloc, entries, scoring) {
        Ok(table) => Ok(table),
        Err(_) => Err(CallRefusal::NoMemory),
    }
}
