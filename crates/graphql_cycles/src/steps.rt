ghost use Rattle.std.specs.Prelude.{◌≡◌, IfErr, IfOk, OnOk, map, not};
ghost use Rattle.graphql_nodes.specs.Names.{stands_on, with_name};
ghost use Rattle.graphql_cycles.specs.CycleSearches.{GoesOn, IsMemory};

use graphql_guards::CycleError;
use graphql_nodes::{Name, Node};
use indexmap::IndexSet;
use std::hash::BuildHasher;

/// Adds a name to those that were seen, and answers whether it is new.
pub(super) fn mark<'name, T: Drop, S: BuildHasher>(
    seen: &mut IndexSet<&'name Name, S>,
    name: &'name Name,
) -> Result<bool, CycleError<T>>
    ensures is_new { IfOk result (λ new. new ≡ not (stands_on (map (λ b. b.now) seen.old.keys) name.now)) }
    ensures names { OnOk result (map (λ b. b.now) seen.new.keys ≡ with_name (map (λ b. b.now) seen.old.keys) name.now) }
    ensures refused { IfErr result IsMemory }
{
    match seen.insert(name) {
        Ok(is_new) => Ok(is_new),
        Err(_) => Err(CycleError::Memory),
    }
}

/// The error of a search, with the step before it at the end of its trace. Where memory for that is
/// refused, this is the error.
pub(super) fn trace_step<T: Drop>(error: CycleError<T>, step: &Node<T>) -> CycleError<T>
    ensures { GoesOn step.now error result }
{
    match error {
        CycleError::Recursed(mut trace) => {
            let Ok(copy) = step.clone() else {
                return CycleError::Memory;
            };
            match trace.push(copy) {
                Ok(()) => CycleError::Recursed(trace),
                Err(_) => CycleError::Memory,
            }
        }
        other => other,
    }
}
