//! Which definitions of variables are at fault.

ghost use Rattle.std.specs.Prelude.{◌≡◌, OnOk};
ghost use Rattle.graphql_kept_texts.specs.Faults.{HasNothing};

use crate::cuts::Cut;
use crate::rooms::{cut_at, cut_part};
use crate::selections::Walk;
use graphql_blanks::Part;
use graphql_trees::{OperationDefinition, VariableDefinition};
use std::alloc::AllocError;

/// Cuts the definitions of variables that are at fault, with their parentheses if all are.
pub(crate) fn cut_variables(
    walk: Walk<'_>,
    operation: &OperationDefinition,
    cuts: &mut Vec<Cut>,
) -> Result<(), AllocError>
    ensures { HasNothing walk.entry.faults.now → OnOk result (cuts.new.items ≡ cuts.old.items) }
{
    if !walk.faults.has_variables() {
        return Ok(());
    }
    let variables = operation.variables.as_slice();
    let before = cuts.len();
    cut_each(walk, variables, cuts)?;
    let cut = cuts.len().saturating_sub(before);
    if cut == 0 || cut < variables.len() {
        return Ok(());
    }
    cuts.truncate(before);
    match parentheses(walk.text, variables) {
        Some(part) => cut_part(part, cuts),
        None => Ok(()),
    }
}

fn cut_each(
    walk: Walk<'_>,
    variables: &[VariableDefinition],
    cuts: &mut Vec<Cut>,
) -> Result<(), AllocError> {
    for variable in variables {
        if walk.faults.has_variable(variable.span) {
            cut_at(variable.span, cuts)?;
        }
    }
    Ok(())
}

/// From the parenthesis before these definitions to the one after them.
fn parentheses(text: &str, variables: &[VariableDefinition]) -> Option<Part> {
    let first = variables.first()?.span.start as usize;
    let last = variables.last()?.span.end as usize;
    let start = text.get(..first)?.rfind('(')?;
    let behind = text.get(last..)?.find(')')?;
    let end = last.saturating_add(behind).saturating_add(1);
    Some(Part { start, end })
}
