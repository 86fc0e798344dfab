ghost use Rattle.std.specs.Option.{option_copied};
ghost use Rattle.std.specs.Prelude.{◌≡◌, MatchOption, find, is_some, not};
ghost use Rattle.graphql_documents.specs.Directives.{argument_named};
ghost use Rattle.graphql_specification.specs.Merging.{SameNameAndArguments};
ghost use Rattle.graphql_field_conflicts.specs.Comparisons.{ArgumentConflicts, ArgumentsConflict, Conflicts, HasArgument, StandAmong};

use super::values::same_value;
use crate::field_selections::FieldSelection;
use graphql_documents::documents::{Argument, argument_named};
use graphql_nodes::Node;

/// What two fields disagree on.
#[derive(Clone, Copy, Debug)]
pub enum FieldConflict<'a> {
    /// Their names.
    Names,
    /// This argument of the first field, which the second lacks.
    FirstAlone(&'a Node<Argument>),
    /// This argument of the second field, which the first lacks.
    SecondAlone(&'a Node<Argument>),
    /// The values of these arguments, of one name, the first field's before the second's.
    Both(&'a Node<Argument>, &'a Node<Argument>),
}

/// What two fields disagree on first, if they do: on their names, else on an argument of the first field,
/// in order, else on one that only the second has, in order. Of repeated arguments the first counts.
///
/// Specification: 5.3.2 Field Selection Merging, FieldsInSetCanMerge.
pub fn same_name_and_arguments<'a>(
    a: FieldSelection<'a>,
    b: FieldSelection<'a>,
) -> Option<FieldConflict<'a>>
    ensures { MatchOption result
        (SameNameAndArguments a.entry.field.now.value.value b.entry.field.now.value.value)
        (Conflicts a.entry.field.now.value.value b.entry.field.now.value.value) }
{
    let first = &*a.field.value;
    let second = &*b.field.value;
    if first.name != second.name {
        return Some(FieldConflict::Names);
    }
    match conflict_of_arguments(&first.arguments, &second.arguments) {
        Some(conflict) => Some(conflict),
        None => match missing_argument(&second.arguments, &first.arguments) {
            Some(argument) => Some(FieldConflict::SecondAlone(argument)),
            None => None,
        },
    }
}

/// The first of these arguments that the others lack, or give another value.
fn conflict_of_arguments<'a>(
    arguments: &'a [Node<Argument>],
    others: &'a [Node<Argument>],
) -> Option<FieldConflict<'a>>
    ensures { MatchOption result (StandAmong arguments.now others.now) (ArgumentsConflict arguments.now others.now) }
{
    for (i, argument) in arguments.iter().enumerate() {
        if argument_named(&arguments[..i], &argument.value.name).is_some() {
            continue;
        }
        if let Some(conflict) = conflict_of_argument(argument, others) {
            return Some(conflict);
        }
    }
    None
}

/// Whether the others lack this argument, or give it another value.
fn conflict_of_argument<'a>(
    argument: &'a Node<Argument>,
    others: &'a [Node<Argument>],
) -> Option<FieldConflict<'a>>
    ensures { MatchOption result
        (HasArgument others.now argument.now.value.value.name argument.now)
        (ArgumentConflicts others.now argument.now) }
{
    match argument_named(others, &argument.value.name) {
        None => Some(FieldConflict::FirstAlone(argument)),
        Some(other) if same_value(&argument.value.value.value, &other.value.value.value) => None,
        Some(other) => Some(FieldConflict::Both(argument, other)),
    }
}

/// The first of these arguments that the others lack.
fn missing_argument<'a>(
    arguments: &'a [Node<Argument>],
    others: &[Node<Argument>],
) -> Option<&'a Node<Argument>>
    ensures { option_copied result ≡ find (λ a. not (is_some (argument_named a.value.value.name others.now))) arguments.now }
{
    arguments
        .iter()
        .find(|a| argument_named(others, &a.value.name).is_none())
}
