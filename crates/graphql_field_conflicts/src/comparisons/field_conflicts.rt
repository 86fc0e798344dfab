//! What two fields disagree on, in about the time that it takes to read the second, and the first as far as
//! the two agree.

ghost use Rattle.std.specs.Option.{option_copied};
ghost use Rattle.std.specs.Prelude.{◌≡◌, IfOk, MatchOption, find, is_some, not};
ghost use Rattle.graphql_documents.specs.Directives.{argument_named};
ghost use Rattle.graphql_specification.specs.Merging.{SameNameAndArguments};
ghost use Rattle.graphql_field_conflicts.specs.Comparisons.{ArgumentConflicts, Conflicts, HasArgument};

use super::arguments::FieldConflict;
use super::equal_values::is_same_value;
use super::first_field::FirstField;
use crate::field_selections::FieldSelection;
use graphql_documents::documents::Argument;
use graphql_hash_seeds::HashSeed;
use graphql_name_tables::ByName;
use graphql_nodes::Node;
use std::alloc::{AllocError, Global};

/// What two fields disagree on first, if they do, as `same_name_and_arguments` says. Arguments and entries of
/// objects are found by tables where there are many, so the time is about linear in the size of the second
/// field and in what the first has as far as the two agree. The only error is a failed allocation.
///
/// Specification: 5.3.2 Field Selection Merging, FieldsInSetCanMerge.
pub fn find_field_conflict<'a>(
    alloc: Global,
    hash_seed: HashSeed,
    a: FieldSelection<'a>,
    b: FieldSelection<'a>,
) -> Result<Option<FieldConflict<'a>>, AllocError>
    ensures { IfOk result (λ found. MatchOption found
        (SameNameAndArguments a.entry.field.now.value.value b.entry.field.now.value.value)
        (Conflicts a.entry.field.now.value.value b.entry.field.now.value.value)) }
{
    let mut first = FirstField::new(alloc, hash_seed, a)?;
    first.find_conflict(b)
}

/// Whether the others lack this argument, or give it another value.
pub(super) fn conflict_of_argument<'a>(
    alloc: Global,
    hash_seed: HashSeed,
    argument: &'a Node<Argument>,
    others: &ByName<'a, Node<Argument>>,
) -> Result<Option<FieldConflict<'a>>, AllocError>
    ensures { IfOk result (λ found. MatchOption found
        (HasArgument others.now argument.now.value.value.name argument.now)
        (ArgumentConflicts others.now argument.now)) }
{
    let Some(other) = others.find(&argument.value.name) else {
        return Ok(Some(FieldConflict::FirstAlone(argument)));
    };
    let value = &argument.value.value.value;
    if is_same_value(alloc, hash_seed, value, &other.value.value.value)? {
        return Ok(None);
    }
    Ok(Some(FieldConflict::Both(argument, other)))
}

/// The first of these arguments that the others lack.
pub(super) fn missing_argument<'a>(
    arguments: &'a [Node<Argument>],
    others: &ByName<Node<Argument>>,
) -> Option<&'a Node<Argument>>
    ensures { option_copied result ≡ find (λ a. not (is_some (argument_named a.value.value.name others.now))) arguments.now }
{
    arguments
        .iter()
        .find(|a| others.find(&a.value.name).is_none())
}
