//! The input fields of object values: in a value, in arguments, in directives and in default values.

ghost use Rattle.std.specs.Prelude.{◌≡◌, ◌∷◌, ◌++◌, [], Any, List, None, OnOk, Some, find, map};
ghost use Rattle.graphql_nodes.specs.Names.{AreDistinct, NameText, same_name};
ghost use Rattle.graphql_variables.specs.FirstPlaces.{IsNext, Remembers};
ghost use Rattle.graphql_repetitions.specs.Repetitions.{met_name};
ghost use Rattle.graphql_input_rules.specs.InputFields.{FieldReport, FieldsAreUnique, RepetitionReport, entry_names};
ghost use Rattle.graphql_reporting.specs.Lists.{Checks};
ghost use Rattle.graphql_input_rules.specs.ValuesWritten.{DefaultWrites, InArguments, InDirectives, ValueWritten};

use crate::reports::InputFieldRepetition;
use graphql_documents::documents::{Argument, Directive, Value};
use graphql_hash_seeds::HashSeed;
use graphql_nodes::{Name, Node, SourceSpan, ValidationError};
use graphql_reporting::ReportList;
use graphql_variables::first_places::{FirstPlaces, first_place};

/// Reports the input fields that the object values in a value repeat.
#[cycle(value)]
fn check_value(
    reports: &mut ReportList<InputFieldRepetition>,
    hash_seed: HashSeed,
    value: &Value,
) -> Result<(), ValidationError>
    ensures { Checks result (FieldsAreUnique (ValueWritten value.now)) (FieldReport (ValueWritten value.now)) reports.old reports.new }
{
    match value {
        Value::List(items) => check_items(reports, hash_seed, items),
        Value::Object(entries) => {
            check_names(reports, hash_seed, entries)?;
            check_entries(reports, hash_seed, entries)
        }
        _ => Ok(()),
    }
}

#[cycle(value)]
fn check_items(
    reports: &mut ReportList<InputFieldRepetition>,
    hash_seed: HashSeed,
    items: &[Node<Value>],
) -> Result<(), ValidationError>
    ensures { Checks result (FieldsAreUnique (λ v. Any (λ i. ValueWritten i.value.value v) items.now)) (FieldReport (λ v. Any (λ i. ValueWritten i.value.value v) items.now)) reports.old reports.new }
{
    for item in items {
        check_value(reports, hash_seed, &item.value)?;
    }
    Ok(())
}

#[cycle(value)]
fn check_entries(
    reports: &mut ReportList<InputFieldRepetition>,
    hash_seed: HashSeed,
    entries: &[(Name, Node<Value>)],
) -> Result<(), ValidationError>
    ensures { Checks result (FieldsAreUnique (λ v. Any (λ e. ValueWritten e.1.value.value v) entries.now)) (FieldReport (λ v. Any (λ e. ValueWritten e.1.value.value v) entries.now)) reports.old reports.new }
{
    for (_, entry) in entries {
        check_value(reports, hash_seed, &entry.value)?;
    }
    Ok(())
}

/// Reports each name that repeats an earlier one, with the place of the first of that name.
fn check_names(
    reports: &mut ReportList<InputFieldRepetition>,
    hash_seed: HashSeed,
    entries: &[(Name, Node<Value>)],
) -> Result<(), ValidationError>
    ensures { Checks result (AreDistinct (entry_names entries.now)) (RepetitionReport (entry_names entries.now)) reports.old reports.new }
{
    let mut seen = FirstPlaces::with_hasher(reports.allocator(), hash_seed);
    for (name, _) in entries {
        check_name(reports, &mut seen, name)?;
    }
    Ok(())
}

/// Reports a name that repeats one of those before it.
fn check_name<'a>(
    reports: &mut ReportList<InputFieldRepetition>,
    seen: &mut FirstPlaces<'a>,
    name: &'a Name,
) -> Result<(), ValidationError>
    ensures checks { (all before : List NameText) → IsNext all before name.now → Remembers seen.old (map met_name before) →
        Checks result (find (λ n. same_name n name.now) before ≡ None) (RepetitionReport all) reports.old reports.new }
    ensures remembered { OnOk result ((before : List NameText) → Remembers seen.old (map met_name before) →
        Remembers seen.new (map met_name (before ++ name.now ∷ []))) }
{
    match first_place(seen, name, name.location())? {
        Some(original) => report_repetition(reports, name, original),
        None => Ok(()),
    }
}

fn report_repetition(
    reports: &mut ReportList<InputFieldRepetition>,
    name: &Name,
    original: Option<SourceSpan>,
) -> Result<(), ValidationError>
    ensures { (all before : List NameText) (first : NameText) → IsNext all before name.now →
        find (λ n. same_name n name.now) before ≡ Some first → original ≡ first.location →
        Checks result ⊥ (RepetitionReport all) reports.old reports.new }
{
    let location = name.location();
    let name = name.clone()?;
    let repetition = InputFieldRepetition {
        name,
        original,
        location,
    };
    reports.admit(&repetition)?;
    reports.push(repetition)?;
    Ok(())
}

/// Reports the input fields that object values repeat in the values of arguments.
pub(crate) fn check_arguments(
    reports: &mut ReportList<InputFieldRepetition>,
    hash_seed: HashSeed,
    arguments: &[Node<Argument>],
) -> Result<(), ValidationError>
    ensures { Checks result (FieldsAreUnique (InArguments arguments.now)) (FieldReport (InArguments arguments.now)) reports.old reports.new }
{
    for argument in arguments {
        check_value(reports, hash_seed, &argument.value.value.value)?;
    }
    Ok(())
}

/// Reports the input fields that object values repeat in the arguments of directives.
pub(crate) fn check_directives(
    reports: &mut ReportList<InputFieldRepetition>,
    hash_seed: HashSeed,
    directives: &[Node<Directive>],
) -> Result<(), ValidationError>
    ensures { Checks result (FieldsAreUnique (InDirectives directives.now)) (FieldReport (InDirectives directives.now)) reports.old reports.new }
{
    for directive in directives {
        check_arguments(reports, hash_seed, &directive.value.arguments)?;
    }
    Ok(())
}

/// Reports the input fields that object values repeat in a default value, if there is one.
pub(crate) fn check_default_value(
    reports: &mut ReportList<InputFieldRepetition>,
    hash_seed: HashSeed,
    default_value: &Option<Node<Value>>,
) -> Result<(), ValidationError>
    ensures { Checks result (FieldsAreUnique (DefaultWrites default_value.now)) (FieldReport (DefaultWrites default_value.now)) reports.old reports.new }
{
    match default_value {
        Some(value) => check_value(reports, hash_seed, &value.value),
        None => Ok(()),
    }
}
