//! The variables in values, arguments and directives.

ghost use Rattle.std.specs.Prelude.{◌≡◌, Any, List, Some};
ghost use Rattle.indexmap.specs.IndexMap.{get};
ghost use Rattle.graphql_nodes.specs.Names.{same_name};
ghost use Rattle.graphql_nodes.specs.declared.nodes.Node.{Node};
ghost use Rattle.graphql_documents.specs.Definitions.{variable_named};
ghost use Rattle.graphql_documents.specs.declared.documents.definitions.VariableDefinition.{VariableDefinition};
ghost use Rattle.graphql_usage_rules.specs.Parts.{InFound, UsedInArgument, UsedInDirective, UsedInEntry, UsedInField, UsedInItem, UsedInList, UsedInObject, location_at};
ghost use Rattle.graphql_usage_rules.specs.Usages.{UsedIn, UsedInArguments, UsedInDirectives};
ghost use Rattle.graphql_reporting.specs.Lists.{Checks};
ghost use Rattle.graphql_usage_rules.specs.VariableMisuses.{ChecksUsages, IsAllowedAt, MisuseReport};

use crate::allowed::is_allowed_at;
use crate::locations::UsageLocation;
use crate::reports::VariableMisuse;
use graphql_documents::documents::{
    Argument, Directive, InputObjectType, InputValueDefinition, Schema, Value, VariableDefinition,
};
use graphql_hash_seeds::HashSeed;
use graphql_name_tables::ByName;
use graphql_nodes::{Name, Node, SourceSpan, ValidationError};
use graphql_reporting::ReportList;
use graphql_variables::VariablesByName;

/// Reports the variables in a value that may not be where they are used.
#[cycle(value)]
pub(crate) fn check_value(
    reports: &mut ReportList<VariableMisuse>,
    schema: &Schema,
    variables: &VariablesByName,
    location: UsageLocation<'_>,
    value: &Node<Value>,
) -> Result<(), ValidationError>
    ensures { ChecksUsages result variables.now (UsedIn schema.now (location_at location.entry) value.now) reports.old reports.new }
{
    match &*value.value {
        Value::Variable(name) => check_usage(reports, variables, location, name, value.location),
        Value::List(items) => check_list(reports, schema, variables, location, items),
        Value::Object(entries) => check_object(reports, schema, variables, location, entries),
        _ => Ok(()),
    }
}

/// Reports the variables in the items of a list value that may not be where they are used. Reports nothing if no
/// list is expected.
///
/// Specification: 3.11 List.
#[cycle(value)]
fn check_list(
    reports: &mut ReportList<VariableMisuse>,
    schema: &Schema,
    variables: &VariablesByName,
    location: UsageLocation<'_>,
    items: &[Node<Value>],
) -> Result<(), ValidationError>
    ensures { ChecksUsages result variables.now (UsedInList schema.now (location_at location.entry) items.now) reports.old reports.new }
{
    if !location.ty.is_list() {
        return Ok(());
    }
    check_items(reports, schema, variables, location.of_item(), items)
}

#[cycle(value)]
fn check_items(
    reports: &mut ReportList<VariableMisuse>,
    schema: &Schema,
    variables: &VariablesByName,
    location: UsageLocation<'_>,
    items: &[Node<Value>],
) -> Result<(), ValidationError>
    ensures { ChecksUsages result variables.now (λ usage. Any (λ item. UsedInItem schema.now (location_at location.entry) item usage) items.now) reports.old reports.new }
{
    for item in items {
        check_value(reports, schema, variables, location, item)?;
    }
    Ok(())
}

/// Reports the variables in the entries of an object value that may not be where they are used. Reports nothing if
/// no input object is expected.
///
/// Specification: 3.10 Input Objects.
#[cycle(value)]
fn check_object(
    reports: &mut ReportList<VariableMisuse>,
    schema: &Schema,
    variables: &VariablesByName,
    location: UsageLocation<'_>,
    entries: &[(Name, Node<Value>)],
) -> Result<(), ValidationError>
    ensures { ChecksUsages result variables.now (UsedInObject schema.now (location_at location.entry) entries.now) reports.old reports.new }
{
    match schema.get_input_object(location.ty.inner_named_type()) {
        Some(input_object) => check_entries(reports, schema, variables, input_object, entries),
        None => Ok(()),
    }
}

#[cycle(value)]
fn check_entries(
    reports: &mut ReportList<VariableMisuse>,
    schema: &Schema,
    variables: &VariablesByName,
    input_object: &Node<InputObjectType>,
    entries: &[(Name, Node<Value>)],
) -> Result<(), ValidationError>
    ensures { ChecksUsages result variables.now (λ usage. Any (λ entry. UsedInEntry schema.now input_object.now entry usage) entries.now) reports.old reports.new }
{
    for (name, entry) in entries {
        check_entry(reports, schema, variables, input_object, name, entry)?;
    }
    Ok(())
}

#[cycle(value)]
fn check_entry(
    reports: &mut ReportList<VariableMisuse>,
    schema: &Schema,
    variables: &VariablesByName,
    input_object: &Node<InputObjectType>,
    name: &Name,
    value: &Node<Value>,
) -> Result<(), ValidationError>
    ensures { ChecksUsages result variables.now (InFound (get same_name input_object.now.value.value.fields name.now) (UsedInField schema.now value.now)) reports.old reports.new }
{
    match input_object.value.fields.get(name) {
        Some(field) => {
            let location = UsageLocation::of(&field.node.value);
            check_value(reports, schema, variables, location, value)
        }
        None => Ok(()),
    }
}

/// Reports a variable if it is defined and may not be used here.
fn check_usage(
    reports: &mut ReportList<VariableMisuse>,
    variables: &VariablesByName,
    location: UsageLocation<'_>,
    name: &Name,
    place: Option<SourceSpan>,
) -> Result<(), ValidationError>
    ensures { ChecksUsages result variables.now (λ usage. usage ≡ record { name = name.now; place = place; location = location_at location.entry }) reports.old reports.new }
{
    match variables.find(name) {
        Some(variable) if !is_allowed_at(&variable.value, location) => {
            report_misuse(reports, variable, location, name, place)
        }
        _ => Ok(()),
    }
}

fn report_misuse(
    reports: &mut ReportList<VariableMisuse>,
    variable: &Node<VariableDefinition>,
    location: UsageLocation<'_>,
    name: &Name,
    place: Option<SourceSpan>,
) -> Result<(), ValidationError>
    requires { ¬ IsAllowedAt variable.now.value.value (location_at location) }
    ensures { (variables : List (Node VariableDefinition)) → variable_named name.now variables ≡ Some variable.now →
        Checks result ⊥ (MisuseReport variables (λ usage. usage ≡ record { name = name.now; place = place; location = location_at location.entry })) reports.old reports.new }
{
    let definition_location = variable.location;
    let name = name.clone()?;
    let variable_type = variable.value.ty.clone()?;
    let location_type = location.ty.clone()?;
    let misuse = VariableMisuse {
        name,
        variable_type,
        location_type,
        definition_location,
        location: place,
    };
    reports.admit(&misuse)?;
    reports.push(misuse)?;
    Ok(())
}

/// Reports the variables in the values of arguments with these definitions that may not be where they are used.
/// Reports nothing in an argument that is not defined.
pub(crate) fn check_arguments(
    reports: &mut ReportList<VariableMisuse>,
    schema: &Schema,
    hash_seed: HashSeed,
    variables: &VariablesByName,
    definitions: &[Node<InputValueDefinition>],
    arguments: &[Node<Argument>],
) -> Result<(), ValidationError>
    ensures { ChecksUsages result variables.now (UsedInArguments schema.now definitions.now arguments.now) reports.old reports.new }
{
    if arguments.is_empty() {
        return Ok(());
    }
    let definitions_by_name = ByName::new(
        reports.allocator(),
        hash_seed,
        definitions,
        arguments.len(),
    )?;
    for argument in arguments {
        check_argument(
            reports,
            schema,
            variables,
            &definitions_by_name,
            &argument.value,
        )?;
    }
    Ok(())
}

fn check_argument(
    reports: &mut ReportList<VariableMisuse>,
    schema: &Schema,
    variables: &VariablesByName,
    definitions: &ByName<Node<InputValueDefinition>>,
    argument: &Argument,
) -> Result<(), ValidationError>
    ensures { ChecksUsages result variables.now (UsedInArgument schema.now definitions.now argument.now) reports.old reports.new }
{
    match definitions.find(&argument.name) {
        Some(definition) => {
            let location = UsageLocation::of(&definition.value);
            check_value(reports, schema, variables, location, &argument.value)
        }
        None => Ok(()),
    }
}

/// Reports the variables in the arguments of directives that may not be where they are used. Reports nothing in a
/// directive that is not defined.
pub(crate) fn check_directives(
    reports: &mut ReportList<VariableMisuse>,
    schema: &Schema,
    hash_seed: HashSeed,
    variables: &VariablesByName,
    directives: &[Node<Directive>],
) -> Result<(), ValidationError>
    ensures { ChecksUsages result variables.now (UsedInDirectives schema.now directives.now) reports.old reports.new }
{
    for directive in directives {
        check_directive(reports, schema, hash_seed, variables, &directive.value)?;
    }
    Ok(())
}

fn check_directive(
    reports: &mut ReportList<VariableMisuse>,
    schema: &Schema,
    hash_seed: HashSeed,
    variables: &VariablesByName,
    directive: &Directive,
) -> Result<(), ValidationError>
    ensures { ChecksUsages result variables.now (UsedInDirective schema.now directive.now) reports.old reports.new }
{
    match schema.directive_definitions.get(&directive.name) {
        Some(definition) => check_arguments(
            reports,
            schema,
            hash_seed,
            variables,
            &definition.value.arguments,
            &directive.arguments,
        ),
        None => Ok(()),
    }
}
