//! Values against types.

mod entries;
mod expected;
mod leaves;
mod objects;
mod reports;

ghost use Rattle.std.specs.Prelude.{◌≡◌, Some, All};
ghost use Rattle.graphql_diagnostics.specs.Diagnostics.{IsDiagnostic};
ghost use Rattle.graphql_specification.specs.Values.{Accepts, ValueReport};
ghost use Rattle.graphql_diagnostics.specs.Reports.{Checks};
ghost use Rattle.graphql_documents.specs.Schemas.{IsInputObject, type_definition};
ghost use Rattle.graphql_documents.specs.TypeReferences.{TypeReference, inner_named_type, reference_of};
ghost use Rattle.graphql_values.specs.ValueSteps.{AcceptsEntry, AcceptsField, AcceptsItem, ChecksValue, EntryReport, HasEntries, HasItems, ItemReport, written_at};

use entries::EntriesByName;
use expected::ExpectedType;
use graphql_diagnostics::DiagnosticList;
use graphql_documents::documents::{
    Argument, Component, ExtendedType, InputObjectType, InputValueDefinition, Schema, Type, Value,
    VariableDefinition,
};
use graphql_nodes::{Name, Node, SourceSpan, ValidationError};
use graphql_variables::VariablesByName;
use leaves::{
    check_enum_value, check_int, check_null, check_other_scalar, check_variable, is_custom_scalar,
    takes_lists,
};
use objects::{check_known_entries, check_required_field};
use reports::unsupported_type;

/// Validates the value of an argument against a type.
///
/// Specification: 5.6.1 Values of Correct Type.
pub fn validate_values(
    diagnostics: &mut DiagnosticList,
    schema: &Schema,
    ty: &Node<Type>,
    argument: &Node<Argument>,
    variables: &[Node<VariableDefinition>],
) -> Result<(), ValidationError>
    ensures { Checks result
        (Accepts schema.now variables.now ty.now.value.value argument.now.value.value.value.value.value)
        (IsDiagnostic (ValueReport schema.now variables.now (reference_of ty.now) argument.now.value.value.value))
        diagnostics.old diagnostics.new }
{
    value_of_correct_type(diagnostics, schema, ty, &argument.value.value, variables)
}

/// Validates a value against a type. Nothing is said of a type that is not defined.
///
/// Reports come in the order of the value. Of an input object value the first unknown entry is reported, and
/// then for each field of the definition, in order, that it is missing or null, and what its first entry
/// breaks. The only error is a failed allocation.
///
/// Specification: 5.6 Values.
pub fn value_of_correct_type(
    diagnostics: &mut DiagnosticList,
    schema: &Schema,
    ty: &Node<Type>,
    value: &Node<Value>,
    variables: &[Node<VariableDefinition>],
) -> Result<(), ValidationError>
    ensures { Checks result
        (Accepts schema.now variables.now ty.now.value.value value.now.value.value)
        (IsDiagnostic (ValueReport schema.now variables.now (reference_of ty.now) value.now))
        diagnostics.old diagnostics.new }
{
    let variables = VariablesByName::new(
        diagnostics.allocator(),
        diagnostics.hash_seed(),
        variables,
    )?;
    check_value_of_type(diagnostics, schema, ty, value, &variables)
}

/// Validates a value against a type, and finds each variable by its name: a document is checked in time that
/// does not grow with the number of its variables for each use of one. Nothing is said of a type that is not
/// defined. Reports come in the order of `value_of_correct_type`. The only error is a failed allocation.
///
/// Specification: 5.6 Values.
pub fn check_value_of_type(
    diagnostics: &mut DiagnosticList,
    schema: &Schema,
    ty: &Node<Type>,
    value: &Node<Value>,
    variables: &VariablesByName,
) -> Result<(), ValidationError>
    ensures { Checks result
        (Accepts schema.now variables.now ty.now.value.value value.now.value.value)
        (IsDiagnostic (ValueReport schema.now variables.now (reference_of ty.now) value.now))
        diagnostics.old diagnostics.new }
{
    check_value(
        diagnostics,
        schema,
        value,
        &ty.value,
        ty.location,
        variables,
    )
}

/// Checks a value against a type that is written at this location. Nothing is reported of a type that is not
/// defined.
#[cycle(value)]
fn check_value(
    diagnostics: &mut DiagnosticList,
    schema: &Schema,
    value: &Node<Value>,
    ty: &Type,
    location: Option<SourceSpan>,
    variables: &VariablesByName,
) -> Result<(), ValidationError>
    ensures { ChecksValue result schema.now variables.now (written_at ty.now location) value.now diagnostics.old diagnostics.new }
{
    let Some(definition) = schema.types.get(ty.inner_named_type()) else {
        return Ok(());
    };
    let expected = ExpectedType {
        ty,
        location,
        definition,
    };
    check_expected(diagnostics, schema, value, &expected, variables)
}

/// Checks a value against the type that is expected.
#[cycle(value)]
fn check_expected(
    diagnostics: &mut DiagnosticList,
    schema: &Schema,
    value: &Node<Value>,
    expected: &ExpectedType<'_>,
    variables: &VariablesByName,
) -> Result<(), ValidationError>
    requires { type_definition schema.now (inner_named_type expected.now.ty.now) ≡ Some expected.now.definition.now }
    ensures { ChecksValue result schema.now variables.now (written_at expected.now.ty.now expected.now.location) value.now diagnostics.old diagnostics.new }
{
    match &*value.value {
        Value::Null => check_null(diagnostics, expected, value),
        Value::Enum(name) => check_enum_value(diagnostics, expected, value, name),
        Value::Variable(name) => check_variable(diagnostics, expected, value, name, variables),
        Value::Int(number) => check_int(diagnostics, expected, value, number),
        Value::String(_) | Value::Float(_) | Value::Boolean(_) => {
            check_other_scalar(diagnostics, expected, value)
        }
        Value::List(items) => check_list(diagnostics, schema, value, items, expected, variables),
        Value::Object(entries) => {
            check_object(diagnostics, schema, value, entries, expected, variables)
        }
    }
}

/// Checks a list value of these items.
///
/// Specification: 3.11 List, Input Coercion.
#[cycle(value)]
fn check_list(
    diagnostics: &mut DiagnosticList,
    schema: &Schema,
    value: &Node<Value>,
    items: &[Node<Value>],
    expected: &ExpectedType<'_>,
    variables: &VariablesByName,
) -> Result<(), ValidationError>
    requires list { HasItems value.now.value.value items.now }
    requires defined { type_definition schema.now (inner_named_type expected.now.ty.now) ≡ Some expected.now.definition.now }
    ensures { ChecksValue result schema.now variables.now (written_at expected.now.ty.now expected.now.location) value.now diagnostics.old diagnostics.new }
{
    if !takes_lists(expected) {
        return unsupported_type(diagnostics, expected, value);
    }
    let expected_item = ExpectedType {
        ty: expected.ty.item_type(),
        location: expected.location,
        definition: expected.definition,
    };
    if !expected.definition.is_input_type() {
        return unsupported_type(diagnostics, &expected_item, value);
    }
    check_items(diagnostics, schema, items, &expected_item, variables)
}

/// Checks an object value of these entries.
///
/// Specification: 3.10 Input Objects, Input Coercion.
#[cycle(value)]
fn check_object(
    diagnostics: &mut DiagnosticList,
    schema: &Schema,
    value: &Node<Value>,
    entries: &[(Name, Node<Value>)],
    expected: &ExpectedType<'_>,
    variables: &VariablesByName,
) -> Result<(), ValidationError>
    requires object { HasEntries value.now.value.value entries.now }
    requires defined { type_definition schema.now (inner_named_type expected.now.ty.now) ≡ Some expected.now.definition.now }
    ensures { ChecksValue result schema.now variables.now (written_at expected.now.ty.now expected.now.location) value.now diagnostics.old diagnostics.new }
{
    if is_custom_scalar(expected.definition) {
        return Ok(());
    }
    let ExtendedType::InputObject(input_object) = expected.definition else {
        return unsupported_type(diagnostics, expected, value);
    };
    check_known_entries(diagnostics, input_object, value, entries)?;
    let entries_by_name = EntriesByName::new(
        diagnostics.allocator(),
        diagnostics.hash_seed(),
        entries,
        input_object.value.fields.len(),
    )?;
    check_fields(
        diagnostics,
        schema,
        value,
        &entries_by_name,
        input_object,
        variables,
    )
}

/// Checks each item of a list against the type of the items.
#[cycle(value)]
fn check_items(
    diagnostics: &mut DiagnosticList,
    schema: &Schema,
    items: &[Node<Value>],
    expected: &ExpectedType<'_>,
    variables: &VariablesByName,
) -> Result<(), ValidationError>
    requires { type_definition schema.now (inner_named_type expected.now.ty.now) ≡ Some expected.now.definition.now }
    ensures { Checks result (All (AcceptsItem schema.now variables.now expected.now.ty.now) items.now)
        (IsDiagnostic (ItemReport schema.now variables.now (written_at expected.now.ty.now expected.now.location) items.now))
        diagnostics.old diagnostics.new }
{
    for item in items {
        check_expected(diagnostics, schema, item, expected, variables)?;
    }
    Ok(())
}

/// Checks each field of an input object, in order, by the entries of an object value.
#[cycle(value)]
fn check_fields(
    diagnostics: &mut DiagnosticList,
    schema: &Schema,
    value: &Node<Value>,
    entries: &EntriesByName<'_>,
    input_object: &Node<InputObjectType>,
    variables: &VariablesByName,
) -> Result<(), ValidationError>
    requires { HasEntries value.now.value.value entries.now }
    ensures { (ty : TypeReference) → IsInputObject schema.now (inner_named_type ty.ty) input_object.now →
        Checks result (All (AcceptsField schema.now variables.now entries.now) input_object.now.value.value.fields.entries)
        (IsDiagnostic (ValueReport schema.now variables.now ty value.now)) diagnostics.old diagnostics.new }
{
    for (name, field) in &input_object.value.fields {
        check_required_field(diagnostics, input_object, name, field, value, entries)?;
        check_entry(diagnostics, schema, entries, name, field, variables)?;
    }
    Ok(())
}

/// Checks the first of these entries under the name of a field, if there is one.
#[cycle(value)]
fn check_entry(
    diagnostics: &mut DiagnosticList,
    schema: &Schema,
    entries: &EntriesByName<'_>,
    name: &Name,
    field: &Component<InputValueDefinition>,
    variables: &VariablesByName,
) -> Result<(), ValidationError>
    ensures { Checks result (AcceptsEntry schema.now variables.now entries.now (name.now, field.now))
        (IsDiagnostic (EntryReport schema.now variables.now entries.now (name.now, field.now)))
        diagnostics.old diagnostics.new }
{
    let Some((_, entry)) = entries.find(name) else {
        return Ok(());
    };
    let ty = &field.node.value.ty;
    check_value(
        diagnostics,
        schema,
        entry,
        &ty.value,
        ty.location,
        variables,
    )
}
