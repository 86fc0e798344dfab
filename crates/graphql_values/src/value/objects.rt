ghost use Rattle.std.specs.Prelude.{◌↔◌, List, All, Contains, IsSome, IsTrue};
ghost use Rattle.graphql_diagnostics.specs.Diagnostics.{IsDiagnostic};
ghost use Rattle.graphql_specification.specs.Values.{HasNoNullEntry, IsFieldProvided, IsInputField, ValueReport};
ghost use Rattle.graphql_diagnostics.specs.Reports.{Checks};
ghost use Rattle.graphql_documents.specs.Schemas.{IsInputObject, is_required};
ghost use Rattle.graphql_documents.specs.TypeReferences.{TypeReference, inner_named_type};
ghost use Rattle.graphql_documents.specs.Values.{entry_named};
ghost use Rattle.graphql_documents.specs.declared.documents.definitions.VariableDefinition.{VariableDefinition};
ghost use Rattle.graphql_nodes.specs.declared.nodes.Node.{Node};
ghost use Rattle.graphql_documents.specs.declared.documents.schemas.Schema.{Schema};
ghost use Rattle.graphql_values.specs.ValueSteps.{HasEntries};

use super::entries::EntriesByName;
use graphql_coordinates::TypeAttributeCoordinate;
use graphql_diagnostics::{Details, DiagnosticData, DiagnosticList};
use graphql_documents::documents::{Component, InputObjectType, InputValueDefinition, Value};
use graphql_nodes::{Name, Node, ValidationError};

/// Reports the first entry whose field the input object lacks.
///
/// Specification: 5.6.2 Input Object Field Names.
pub(super) fn check_known_entries(
    diagnostics: &mut DiagnosticList,
    input_object: &Node<InputObjectType>,
    value: &Node<Value>,
    entries: &[(Name, Node<Value>)],
) -> Result<(), ValidationError>
    requires { HasEntries value.now.value.value entries.now }
    ensures { (schema : Schema) (variables : List (Node VariableDefinition)) (ty : TypeReference) →
        IsInputObject schema (inner_named_type ty.ty) input_object.now →
        Checks result (All (λ entry. IsInputField input_object.now.value.value entry.0) entries.now)
        (IsDiagnostic (ValueReport schema variables ty value.now)) diagnostics.old diagnostics.new }
{
    for (name, entry) in entries {
        if !input_object.value.fields.contains_key(name) {
            let reported = name.clone()?;
            let definition_name = input_object.value.name.clone()?;
            return diagnostics.push(
                entry.location,
                Details::Diagnostic(DiagnosticData::UndefinedInputValue {
                    value: reported,
                    definition: definition_name,
                    definition_location: input_object.location,
                }),
            );
        }
    }
    Ok(())
}

/// Reports a required field that has no entry, or an entry that is null.
///
/// Specification: 5.6.4 Input Object Required Fields.
pub(super) fn check_required_field(
    diagnostics: &mut DiagnosticList,
    input_object: &Node<InputObjectType>,
    name: &Name,
    field: &Component<InputValueDefinition>,
    value: &Node<Value>,
    entries: &EntriesByName,
) -> Result<(), ValidationError>
    requires object { HasEntries value.now.value.value entries.now }
    requires stands { Contains input_object.now.value.value.fields.entries (name.now, field.now) }
    ensures { (schema : Schema) (variables : List (Node VariableDefinition)) (ty : TypeReference) →
        IsInputObject schema (inner_named_type ty.ty) input_object.now →
        Checks result (IsFieldProvided entries.now (name.now, field.now))
        (IsDiagnostic (ValueReport schema variables ty value.now)) diagnostics.old diagnostics.new }
{
    if is_satisfied(&field.node.value, entries, name) {
        return Ok(());
    }
    let coordinate = TypeAttributeCoordinate::new(
        diagnostics.allocator(),
        &input_object.value.name,
        name,
    )?;
    let reported = name.clone()?;
    let expected_type = field.node.value.ty.clone()?;
    diagnostics.push(
        value.location,
        Details::Diagnostic(DiagnosticData::RequiredField {
            name: reported,
            coordinate,
            expected_type,
            definition_location: field.node.location,
        }),
    )
}

/// Whether the field is not required, or an entry has its name and none that does is null.
fn is_satisfied(field: &InputValueDefinition, entries: &EntriesByName, name: &Name) -> bool
    ensures { IsTrue result ↔
        (IsTrue (is_required field.now) → IsSome (entry_named name.now entries.now) × HasNoNullEntry entries.now name.now) }
{
    if field.is_required() {
        is_given(entries, name)
    } else {
        true
    }
}

/// Whether an entry has this name, and none that does is null.
fn is_given(entries: &EntriesByName, name: &Name) -> bool
    ensures { IsTrue result ↔ (IsSome (entry_named name.now entries.now) × HasNoNullEntry entries.now name.now) }
{
    entries.find(name).is_some() && !entries.has_null(name)
}
