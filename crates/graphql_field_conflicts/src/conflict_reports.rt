//! The diagnostics of two fields that were put together and do not agree. Each is at the later field.

ghost use Rattle.std.specs.Option.{option_copied};
ghost use Rattle.std.specs.Prelude.{◌≡◌, IfOk};
ghost use Rattle.graphql_specification.specs.Merging.{field_pass, shape_pass, SameResponseShape, type_of, DisagreeFirstOn};
ghost use Rattle.graphql_documents.specs.Directives.{argument_named};
ghost use Rattle.graphql_nodes.specs.Names.{DifferentNames, SameName};
ghost use Rattle.graphql_documents.specs.TypeReferences.{as_written};
ghost use Rattle.graphql_documents.specs.declared.documents.schemas.Schema.{Schema};
ghost use Rattle.graphql_field_conflicts.specs.Comparisons.{Conflicts};
ghost use Rattle.graphql_field_conflicts.specs.Conflicts.{ConflictEntryReport, IsValueOf};
ghost use Rattle.graphql_field_conflicts.specs.FieldSelections.{selection_of};

use super::comparisons::FieldConflict;
use super::field_selections::FieldSelection;
use graphql_coordinates::{FieldArgumentCoordinate, TypeAttributeCoordinate};
use graphql_diagnostics::{BuildError, Details, DiagnosticList};
use graphql_documents::documents::{Argument, Type, Value};
use graphql_nodes::{Name, Node, ValidationError};
use std::alloc::Global;

/// Reports that the types of two fields have different shapes, which they have. The only error is a failed allocation; the list
/// is then as it was.
///
/// Specification: 5.3.2 Field Selection Merging, SameResponseShape.
pub fn report_types(
    diagnostics: &mut DiagnosticList,
    first: FieldSelection,
    field: FieldSelection,
) -> Result<(), ValidationError>
    requires { (schema : Schema) × ¬ SameResponseShape schema (type_of (selection_of first)) (type_of (selection_of field)) }
    ensures { (schema : Schema) → ¬ SameResponseShape schema (type_of (selection_of first.entry)) (type_of (selection_of field.entry)) →
        ConflictEntryReport result schema shape_pass (selection_of first.entry) (selection_of field.entry) diagnostics.old diagnostics.new }
{
    let alloc = diagnostics.allocator();
    let (original_coordinate, original_type) = typed_coordinate(alloc, first)?;
    let (conflicting_coordinate, conflicting_type) = typed_coordinate(alloc, field)?;
    let alias = first.field.value.response_key().clone()?;
    diagnostics.push(
        field.field.location,
        Details::Build(BuildError::ConflictingFieldType {
            alias,
            original_location: first.field.location,
            original_coordinate,
            original_type,
            conflicting_location: field.field.location,
            conflicting_coordinate,
            conflicting_type,
        }),
    )
}

/// The coordinate of a field, and its type as it is written.
fn typed_coordinate(
    alloc: Global,
    field: FieldSelection,
) -> Result<(TypeAttributeCoordinate, Type), ValidationError>
    ensures coordinate { IfOk result (λ typed. typed.0 ≡ record { ty = field.entry.parent_type.now; attribute = field.entry.field.now.value.value.name }) }
    ensures written { IfOk result (λ typed. as_written typed.1 ≡ as_written field.entry.field.now.value.value.definition.value.value.ty) }
{
    let ty = field.field.value.definition.value.ty.clone()?;
    let coordinate = field.coordinate(alloc)?;
    Ok((coordinate, ty))
}

/// Reports what two fields disagree on: their names, or an argument. The conflict is one of theirs. The only error is a failed
/// allocation; the list is then as it was.
///
/// Specification: 5.3.2 Field Selection Merging, FieldsInSetCanMerge.
pub fn report_conflict(
    diagnostics: &mut DiagnosticList,
    first: FieldSelection,
    field: FieldSelection,
    conflict: FieldConflict,
) -> Result<(), ValidationError>
    requires { Conflicts first.field.now.value.value field.field.now.value.value conflict }
    ensures { (schema : Schema) →
        ConflictEntryReport result schema field_pass (selection_of first.entry) (selection_of field.entry) diagnostics.old diagnostics.new }
{
    match conflict {
        FieldConflict::Names => report_names(diagnostics, first, field),
        FieldConflict::FirstAlone(original) => {
            let name = &original.value.name;
            report_argument(diagnostics, first, field, name, Some(original), None)
        }
        FieldConflict::SecondAlone(conflicting) => {
            let name = &conflicting.value.name;
            report_argument(diagnostics, first, field, name, None, Some(conflicting))
        }
        FieldConflict::Both(original, conflicting) => {
            let name = &original.value.name;
            report_argument(
                diagnostics,
                first,
                field,
                name,
                Some(original),
                Some(conflicting),
            )
        }
    }
}

/// Reports that two fields have different names.
fn report_names(
    diagnostics: &mut DiagnosticList,
    first: FieldSelection,
    field: FieldSelection,
) -> Result<(), ValidationError>
    ensures { (schema : Schema) → DifferentNames first.entry.field.now.value.value.name field.entry.field.now.value.value.name →
        ConflictEntryReport result schema field_pass (selection_of first.entry) (selection_of field.entry) diagnostics.old diagnostics.new }
{
    let alias = first.field.value.response_key().clone()?;
    let alloc = diagnostics.allocator();
    let original_selection = first.coordinate(alloc)?;
    let conflicting_selection = field.coordinate(alloc)?;
    diagnostics.push(
        field.field.location,
        Details::Build(BuildError::ConflictingFieldName {
            alias,
            original_location: first.field.location,
            original_selection,
            conflicting_location: field.field.location,
            conflicting_selection,
        }),
    )
}

/// Reports that two fields of one name do not have the same value for the argument with this name, the first such
/// one. What either has for it is known.
fn report_argument(
    diagnostics: &mut DiagnosticList,
    first: FieldSelection,
    field: FieldSelection,
    name: &Name,
    original: Option<&Node<Argument>>,
    conflicting: Option<&Node<Argument>>,
) -> Result<(), ValidationError>
    ensures { (schema : Schema) →
        SameName first.entry.field.now.value.value.name field.entry.field.now.value.value.name →
        DisagreeFirstOn name.now first.entry.field.now.value.value field.entry.field.now.value.value →
        argument_named name.now first.entry.field.now.value.value.arguments.items ≡ option_copied original.entry →
        argument_named name.now field.entry.field.now.value.value.arguments.items ≡ option_copied conflicting.entry →
        ConflictEntryReport result schema field_pass (selection_of first.entry) (selection_of field.entry) diagnostics.old diagnostics.new }
{
    let alloc = diagnostics.allocator();
    let original_coordinate = argument_coordinate(alloc, first, name)?;
    let original_value = value_of_argument(original)?;
    let conflicting_coordinate = argument_coordinate(alloc, field, name)?;
    let conflicting_value = value_of_argument(conflicting)?;
    let alias = first.field.value.name.clone()?;
    diagnostics.push(
        field.field.location,
        Details::Build(BuildError::ConflictingFieldArgument {
            alias,
            original_location: first.field.location,
            original_coordinate,
            original_value,
            conflicting_location: field.field.location,
            conflicting_coordinate,
            conflicting_value,
        }),
    )
}

/// The coordinate of an argument of a field, on the type of its set.
fn argument_coordinate(
    alloc: Global,
    field: FieldSelection,
    argument: &Name,
) -> Result<FieldArgumentCoordinate, ValidationError>
    ensures { IfOk result (λ c. c ≡ record { ty = field.entry.parent_type.now; field = field.entry.field.now.value.value.name; argument = argument.now }) }
{
    FieldArgumentCoordinate::new(alloc, field.parent_type, &field.field.value.name, argument)
}

/// The value of an argument, shared with it, if there is one.
fn value_of_argument(
    argument: Option<&Node<Argument>>,
) -> Result<Option<Node<Value>>, ValidationError>
    ensures { IfOk result (λ value. IsValueOf (option_copied argument.entry) value) }
{
    match argument {
        Some(argument) => Ok(Some(argument.value.value.clone()?)),
        None => Ok(None),
    }
}
