//! Notes on rules of validation.

ghost use Rattle.std.specs.Prelude.{IfOk};
ghost use Rattle.graphql_notes.specs.Labels.{AreNotes};
ghost use Rattle.graphql_notes.specs.Notes.{details_labels, diagnostic_labels};

use crate::conflicts::notes_of_build_error;
use crate::cycles::{
    application_references, input_field_references, notes_of_cycle, spread_references,
};
use crate::definitions::{
    argument_defined, argument_of_type, directive_defined, field_defined, field_missing,
    implements, input_field_of_type, not_composite, spread_between, type_expected,
    typed_argument_defined, typed_field_defined, variable_defined,
};
use crate::lists::notes_of_extended;
use crate::notes::{Note, no_notes, note_beside};
use graphql_diagnostics::{Details, DiagnosticData};
use graphql_nodes::SourceSpan;
use std::alloc::{AllocError, Global};

/// The notes of a report at this place: the definitions that its message names, the first of a repetition, both sides of a
/// conflict, and each step of a cycle.
///
/// Specification: 3 Type System; 5 Validation.
pub fn notes_of_details(
    alloc: Global,
    at: Option<SourceSpan>,
    details: &Details,
) -> Result<Vec<Note>, AllocError>
    ensures { IfOk result (λ notes. AreNotes at (details_labels details.now) notes.items) }
{
    match details {
        Details::Diagnostic(broken) => notes_of_diagnostic(alloc, at, broken),
        Details::Build(error) => notes_of_build_error(alloc, at, error),
        Details::RecursionLimit(_) => Ok(no_notes(alloc)),
    }
}

/// The notes on a rule of validation.
fn notes_of_diagnostic(
    alloc: Global,
    at: Option<SourceSpan>,
    broken: &DiagnosticData,
) -> Result<Vec<Note>, AllocError>
    ensures { IfOk result (λ notes. AreNotes at (diagnostic_labels broken.now) notes.items) }
{
    match broken {
        DiagnosticData::UniqueVariable {
            original_definition,
            ..
        }
        | DiagnosticData::UniqueArgument {
            original_definition,
            ..
        } => note_beside(
            alloc,
            at,
            *original_definition,
            String::from_str(alloc, "first here")?,
        ),
        DiagnosticData::UniqueInputValue {
            redefined_definition,
            ..
        } => note_beside(
            alloc,
            at,
            *redefined_definition,
            String::from_str(alloc, "again here")?,
        ),
        DiagnosticData::UndefinedArgument {
            coordinate,
            definition_location,
            ..
        } => note_beside(
            alloc,
            at,
            *definition_location,
            format!(in alloc; "`{coordinate}` is defined here")?,
        ),
        DiagnosticData::UndefinedEnumValue {
            definition,
            definition_location,
            ..
        } => note_beside(
            alloc,
            at,
            *definition_location,
            format!(in alloc; "the enum `{definition}` is defined here")?,
        ),
        DiagnosticData::UndefinedInputValue {
            definition,
            definition_location,
            ..
        } => note_beside(
            alloc,
            at,
            *definition_location,
            format!(in alloc; "the input object `{definition}` is defined here")?,
        ),
        DiagnosticData::MissingInterfaceField {
            interface,
            field,
            implements_location,
            field_location,
            ..
        } => field_missing(
            alloc,
            at,
            *implements_location,
            *field_location,
            interface,
            field,
        ),
        DiagnosticData::InvalidImplementationFieldType {
            interface,
            field,
            interface_type,
            interface_field_location,
            ..
        } => typed_field_defined(
            alloc,
            at,
            *interface_field_location,
            interface,
            field,
            interface_type,
        ),
        DiagnosticData::MissingInterfaceFieldArgument {
            interface,
            field,
            argument,
            interface_argument_location,
            ..
        } => argument_defined(
            alloc,
            at,
            *interface_argument_location,
            interface,
            field,
            argument,
        ),
        DiagnosticData::InvalidImplementationFieldArgumentType {
            interface,
            field,
            argument,
            interface_type,
            interface_argument_location,
            ..
        } => typed_argument_defined(
            alloc,
            at,
            *interface_argument_location,
            interface,
            field,
            argument,
            interface_type,
        ),
        DiagnosticData::ExtraRequiredImplementationFieldArgument {
            interface,
            field,
            interface_field_location,
            ..
        } => field_defined(alloc, at, *interface_field_location, interface, field),
        DiagnosticData::RequiredArgument {
            coordinate,
            expected_type,
            definition_location,
            ..
        } => argument_of_type(alloc, at, *definition_location, coordinate, expected_type),
        DiagnosticData::RequiredField {
            coordinate,
            expected_type,
            definition_location,
            ..
        } => input_field_of_type(alloc, at, *definition_location, coordinate, expected_type),
        DiagnosticData::TransitiveImplementedInterfaces {
            via_interface,
            missing_interface,
            transitive_interface_location,
            ..
        } => implements(
            alloc,
            at,
            *transitive_interface_location,
            via_interface,
            missing_interface,
        ),
        DiagnosticData::OutputType {
            describe_type,
            type_location,
            ..
        }
        | DiagnosticData::InputType {
            describe_type,
            type_location,
            ..
        } => note_beside(
            alloc,
            at,
            *type_location,
            format!(in alloc; "this is {describe_type}")?,
        ),
        DiagnosticData::VariableInputType {
            ty,
            describe_type,
            ..
        } => note_beside(
            alloc,
            at,
            ty.location,
            format!(in alloc; "this is {describe_type}")?,
        ),
        DiagnosticData::DuplicateRootOperationType {
            original_operation,
            original_definition,
            ..
        } => note_beside(
            alloc,
            at,
            *original_definition,
            format!(in alloc; "the type of `{original_operation}` here")?,
        ),
        DiagnosticData::UnsupportedLocation {
            name,
            definition_location,
            ..
        } => directive_defined(alloc, at, *definition_location, name),
        DiagnosticData::UnsupportedValueType {
            ty,
            definition_location,
            ..
        } => type_expected(alloc, at, *definition_location, ty),
        DiagnosticData::UniqueDirective {
            original_application,
            ..
        } => note_beside(
            alloc,
            at,
            *original_application,
            String::from_str(alloc, "first applied here")?,
        ),
        DiagnosticData::InvalidFragmentTarget { ty, .. } => {
            not_composite(alloc, at, ty.location(), ty)
        }
        DiagnosticData::InvalidFragmentSpread {
            name,
            type_condition,
            type_name,
            fragment_location,
            type_location,
        } => spread_between(
            alloc,
            at,
            *fragment_location,
            *type_location,
            name,
            type_condition,
            type_name,
        ),
        DiagnosticData::DisallowedVariableUsage {
            variable,
            variable_type,
            variable_location,
            ..
        } => variable_defined(alloc, at, *variable_location, variable, variable_type),
        DiagnosticData::RecursiveDirectiveDefinition { name, trace } => {
            let references = application_references(alloc, trace)?;
            notes_of_cycle(alloc, at, name, &references)
        }
        DiagnosticData::RecursiveInputObjectDefinition { name, trace } => {
            let references = input_field_references(alloc, trace)?;
            notes_of_cycle(alloc, at, name, &references)
        }
        DiagnosticData::RecursiveFragmentDefinition { name, trace, .. } => {
            let references = spread_references(alloc, trace)?;
            notes_of_cycle(alloc, at, name, &references)
        }
        DiagnosticData::EmptyFieldSet {
            type_name,
            type_location,
            extensions_locations,
        }
        | DiagnosticData::EmptyValueSet {
            type_name,
            type_location,
            extensions_locations,
        }
        | DiagnosticData::EmptyMemberSet {
            type_name,
            type_location,
            extensions_locations,
        }
        | DiagnosticData::EmptyInputValueSet {
            type_name,
            type_location,
            extensions_locations,
        } => notes_of_extended(alloc, at, type_name, *type_location, extensions_locations),
        DiagnosticData::UndefinedDefinition { .. }
        | DiagnosticData::UndefinedDirective { .. }
        | DiagnosticData::UndefinedVariable { .. }
        | DiagnosticData::UndefinedFragment { .. }
        | DiagnosticData::QueryRootOperationType
        | DiagnosticData::UnusedVariable { .. }
        | DiagnosticData::RootOperationObjectType { .. }
        | DiagnosticData::UnionMemberObjectType { .. }
        | DiagnosticData::IntCoercionError { .. }
        | DiagnosticData::MissingSubselection { .. }
        | DiagnosticData::UnusedFragment { .. }
        | DiagnosticData::RecursiveInterfaceDefinition { .. }
        | DiagnosticData::DeeplyNestedType { .. }
        | DiagnosticData::RecursionError
        | DiagnosticData::ReservedName { .. } => Ok(no_notes(alloc)),
    }
}
