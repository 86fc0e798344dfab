ghost use Rattle.std.specs.Prelude.{◌≡◌, ◌↔◌, Some, false, [], IfOk, IsTrue, MatchOption};
ghost use Rattle.std.specs.Option.{option_copied};
ghost use Rattle.graphql_diagnostics.specs.Diagnostics.{IsDiagnostic};
ghost use Rattle.graphql_specification.specs.Directives.{ApplicationsHold};
ghost use Rattle.graphql_specification.specs.Fields.{MissingSelectionReport, FieldHolds, HasNeededSelection, FieldReport};
ghost use Rattle.graphql_diagnostics.specs.Reports.{Checks};
ghost use Rattle.graphql_documents.specs.Selections.{definition_at, selections_of};
ghost use Rattle.graphql_operations.specs.Contexts.{IsAgainst, parent_of, schema_of, variables_of};
ghost use Rattle.graphql_rules.specs.SelectionSteps.{DefinedFieldHolds, FieldArgumentsHold, IsParentOfSubselections, IsUnselected};

use graphql_coordinates::TypeAttributeCoordinate;
use graphql_diagnostics::{Details, DiagnosticData, DiagnosticList};
use graphql_documents::documents::{Component, ExtendedType, Field, FieldDefinition, Schema, Type};
use graphql_nodes::{DirectiveLocation, NamedType, Node, ValidationError};
use graphql_operations::OperationValidationContext;
use graphql_values::argument::{
    GivenArguments, validate_arguments, validate_given_arguments, validate_required_arguments,
};
use graphql_values::directive::check_each_directive;

/// Where the selections of a field's set are: on a type, if that is known, or nowhere.
pub(super) enum SubselectionParent<'a> {
    Nowhere,
    On(Option<(&'a Schema, &'a NamedType)>),
}

/// Validates a field, what is below it apart, and answers where that is.
pub(super) fn check_field<'a>(
    diagnostics: &mut DiagnosticList,
    against_type: Option<(&'a Schema, &NamedType)>,
    field: &Node<Field>,
    context: &OperationValidationContext<'a>,
) -> Result<SubselectionParent<'a>, ValidationError>
    requires { IsAgainst (schema_of context.now) against_type }
    ensures checks { Checks result (FieldHolds (schema_of context.now) (variables_of context.now) (parent_of against_type.entry) field.now.value.value)
        (IsDiagnostic (FieldReport (schema_of context.now) (variables_of context.now) (parent_of against_type.entry) field.now))
        diagnostics.old diagnostics.new }
    ensures below { IfOk result (IsParentOfSubselections (schema_of context.now) (parent_of against_type.entry) field.now.value.value) }
{
    check_each_directive(
        diagnostics,
        context.schema,
        &field.value.directives,
        DirectiveLocation::Field,
        &context.variables,
    )?;
    validate_arguments(diagnostics, &field.value.arguments)?;
    let Some((schema, parent)) = against_type else {
        return Ok(SubselectionParent::On(None));
    };
    let Ok(definition) = schema.type_field(parent, &field.value.name) else {
        return Ok(SubselectionParent::Nowhere);
    };
    check_defined_field(diagnostics, schema, parent, field, definition, context)
}

/// Validates what the definition of a field requires of it.
fn check_defined_field<'a>(
    diagnostics: &mut DiagnosticList,
    schema: &'a Schema,
    parent: &NamedType,
    field: &Node<Field>,
    definition: &'a Component<FieldDefinition>,
    context: &OperationValidationContext<'a>,
) -> Result<SubselectionParent<'a>, ValidationError>
    requires found { definition_at (Some schema.now) (Some parent.now) field.now.value.value.name ≡ Some definition.now }
    ensures checks { Checks result (DefinedFieldHolds schema.now (variables_of context.now) field.now.value.value definition.now.node.value.value)
        (IsDiagnostic (FieldReport (Some schema.now) (variables_of context.now) (Some parent.now) field.now))
        diagnostics.old diagnostics.new }
    ensures below { IfOk result (IsParentOfSubselections (Some schema.now) (Some parent.now) field.now.value.value) }
{
    check_field_arguments(diagnostics, schema, parent, field, definition, context)?;
    let ty = &definition.node.value.ty;
    if validate_leaf_field_selection(diagnostics, schema, parent, field, ty)? {
        Ok(SubselectionParent::On(Some((schema, ty.inner_named_type()))))
    } else {
        Ok(SubselectionParent::Nowhere)
    }
}

/// Reports what the arguments of a field break, by its definition.
fn check_field_arguments(
    diagnostics: &mut DiagnosticList,
    schema: &Schema,
    parent: &NamedType,
    field: &Node<Field>,
    definition: &Component<FieldDefinition>,
    context: &OperationValidationContext,
) -> Result<(), ValidationError>
    requires found { definition_at (Some schema.now) (Some parent.now) field.now.value.value.name ≡ Some definition.now }
    ensures { Checks result (FieldArgumentsHold schema.now (variables_of context.now) field.now.value.value definition.now.node.value.value)
        (IsDiagnostic (FieldReport (Some schema.now) (variables_of context.now) (Some parent.now) field.now))
        diagnostics.old diagnostics.new }
{
    if field.value.arguments.is_empty() && definition.node.value.arguments.is_empty() {
        return Ok(());
    }
    let arguments = GivenArguments::of_field(parent, field, definition);
    validate_given_arguments(diagnostics, schema, &arguments, &context.variables)?;
    validate_required_arguments(diagnostics, &arguments)
}

/// Reports a field of a composite type that selects nothing, at the field, and answers whether none was
/// reported. A type that is not defined needs no selection. The only error is a failed allocation.
///
/// Specification: 5.3.3 Leaf Field Selections.
pub fn validate_leaf_field_selection(
    diagnostics: &mut DiagnosticList,
    schema: &Schema,
    parent_type: &NamedType,
    field: &Node<Field>,
    field_type: &Type,
) -> Result<bool, ValidationError>
    ensures checks { Checks result (HasNeededSelection (Some schema.now) field.now.value.value field_type.now)
        (IsDiagnostic (MissingSelectionReport (Some schema.now) parent_type.now field.now field_type.now))
        diagnostics.old diagnostics.new }
    ensures answer { IfOk result (λ silent. IsTrue silent ↔ HasNeededSelection (Some schema.now) field.now.value.value field_type.now) }

    // A field that was reported selects nothing.
    ensures empty { IfOk result (λ silent. silent ≡ false → selections_of field.now.value.value.selection_set ≡ []) }
{
    let Some(type_definition) = type_without_selection(schema, &field.value, field_type) else {
        return Ok(true);
    };
    let coordinate = TypeAttributeCoordinate::new(
        diagnostics.allocator(),
        parent_type,
        &field.value.name,
    )?;
    let output_type = field_type.inner_named_type().clone()?;
    diagnostics.push(
        field.location,
        Details::Diagnostic(DiagnosticData::MissingSubselection {
            coordinate,
            output_type,
            describe_type: type_definition.describe(),
        }),
    )?;
    Ok(false)
}

/// The composite type of a field that selects nothing, if it is such a field.
fn type_without_selection<'a>(
    schema: &'a Schema,
    field: &Field,
    field_type: &Type,
) -> Option<&'a ExtendedType>
    ensures { MatchOption result
        (HasNeededSelection (Some schema.now) field.now field_type.now)
        (λ ty. IsUnselected (Some schema.now) field.now field_type.now ty.now) }
{
    if !field.selection_set.selections.is_empty() {
        return None;
    }
    let type_definition = schema.types.get(field_type.inner_named_type())?;
    if type_definition.is_composite() {
        Some(type_definition)
    } else {
        None
    }
}
