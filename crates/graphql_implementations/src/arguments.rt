//! That fields have the arguments of the interfaces' fields.

ghost use Rattle.std.specs.Prelude.{◌≡◌, All, Contains, None, Some};
ghost use Rattle.graphql_documents.specs.Definitions.{definition_named};
ghost use Rattle.graphql_diagnostics.specs.Diagnostics.{IsDiagnostic};
ghost use Rattle.graphql_diagnostics.specs.Reports.{Checks};
ghost use Rattle.graphql_documents.specs.TypeReferences.{same_type};
ghost use Rattle.graphql_implementations.specs.ImplementationSteps.{ImplementedArgumentsReport, FieldArgumentsAgree, IsImplementing, IsNoExtra, IsArgumentImplemented, arguments_of};

use super::implementer::ImplementingField;
use graphql_diagnostics::{Details, DiagnosticData, DiagnosticList};
use graphql_documents::documents::{InputValueDefinition, Type};
use graphql_name_tables::ByName;
use graphql_nodes::{Node, ValidationError};

/// Reports the arguments of a field that do not agree with those of an interface's field.
pub(super) fn check_field_arguments(
    diagnostics: &mut DiagnosticList,
    field: &ImplementingField,
) -> Result<(), ValidationError>
    requires { IsImplementing field.now }
    ensures { Checks result (FieldArgumentsAgree field.now.wanted.now field.now.own.now)
        (IsDiagnostic (ImplementedArgumentsReport field.now.implementer.now)) diagnostics.old diagnostics.new }
{
    let alloc = diagnostics.allocator();
    let hash_seed = diagnostics.hash_seed();
    let own = &*field.own.node.value.arguments;
    let wanted = &*field.wanted.node.value.arguments;
    let own_by_name = ByName::new(alloc, hash_seed, own, wanted.len())?;
    let wanted_by_name = ByName::new(alloc, hash_seed, wanted, own.len())?;
    check_provided_arguments(diagnostics, field, &own_by_name)?;
    check_further_arguments(diagnostics, field, &wanted_by_name)
}

/// Reports each argument of the interface's field that is missing or has another type.
fn check_provided_arguments(
    diagnostics: &mut DiagnosticList,
    field: &ImplementingField,
    own: &ByName<Node<InputValueDefinition>>,
) -> Result<(), ValidationError>
    requires implementing { IsImplementing field.now }
    requires own { own.now ≡ arguments_of field.now.own.now }
    ensures { Checks result (All (IsArgumentImplemented (arguments_of field.now.own.now)) (arguments_of field.now.wanted.now))
        (IsDiagnostic (ImplementedArgumentsReport field.now.implementer.now)) diagnostics.old diagnostics.new }
{
    for argument in &field.wanted.node.value.arguments {
        check_provided_argument(diagnostics, field, own, argument)?;
    }
    Ok(())
}

/// Reports an argument of the interface's field that is missing or has another type.
fn check_provided_argument(
    diagnostics: &mut DiagnosticList,
    field: &ImplementingField,
    own: &ByName<Node<InputValueDefinition>>,
    argument: &Node<InputValueDefinition>,
) -> Result<(), ValidationError>
    requires implementing { IsImplementing field.now }
    requires own { own.now ≡ arguments_of field.now.own.now }
    requires stands { Contains (arguments_of field.now.wanted.now) argument.now }
    ensures { Checks result (IsArgumentImplemented (arguments_of field.now.own.now) argument.now)
        (IsDiagnostic (ImplementedArgumentsReport field.now.implementer.now)) diagnostics.old diagnostics.new }
{
    match own.find(&argument.value.name) {
        Some(own) => check_argument_type(diagnostics, field, argument, own),
        None => report_missing_argument(diagnostics, field, argument),
    }
}

/// Reports an argument of the interface's field that is missing, at the implementing field.
fn report_missing_argument(
    diagnostics: &mut DiagnosticList,
    field: &ImplementingField,
    argument: &Node<InputValueDefinition>,
) -> Result<(), ValidationError>
    requires implementing { IsImplementing field.now }
    requires stands { Contains (arguments_of field.now.wanted.now) argument.now }
    requires missing { definition_named argument.now.value.value.name (arguments_of field.now.own.now) ≡ None }
    ensures { Checks result (IsArgumentImplemented (arguments_of field.now.own.now) argument.now)
        (IsDiagnostic (ImplementedArgumentsReport field.now.implementer.now)) diagnostics.old diagnostics.new }
{
    let name = field.implementer.name.clone()?;
    let interface = field.listed.name.clone()?;
    let field_name = field.name.clone()?;
    let argument_name = argument.value.name.clone()?;
    diagnostics.push(
        field.own.node.location,
        Details::Diagnostic(DiagnosticData::MissingInterfaceFieldArgument {
            name,
            interface,
            field: field_name,
            argument: argument_name,
            field_location: field.own.node.location,
            interface_argument_location: argument.location,
        }),
    )
}

/// Reports an argument that has another type than the interface's, at the argument.
fn check_argument_type(
    diagnostics: &mut DiagnosticList,
    field: &ImplementingField,
    wanted: &Node<InputValueDefinition>,
    own: &Node<InputValueDefinition>,
) -> Result<(), ValidationError>
    requires implementing { IsImplementing field.now }
    requires stands { Contains (arguments_of field.now.wanted.now) wanted.now }
    requires provided { definition_named wanted.now.value.value.name (arguments_of field.now.own.now) ≡ Some own.now }
    ensures { Checks result (IsArgumentImplemented (arguments_of field.now.own.now) wanted.now)
        (IsDiagnostic (ImplementedArgumentsReport field.now.implementer.now)) diagnostics.old diagnostics.new }
{
    let wanted_type = &wanted.value.ty;
    let own_type = &own.value.ty;
    if is_same_type(&wanted_type.value, &own_type.value) {
        return Ok(());
    }
    let name = field.implementer.name.clone()?;
    let interface = field.listed.name.clone()?;
    let field_name = field.name.clone()?;
    let argument = wanted.value.name.clone()?;
    let interface_type = wanted_type.clone()?;
    let actual_type = own_type.clone()?;
    diagnostics.push(
        own.location,
        Details::Diagnostic(DiagnosticData::InvalidImplementationFieldArgumentType {
            name,
            interface,
            field: field_name,
            argument,
            interface_type,
            actual_type,
            argument_location: own.location,
            interface_argument_location: wanted.location,
        }),
    )
}

/// Whether the two are one type as written.
fn is_same_type(ty: &Type, other: &Type) -> bool
    ensures { result ≡ same_type ty.now other.now }
{
    ty == other
}

/// Reports each required argument of the field that the interface's does not have.
fn check_further_arguments(
    diagnostics: &mut DiagnosticList,
    field: &ImplementingField,
    wanted: &ByName<Node<InputValueDefinition>>,
) -> Result<(), ValidationError>
    requires implementing { IsImplementing field.now }
    requires wanted { wanted.now ≡ arguments_of field.now.wanted.now }
    ensures { Checks result (All (IsNoExtra (arguments_of field.now.wanted.now)) (arguments_of field.now.own.now))
        (IsDiagnostic (ImplementedArgumentsReport field.now.implementer.now)) diagnostics.old diagnostics.new }
{
    for argument in &field.own.node.value.arguments {
        check_further_argument(diagnostics, field, wanted, argument)?;
    }
    Ok(())
}

/// Reports an argument of the field that is required and that the interface's does not have.
fn check_further_argument(
    diagnostics: &mut DiagnosticList,
    field: &ImplementingField,
    wanted: &ByName<Node<InputValueDefinition>>,
    argument: &Node<InputValueDefinition>,
) -> Result<(), ValidationError>
    requires implementing { IsImplementing field.now }
    requires wanted { wanted.now ≡ arguments_of field.now.wanted.now }
    requires stands { Contains (arguments_of field.now.own.now) argument.now }
    ensures { Checks result (IsNoExtra (arguments_of field.now.wanted.now) argument.now)
        (IsDiagnostic (ImplementedArgumentsReport field.now.implementer.now)) diagnostics.old diagnostics.new }
{
    match wanted.find(&argument.value.name) {
        Some(_) => Ok(()),
        None => check_not_required(diagnostics, field, argument),
    }
}

/// Reports an argument that only the type's field has if it is required, at the argument.
fn check_not_required(
    diagnostics: &mut DiagnosticList,
    field: &ImplementingField,
    argument: &Node<InputValueDefinition>,
) -> Result<(), ValidationError>
    requires implementing { IsImplementing field.now }
    requires stands { Contains (arguments_of field.now.own.now) argument.now }
    requires extra { definition_named argument.now.value.value.name (arguments_of field.now.wanted.now) ≡ None }
    ensures { Checks result (IsNoExtra (arguments_of field.now.wanted.now) argument.now)
        (IsDiagnostic (ImplementedArgumentsReport field.now.implementer.now)) diagnostics.old diagnostics.new }
{
    if !argument.value.is_required() {
        return Ok(());
    }
    let name = field.implementer.name.clone()?;
    let interface = field.listed.name.clone()?;
    let field_name = field.name.clone()?;
    let argument_name = argument.value.name.clone()?;
    diagnostics.push(
        argument.location,
        Details::Diagnostic(DiagnosticData::ExtraRequiredImplementationFieldArgument {
            name,
            interface,
            field: field_name,
            argument: argument_name,
            argument_location: argument.location,
            interface_field_location: field.wanted.node.location,
        }),
    )
}
