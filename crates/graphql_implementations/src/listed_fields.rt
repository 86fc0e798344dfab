//! The fields of the interfaces that a type lists, each validated by one rule.

ghost use Rattle.std.specs.Prelude.{All};
ghost use Rattle.graphql_diagnostics.specs.Diagnostics.{IsDiagnostic};
ghost use Rattle.graphql_diagnostics.specs.Reports.{Checks};
ghost use Rattle.graphql_specification.specs.Implementations.{FieldArgumentsImplement, FieldTypesImplement, HasInterfaceFields, ImplementationFieldArgumentsReport, ImplementationFieldTypesReport, InterfaceFieldsReport};
ghost use Rattle.graphql_implementations.specs.ImplementationSteps.{FieldRuleHolds, FieldRuleReport, HasToImplement, IsImplementing, Lists, OfEachField, OfOwnField, OwnFieldHolds, OwnFieldReport};

use super::arguments::check_field_arguments;
use super::fields::check_is_provided;
use super::implementer::{FieldRule, Implementer, ImplementingField, OwnFieldRule};
use super::types::check_type;
use graphql_diagnostics::DiagnosticList;
use graphql_documents::documents::{Component, ComponentName, FieldDefinition, Schema};
use graphql_hash_seeds::HashSeed;
use graphql_nodes::{Name, SourceSpan, ValidationError};
use indexmap::{IndexMap, IndexSet};

/// Validates that a type with these fields has a field under the name of each field of the interfaces that it
/// lists. The only error is a failed allocation.
///
/// Specification: 3.6 Objects, IsValidImplementation.
pub fn validate_interface_fields(
    diagnostics: &mut DiagnosticList,
    schema: &Schema,
    name: &Name,
    location: Option<SourceSpan>,
    fields: &IndexMap<Name, Component<FieldDefinition>, HashSeed>,
    interfaces: &IndexSet<ComponentName, HashSeed>,
) -> Result<(), ValidationError>
    ensures { Checks result (HasInterfaceFields schema.now fields.now.entries interfaces.now.keys)
        (IsDiagnostic (InterfaceFieldsReport schema.now name.now location fields.now.entries interfaces.now.keys)) diagnostics.old diagnostics.new }
{
    let implementer = Implementer {
        schema,
        name,
        fields,
        interfaces,
    };
    check_listed(diagnostics, &implementer, FieldRule::IsProvided(location))
}

/// Validates that each of these fields has a type that may stand for that of the field of its name in each
/// interface that is listed. The only error is a failed allocation.
///
/// Specification: 3.6 Objects, IsValidImplementationFieldType.
pub fn validate_implementation_field_types(
    diagnostics: &mut DiagnosticList,
    schema: &Schema,
    name: &Name,
    fields: &IndexMap<Name, Component<FieldDefinition>, HashSeed>,
    interfaces: &IndexSet<ComponentName, HashSeed>,
) -> Result<(), ValidationError>
    ensures { Checks result (FieldTypesImplement schema.now fields.now.entries interfaces.now.keys)
        (IsDiagnostic (ImplementationFieldTypesReport schema.now name.now fields.now.entries interfaces.now.keys)) diagnostics.old diagnostics.new }
{
    let implementer = Implementer {
        schema,
        name,
        fields,
        interfaces,
    };
    check_listed(
        diagnostics,
        &implementer,
        FieldRule::Implements(OwnFieldRule::OutputType),
    )
}

/// Validates that each of these fields has the arguments of the field of its name in each interface that is
/// listed, with equal types, and no further required one. For each field of an interface, the arguments that
/// are missing or of another type come first, in the interface's order. The only error is a failed
/// allocation.
///
/// Specification: 3.6 Objects, IsValidImplementation.
pub fn validate_implementation_field_arguments(
    diagnostics: &mut DiagnosticList,
    schema: &Schema,
    name: &Name,
    fields: &IndexMap<Name, Component<FieldDefinition>, HashSeed>,
    interfaces: &IndexSet<ComponentName, HashSeed>,
) -> Result<(), ValidationError>
    ensures { Checks result (FieldArgumentsImplement schema.now fields.now.entries interfaces.now.keys)
        (IsDiagnostic (ImplementationFieldArgumentsReport schema.now name.now fields.now.entries interfaces.now.keys)) diagnostics.old diagnostics.new }
{
    let implementer = Implementer {
        schema,
        name,
        fields,
        interfaces,
    };
    check_listed(
        diagnostics,
        &implementer,
        FieldRule::Implements(OwnFieldRule::Arguments),
    )
}

/// Validates the fields of each interface that is listed, in order.
fn check_listed(
    diagnostics: &mut DiagnosticList,
    implementer: &Implementer,
    rule: FieldRule,
) -> Result<(), ValidationError>
    ensures { Checks result
        (All (λ listed. OfEachField implementer.now.schema.now listed.name (FieldRuleHolds implementer.now rule)) implementer.now.interfaces.now.keys)
        (IsDiagnostic (FieldRuleReport implementer.now rule)) diagnostics.old diagnostics.new }
{
    for listed in implementer.interfaces.as_slice() {
        check_interface(diagnostics, implementer, listed, rule)?;
    }
    Ok(())
}

/// Validates the fields of the interface of a listed name, in order.
fn check_interface(
    diagnostics: &mut DiagnosticList,
    implementer: &Implementer,
    listed: &ComponentName,
    rule: FieldRule,
) -> Result<(), ValidationError>
    requires { Lists implementer.now listed.now }
    ensures { Checks result
        (OfEachField implementer.now.schema.now listed.now.name (FieldRuleHolds implementer.now rule))
        (IsDiagnostic (FieldRuleReport implementer.now rule)) diagnostics.old diagnostics.new }
{
    let Some(interface) = implementer.schema.get_interface(&listed.name) else {
        return Ok(());
    };
    for (name, wanted) in &interface.value.fields {
        check_interface_field(diagnostics, implementer, listed, name, wanted, rule)?;
    }
    Ok(())
}

/// Validates a field of a listed interface.
fn check_interface_field(
    diagnostics: &mut DiagnosticList,
    implementer: &Implementer,
    listed: &ComponentName,
    name: &Name,
    wanted: &Component<FieldDefinition>,
    rule: FieldRule,
) -> Result<(), ValidationError>
    requires { HasToImplement implementer.now listed.now (name.now, wanted.now) }
    ensures { Checks result (FieldRuleHolds implementer.now rule (name.now, wanted.now))
        (IsDiagnostic (FieldRuleReport implementer.now rule)) diagnostics.old diagnostics.new }
{
    match rule {
        FieldRule::IsProvided(location) => {
            check_is_provided(diagnostics, implementer, location, listed, wanted)
        }
        FieldRule::Implements(rule) => {
            check_own_field(diagnostics, implementer, listed, name, wanted, rule)
        }
    }
}

/// Validates the type's own field under the name of an interface's, if there is one.
fn check_own_field(
    diagnostics: &mut DiagnosticList,
    implementer: &Implementer,
    listed: &ComponentName,
    name: &Name,
    wanted: &Component<FieldDefinition>,
    rule: OwnFieldRule,
) -> Result<(), ValidationError>
    requires { HasToImplement implementer.now listed.now (name.now, wanted.now) }
    ensures { Checks result
        (OfOwnField implementer.now.fields.now.entries (OwnFieldHolds implementer.now.schema.now rule) (name.now, wanted.now))
        (IsDiagnostic (OwnFieldReport implementer.now rule)) diagnostics.old diagnostics.new }
{
    match implementer.fields.get(name) {
        Some(own) => {
            let field = ImplementingField {
                implementer,
                listed,
                name,
                wanted,
                own,
            };
            check_implementing_field(diagnostics, &field, rule)
        }
        None => Ok(()),
    }
}

/// Validates a field against that of the interface.
fn check_implementing_field(
    diagnostics: &mut DiagnosticList,
    field: &ImplementingField,
    rule: OwnFieldRule,
) -> Result<(), ValidationError>
    requires { IsImplementing field.now }
    ensures { Checks result (OwnFieldHolds field.now.implementer.now.schema.now rule field.now.wanted.now field.now.own.now)
        (IsDiagnostic (OwnFieldReport field.now.implementer.now rule)) diagnostics.old diagnostics.new }
{
    match rule {
        OwnFieldRule::OutputType => check_type(diagnostics, field),
        OwnFieldRule::Arguments => check_field_arguments(diagnostics, field),
    }
}
