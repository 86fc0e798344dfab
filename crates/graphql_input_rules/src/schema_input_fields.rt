//! The input fields of the object values in a schema.

ghost use Rattle.std.specs.Prelude.{◌⊎◌};
ghost use Rattle.indexmap.specs.IndexMap.{values};
ghost use Rattle.graphql_input_rules.specs.InputFields.{FieldReport, FieldsAreUnique};
ghost use Rattle.graphql_reporting.specs.Lists.{Checks};
ghost use Rattle.graphql_input_rules.specs.SchemaValues.{DirectiveDefinitionsWrite, EnumValuesWrite, FieldsWrite, InAppliedDirectives, InputFieldsWrite, SchemaInputFieldReport, SchemaInputFieldsAreUnique, TypeWrites, TypesWrite};

use crate::definitions::{
    check_applied_directives, check_argument_definitions, check_enum_values,
    check_field_definitions, check_input_field_definitions,
};
use crate::reports::InputFieldRepetition;
use graphql_documents::documents::{
    Component, Directive, DirectiveDefinition, EnumType, ExtendedType, FieldDefinition,
    InputObjectType, Schema,
};
use graphql_hash_seeds::HashSeed;
use graphql_nodes::{Name, Node, ValidationError};
use graphql_reporting::ReportList;
use indexmap::IndexMap;

/// Reports each input field that an object value in the schema gives again: in the default values of arguments and input fields
/// and in the arguments of applied directives, at any depth. Nothing is reported exactly where every such value gives each of
/// its fields once.
///
/// The schema definition comes first, then the directive definitions, and then the types, in order. In each come the directives
/// applied to it, those of extensions last, before its parts: arguments, fields, enum values, input fields, and the default
/// value. Meta-fields have neither directives nor default values. Old reports stay. The only error is a failed allocation.
///
/// Specification: 5.6.3 Input Object Field Uniqueness.
pub fn check_schema_input_fields(
    reports: &mut ReportList<InputFieldRepetition>,
    schema: &Schema,
) -> Result<(), ValidationError>
    ensures { Checks result (SchemaInputFieldsAreUnique schema.now) (SchemaInputFieldReport schema.now) reports.old reports.new }
{
    let hash_seed = schema.hash_seed();
    check_applied_directives(
        reports,
        hash_seed,
        &schema.schema_definition.value.directives,
    )?;
    check_directive_definitions(reports, hash_seed, &schema.directive_definitions)?;
    check_types(reports, hash_seed, &schema.types)
}

fn check_directive_definitions(
    reports: &mut ReportList<InputFieldRepetition>,
    hash_seed: HashSeed,
    definitions: &IndexMap<Name, Node<DirectiveDefinition>, HashSeed>,
) -> Result<(), ValidationError>
    ensures { Checks result (FieldsAreUnique (DirectiveDefinitionsWrite (values definitions.now))) (FieldReport (DirectiveDefinitionsWrite (values definitions.now))) reports.old reports.new }
{
    for definition in definitions.values() {
        check_argument_definitions(reports, hash_seed, &definition.value.arguments)?;
    }
    Ok(())
}

fn check_types(
    reports: &mut ReportList<InputFieldRepetition>,
    hash_seed: HashSeed,
    types: &IndexMap<Name, ExtendedType, HashSeed>,
) -> Result<(), ValidationError>
    ensures { Checks result (FieldsAreUnique (TypesWrite (values types.now))) (FieldReport (TypesWrite (values types.now))) reports.old reports.new }
{
    for definition in types.values() {
        check_type(reports, hash_seed, definition)?;
    }
    Ok(())
}

fn check_type(
    reports: &mut ReportList<InputFieldRepetition>,
    hash_seed: HashSeed,
    definition: &ExtendedType,
) -> Result<(), ValidationError>
    ensures { Checks result (FieldsAreUnique (TypeWrites definition.now)) (FieldReport (TypeWrites definition.now)) reports.old reports.new }
{
    match definition {
        ExtendedType::Scalar(scalar) => check_applied_directives(
            reports,
            hash_seed,
            &scalar.value.directives,
        ),
        ExtendedType::Object(object) => {
            check_type_with_fields(
                reports,
                hash_seed,
                &object.value.directives,
                &object.value.fields,
            )
        }
        ExtendedType::Interface(interface) => {
            check_type_with_fields(
                reports,
                hash_seed,
                &interface.value.directives,
                &interface.value.fields,
            )
        }
        ExtendedType::Union(union) => check_applied_directives(
            reports,
            hash_seed,
            &union.value.directives,
        ),
        ExtendedType::Enum(enum_type) => check_enum(reports, hash_seed, &enum_type.value),
        ExtendedType::InputObject(input_object) => {
            check_input_object(reports, hash_seed, &input_object.value)
        }
    }
}

/// Reports the input fields that object values repeat in an object or interface: in the directives on it, then in its fields.
fn check_type_with_fields(
    reports: &mut ReportList<InputFieldRepetition>,
    hash_seed: HashSeed,
    directives: &[Component<Directive>],
    fields: &IndexMap<Name, Component<FieldDefinition>, HashSeed>,
) -> Result<(), ValidationError>
    ensures { Checks result (FieldsAreUnique (λ v. InAppliedDirectives directives.now v ⊎ FieldsWrite (values fields.now) v)) (FieldReport (λ v. InAppliedDirectives directives.now v ⊎ FieldsWrite (values fields.now) v)) reports.old reports.new }
{
    check_applied_directives(reports, hash_seed, directives)?;
    check_field_definitions(reports, hash_seed, fields)
}

fn check_enum(
    reports: &mut ReportList<InputFieldRepetition>,
    hash_seed: HashSeed,
    definition: &EnumType,
) -> Result<(), ValidationError>
    ensures { Checks result (FieldsAreUnique (λ v. InAppliedDirectives definition.now.directives.items v ⊎ EnumValuesWrite (values definition.now.values) v)) (FieldReport (λ v. InAppliedDirectives definition.now.directives.items v ⊎ EnumValuesWrite (values definition.now.values) v)) reports.old reports.new }
{
    check_applied_directives(reports, hash_seed, &definition.directives)?;
    check_enum_values(reports, hash_seed, &definition.values)
}

fn check_input_object(
    reports: &mut ReportList<InputFieldRepetition>,
    hash_seed: HashSeed,
    definition: &InputObjectType,
) -> Result<(), ValidationError>
    ensures { Checks result (FieldsAreUnique (λ v. InAppliedDirectives definition.now.directives.items v ⊎ InputFieldsWrite (values definition.now.fields) v)) (FieldReport (λ v. InAppliedDirectives definition.now.directives.items v ⊎ InputFieldsWrite (values definition.now.fields) v)) reports.old reports.new }
{
    check_applied_directives(reports, hash_seed, &definition.directives)?;
    check_input_field_definitions(reports, hash_seed, &definition.fields)
}
