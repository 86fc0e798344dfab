//! The object values in the parts of definitions: in applied directives, arguments, fields, enum values and input fields.

ghost use Rattle.indexmap.specs.IndexMap.{values};
ghost use Rattle.graphql_input_rules.specs.InputFields.{FieldReport, FieldsAreUnique};
ghost use Rattle.graphql_reporting.specs.Lists.{Checks};
ghost use Rattle.graphql_input_rules.specs.SchemaValues.{ArgumentsWrite, EnumValuesWrite, FieldDefinitionWrites, FieldsWrite, InAppliedDirectives, InputFieldsWrite, InputValueWrites};

use crate::reports::InputFieldRepetition;
use crate::values::{check_arguments, check_default_value, check_directives};
use graphql_documents::documents::{
    Component, Directive, EnumValueDefinition, FieldDefinition, InputValueDefinition,
};
use graphql_hash_seeds::HashSeed;
use graphql_nodes::{Name, Node, ValidationError};
use graphql_reporting::ReportList;
use indexmap::IndexMap;

/// Reports the input fields that object values repeat in the arguments of directives, of a definition or of its extensions.
pub(crate) fn check_applied_directives(
    reports: &mut ReportList<InputFieldRepetition>,
    hash_seed: HashSeed,
    directives: &[Component<Directive>],
) -> Result<(), ValidationError>
    ensures { Checks result (FieldsAreUnique (InAppliedDirectives directives.now)) (FieldReport (InAppliedDirectives directives.now)) reports.old reports.new }
{
    for directive in directives {
        check_arguments(reports, hash_seed, &directive.node.value.arguments)?;
    }
    Ok(())
}

/// Reports the input fields that object values repeat in the argument definitions of a field or of a directive definition.
pub(crate) fn check_argument_definitions(
    reports: &mut ReportList<InputFieldRepetition>,
    hash_seed: HashSeed,
    arguments: &[Node<InputValueDefinition>],
) -> Result<(), ValidationError>
    ensures { Checks result (FieldsAreUnique (ArgumentsWrite arguments.now)) (FieldReport (ArgumentsWrite arguments.now)) reports.old reports.new }
{
    for argument in arguments {
        check_input_value(reports, hash_seed, &argument.value)?;
    }
    Ok(())
}

/// Reports the input fields that object values repeat in the field definitions of an input object.
pub(crate) fn check_input_field_definitions(
    reports: &mut ReportList<InputFieldRepetition>,
    hash_seed: HashSeed,
    fields: &IndexMap<Name, Component<InputValueDefinition>, HashSeed>,
) -> Result<(), ValidationError>
    ensures { Checks result (FieldsAreUnique (InputFieldsWrite (values fields.now))) (FieldReport (InputFieldsWrite (values fields.now))) reports.old reports.new }
{
    for field in fields.values() {
        check_input_value(reports, hash_seed, &field.node.value)?;
    }
    Ok(())
}

fn check_input_value(
    reports: &mut ReportList<InputFieldRepetition>,
    hash_seed: HashSeed,
    definition: &InputValueDefinition,
) -> Result<(), ValidationError>
    ensures { Checks result (FieldsAreUnique (InputValueWrites definition.now)) (FieldReport (InputValueWrites definition.now)) reports.old reports.new }
{
    check_directives(reports, hash_seed, &definition.directives)?;
    check_default_value(reports, hash_seed, &definition.default_value)
}

/// Reports the input fields that object values repeat in the field definitions of an object or interface.
pub(crate) fn check_field_definitions(
    reports: &mut ReportList<InputFieldRepetition>,
    hash_seed: HashSeed,
    fields: &IndexMap<Name, Component<FieldDefinition>, HashSeed>,
) -> Result<(), ValidationError>
    ensures { Checks result (FieldsAreUnique (FieldsWrite (values fields.now))) (FieldReport (FieldsWrite (values fields.now))) reports.old reports.new }
{
    for field in fields.values() {
        check_field_definition(reports, hash_seed, &field.node.value)?;
    }
    Ok(())
}

fn check_field_definition(
    reports: &mut ReportList<InputFieldRepetition>,
    hash_seed: HashSeed,
    field: &FieldDefinition,
) -> Result<(), ValidationError>
    ensures { Checks result (FieldsAreUnique (FieldDefinitionWrites field.now)) (FieldReport (FieldDefinitionWrites field.now)) reports.old reports.new }
{
    check_directives(reports, hash_seed, &field.directives)?;
    check_argument_definitions(reports, hash_seed, &field.arguments)
}

/// Reports the input fields that object values repeat in the directives on the values of an enum.
pub(crate) fn check_enum_values(
    reports: &mut ReportList<InputFieldRepetition>,
    hash_seed: HashSeed,
    enum_values: &IndexMap<Name, Component<EnumValueDefinition>, HashSeed>,
) -> Result<(), ValidationError>
    ensures { Checks result (FieldsAreUnique (EnumValuesWrite (values enum_values.now))) (FieldReport (EnumValuesWrite (values enum_values.now))) reports.old reports.new }
{
    for enum_value in enum_values.values() {
        check_directives(reports, hash_seed, &enum_value.node.value.directives)?;
    }
    Ok(())
}
