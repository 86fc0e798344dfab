//! Names of a schema that may have been meant.

ghost use Rattle.std.specs.Prelude.{IfOk};
ghost use Rattle.graphql_suggestions.specs.Defined.{argument_names, directive_argument_names, directive_names, enum_value_names, field_names, input_field_names, keys, names_of_arguments, type_names};
ghost use Rattle.graphql_suggestions.specs.Suggestions.{AreSuggested};

use crate::alike::{Suggestion, add_if_alike, most_alike};
use graphql_documents::documents::{ExtendedType, InputValueDefinition, Schema};
use graphql_hash_seeds::HashSeed;
use graphql_nodes::{Name, Node, ValidationError};
use indexmap::IndexMap;
use std::alloc::Global;

/// Fields of an object or interface that are like one that it does not have: the most alike first, at most five. The only error is
/// a failed allocation.
///
/// Specification: 5.3.1 Field Selections.
pub fn like_field(
    alloc: Global,
    schema: &Schema,
    type_name: &Name,
    wanted: &Name,
) -> Result<Vec<Suggestion>, ValidationError>
    ensures { IfOk result (λ found. AreSuggested (field_names schema.now type_name.now) wanted.now found.items) }
{
    match schema.types.get(type_name) {
        Some(ExtendedType::Object(definition)) => like_key(alloc, &definition.value.fields, wanted),
        Some(ExtendedType::Interface(definition)) => {
            like_key(alloc, &definition.value.fields, wanted)
        }
        _ => Ok(Vec::new(alloc)),
    }
}

/// Types that are like one that is not defined: the most alike first, at most five. The only error is a failed allocation.
///
/// Specification: 3.4 Types.
pub fn like_type(
    alloc: Global,
    schema: &Schema,
    wanted: &Name,
) -> Result<Vec<Suggestion>, ValidationError>
    ensures { IfOk result (λ found. AreSuggested (type_names schema.now) wanted.now found.items) }
{
    like_key(alloc, &schema.types, wanted)
}

/// Directives that are like one that is not defined: the most alike first, at most five. The only error is a failed allocation.
///
/// Specification: 5.7.1 Directives Are Defined.
pub fn like_directive(
    alloc: Global,
    schema: &Schema,
    wanted: &Name,
) -> Result<Vec<Suggestion>, ValidationError>
    ensures { IfOk result (λ found. AreSuggested (directive_names schema.now) wanted.now found.items) }
{
    like_key(alloc, &schema.directive_definitions, wanted)
}

/// Values of an enum that are like one that it does not have: the most alike first, at most five. The only error is a failed
/// allocation.
///
/// Specification: 5.6.1 Values of Correct Type.
pub fn like_enum_value(
    alloc: Global,
    schema: &Schema,
    type_name: &Name,
    wanted: &Name,
) -> Result<Vec<Suggestion>, ValidationError>
    ensures { IfOk result (λ found. AreSuggested (enum_value_names schema.now type_name.now) wanted.now found.items) }
{
    match schema.types.get(type_name) {
        Some(ExtendedType::Enum(definition)) => like_key(alloc, &definition.value.values, wanted),
        _ => Ok(Vec::new(alloc)),
    }
}

/// Fields of an input object that are like one that it does not have: the most alike first, at most five. The only error is a failed
/// allocation.
///
/// Specification: 5.6.2 Input Object Field Names.
pub fn like_input_field(
    alloc: Global,
    schema: &Schema,
    type_name: &Name,
    wanted: &Name,
) -> Result<Vec<Suggestion>, ValidationError>
    ensures { IfOk result (λ found. AreSuggested (input_field_names schema.now type_name.now) wanted.now found.items) }
{
    match schema.types.get(type_name) {
        Some(ExtendedType::InputObject(definition)) => {
            like_key(alloc, &definition.value.fields, wanted)
        }
        _ => Ok(Vec::new(alloc)),
    }
}

/// Arguments of a field that are like one that it does not have: the most alike first, at most five. The only error is a failed
/// allocation.
///
/// Specification: 5.4.1 Argument Names.
pub fn like_argument(
    alloc: Global,
    schema: &Schema,
    type_name: &Name,
    field: &Name,
    wanted: &Name,
) -> Result<Vec<Suggestion>, ValidationError>
    ensures { IfOk result (λ found. AreSuggested (argument_names schema.now type_name.now field.now) wanted.now found.items) }
{
    match schema.type_field(type_name, field) {
        Ok(definition) => like_argument_of(alloc, &definition.node.value.arguments, wanted),
        Err(_) => Ok(Vec::new(alloc)),
    }
}

/// Arguments of a directive that are like one that it does not have: the most alike first, at most five. The only error is a failed
/// allocation.
///
/// Specification: 5.4.1 Argument Names.
pub fn like_directive_argument(
    alloc: Global,
    schema: &Schema,
    directive: &Name,
    wanted: &Name,
) -> Result<Vec<Suggestion>, ValidationError>
    ensures { IfOk result (λ found. AreSuggested (directive_argument_names schema.now directive.now) wanted.now found.items) }
{
    match schema.directive_definitions.get(directive) {
        Some(definition) => like_argument_of(alloc, &definition.value.arguments, wanted),
        None => Ok(Vec::new(alloc)),
    }
}

/// Keys of the map that are like the wanted name.
fn like_key<T>(
    alloc: Global,
    definitions: &IndexMap<Name, T, HashSeed>,
    wanted: &Name,
) -> Result<Vec<Suggestion>, ValidationError>
    ensures { IfOk result (λ found. AreSuggested (keys definitions.now.entries) wanted.now found.items) }
{
    let mut found = Vec::new(alloc);
    for (name, _) in definitions {
        add_if_alike(alloc, wanted, name, &mut found)?;
    }
    most_alike(found)
}

/// Arguments among these that are like the wanted one.
fn like_argument_of(
    alloc: Global,
    arguments: &[Node<InputValueDefinition>],
    wanted: &Name,
) -> Result<Vec<Suggestion>, ValidationError>
    ensures { IfOk result (λ found. AreSuggested (names_of_arguments arguments.now) wanted.now found.items) }
{
    let mut found = Vec::new(alloc);
    for argument in arguments {
        add_if_alike(alloc, wanted, &argument.value.name, &mut found)?;
    }
    most_alike(found)
}
