//! The definition of the schema itself, and the roots of operations.

ghost use Rattle.std.specs.Prelude.{◌≡◌, ◌∷◌, ◌++◌, [], IfOk, List, OnOk, Some, find, flat_map, map, is_some};
ghost use Rattle.std.specs.Option.{option_copied};
ghost use Rattle.graphql_trees.specs.declared.documents.Definition.{Definition};
ghost use Rattle.graphql_schema_checking.specs.SchemaBuilds.{default_root_name, default_roots, has_schema, is_default_root, named_roots, roots_of_kind, same_operation};
ghost use Rattle.graphql_schema_checking.specs.SchemaReports.{root_places};
ghost use Rattle.graphql_repetitions.specs.References.{nows};
ghost use Rattle.graphql_schema_checking.specs.Sorting.{AreSorted};

use crate::definitions::SortedDefinitions;
use crate::kinds::type_name;
use graphql_nodes::{OperationType, SourceSpan, ValidationError};
use graphql_trees::{RootOperationTypeDefinition, SchemaDefinition, TypeDefinition};
use std::alloc::Global;

/// Where the definitions of the schema are. The only error is a failed allocation.
pub(crate) fn schema_places(
    alloc: Global,
    schemas: &[&SchemaDefinition],
) -> Result<Vec<Option<SourceSpan>>, ValidationError>
    ensures { IfOk result (λ places. places.items ≡ map (λ d. Some d.span) (nows schemas.now)) }
{
    let mut places = Vec::new(alloc);
    for schema in schemas {
        places.push(Some(schema.span))?;
    }
    Ok(places)
}

/// Where the root types of a kind of operations are named: by the definition of the schema, or by default,
/// and by its extensions. The only error is a failed allocation.
///
/// Specification: 3.3.1 Root Operation Types.
pub(crate) fn root_places(
    alloc: Global,
    sorted: &SortedDefinitions<'_>,
    operation_type: OperationType,
) -> Result<Vec<Option<SourceSpan>>, ValidationError>
    ensures { (definitions : List Definition) → AreSorted definitions sorted.now →
        IfOk result (λ places. places.items ≡ root_places definitions operation_type) }
{
    let mut places = Vec::new(alloc);
    if sorted.schemas.is_empty() {
        add_default_root(&mut places, &sorted.types, operation_type)?;
    } else {
        add_all_roots(&mut places, &sorted.schemas, operation_type)?;
    }
    add_all_roots(&mut places, &sorted.schema_extensions, operation_type)?;
    Ok(places)
}

fn add_default_root(
    places: &mut Vec<Option<SourceSpan>>,
    types: &[&TypeDefinition],
    operation_type: OperationType,
) -> Result<(), ValidationError>
    ensures { OnOk result (places.new.items ≡ places.old.items ++
        map (λ name. name.location) (default_roots operation_type (nows types.now))) }
{
    if let Some(definition) = default_root(types, operation_type) {
        places.push(type_name(definition).location())?;
    }
    Ok(())
}

fn add_all_roots(
    places: &mut Vec<Option<SourceSpan>>,
    schemas: &[&SchemaDefinition],
    operation_type: OperationType,
) -> Result<(), ValidationError>
    ensures { OnOk result (places.new.items ≡ places.old.items ++
        map (λ name. name.location) (named_roots operation_type (nows schemas.now))) }
{
    for schema in schemas {
        add_roots(places, schema.root_operations.as_slice(), operation_type)?;
    }
    Ok(())
}

fn add_roots(
    places: &mut Vec<Option<SourceSpan>>,
    roots: &[RootOperationTypeDefinition],
    operation_type: OperationType,
) -> Result<(), ValidationError>
    ensures { OnOk result (places.new.items ≡ places.old.items ++
        map (λ name. name.location) (roots_of_kind operation_type roots.now)) }
{
    for root in roots {
        if is_same_operation(root.operation_type, operation_type) {
            places.push(root.name.location())?;
        }
    }
    Ok(())
}

/// Whether the two are one kind of operations.
///
/// Specification: 2.3 Operations.
pub fn is_same_operation(a: OperationType, b: OperationType) -> bool
    ensures { result ≡ same_operation a b }
{
    matches!(
        (a, b),
        (OperationType::Query, OperationType::Query)
            | (OperationType::Mutation, OperationType::Mutation)
            | (OperationType::Subscription, OperationType::Subscription)
    )
}

/// Whether there is a schema to extend: it is defined, or a type has the default name of a root.
///
/// Specification: 3.3.2 Schema Extension.
pub(crate) fn has_schema(sorted: &SortedDefinitions<'_>) -> bool
    ensures { (definitions : List Definition) → AreSorted definitions sorted.now → result ≡ has_schema definitions }
{
    !sorted.schemas.is_empty()
        || default_root(&sorted.types, OperationType::Query).is_some()
        || default_root(&sorted.types, OperationType::Mutation).is_some()
        || default_root(&sorted.types, OperationType::Subscription).is_some()
}

/// The type of the default name of the root of a kind of operations. If it is no object type, that breaks a rule of
/// schemas.
///
/// Specification: 3.3.1 Root Operation Types, Default Root Operation Type Names.
pub fn default_root<'a>(
    types: &[&'a TypeDefinition],
    operation_type: OperationType,
) -> Option<&'a TypeDefinition>
    ensures { option_copied result ≡ find (is_default_root operation_type) (nows types.now) }
{
    for definition in types {
        if is_default_root(*definition, operation_type) {
            return Some(*definition);
        }
    }
    None
}

fn is_default_root(definition: &TypeDefinition, operation_type: OperationType) -> bool
    ensures { result ≡ is_default_root operation_type definition.now }
{
    type_name(definition).as_str() == default_root_name(operation_type)
}

fn default_root_name(operation_type: OperationType) -> &'static str
    ensures { result.now ≡ default_root_name operation_type }
{
    match operation_type {
        OperationType::Query => "Query",
        OperationType::Mutation => "Mutation",
        OperationType::Subscription => "Subscription",
    }
}
