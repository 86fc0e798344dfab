//! The definition of the schema itself, with its extensions.

ghost use Rattle.std.specs.Prelude.{◌≡◌, ◌++◌, IfOk, List, map};
ghost use Rattle.graphql_trees.specs.declared.documents.Definition.{Definition};
ghost use Rattle.graphql_documents.specs.declared.documents.components.ComponentOrigin.TheVariants as origin;
ghost use Rattle.graphql_leaf_building.specs.Directives.{DirectiveSays};
ghost use Rattle.graphql_repetitions.specs.References.{nows};
ghost use Rattle.graphql_schema_checking.specs.Sorting.{AreSorted};
ghost use Rattle.graphql_schema_building.specs.Numbered.{schema_originated};
ghost use Rattle.graphql_schema_building.specs.Parts.{ComponentsSay, listed_by, schema_extension_parts};
ghost use Rattle.graphql_schema_building.specs.SchemaSays.{SchemaDefinitionSays, schema_place};

use crate::numbered::SchemaPart;
use crate::parts::add_directives;
use crate::roots::build_root;
use graphql_documents::documents::{Component, ComponentOrigin, Directive, SchemaDefinition};
use graphql_nodes::{Node, OperationType, ValidationError};
use graphql_schema_checking::definitions::SortedDefinitions;
use graphql_trees::SchemaDefinition as SchemaDefinitionTree;
use std::alloc::Global;

/// The definition of the schema itself: what its definition and its extensions say, or, where it is not defined,
/// the default roots and its extensions. The only error is a failed allocation.
///
/// Specification: 3.3 Schema.
pub fn build_schema_definition(
    alloc: Global,
    sorted: &SortedDefinitions<'_>,
    extensions: &[SchemaPart<'_>],
) -> Result<Node<SchemaDefinition>, ValidationError>
    ensures { (definitions : List Definition) → AreSorted definitions sorted.now → schema_originated extensions.now ≡ schema_extension_parts definitions →
        IfOk result (SchemaDefinitionSays definitions) }
{
    let parts = schema_parts(alloc, &sorted.schemas, extensions)?;
    let directives = schema_directives(alloc, &parts)?;
    let query = build_root(alloc, sorted, &parts, OperationType::Query)?;
    let mutation = build_root(alloc, sorted, &parts, OperationType::Mutation)?;
    let subscription = build_root(alloc, sorted, &parts, OperationType::Subscription)?;
    let definition = SchemaDefinition {
        directives,
        query,
        mutation,
        subscription,
    };
    place_definition(alloc, definition, &sorted.schemas)
}

/// A node at the place of the first of these.
fn place_definition(
    alloc: Global,
    definition: SchemaDefinition,
    schemas: &[&SchemaDefinitionTree],
) -> Result<Node<SchemaDefinition>, ValidationError>
    ensures value { IfOk result (λ node. node.value.value ≡ definition) }
    ensures location { IfOk result (λ node. node.location ≡ schema_place (nows schemas.now)) }
{
    match schemas {
        [] => Node::new(alloc, definition),
        [first, ..] => Node::new_located(alloc, definition, first.span),
    }
}

/// The definitions of the schema, then its extensions.
fn schema_parts<'a>(
    alloc: Global,
    schemas: &[&'a SchemaDefinitionTree],
    extensions: &[SchemaPart<'a>],
) -> Result<Vec<SchemaPart<'a>>, ValidationError>
    ensures { IfOk result (λ parts. schema_originated parts.items ≡
        map (λ d. (origin.Definition, d)) (nows schemas.now) ++ schema_originated extensions.now) }
{
    let mut parts = Vec::new(alloc);
    for definition in schemas {
        parts.push(SchemaPart {
            origin: ComponentOrigin::Definition,
            definition: *definition,
        })?;
    }
    parts.extend_from_slice(extensions)?;
    Ok(parts)
}

/// The directives of the parts of the schema, each with the origin of its part.
fn schema_directives(
    alloc: Global,
    parts: &[SchemaPart<'_>],
) -> Result<Vec<Component<Directive>>, ValidationError>
    ensures { IfOk result (λ directives.
        ComponentsSay DirectiveSays (listed_by (λ part. part.directives) (schema_originated parts.now)) directives.items) }
{
    let mut directives = Vec::new(alloc);
    for part in parts {
        let written = part.definition.directives.as_slice();
        add_directives(&mut directives, alloc, part.origin, written)?;
    }
    Ok(directives)
}
