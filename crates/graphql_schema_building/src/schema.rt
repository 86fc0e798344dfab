//! Schemas, of the trees of texts.

ghost use Rattle.std.specs.Prelude.{IfOk};
ghost use Rattle.graphql_schema_checking.specs.SchemaBuilds.{SchemaBuilds};
ghost use Rattle.graphql_schema_building.specs.SchemaSays.{SchemaSays};

use crate::directives::build_directive_definitions;
use crate::named_types::build_types;
use crate::numbered::NumberedExtensions;
use crate::redefined::directives_of_schema;
use crate::schema_definitions::build_schema_definition;
use graphql_documents::documents::{MetaFields, Schema};
use graphql_hash_seeds::HashSeed;
use graphql_nodes::ValidationError;
use graphql_schema_checking::definitions::SortedDefinitions;
use graphql_trees::Document;
use std::alloc::Global;

/// The schema that texts say, from their trees: those of the definitions that every schema has, then those of the
/// texts. They make a schema where `check_schema` reports nothing. Fails where an allocation fails, and where there are
/// 2^32 definitions or more, among which extensions have no numbers.
///
/// Specification: 3 Type System.
pub fn build_schema(
    alloc: Global,
    hash_seed: HashSeed,
    trees: &[Document],
) -> Result<Schema, ValidationError>
    requires { SchemaBuilds trees.now }
    ensures { IfOk result (λ schema. SchemaSays trees.now schema) }
{
    let sorted = SortedDefinitions::of(alloc, trees)?;
    let extensions = NumberedExtensions::of(alloc, trees)?;
    let schema_definition = build_schema_definition(alloc, &sorted, &extensions.schemas)?;
    let directives = directives_of_schema(alloc, hash_seed, &sorted.directives)?;
    let directive_definitions = build_directive_definitions(alloc, hash_seed, &directives)?;
    let types = build_types(alloc, hash_seed, &sorted.types, &extensions.types)?;
    let meta_fields = MetaFields::new(alloc)?;
    Ok(Schema {
        schema_definition,
        directive_definitions,
        types,
        meta_fields,
    })
}
