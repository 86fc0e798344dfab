//! Schemas of subgraphs, from their texts.

ghost use Rattle.std.specs.Prelude.{IfOk};
ghost use Rattle.graphql_frontend.specs.Schemas.{AcceptsOnlyUsableSchemas, IsUsable};

use crate::checks::check_field_sets;
use graphql_documents::documents::Schema;
use graphql_frontend::texts::{Parsed, parse_texts};
use graphql_frontend::{SchemaReading, SourceText, read_schema};
use graphql_nodes::ValidationError;
use graphql_parser::Bounds;
use std::alloc::Global;

/// Reads the schema of a subgraph from its texts, as `read_schema` does, of which the first is `BUILT_IN_DEFINITIONS`; a schema that holds is accepted if
/// its field sets hold. The only error is a failed allocation.
pub fn read_subgraph(
    alloc: Global,
    sources: &[SourceText<'_>],
    bounds: Bounds,
) -> Result<SchemaReading, ValidationError>
    ensures { IfOk result AcceptsOnlyUsableSchemas }
{
    match read_schema(alloc, sources, bounds)? {
        SchemaReading::Accepted(schema) => with_field_sets(alloc, schema, sources, bounds),
        reading => Ok(reading),
    }
}

/// The schema of these texts, if its field sets hold.
fn with_field_sets(
    alloc: Global,
    schema: Schema,
    sources: &[SourceText<'_>],
    bounds: Bounds,
) -> Result<SchemaReading, ValidationError>
    requires { IsUsable schema }
    ensures { IfOk result AcceptsOnlyUsableSchemas }
{
    let Parsed { documents, errors } = parse_texts(alloc, sources, bounds)?;
    drop(errors);
    match check_field_sets(alloc, &schema, sources, &documents, bounds)? {
        None => Ok(SchemaReading::Accepted(schema)),
        Some(reports) => Ok(SchemaReading::Rejected(reports)),
    }
}
