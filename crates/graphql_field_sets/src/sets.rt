//! Selection sets as field sets.

ghost use Rattle.std.specs.Prelude.{◌≡◌, [], All};
ghost use Rattle.graphql_diagnostics.specs.Reports.{Checks};
ghost use Rattle.graphql_specification.specs.FieldSets.{FieldSetHolds, FieldSetReport};

use graphql_diagnostics::{DiagnosticList, HashSeed};
use graphql_documents::documents::{ExecutableDocument, OperationMap, Schema, SelectionSet};
use graphql_nodes::ValidationError;
use graphql_validation::operations::{OperationValidationContext, validate_selection_set};
use graphql_validation::variable::VariablesByName;
use indexmap::IndexMap;
use std::alloc::Global;

/// Validates a selection set as `validate_field_set` of `graphql_validation` validates the set of a field set, which owns it.
pub(crate) fn validate_set(
    diagnostics: &mut DiagnosticList,
    schema: &Schema,
    set: &SelectionSet,
) -> Result<(), ValidationError>
    ensures { Checks result (FieldSetHolds schema.now set.now) (FieldSetReport schema.now set.now) diagnostics.old diagnostics.new }
{
    let alloc = diagnostics.allocator();
    let hash_seed = diagnostics.hash_seed();
    let document = empty_document(alloc, hash_seed);
    let variables = VariablesByName::new(alloc, hash_seed, &[])?;
    let mut context = OperationValidationContext::new(alloc, hash_seed, Some(schema), variables);
    validate_selection_set(
        diagnostics,
        &document,
        Some((schema, &set.ty)),
        set,
        &mut context,
    )
}

/// A document without operations and fragments.
fn empty_document(alloc: Global, hash_seed: HashSeed) -> ExecutableDocument
    ensures { result.fragments.entries ≡ [] }
{
    ExecutableDocument {
        operations: OperationMap {
            anonymous: None,
            named: IndexMap::with_hasher(alloc, hash_seed),
        },
        fragments: IndexMap::with_hasher(alloc, hash_seed),
    }
}
