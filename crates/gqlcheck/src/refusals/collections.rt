//! What the operations of an example answer, collected twice.
use crate::faults::Fault;
use graphql_documents::documents::{ExecutableDocument, Schema, SelectionSet};
use graphql_validation::collect::collect_fields;
use std::alloc::Global;

/// Collects what the root of each operation answers, and the same once more, and compares the two. Where memory was
/// refused, it answers so.
pub fn judge_collections(
    alloc: Global,
    id: &'static str,
    schema: &Schema,
    document: &ExecutableDocument,
) -> Result<(), Fault> {
    if let Some(operation) = &document.operations.anonymous {
        judge_collection(alloc, id, schema, document, &operation.value.selection_set)?;
    }
    for operation in document.operations.named.values() {
        judge_collection(alloc, id, schema, document, &operation.value.selection_set)?;
    }
    Ok(())
}

/// Collects the fields of one selection set twice, and compares the two collections. The error says that they
/// differ, or that memory was refused.
fn judge_collection(
    alloc: Global,
    id: &'static str,
    schema: &Schema,
    document: &ExecutableDocument,
    set: &SelectionSet,
) -> Result<(), Fault> {
    let first = collect_fields(alloc, schema, document, &set.ty, &[set])?;
    let judged = match collect_fields(alloc, schema, document, &set.ty, &[set]) {
        Ok(second) => {
            let is_same = first == second && first.keys().eq(second.keys());
            drop(second);
            if is_same {
                Ok(())
            } else {
                Err(Fault::Broken(id, "other fields are collected"))
            }
        }
        Err(error) => Err(Fault::from(error)),
    };
    drop(first);
    judged
}
