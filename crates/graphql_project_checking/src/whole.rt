//! Files of which each can be built.

ghost use Rattle.std.specs.Prelude.{◌≡◌, ◌∷◌, ◌++◌, [], All, IfOk, List, OnOk, flat_map, map};
ghost use Rattle.graphql_diagnostics.specs.Reports.{KeepsReports};
ghost use Rattle.graphql_documents.specs.Executables.{operations_of};
ghost use Rattle.graphql_frontend.specs.Schemas.{IsUsable};
ghost use Rattle.graphql_nodes.specs.Names.{AreDistinct};
ghost use Rattle.graphql_project_checking.specs.Silence.{BorrowsForAll, BuildAll, FilePasses, FilesHold, NotesUses, OperationPasses, QuietOnlyIf, operations_in_map};
ghost use Rattle.graphql_project_checking.specs.Truth.{AreOfFile, AreOfOneFile, AreOfOneOperation, AreOfOperation, AreOfWhole, NotesAll};
ghost use Rattle.graphql_projects.specs.OperationTrees.{fragments_among};
ghost use Rattle.graphql_projects.specs.Reach.{nodes_at};
ghost use Rattle.graphql_trees.specs.declared.documents.Document as tree;
ghost use Rattle.graphql_variables.specs.Uses.{names_of};

use crate::building::Building;
use crate::contexts::Context;
use crate::file_rules::check_file_rules;
use crate::operations::check_operation;
use crate::uses::check_uses;
use graphql_diagnostics::HashSeed;
use graphql_documents::documents::{ExecutableDocument, Fragment, Operation, OperationMap};
use graphql_frontend::{ProjectReports, ValidationError};
use graphql_nodes::{Name, Node};
use graphql_pools::{Used, borrow_fragments, note_uses, pool_of};
use graphql_projects::reached_fragments;
use graphql_trees::Document;
use indexmap::{IndexMap, IndexSet};
use std::alloc::Global;

/// Reports what is wrong with files, of which these are the typed documents, and whose fragments have different names: with each operation,
/// with the definitions of a file together, and fragments that no operation reaches.
pub(crate) fn check_whole(
    alloc: Global,
    building: Building<'_>,
    own: &[Document],
    files: Vec<ExecutableDocument>,
    lenders: &[ExecutableDocument],
    found: &mut ProjectReports,
) -> Result<(), ValidationError>
    ensures silence { (lent : List tree.Document) → IsUsable building.entry.schema.now → BuildAll building.entry.schema.now own.now files.items →
        BuildAll building.entry.schema.now lent lenders.now → AreDistinct (map (λ p. p.0) (fragments_among (own.now ++ lent))) →
        OnOk result (QuietOnlyIf found.old.lists.items found.new.lists.items (λ off. FilesHold off building.entry.schema.now own.now lent)) }
    ensures truth { (lent : List tree.Document) → IsUsable building.entry.schema.now → BuildAll building.entry.schema.now own.now files.items →
        BuildAll building.entry.schema.now lent lenders.now →
        OnOk result (KeepsReports (AreOfWhole building.entry.bounds building.entry.schema.now (fragments_among (own.now ++ lent)) own.now)
        found.old.lists.items found.new.lists.items) }
{
    let pool = pool_of(alloc, building.hash_seed, &files, lenders)?;
    let context = Context {
        schema: building.schema,
        pool: &pool,
        bounds: building.bounds,
    };
    let mut used = IndexSet::with_hasher(alloc, building.hash_seed);
    check_each(alloc, context, files, &mut used, found)?;
    check_uses(alloc, building, own, &used, &mut found.lists)
}

/// Reports what is wrong with these files, each with the fragments of all, and notes which fragments their operations reach.
pub(crate) fn check_each<'a>(
    alloc: Global,
    context: Context<'a>,
    files: Vec<ExecutableDocument>,
    used: &mut Used<'a>,
    found: &mut ProjectReports,
) -> Result<(), ValidationError>
    ensures passes { OnOk result (QuietOnlyIf found.old.lists.items found.new.lists.items (λ off. All (FilePasses off context.entry.schema.now context.entry.pool.now) files.items)) }
    ensures truth { OnOk result (KeepsReports (AreOfOneFile context.entry.bounds context.entry.schema.now context.entry.pool.now files.items) found.old.lists.items found.new.lists.items) }
    ensures used { OnOk result (NotesUses context.entry.pool.now (flat_map operations_of files.items) (names_of used.old.keys) (names_of used.new.keys)) }
    ensures noted { OnOk result (NotesAll context.entry.pool.now (flat_map operations_of files.items) (names_of used.old.keys) (names_of used.new.keys)) }
{
    for file in files {
        check_file(alloc, context, file, used, found)?;
    }
    Ok(())
}

fn check_file<'a>(
    alloc: Global,
    context: Context<'a>,
    mut file: ExecutableDocument,
    used: &mut Used<'a>,
    found: &mut ProjectReports,
) -> Result<(), ValidationError>
    ensures passes { OnOk result (QuietOnlyIf found.old.lists.items found.new.lists.items (λ off. FilePasses off context.entry.schema.now context.entry.pool.now file)) }
    ensures truth { OnOk result (KeepsReports (AreOfFile context.entry.bounds context.entry.schema.now context.entry.pool.now file) found.old.lists.items found.new.lists.items) }
    ensures used { OnOk result (NotesUses context.entry.pool.now (operations_of file) (names_of used.old.keys) (names_of used.new.keys)) }
    ensures noted { OnOk result (NotesAll context.entry.pool.now (operations_of file) (names_of used.old.keys) (names_of used.new.keys)) }
{
    check_operations(
        alloc,
        context,
        &file.operations,
        &mut file.fragments,
        used,
        found,
    )?;
    // The names of fragments differ, as a map says where it is counted.
    let _count = file.fragments.len();
    check_file_rules(alloc, &file, context.bounds, &mut found.lists)
}

/// The operations of a file: the one without a name, then the others in order.
fn all_operations(
    alloc: Global,
    operations: &OperationMap,
) -> Result<Vec<&Node<Operation>>, ValidationError>
    ensures { IfOk result (λ all. nodes_at all.items ≡ operations_in_map operations.now) }
{
    let anonymous = operations.anonymous.iter();
    let named = operations.named.values();
    Ok(anonymous.chain(named).collect(alloc)?)
}

/// Reports what is wrong with the operations of a file. The fragments that they reach are added to those of the file.
fn check_operations<'a>(
    alloc: Global,
    context: Context<'a>,
    operations: &OperationMap,
    fragments: &mut IndexMap<Name, Node<Fragment>, HashSeed>,
    used: &mut Used<'a>,
    found: &mut ProjectReports,
) -> Result<(), ValidationError>
    ensures passes { OnOk result (QuietOnlyIf found.old.lists.items found.new.lists.items
        (λ off. All (OperationPasses off context.entry.schema.now context.entry.pool.now) (operations_in_map operations.now))) }
    ensures truth { OnOk result (KeepsReports (AreOfOneOperation context.entry.bounds context.entry.schema.now context.entry.pool.now (operations_in_map operations.now))
        found.old.lists.items found.new.lists.items) }
    ensures borrows { OnOk result (BorrowsForAll context.entry.pool.now (operations_in_map operations.now) fragments.old.entries fragments.new.entries) }
    ensures used { OnOk result (NotesUses context.entry.pool.now (operations_in_map operations.now) (names_of used.old.keys) (names_of used.new.keys)) }
    ensures noted { OnOk result (NotesAll context.entry.pool.now (operations_in_map operations.now) (names_of used.old.keys) (names_of used.new.keys)) }
{
    let operations = all_operations(alloc, operations)?;
    for operation in &operations {
        check_reaching(alloc, context, *operation, fragments, used, found)?;
    }
    Ok(())
}

/// Reports what is wrong with an operation, and notes the fragments that it reaches.
fn check_reaching<'a>(
    alloc: Global,
    context: Context<'a>,
    operation: &Node<Operation>,
    fragments: &mut IndexMap<Name, Node<Fragment>, HashSeed>,
    used: &mut Used<'a>,
    found: &mut ProjectReports,
) -> Result<(), ValidationError>
    ensures passes { OnOk result (QuietOnlyIf found.old.lists.items found.new.lists.items
        (λ off. OperationPasses off context.entry.schema.now context.entry.pool.now operation.now)) }
    ensures truth { OnOk result (KeepsReports (AreOfOperation context.entry.bounds context.entry.schema.now context.entry.pool.now operation.now)
        found.old.lists.items found.new.lists.items) }
    ensures borrows { OnOk result (BorrowsForAll context.entry.pool.now (operation.now ∷ []) fragments.old.entries fragments.new.entries) }
    ensures used { OnOk result (NotesUses context.entry.pool.now (operation.now ∷ []) (names_of used.old.keys) (names_of used.new.keys)) }
    ensures noted { OnOk result (NotesAll context.entry.pool.now (operation.now ∷ []) (names_of used.old.keys) (names_of used.new.keys)) }
{
    let names = reached_fragments(alloc, context.pool, &operation.value.selection_set)?;
    note_uses(context.pool, &names, used)?;
    borrow_fragments(alloc, context.pool, &names, fragments)?;
    check_operation(alloc, context, operation, &names, found)
}
