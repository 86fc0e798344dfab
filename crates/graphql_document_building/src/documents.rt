//! Operations, fragments and documents.

ghost use Rattle.std.specs.Prelude.{◌≡◌, [], ◌∷◌, ◌++◌, All, IfOk, None, OnOk, Some, map, option_to_list};
ghost use Rattle.std.specs.List.{AllZip};
ghost use Rattle.std.specs.Option.{option_copied, option_map};
ghost use Rattle.indexmap.specs.IndexMap.{get, hasher_of};
ghost use Rattle.graphql_nodes.specs.Names.{AreDistinct, same_name};
ghost use Rattle.graphql_document_building.specs.BuildingRules.{AnonymousOperationIsAlone, DefinitionBuilds, DocumentBuilds};
ghost use Rattle.graphql_trees.specs.declared.documents.Definition.TheVariants as definition;
ghost use Rattle.graphql_document_building.specs.FieldDefinitions.{IsProper, schema_of};
ghost use Rattle.graphql_document_building.specs.Documents.{DocumentSays, FragmentSays, HashesBy, OperationSays, SaysUnderName};
ghost use Rattle.graphql_document_building.specs.Trees.{anonymous_operations_in, as_anonymous_operation, as_fragment, as_named_operation, fragments_in, named_operations_in};

use crate::field_definitions::{FieldDefinitions, unknown_field};
use crate::selections::{build_selection_set, copy_of_name};
use graphql_documents::documents::{ExecutableDocument, Fragment, Operation, OperationMap, Schema};
use graphql_hash_seeds::HashSeed;
use graphql_leaf_building::{build_directives, build_variables};
use graphql_nodes::{Name, Node, ValidationError};
use graphql_trees::{Definition, Document, FragmentDefinition, OperationDefinition};
use indexmap::IndexMap;
use std::alloc::Global;

/// The document that the tree says, built against the schema: operations and fragments in the order of the
/// text, each under its name, in maps of this seed. Fails only where an allocation fails.
///
/// Specification: 2.2 Document.
pub fn build_document(
    alloc: Global,
    hash_seed: HashSeed,
    schema: &Schema,
    tree: &Document,
) -> Result<ExecutableDocument, ValidationError>
    requires { DocumentBuilds (Some schema.now) tree.now }
    ensures says { IfOk result (DocumentSays (Some schema.now) tree.now) }
    ensures seed { IfOk result (HashesBy hash_seed) }
{
    build_definitions(alloc, hash_seed, &FieldDefinitions::OfSchema(schema), tree)
}

/// The document that the tree says, built without a schema: each field has the definition `UNKNOWN: UNKNOWN`, and
/// each operation the root type with the default name of its kind, in maps of this seed. Fails only where an allocation fails.
///
/// Specification: 2.2 Document; 3.3.1 Root Operation Types.
pub fn build_standalone_document(
    alloc: Global,
    hash_seed: HashSeed,
    tree: &Document,
) -> Result<ExecutableDocument, ValidationError>
    requires { DocumentBuilds None tree.now }
    ensures says { IfOk result (DocumentSays None tree.now) }
    ensures seed { IfOk result (HashesBy hash_seed) }
{
    let unknown = unknown_field(alloc)?;
    build_definitions(alloc, hash_seed, &FieldDefinitions::Unknown(&unknown), tree)
}

fn build_definitions(
    alloc: Global,
    hash_seed: HashSeed,
    definitions: &FieldDefinitions<'_>,
    tree: &Document,
) -> Result<ExecutableDocument, ValidationError>
    requires proper { IsProper definitions.now }
    requires builds { DocumentBuilds (schema_of definitions.now) tree.now }
    ensures says { IfOk result (DocumentSays (schema_of definitions.now) tree.now) }
    ensures seed { IfOk result (HashesBy hash_seed) }
{
    let trees = tree.definitions.as_slice();
    let anonymous = build_anonymous_operation(alloc, definitions, trees)?;
    let named = build_named_operations(alloc, hash_seed, definitions, trees)?;
    let fragments = build_fragments(alloc, hash_seed, definitions, trees)?;
    Ok(ExecutableDocument {
        operations: OperationMap { anonymous, named },
        fragments,
    })
}

fn build_anonymous_operation(
    alloc: Global,
    definitions: &FieldDefinitions<'_>,
    trees: &[Definition],
) -> Result<Option<Node<Operation>>, ValidationError>
    requires proper { IsProper definitions.now }
    requires builds { All (DefinitionBuilds (schema_of definitions.now)) trees.now }
    requires alone { AnonymousOperationIsAlone trees.now }
    ensures { IfOk result (λ found. AllZip (OperationSays (schema_of definitions.now)) (anonymous_operations_in trees.now) (option_to_list found)) }
{
    for tree in trees {
        if let Some(operation) = anonymous_operation(tree) {
            let built = build_operation(alloc, definitions, operation)?;
            return Ok(Some(built));
        }
    }
    Ok(None)
}

fn build_named_operations(
    alloc: Global,
    hash_seed: HashSeed,
    definitions: &FieldDefinitions<'_>,
    trees: &[Definition],
) -> Result<IndexMap<Name, Node<Operation>, HashSeed>, ValidationError>
    requires proper { IsProper definitions.now }
    requires builds { All (DefinitionBuilds (schema_of definitions.now)) trees.now }
    requires distinct { AreDistinct (map (λ p. p.0) (named_operations_in trees.now)) }
    ensures seed { IfOk result (λ named. hasher_of named ≡ hash_seed) }
    ensures says { IfOk result (λ named. AllZip (SaysUnderName (OperationSays (schema_of definitions.now))) (named_operations_in trees.now) named.entries) }
{
    let mut operations = IndexMap::with_hasher(alloc, hash_seed);
    for tree in trees {
        let Some((name, operation)) = named_operation(tree) else {
            continue;
        };
        let name = name.clone_in(alloc)?;
        let built = build_operation(alloc, definitions, operation)?;
        insert_new(&mut operations, name, built)?;
    }
    Ok(operations)
}

fn build_fragments(
    alloc: Global,
    hash_seed: HashSeed,
    definitions: &FieldDefinitions<'_>,
    trees: &[Definition],
) -> Result<IndexMap<Name, Node<Fragment>, HashSeed>, ValidationError>
    requires proper { IsProper definitions.now }
    requires builds { All (DefinitionBuilds (schema_of definitions.now)) trees.now }
    requires distinct { AreDistinct (map (λ p. p.0) (fragments_in trees.now)) }
    ensures seed { IfOk result (λ fragments. hasher_of fragments ≡ hash_seed) }
    ensures says { IfOk result (λ fragments. AllZip (SaysUnderName (FragmentSays (schema_of definitions.now))) (fragments_in trees.now) fragments.entries) }
{
    let mut fragments = IndexMap::with_hasher(alloc, hash_seed);
    for tree in trees {
        let Some(fragment) = fragment_definition(tree) else {
            continue;
        };
        let name = fragment.name.clone_in(alloc)?;
        let built = build_fragment(alloc, definitions, fragment)?;
        insert_new(&mut fragments, name, built)?;
    }
    Ok(fragments)
}

/// The operation without a name that the definition is.
fn anonymous_operation(tree: &Definition) -> Option<&OperationDefinition>
    ensures { option_copied result ≡ as_anonymous_operation tree.now }
{
    match tree {
        Definition::Operation(operation) if operation.name.is_none() => Some(operation),
        _ => None,
    }
}

/// The operation with a name that the definition is, with that name.
fn named_operation(tree: &Definition) -> Option<(&Name, &OperationDefinition)>
    ensures { option_map (λ found. (found.0.now, found.1.now)) result ≡ as_named_operation tree.now }
{
    match tree {
        Definition::Operation(operation) => match &operation.name {
            Some(name) => Some((name, operation)),
            None => None,
        },
        _ => None,
    }
}

/// The fragment that the definition is.
fn fragment_definition(tree: &Definition) -> Option<&FragmentDefinition>
    ensures { option_map (λ found. (found.now.name, found.now)) result ≡ as_fragment tree.now }
{
    match tree {
        Definition::Fragment(fragment) => Some(fragment),
        _ => None,
    }
}

/// Puts a node under a name under which none is, behind the others.
fn insert_new<T: Drop>(
    nodes: &mut IndexMap<Name, Node<T>, HashSeed>,
    name: Name,
    node: Node<T>,
) -> Result<(), ValidationError>
    requires { get same_name nodes.old name ≡ None }
    ensures added { OnOk result (nodes.new.entries ≡ nodes.old.entries ++ (name, node) ∷ []) }
    ensures seed { hasher_of nodes.new ≡ hasher_of nodes.old }
{
    nodes.insert(name, node)?;
    Ok(())
}

fn build_operation(
    alloc: Global,
    definitions: &FieldDefinitions<'_>,
    tree: &OperationDefinition,
) -> Result<Node<Operation>, ValidationError>
    requires proper { IsProper definitions.now }
    requires builds { DefinitionBuilds (schema_of definitions.now) (definition.Operation tree.now) }
    ensures { IfOk result (OperationSays (schema_of definitions.now) tree.now) }
{
    let name = copy_of_name(alloc, &tree.name)?;
    let variables = build_variables(alloc, tree.variables.as_slice())?;
    let directives = build_directives(alloc, tree.directives.as_slice())?;
    let root = definitions.root(alloc, tree.operation_type)?;
    let selection_set = build_selection_set(
        alloc,
        definitions,
        &root,
        tree.selection_set.selections.as_slice(),
    )?;
    let operation = Operation {
        operation_type: tree.operation_type,
        name,
        variables,
        directives,
        selection_set,
    };
    let node = Node::new_located(alloc, operation, tree.span)?;
    Ok(node)
}

fn build_fragment(
    alloc: Global,
    definitions: &FieldDefinitions<'_>,
    tree: &FragmentDefinition,
) -> Result<Node<Fragment>, ValidationError>
    requires proper { IsProper definitions.now }
    requires builds { DefinitionBuilds (schema_of definitions.now) (definition.Fragment tree.now) }
    ensures { IfOk result (FragmentSays (schema_of definitions.now) tree.now) }
{
    let name = tree.name.clone_in(alloc)?;
    let directives = build_directives(alloc, tree.directives.as_slice())?;
    let trees = tree.selection_set.selections.as_slice();
    let selection_set = build_selection_set(alloc, definitions, &tree.type_condition, trees)?;
    let fragment = Fragment {
        name,
        directives,
        selection_set,
    };
    let node = Node::new_located(alloc, fragment, tree.span)?;
    Ok(node)
}
