//! The definitions of Federation that a subgraph lacks.

ghost use Rattle.std.specs.Prelude.{◌≡◌, ◌++◌, IfOk, List, OnOk, map, string_bytes};
ghost use Rattle.graphql_repetitions.specs.References.{nows};
ghost use Rattle.graphql_trees.specs.declared.documents.Definition.{Definition};
ghost use Rattle.graphql_schema_checking.specs.Definitions.{definitions_in, name_of};
ghost use Rattle.graphql_schema_checking.specs.Sorting.{AreSorted};
ghost use Rattle.graphql_dialects.specs.Lacking.{AddsOnlyLacking, directive_names, type_names};

use crate::federation::{
    FederationDirective, federation_directives, federation_types, link_directive, query_root,
};
use crate::links::Link;
use crate::rows::{Row, lacking_definitions};
use graphql_nodes::{Name, OperationType, ValidationError};
use graphql_schema_checking::definitions::SortedDefinitions;
use graphql_schema_checking::kinds::type_name;
use graphql_trees::{DirectiveDefinition, Document, SchemaDefinition, TypeDefinition};
use std::alloc::{AllocError, Global};

/// A directive under a name that it has in a subgraph.
#[derive(Drop)]
struct LocalDirective {
    name: String,
    tail: &'static str,
}

/// The definitions of Apollo Federation 2 that these texts lack, as a text: those of types and of directives that no text defines, and of the root
/// of queries, if no text defines or names one. The only error is a failed allocation.
///
/// A directive has the name under which `@link` imports it; one that is not imported has its name after that of the namespace, `federation__key`.
/// If nothing is imported, each directive is defined under both names.
pub fn federation_definitions(alloc: Global, trees: &[Document]) -> Result<String, ValidationError>
    ensures { IfOk result (λ text. AddsOnlyLacking (definitions_in trees.now) (string_bytes text)) }
{
    let sorted = SortedDefinitions::of(alloc, trees)?;
    let type_rows = type_rows(alloc, &sorted)?;
    let directives = local_directives(alloc, &Link::of(alloc, &sorted)?)?;
    let directive_rows = directive_rows(alloc, &directives)?;
    Ok(definitions_lacking(alloc, &sorted, &type_rows, &directive_rows)?)
}

/// The definitions of these types and directives that the others lack.
pub(crate) fn definitions_lacking(
    alloc: Global,
    sorted: &SortedDefinitions<'_>,
    types: &[Row<'_>],
    directives: &[Row<'_>],
) -> Result<String, AllocError>
    ensures { (definitions : List Definition) → AreSorted definitions sorted.now →
        IfOk result (λ text. AddsOnlyLacking definitions (string_bytes text)) }
{
    let names = type_names(alloc, sorted)?;
    let mut text = lacking_definitions(alloc, types, &names)?;
    let names = directive_names(alloc, &sorted.directives)?;
    let more = lacking_definitions(alloc, directives, &names)?;
    text.push_str(more.as_str())?;
    Ok(text)
}

/// The names of the types that are defined or extended.
fn type_names<'a>(
    alloc: Global,
    sorted: &SortedDefinitions<'a>,
) -> Result<Vec<&'a Name>, AllocError>
    ensures { (definitions : List Definition) → AreSorted definitions sorted.now → IfOk result (λ names. nows names.items ≡ type_names definitions) }
{
    let mut names = Vec::new(alloc);
    add_type_names(&mut names, &sorted.types)?;
    add_type_names(&mut names, &sorted.type_extensions)?;
    Ok(names)
}

fn add_type_names<'a>(
    names: &mut Vec<&'a Name>,
    definitions: &[&'a TypeDefinition],
) -> Result<(), AllocError>
    ensures { OnOk result (nows names.new.items ≡ nows names.old.items ++ map name_of (nows definitions.now)) }
{
    for definition in definitions {
        names.push(type_name(*definition))?;
    }
    Ok(())
}

/// The names of these directives.
fn directive_names<'a>(
    alloc: Global,
    directives: &[&'a DirectiveDefinition],
) -> Result<Vec<&'a Name>, AllocError>
    ensures { IfOk result (λ names. nows names.items ≡ map (λ d. d.name) (nows directives.now)) }
{
    let mut names = Vec::new(alloc);
    for directive in directives {
        names.push(&directive.name)?;
    }
    Ok(names)
}

/// The types that a subgraph has besides its own.
fn type_rows(
    alloc: Global,
    sorted: &SortedDefinitions<'_>,
) -> Result<Vec<Row<'static>>, AllocError> {
    let mut rows = Vec::new(alloc);
    rows.extend_from_slice(federation_types())?;
    if sorted.schemas.is_empty() && !sorted.schema_extensions.iter().any(|it| names_query(*it)) {
        rows.push(query_root())?;
    }
    Ok(rows)
}

/// Whether the definition or extension of a schema names a root of queries.
fn names_query(schema: &SchemaDefinition) -> bool {
    schema
        .root_operations
        .as_slice()
        .iter()
        .any(|root| matches!(root.operation_type, OperationType::Query))
}

/// The directives of Federation, under their names in a subgraph with this link.
fn local_directives(alloc: Global, link: &Link<'_>) -> Result<Vec<LocalDirective>, AllocError> {
    let mut local = Vec::new(alloc);
    for directive in federation_directives() {
        add_local(alloc, link, *directive, &mut local)?;
    }
    Ok(local)
}

/// Adds a directive under its names.
fn add_local(
    alloc: Global,
    link: &Link<'_>,
    directive: FederationDirective,
    local: &mut Vec<LocalDirective>,
) -> Result<(), AllocError> {
    let tail = directive.tail;
    if link.imports.is_empty() {
        let name = String::from_str(alloc, directive.name)?;
        local.push(LocalDirective { name, tail })?;
    }
    let name = match link.imported(directive.name) {
        Some(name) => String::from_str(alloc, name)?,
        None => within_namespace(alloc, link.namespace, directive.name)?,
    };
    local.push(LocalDirective { name, tail })?;
    Ok(())
}

/// A name that is not imported.
fn within_namespace(alloc: Global, namespace: &str, name: &str) -> Result<String, AllocError> {
    let mut full = String::from_str(alloc, namespace)?;
    full.push_str("__")?;
    full.push_str(name)?;
    Ok(full)
}

/// The definitions of these directives, and of that which links.
fn directive_rows<'a>(
    alloc: Global,
    directives: &'a [LocalDirective],
) -> Result<Vec<Row<'a>>, AllocError> {
    let mut rows = Vec::new(alloc);
    rows.push(link_directive())?;
    for directive in directives {
        rows.push(Row {
            head: "directive @",
            name: directive.name.as_str(),
            tail: directive.tail,
        })?;
    }
    Ok(rows)
}
