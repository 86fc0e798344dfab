//! Documents with some of the definitions of others.

ghost use Rattle.std.specs.Prelude.{◌≡◌, ◌++◌, ◌↔◌, IfOk, IsTrue, OnOk, Some, filter, reverse};
ghost use Rattle.graphql_document_checking.specs.BuildingRules.{DefinitionBuilds};
ghost use Rattle.graphql_project_checking.specs.Silence.{HasFragmentsOf, is_fragment, others_in};
ghost use Rattle.graphql_project_checking.specs.Truth.{KeepsThatBuild};

use graphql_building_reports::BuildingReportList;
use graphql_document_checking::{Items, check_definitions};
use graphql_documents::documents::Schema;
use graphql_nodes::ValidationError;
use graphql_trees::{Definition, Document};
use std::alloc::Global;
use std::slice;

/// A document with the fragments of another alone, and the other definitions of that.
#[derive(Drop)]
pub(crate) struct Split {
    pub fragments: Document,
    pub others: Items<Definition>,
}

/// The fragments of a document, and its other definitions, each in order.
pub(crate) fn parts_of(alloc: Global, document: Document) -> Result<Split, ValidationError>
    ensures fragments { IfOk result (λ split. HasFragmentsOf document split.fragments) }
    ensures others { IfOk result (λ split. split.others ≡ others_in document.definitions) }
{
    let span = document.span;
    let definitions = document.into_definitions();
    let mut fragments = Items::new(alloc);
    let mut others = Items::new(alloc);
    move_from_end(definitions, &mut fragments, &mut others)?;
    let definitions = turned(alloc, fragments)?;
    let others = turned(alloc, others)?;
    Ok(Split {
        fragments: Document { definitions, span },
        others,
    })
}

/// Moves the definitions behind the fragments or behind the others, the last one first.
fn move_from_end(
    mut definitions: Items<Definition>,
    fragments: &mut Items<Definition>,
    others: &mut Items<Definition>,
) -> Result<(), ValidationError>
    ensures fragments { OnOk result (fragments.new ≡ fragments.old ++ reverse (filter is_fragment definitions)) }
    ensures others { OnOk result (others.new ≡ others.old ++ reverse (others_in definitions)) }
{
    while let Some(definition) = definitions.pop() {
        if is_fragment(&definition) {
            fragments.push(definition)?;
            continue;
        }
        others.push(definition)?;
    }
    Ok(())
}

/// Whether the definition is one of a fragment.
fn is_fragment(definition: &Definition) -> bool
    ensures { result ≡ is_fragment definition.now }
{
    matches!(definition, Definition::Fragment(_))
}

/// The definitions in the other order.
fn turned(
    alloc: Global,
    mut definitions: Items<Definition>,
) -> Result<Items<Definition>, ValidationError>
    ensures { IfOk result (λ turned. turned ≡ reverse definitions) }
{
    let mut turned = Items::new(alloc);
    while let Some(definition) = definitions.pop() {
        turned.push(definition)?;
    }
    Ok(turned)
}

/// The document with those definitions of this one that can be built against the schema. The others are added to those that are left
/// out.
pub(crate) fn those_that_build(
    alloc: Global,
    schema: &Schema,
    document: Document,
    left_out: &mut Vec<Definition>,
) -> Result<Document, ValidationError>
    ensures { IfOk result (λ part. KeepsThatBuild schema.now document.definitions part.definitions) }
{
    let span = document.span;
    let definitions = document.into_definitions();
    let kept = built_from_end(alloc, schema, definitions, left_out)?;
    let definitions = turned(alloc, kept)?;
    Ok(Document { definitions, span })
}

/// The definitions that can be built, the last one first.
fn built_from_end(
    alloc: Global,
    schema: &Schema,
    mut definitions: Items<Definition>,
    left_out: &mut Vec<Definition>,
) -> Result<Items<Definition>, ValidationError>
    ensures { IfOk result (λ kept. KeepsThatBuild schema.now definitions (reverse kept)) }
{
    let mut kept = Items::new(alloc);
    while let Some(definition) = definitions.pop() {
        if builds(alloc, schema, &definition)? {
            kept.push(definition)?;
        } else {
            left_out.push(definition)?;
        }
    }
    Ok(kept)
}

/// Whether the definition can be built against the schema.
fn builds(alloc: Global, schema: &Schema, definition: &Definition) -> Result<bool, ValidationError>
    ensures { IfOk result (λ it. IsTrue it ↔ DefinitionBuilds (Some schema.now) definition.now) }
{
    let mut reports = BuildingReportList::new(alloc);
    check_definitions(&mut reports, Some(schema), slice::from_ref(definition))?;
    Ok(reports.is_empty())
}

/// Adds the definitions of a document to those that are left out.
pub(crate) fn leave_out(
    document: Document,
    left_out: &mut Vec<Definition>,
) -> Result<(), ValidationError> {
    let mut definitions = document.into_definitions();
    while let Some(definition) = definitions.pop() {
        left_out.push(definition)?;
    }
    Ok(())
}
