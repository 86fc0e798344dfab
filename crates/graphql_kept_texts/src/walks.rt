//! What of a document is at fault.

ghost use Rattle.std.specs.Prelude.{◌≡◌, [], IfOk, IsFalse, IsTrue, OnOk};
ghost use Rattle.graphql_kept_texts.specs.Faults.{HasNothing};

use crate::cuts::Cut;
use crate::faults::Faults;
use crate::rooms::cut_at;
use crate::selections::{Walk, cut_below, cut_selections, cut_set};
use crate::type_system::{
    cut_directive, cut_schema, cut_schema_extension, cut_type, cut_type_extension,
};
use crate::variables::cut_variables;
use graphql_nodes::OperationType;
use graphql_trees::{Definition, Document, FragmentDefinition, OperationDefinition};
use std::alloc::{AllocError, Global};

/// The cuts that leave out of the text of a document what is at fault, in order:
///
/// - a field whose name is at fault; of a field that is itself at fault, its set
/// - an inline fragment, or the definition of a fragment, that is at fault, or whose condition or name is
/// - the spread of a fragment that is at fault
/// - an operation that is at fault, or whose name is, and definitions of variables that are at fault
/// - a definition or an extension of the type system that is at fault, or whose name is
/// - in another one a field, an input field, a value, a root operation, or a member or an interface with its `|` or `&`, whose name is at fault
///
/// A set of which nothing is left has `__typename` in its place. If there is no room for it, or the operation is a subscription, what has the
/// set is left out, as is an extension of which nothing is left. The only error is a failed allocation.
///
/// Specification: 2.2 Document, 2.4 Selection Sets, 3 Type System.
pub fn cuts_of(
    alloc: Global,
    text: &str,
    document: &Document,
    faults: &Faults,
) -> Result<Vec<Cut>, AllocError>
    ensures { HasNothing faults.now → IfOk result (λ cuts. cuts.items ≡ []) }
{
    let walk = Walk { text, faults };
    cut_definitions(alloc, walk, document.definitions.as_slice())
}

fn cut_definitions(
    alloc: Global,
    walk: Walk<'_>,
    definitions: &[Definition],
) -> Result<Vec<Cut>, AllocError>
    ensures { HasNothing walk.entry.faults.now → IfOk result (λ cuts. cuts.items ≡ []) }
{
    let mut cuts = Vec::new(alloc);
    for definition in definitions {
        cut_definition(walk, definition, &mut cuts)?;
    }
    Ok(cuts)
}

fn cut_definition(
    walk: Walk<'_>,
    definition: &Definition,
    cuts: &mut Vec<Cut>,
) -> Result<(), AllocError>
    ensures { HasNothing walk.entry.faults.now → OnOk result (cuts.new.items ≡ cuts.old.items) }
{
    match definition {
        Definition::Operation(operation) => cut_operation(walk, operation, cuts),
        Definition::Fragment(fragment) => cut_fragment(walk, fragment, cuts),
        Definition::Schema(definition) => cut_schema(walk.faults, definition, cuts),
        Definition::SchemaExtension(extension) => {
            cut_schema_extension(walk.faults, extension, cuts)
        }
        Definition::Directive(definition) => cut_directive(walk.faults, definition, cuts),
        Definition::Type(definition) => cut_type(walk.faults, definition, cuts),
        Definition::TypeExtension(extension) => cut_type_extension(walk.faults, extension, cuts),
    }
}

fn cut_operation(
    walk: Walk<'_>,
    operation: &OperationDefinition,
    cuts: &mut Vec<Cut>,
) -> Result<(), AllocError>
    ensures { HasNothing walk.entry.faults.now → OnOk result (cuts.new.items ≡ cuts.old.items) }
{
    if walk.faults.has(operation.span) || has_name(walk, operation) {
        return cut_at(operation.span, cuts);
    }
    let before = cuts.len();
    cut_variables(walk, operation, cuts)?;
    if is_set_left(walk, operation, cuts)? {
        return Ok(());
    }
    cuts.truncate(before);
    cut_at(operation.span, cuts)
}

/// Whether the name of the operation is at fault.
fn has_name(walk: Walk<'_>, operation: &OperationDefinition) -> bool
    ensures { HasNothing walk.entry.faults.now → IsFalse result }
{
    match &operation.name {
        Some(name) => walk.faults.has_name(name),
        None => false,
    }
}

/// Cuts what is at fault in the set of an operation. `__typename` does not come in the place of the root fields of a subscription.
///
/// Specification: 5.2.3.1 Single Root Field.
fn is_set_left(
    walk: Walk<'_>,
    operation: &OperationDefinition,
    cuts: &mut Vec<Cut>,
) -> Result<bool, AllocError>
    ensures { HasNothing walk.entry.faults.now → IfOk result (λ is_left. IsTrue is_left × (cuts.new.items ≡ cuts.old.items)) }
{
    let set = &operation.selection_set;
    match operation.operation_type {
        OperationType::Subscription => cut_selections(walk, set.selections.as_slice(), cuts),
        OperationType::Query | OperationType::Mutation => cut_set(walk, set, cuts),
    }
}

fn cut_fragment(
    walk: Walk<'_>,
    fragment: &FragmentDefinition,
    cuts: &mut Vec<Cut>,
) -> Result<(), AllocError>
    ensures { HasNothing walk.entry.faults.now → OnOk result (cuts.new.items ≡ cuts.old.items) }
{
    let is_at_fault = walk.faults.has(fragment.span)
        || walk.faults.has_name(&fragment.name)
        || walk.faults.has_name(&fragment.type_condition);
    if is_at_fault {
        return cut_at(fragment.span, cuts);
    }
    cut_below(walk, fragment.span, &fragment.selection_set, cuts)?;
    Ok(())
}
