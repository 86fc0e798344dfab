//! What operations and fragments use.

use crate::uses::{Use, Uses};
use crate::values::{add_argument_value, add_directives, add_value};
use graphql_documents::documents::{
    ExecutableDocument, Field, Operation, Selection, SelectionSet, VariableDefinition,
};
use graphql_nodes::{NamedType, Node};
use std::alloc::{AllocError, Global};

/// Adds what the document uses.
pub(crate) fn add_document<'a>(
    alloc: Global,
    uses: &mut Uses<'a>,
    document: &'a ExecutableDocument,
) -> Result<(), AllocError> {
    if let Some(operation) = &document.operations.anonymous {
        add_operation(alloc, uses, &operation.value)?;
    }
    for operation in document.operations.named.values() {
        add_operation(alloc, uses, &operation.value)?;
    }
    for fragment in document.fragments.values() {
        add_directives(uses, &fragment.value.directives)?;
        add_selection_set(uses, &fragment.value.selection_set)?;
    }
    Ok(())
}

fn add_operation<'a>(
    alloc: Global,
    uses: &mut Uses<'a>,
    operation: &'a Operation,
) -> Result<(), AllocError> {
    uses.add(Use::Operation(operation.operation_type.name()))?;
    for variable in &operation.variables {
        add_variable(alloc, uses, &variable.value)?;
    }
    add_directives(uses, &operation.directives)?;
    add_selection_set(uses, &operation.selection_set)
}

fn add_variable<'a>(
    alloc: Global,
    uses: &mut Uses<'a>,
    variable: &'a VariableDefinition,
) -> Result<(), AllocError> {
    let ty = variable.ty.value.inner_named_type();
    uses.add_input_type(alloc, ty)?;
    if let Some(value) = &variable.default_value {
        add_value(uses, ty, &value.value)?;
    }
    add_directives(uses, &variable.directives)
}

#[cycle(selection)]
fn add_selection_set<'a>(uses: &mut Uses<'a>, set: &'a SelectionSet) -> Result<(), AllocError> {
    for selection in &set.selections {
        uses.add(Use::Type(set.ty.as_str()))?;
        add_selection(uses, &set.ty, selection)?;
    }
    Ok(())
}

#[cycle(selection)]
fn add_selection<'a>(
    uses: &mut Uses<'a>,
    ty: &'a NamedType,
    selection: &'a Selection,
) -> Result<(), AllocError> {
    match selection {
        Selection::Field(field) => {
            add_field(uses, ty.as_str(), &field.value)?;
            add_selection_set(uses, &field.value.selection_set)
        }
        Selection::FragmentSpread(spread) => add_directives(uses, &spread.value.directives),
        Selection::InlineFragment(fragment) => {
            add_directives(uses, &fragment.value.directives)?;
            add_selection_set(uses, &fragment.value.selection_set)
        }
    }
}

/// Adds what a field of this type uses, without what is selected of it.
fn add_field<'a>(uses: &mut Uses<'a>, ty: &'a str, field: &'a Field) -> Result<(), AllocError> {
    let name = field.name.as_str();
    let definition = &field.definition.value;
    uses.add(Use::Field(ty, name))?;
    uses.add(Use::Type(definition.ty.inner_named_type().as_str()))?;
    for argument in &field.arguments {
        uses.add(Use::Argument(ty, name, argument.value.name.as_str()))?;
        add_argument_value(uses, &definition.arguments, &argument.value)?;
    }
    add_directives(uses, &field.directives)
}
