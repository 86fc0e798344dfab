//! The deprecated elements that a document uses.

ghost use Rattle.std.specs.Prelude.{◌++◌, IfOk, OnOk, option_to_list};
ghost use Rattle.indexmap.specs.IndexMap.{values};
ghost use Rattle.graphql_deprecations.specs.InOrder.{Adds, DefaultUses, DocumentUses, FragmentUses, InTurn, OperationUses, VariableUses, usages};
ghost use Rattle.graphql_deprecations.specs.Usages.{AreExactly, IsDeprecatedUsage};

use crate::arguments::add_in_directives;
use crate::reports::DeprecatedUsage;
use crate::selections::add_in_selection_set;
use crate::values::add_in_value;
use graphql_documents::documents::{
    ExecutableDocument, Fragment, Operation, OperationMap, Schema, VariableDefinition,
};
use graphql_hash_seeds::HashSeed;
use graphql_nodes::{Name, Node, ValidationError};
use indexmap::IndexMap;
use std::alloc::Global;

/// The uses of deprecated elements of the schema in the operations and fragments of a document, reached or not: of fields, of the
/// arguments of fields and directives, and, in the values of arguments and the default values of variables at any depth, of input
/// fields and enum values. The list has no other use, and each as often as the document has it. Uses in the definitions of the
/// schema itself are not listed.
///
/// The operations come first, the one without a name before the others, and then the fragments, each in the order of the text. A
/// field, an argument or an input field comes before the uses in it. If the schema does not define a field, an argument, a
/// directive or an input field, nothing is listed of it or of its values.
///
/// The call recurses as deep as selections and values nest. The parser limits this in texts; a document that a program makes must
/// not nest deeper than the stack allows. The only error is a failed allocation.
///
/// Specification: 3.13.3 @deprecated, and in the draft for arguments and input fields.
pub fn deprecated_usages(
    alloc: Global,
    schema: &Schema,
    document: &ExecutableDocument,
) -> Result<Vec<DeprecatedUsage>, ValidationError>
    ensures exact { IfOk result (λ found. AreExactly (IsDeprecatedUsage schema.now document.now) (usages found.items)) }
    ensures order { IfOk result (λ found. DocumentUses schema.now document.now (usages found.items)) }
{
    let hash_seed = document.hash_seed();
    let mut found = Vec::new(alloc);
    add_in_operations(&mut found, schema, hash_seed, &document.operations)?;
    add_in_fragments(&mut found, schema, hash_seed, &document.fragments)?;
    Ok(found)
}

fn add_in_operations(
    found: &mut Vec<DeprecatedUsage>,
    schema: &Schema,
    hash_seed: HashSeed,
    operations: &OperationMap,
) -> Result<(), ValidationError>
    ensures { OnOk result (Adds (InTurn (λ o. OperationUses schema.now o.value.value) (option_to_list operations.now.anonymous ++ values operations.now.named)) found.old.items found.new.items) }
{
    add_in_anonymous_operation(found, schema, hash_seed, &operations.anonymous)?;
    add_in_named_operations(found, schema, hash_seed, &operations.named)
}

fn add_in_anonymous_operation(
    found: &mut Vec<DeprecatedUsage>,
    schema: &Schema,
    hash_seed: HashSeed,
    operation: &Option<Node<Operation>>,
) -> Result<(), ValidationError>
    ensures { OnOk result (Adds (InTurn (λ o. OperationUses schema.now o.value.value) (option_to_list operation.now)) found.old.items found.new.items) }
{
    match operation {
        Some(operation) => add_in_operation(found, schema, hash_seed, &operation.value),
        None => Ok(()),
    }
}

fn add_in_named_operations(
    found: &mut Vec<DeprecatedUsage>,
    schema: &Schema,
    hash_seed: HashSeed,
    operations: &IndexMap<Name, Node<Operation>, HashSeed>,
) -> Result<(), ValidationError>
    ensures { OnOk result (Adds (InTurn (λ o. OperationUses schema.now o.value.value) (values operations.now)) found.old.items found.new.items) }
{
    for operation in operations.values() {
        add_in_operation(found, schema, hash_seed, &operation.value)?;
    }
    Ok(())
}

fn add_in_fragments(
    found: &mut Vec<DeprecatedUsage>,
    schema: &Schema,
    hash_seed: HashSeed,
    fragments: &IndexMap<Name, Node<Fragment>, HashSeed>,
) -> Result<(), ValidationError>
    ensures { OnOk result (Adds (InTurn (λ f. FragmentUses schema.now f.value.value) (values fragments.now)) found.old.items found.new.items) }
{
    for fragment in fragments.values() {
        add_in_fragment(found, schema, hash_seed, &fragment.value)?;
    }
    Ok(())
}

fn add_in_operation(
    found: &mut Vec<DeprecatedUsage>,
    schema: &Schema,
    hash_seed: HashSeed,
    operation: &Operation,
) -> Result<(), ValidationError>
    ensures { OnOk result (Adds (OperationUses schema.now operation.now) found.old.items found.new.items) }
{
    add_in_variables(found, schema, hash_seed, &operation.variables)?;
    add_in_directives(found, schema, hash_seed, &operation.directives)?;
    add_in_selection_set(found, schema, hash_seed, &operation.selection_set)
}

fn add_in_fragment(
    found: &mut Vec<DeprecatedUsage>,
    schema: &Schema,
    hash_seed: HashSeed,
    fragment: &Fragment,
) -> Result<(), ValidationError>
    ensures { OnOk result (Adds (FragmentUses schema.now fragment.now) found.old.items found.new.items) }
{
    add_in_directives(found, schema, hash_seed, &fragment.directives)?;
    add_in_selection_set(found, schema, hash_seed, &fragment.selection_set)
}

fn add_in_variables(
    found: &mut Vec<DeprecatedUsage>,
    schema: &Schema,
    hash_seed: HashSeed,
    variables: &[Node<VariableDefinition>],
) -> Result<(), ValidationError>
    ensures { OnOk result (Adds (InTurn (λ v. VariableUses schema.now v.value.value) variables.now) found.old.items found.new.items) }
{
    for variable in variables {
        add_in_variable(found, schema, hash_seed, &variable.value)?;
    }
    Ok(())
}

fn add_in_variable(
    found: &mut Vec<DeprecatedUsage>,
    schema: &Schema,
    hash_seed: HashSeed,
    variable: &VariableDefinition,
) -> Result<(), ValidationError>
    ensures { OnOk result (Adds (VariableUses schema.now variable.now) found.old.items found.new.items) }
{
    add_in_default_value(found, schema, variable)?;
    add_in_directives(found, schema, hash_seed, &variable.directives)
}

fn add_in_default_value(
    found: &mut Vec<DeprecatedUsage>,
    schema: &Schema,
    variable: &VariableDefinition,
) -> Result<(), ValidationError>
    ensures { OnOk result (Adds (DefaultUses schema.now variable.now) found.old.items found.new.items) }
{
    match &variable.default_value {
        Some(value) => {
            let ty = variable.ty.value.inner_named_type();
            add_in_value(found, schema, ty, &value.value)
        }
        None => Ok(()),
    }
}
