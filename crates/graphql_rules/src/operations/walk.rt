//! The walk over selections: each with what is below it, in the order in which they are written.

ghost use Rattle.std.specs.Option.{option_copied};
ghost use Rattle.std.specs.Prelude.{◌≡◌, ◌∷◌, [], IsTrue};
ghost use Rattle.graphql_diagnostics.specs.Diagnostics.{entries};
ghost use Rattle.graphql_documents.specs.Selections.{fragments_of, selections_of, type_under};
ghost use Rattle.graphql_documents.specs.declared.documents.executables.Selection.TheVariants as kind;
ghost use Rattle.graphql_operations.specs.Contexts.{IsAgainst, SharesWith, visited_fragment_names, parent_of, schema_of, variables_of};
ghost use Rattle.graphql_rules.specs.SelectionSteps.{FragmentWalks, Walks};
ghost use Rattle.graphql_specification.specs.Fragments.{FragmentHasNoCycle};

use super::fields::{SubselectionParent, check_field};
use super::fragments::{check_fragment, check_inline_fragment, check_spread};
use graphql_cycles::fragments::is_known_without_cycle;
use graphql_diagnostics::DiagnosticList;
use graphql_documents::documents::{
    Field, Fragment, FragmentSpread, InlineFragment, Schema, Selection, SelectionSet,
};
use graphql_nesting::DocumentLevels;
use graphql_nodes::{NamedType, Node, ValidationError};
use graphql_operations::OperationValidationContext;

/// Validates each selection of a set, with what is below it.
#[cycle(selection)]
pub(super) fn walk_selection_set<'a>(
    diagnostics: &mut DiagnosticList,
    document: &DocumentLevels<'a>,
    against_type: Option<(&'a Schema, &'a NamedType)>,
    selection_set: &'a SelectionSet,
    context: &mut OperationValidationContext<'a>,
) -> Result<(), ValidationError>
    requires { IsAgainst (schema_of context.old) against_type }
    ensures walks { Walks result (schema_of context.old) (fragments_of document.now.document.now) (variables_of context.old) (parent_of against_type.entry)
        (selections_of selection_set.now) (visited_fragment_names context.old) (visited_fragment_names context.new) (entries diagnostics.old) (entries diagnostics.new) }
    ensures context { SharesWith context.old context.new }
{
    for selection in &selection_set.selections {
        walk_selection(diagnostics, document, against_type, selection, context)?;
    }
    Ok(())
}

/// Validates a selection, with what is below it.
#[cycle(selection)]
fn walk_selection<'a>(
    diagnostics: &mut DiagnosticList,
    document: &DocumentLevels<'a>,
    against_type: Option<(&'a Schema, &'a NamedType)>,
    selection: &'a Selection,
    context: &mut OperationValidationContext<'a>,
) -> Result<(), ValidationError>
    requires { IsAgainst (schema_of context.old) against_type }
    ensures walks { Walks result (schema_of context.old) (fragments_of document.now.document.now) (variables_of context.old) (parent_of against_type.entry)
        (selection.now ∷ []) (visited_fragment_names context.old) (visited_fragment_names context.new) (entries diagnostics.old) (entries diagnostics.new) }
    ensures context { SharesWith context.old context.new }
{
    match selection {
        Selection::Field(field) => {
            walk_field(diagnostics, document, against_type, field, context)
        }
        Selection::FragmentSpread(spread) => {
            walk_fragment_spread(diagnostics, document, against_type, spread, context)
        }
        Selection::InlineFragment(inline) => {
            walk_inline_fragment(diagnostics, document, against_type, inline, context)
        }
    }
}

/// Validates a field, with what is below it.
#[cycle(selection)]
pub(super) fn walk_field<'a>(
    diagnostics: &mut DiagnosticList,
    document: &DocumentLevels<'a>,
    against_type: Option<(&'a Schema, &'a NamedType)>,
    field: &'a Node<Field>,
    context: &mut OperationValidationContext<'a>,
) -> Result<(), ValidationError>
    requires { IsAgainst (schema_of context.old) against_type }
    ensures walks { Walks result (schema_of context.old) (fragments_of document.now.document.now) (variables_of context.old) (parent_of against_type.entry)
        (kind.Field field.now ∷ []) (visited_fragment_names context.old) (visited_fragment_names context.new) (entries diagnostics.old) (entries diagnostics.new) }
    ensures context { SharesWith context.old context.new }
{
    match check_field(diagnostics, against_type, field, context)? {
        SubselectionParent::Nowhere => Ok(()),
        SubselectionParent::On(ty) => {
            let set = &field.value.selection_set;
            walk_selection_set(diagnostics, document, ty, set, context)
        }
    }
}

/// Validates an inline fragment, with the selections in it.
#[cycle(selection)]
pub(super) fn walk_inline_fragment<'a>(
    diagnostics: &mut DiagnosticList,
    document: &DocumentLevels<'a>,
    against_type: Option<(&'a Schema, &'a NamedType)>,
    inline: &'a Node<InlineFragment>,
    context: &mut OperationValidationContext<'a>,
) -> Result<(), ValidationError>
    requires { IsAgainst (schema_of context.old) against_type }
    ensures walks { Walks result (schema_of context.old) (fragments_of document.now.document.now) (variables_of context.old) (parent_of against_type.entry)
        (kind.InlineFragment inline.now ∷ []) (visited_fragment_names context.old) (visited_fragment_names context.new) (entries diagnostics.old) (entries diagnostics.new) }
    ensures context { SharesWith context.old context.new }
{
    if !check_inline_fragment(diagnostics, against_type, inline, context)? {
        return Ok(());
    }
    let condition = inline.value.type_condition.as_ref();
    let under = type_below(context.schema, against_type, condition);
    let set = &inline.value.selection_set;
    walk_selection_set(diagnostics, document, under, set, context)
}

/// Validates a spread, and its fragment where it was not visited before.
#[cycle(selection)]
pub(super) fn walk_fragment_spread<'a>(
    diagnostics: &mut DiagnosticList,
    document: &DocumentLevels<'a>,
    against_type: Option<(&'a Schema, &'a NamedType)>,
    spread: &'a Node<FragmentSpread>,
    context: &mut OperationValidationContext<'a>,
) -> Result<(), ValidationError>
    requires { IsAgainst (schema_of context.old) against_type }
    ensures walks { Walks result (schema_of context.old) (fragments_of document.now.document.now) (variables_of context.old) (parent_of against_type.entry)
        (kind.FragmentSpread spread.now ∷ []) (visited_fragment_names context.old) (visited_fragment_names context.new) (entries diagnostics.old) (entries diagnostics.new) }
    ensures context { SharesWith context.old context.new }
{
    let Some(fragment) = check_spread(
        diagnostics,
        document.document,
        against_type,
        spread,
        context,
    )?
    else {
        return Ok(());
    };
    if context.enter(&spread.value.fragment_name)? {
        let known = is_known_without_cycle(document, &spread.value.fragment_name, fragment);
        walk_fragment_definition(diagnostics, document, fragment, known, context)
    } else {
        Ok(())
    }
}

/// Validates a fragment, and the selections in it. Where it is known to lead to no cycle, none is searched.
#[cycle(selection)]
pub(super) fn walk_fragment_definition<'a>(
    diagnostics: &mut DiagnosticList,
    document: &DocumentLevels<'a>,
    fragment: &'a Node<Fragment>,
    has_no_cycle: bool,
    context: &mut OperationValidationContext<'a>,
) -> Result<(), ValidationError>
    requires { IsTrue has_no_cycle → FragmentHasNoCycle (fragments_of document.now.document.now) fragment.now }
    ensures walks { FragmentWalks result (schema_of context.old) (fragments_of document.now.document.now) (variables_of context.old)
        fragment.now (visited_fragment_names context.old) (visited_fragment_names context.new) (entries diagnostics.old) (entries diagnostics.new) }
    ensures context { SharesWith context.old context.new }
{
    if !check_fragment(
        diagnostics,
        document.document,
        fragment,
        has_no_cycle,
        context,
    )? {
        return Ok(());
    }
    let set = &fragment.value.selection_set;
    let under = type_below(context.schema, None, Some(&set.ty));
    walk_selection_set(diagnostics, document, under, set, context)
}

/// The type under a condition, or else the type around, where there is a schema.
fn type_below<'a>(
    schema: Option<&'a Schema>,
    around: Option<(&'a Schema, &'a NamedType)>,
    condition: Option<&'a NamedType>,
) -> Option<(&'a Schema, &'a NamedType)>
    requires { IsAgainst (option_copied schema) around }
    ensures under { parent_of result ≡ type_under (option_copied schema.entry) (parent_of around.entry) (option_copied condition.entry) }
    ensures against { IsAgainst (option_copied schema.entry) result }
{
    match (schema, condition) {
        (Some(schema), Some(condition)) => Some((schema, condition)),
        _ => around,
    }
}
