//! Selections of a document of whose fragments nothing is known, each with what is below it.

ghost use Rattle.std.specs.Prelude.{◌≡◌, ◌∷◌, []};
ghost use Rattle.graphql_diagnostics.specs.Diagnostics.{entries};
ghost use Rattle.graphql_documents.specs.Selections.{fragments_of, selections_of};
ghost use Rattle.graphql_documents.specs.declared.documents.executables.Selection.TheVariants as kind;
ghost use Rattle.graphql_operations.specs.Contexts.{IsAgainst, SharesWith, visited_fragment_names, parent_of, schema_of, variables_of};
ghost use Rattle.graphql_rules.specs.SelectionSteps.{FragmentWalks, Walks};

use super::walk::{
    walk_field, walk_fragment_definition, walk_fragment_spread, walk_inline_fragment,
    walk_selection_set,
};
use graphql_diagnostics::DiagnosticList;
use graphql_documents::documents::{
    ExecutableDocument, Field, Fragment, FragmentSpread, InlineFragment, Schema, SelectionSet,
};
use graphql_nesting::DocumentLevels;
use graphql_nodes::{NamedType, Node, ValidationError};
use graphql_operations::OperationValidationContext;

/// Validates each selection of a set, with what is below it, in the order in which they are written.
///
/// Without a type, as without a schema or below an unknown root, only what needs none is validated. The only
/// error is a failed allocation.
///
/// Specification: 5.3 Fields; 5.4 Arguments; 5.5 Fragments; 5.6 Values; 5.7 Directives.
pub fn validate_selection_set<'a>(
    diagnostics: &mut DiagnosticList,
    document: &'a ExecutableDocument,
    against_type: Option<(&'a Schema, &'a NamedType)>,
    selection_set: &'a SelectionSet,
    context: &mut OperationValidationContext<'a>,
) -> Result<(), ValidationError>
    requires { IsAgainst (schema_of context.old) against_type }
    ensures walks { Walks result (schema_of context.old) (fragments_of document.now) (variables_of context.old) (parent_of against_type.entry)
        (selections_of selection_set.now) (visited_fragment_names context.old) (visited_fragment_names context.new) (entries diagnostics.old) (entries diagnostics.new) }
    ensures context { SharesWith context.old context.new }
{
    let document = DocumentLevels::unknown(document);
    walk_selection_set(diagnostics, &document, against_type, selection_set, context)
}

/// Validates a field, with what is below it.
///
/// Reports come in this order: of its directives; its repeated arguments; each argument, that it is unknown,
/// or that its variable is not allowed there, or else what its value breaks; the required arguments that are
/// missing; a missing selection, or else what is below. A field that its type lacks is not reported, and what
/// is below it is not looked at. The only error is a failed allocation.
///
/// Specification: 5.3 Fields; 5.4 Arguments; 5.7 Directives.
pub fn validate_field<'a>(
    diagnostics: &mut DiagnosticList,
    document: &'a ExecutableDocument,
    against_type: Option<(&'a Schema, &'a NamedType)>,
    field: &'a Node<Field>,
    context: &mut OperationValidationContext<'a>,
) -> Result<(), ValidationError>
    requires { IsAgainst (schema_of context.old) against_type }
    ensures walks { Walks result (schema_of context.old) (fragments_of document.now) (variables_of context.old) (parent_of against_type.entry)
        (kind.Field field.now ∷ []) (visited_fragment_names context.old) (visited_fragment_names context.new) (entries diagnostics.old) (entries diagnostics.new) }
    ensures context { SharesWith context.old context.new }
{
    let document = DocumentLevels::unknown(document);
    walk_field(diagnostics, &document, against_type, field, context)
}

/// Validates an inline fragment, with the selections in it.
///
/// Reports come in this order: of its directives; that its condition is no composite type, or else that it
/// cannot be visited on the type around, and then of the selections in it. The only error is a failed
/// allocation.
///
/// Specification: 5.5.1.3 Fragments on Composite Types; 5.5.2.3 Fragment Spread Is Possible.
pub fn validate_inline_fragment<'a>(
    diagnostics: &mut DiagnosticList,
    document: &'a ExecutableDocument,
    against_type: Option<(&'a Schema, &'a NamedType)>,
    inline: &'a Node<InlineFragment>,
    context: &mut OperationValidationContext<'a>,
) -> Result<(), ValidationError>
    requires { IsAgainst (schema_of context.old) against_type }
    ensures walks { Walks result (schema_of context.old) (fragments_of document.now) (variables_of context.old) (parent_of against_type.entry)
        (kind.InlineFragment inline.now ∷ []) (visited_fragment_names context.old) (visited_fragment_names context.new) (entries diagnostics.old) (entries diagnostics.new) }
    ensures context { SharesWith context.old context.new }
{
    let document = DocumentLevels::unknown(document);
    walk_inline_fragment(diagnostics, &document, against_type, inline, context)
}

/// Validates a spread, and its fragment where it was not visited before.
///
/// Reports come in this order: of its directives; that no fragment has its name, or else that its fragment
/// cannot be visited on the type around; and then of the fragment. The only error is a failed allocation.
///
/// Specification: 5.5.2 Fragment Spreads.
pub fn validate_fragment_spread<'a>(
    diagnostics: &mut DiagnosticList,
    document: &'a ExecutableDocument,
    against_type: Option<(&'a Schema, &'a NamedType)>,
    spread: &'a Node<FragmentSpread>,
    context: &mut OperationValidationContext<'a>,
) -> Result<(), ValidationError>
    requires { IsAgainst (schema_of context.old) against_type }
    ensures walks { Walks result (schema_of context.old) (fragments_of document.now) (variables_of context.old) (parent_of against_type.entry)
        (kind.FragmentSpread spread.now ∷ []) (visited_fragment_names context.old) (visited_fragment_names context.new) (entries diagnostics.old) (entries diagnostics.new) }
    ensures context { SharesWith context.old context.new }
{
    let document = DocumentLevels::unknown(document);
    walk_fragment_spread(diagnostics, &document, against_type, spread, context)
}

/// Validates a fragment with the variables of an operation that reaches it, and the selections in it.
///
/// Reports come in this order: of its directives; that its condition is no composite type; that it spreads
/// itself, or nests too deep; and where neither was reported, of the selections in it. The only error is a
/// failed allocation.
///
/// Specification: 5.5.1.3 Fragments on Composite Types; 5.5.2.2 Fragment Spreads Must Not Form Cycles.
pub fn validate_fragment_definition<'a>(
    diagnostics: &mut DiagnosticList,
    document: &'a ExecutableDocument,
    fragment: &'a Node<Fragment>,
    context: &mut OperationValidationContext<'a>,
) -> Result<(), ValidationError>
    ensures walks { FragmentWalks result (schema_of context.old) (fragments_of document.now) (variables_of context.old)
        fragment.now (visited_fragment_names context.old) (visited_fragment_names context.new) (entries diagnostics.old) (entries diagnostics.new) }
    ensures context { SharesWith context.old context.new }
{
    let document = DocumentLevels::unknown(document);
    walk_fragment_definition(diagnostics, &document, fragment, false, context)
}
