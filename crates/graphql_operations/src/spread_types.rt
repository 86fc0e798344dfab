ghost use Rattle.std.specs.Option.{option_copied};
ghost use Rattle.std.specs.Prelude.{◌≡◌, Some};
ghost use Rattle.graphql_diagnostics.specs.Diagnostics.{IsDiagnostic};
ghost use Rattle.graphql_specification.specs.Fragments.{IsPossibleAt};
ghost use Rattle.graphql_diagnostics.specs.Reports.{Checks};
ghost use Rattle.graphql_documents.specs.Schemas.{type_definition};
ghost use Rattle.graphql_documents.specs.declared.documents.schemas.Schema.{Schema};
ghost use Rattle.graphql_operations.specs.FragmentUses.{UseReport};

use super::context::OperationValidationContext;
use super::possible_types::one_is_object_of_other;
use graphql_diagnostics::{Details, DiagnosticData, DiagnosticList};
use graphql_documents::documents::{
    ExtendedType, Fragment, FragmentSpread, InlineFragment, Schema,
};
use graphql_nodes::{Name, NamedType, Node, SourceSpan, ValidationError};
use std::alloc::AllocError;

/// How a fragment comes to be on a type.
#[derive(Clone, Copy)]
pub enum FragmentUse<'a> {
    /// By a spread, with the fragment that it names.
    Spread(&'a Node<FragmentSpread>, &'a Node<Fragment>),
    /// In place.
    Inline(&'a Node<InlineFragment>),
}

/// Reports a spread or an inline fragment, at its place, if what its condition selects can never be visited
/// on the type around it: the condition is another type, and no object is a value of both. Where one of the
/// two is not defined nothing is reported. The only error is a failed allocation.
///
/// Specification: 5.5.2.3 Fragment Spread Is Possible.
pub fn validate_fragment_spread_type<'a>(
    diagnostics: &mut DiagnosticList,
    schema: &'a Schema,
    parent: &NamedType,
    condition: &NamedType,
    fragment_use: FragmentUse<'_>,
    context: &mut OperationValidationContext<'a>,
) -> Result<(), ValidationError>
    requires { option_copied context.old.schema ≡ Some schema.now }
    ensures checks { Checks result (IsPossibleAt schema.now condition.now (Some parent.now))
        (IsDiagnostic (UseReport (Some schema.now) condition.now (Some parent.now) fragment_use.entry)) diagnostics.old diagnostics.new }
    ensures schema { context.new.schema ≡ context.old.schema }
    ensures variables { context.new.variables ≡ context.old.variables }
    ensures visited_fragments { context.new.visited_fragments ≡ context.old.visited_fragments }
{
    if condition == parent {
        return Ok(());
    }
    let Some(selected) = schema.types.get(condition) else {
        return Ok(());
    };
    let Some(around) = schema.types.get(parent) else {
        return Ok(());
    };
    if one_is_object_of_other(selected, around) {
        return Ok(());
    }
    if context.have_common_object(diagnostics.allocator(), schema, selected, around)? {
        return Ok(());
    }
    report_impossible(diagnostics, condition, parent, around, fragment_use)
}

/// Reports a use of a fragment that can never be visited on the type around it.
fn report_impossible(
    diagnostics: &mut DiagnosticList,
    condition: &NamedType,
    parent: &NamedType,
    around: &ExtendedType,
    fragment_use: FragmentUse<'_>,
) -> Result<(), ValidationError>
    ensures { (schema : Schema) → type_definition schema parent.now ≡ Some around.now →
        ¬ IsPossibleAt schema condition.now (Some parent.now) →
        Checks result (IsPossibleAt schema condition.now (Some parent.now))
        (IsDiagnostic (UseReport (Some schema) condition.now (Some parent.now) fragment_use.entry)) diagnostics.old diagnostics.new }
{
    let name = fragment_use.name()?;
    let type_condition = condition.clone()?;
    let type_name = parent.clone()?;
    diagnostics.push(
        fragment_use.location(),
        Details::Diagnostic(DiagnosticData::InvalidFragmentSpread {
            name,
            type_condition,
            type_name,
            fragment_location: fragment_use.fragment_location(),
            type_location: around.location(),
        }),
    )
}

impl<'a> FragmentUse<'a> {
    ghost use Rattle.std.specs.Prelude.{◌≡◌, IfOk};
    ghost use Rattle.graphql_operations.specs.FragmentUses.{name_of_use, place_of_fragment, place_of_use};

    /// The name by which the fragment is spread; none for an inline fragment.
    fn name(self) -> Result<Option<Name>, AllocError>
        ensures { IfOk result (λ name. name ≡ name_of_use self.entry) }
    {
        match self {
            FragmentUse::Spread(spread, _) => Ok(Some(spread.value.fragment_name.clone()?)),
            FragmentUse::Inline(_) => Ok(None),
        }
    }

    /// Where the fragment is used.
    fn location(self) -> Option<SourceSpan>
        ensures { result ≡ place_of_use self.entry }
    {
        match self {
            FragmentUse::Spread(spread, _) => spread.location,
            FragmentUse::Inline(fragment) => fragment.location,
        }
    }

    /// Where the fragment is defined.
    fn fragment_location(self) -> Option<SourceSpan>
        ensures { result ≡ place_of_fragment self.entry }
    {
        match self {
            FragmentUse::Spread(_, fragment) => fragment.location,
            FragmentUse::Inline(fragment) => fragment.location,
        }
    }
}
