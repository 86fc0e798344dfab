ghost use Rattle.std.specs.Prelude.{◌≡◌, ◌≢◌, Option, Some, None, false, IfOk, IsTrue};
ghost use Rattle.std.specs.Option.{option_copied};
ghost use Rattle.graphql_diagnostics.specs.Diagnostics.{IsDiagnostic, IsLimitEntry, entries};
ghost use Rattle.graphql_specification.specs.Fragments.{FragmentHasNoCycle, FragmentHolds, InlineFragmentHolds, IsPossibleIn, TargetHolds, FragmentLimit, FragmentFormReport, InlineFragmentConditionReport, SpreadTargetReport, FragmentReport, InlineFragmentReport, SpreadReport};
ghost use Rattle.graphql_diagnostics.specs.Reports.{Checks, ChecksWithin, KeepsReports};
ghost use Rattle.graphql_nodes.specs.Names.{NameText};
ghost use Rattle.graphql_documents.specs.Selections.{Fragments, fragments_of};
ghost use Rattle.graphql_operations.specs.Contexts.{IsAgainst, StaysAsItWas, parent_of, schema_of, variables_of};
ghost use Rattle.graphql_rules.specs.SelectionSteps.{ConditionHolds, SpreadStands, IsUndefined};

use graphql_cycles::fragments::validate_fragment_cycles;
use graphql_diagnostics::{Details, DiagnosticData, DiagnosticList};
use graphql_documents::documents::{
    ExecutableDocument, Fragment, FragmentSpread, InlineFragment, Schema,
};
use graphql_nodes::{DirectiveLocation, NamedType, Node, ValidationError};
use graphql_operations::{
    FragmentUse, OperationValidationContext, validate_fragment_spread_type,
    validate_fragment_type_condition,
};
use graphql_values::directive::check_each_directive;

/// Validates an inline fragment, the selections in it apart, and answers whether these are to be
/// validated: not where its condition is no composite type.
pub(super) fn check_inline_fragment<'a>(
    diagnostics: &mut DiagnosticList,
    against_type: Option<(&'a Schema, &NamedType)>,
    inline: &Node<InlineFragment>,
    context: &mut OperationValidationContext<'a>,
) -> Result<bool, ValidationError>
    requires { IsAgainst (schema_of context.old) against_type }
    ensures checks { Checks result (InlineFragmentHolds (schema_of context.old) (variables_of context.old) (parent_of against_type.entry) inline.now.value.value)
        (IsDiagnostic (InlineFragmentReport (schema_of context.old) (variables_of context.old) (parent_of against_type.entry) inline.now))
        diagnostics.old diagnostics.new }
    ensures goes_on { IfOk result (λ goes_on. IsTrue goes_on → (condition : NameText) → inline.now.value.value.type_condition ≡ Some condition →
        TargetHolds (schema_of context.old) condition) }
    ensures answer { IfOk result (λ goes_on. goes_on ≡ false → ¬ InlineFragmentHolds (schema_of context.old) (variables_of context.old) (parent_of against_type.entry) inline.now.value.value) }
    ensures context { StaysAsItWas context.old context.new }
{
    check_each_directive(
        diagnostics,
        context.schema,
        &inline.value.directives,
        DirectiveLocation::InlineFragment,
        &context.variables,
    )?;
    match &inline.value.type_condition {
        Some(condition) => check_condition(diagnostics, against_type, inline, condition, context),
        None => Ok(true),
    }
}

/// Validates the condition of an inline fragment, and answers whether it is a composite type, if there is
/// a schema.
fn check_condition<'a>(
    diagnostics: &mut DiagnosticList,
    against_type: Option<(&'a Schema, &NamedType)>,
    inline: &Node<InlineFragment>,
    condition: &NamedType,
    context: &mut OperationValidationContext<'a>,
) -> Result<bool, ValidationError>
    requires against { IsAgainst (schema_of context.old) against_type }
    requires condition { inline.now.value.value.type_condition ≡ Some condition.now }
    ensures checks { Checks result (ConditionHolds (schema_of context.old) (parent_of against_type.entry) condition.now)
        (IsDiagnostic (InlineFragmentConditionReport (schema_of context.old) (parent_of against_type.entry) inline.now))
        diagnostics.old diagnostics.new }
    ensures answer { IfOk result (λ goes_on. goes_on ≡ false → ¬ TargetHolds (schema_of context.old) condition.now) }
    ensures goes_on { IfOk result (λ goes_on. IsTrue goes_on → TargetHolds (schema_of context.old) condition.now) }
    ensures context { StaysAsItWas context.old context.new }
{
    let Some(schema) = context.schema else {
        return Ok(true);
    };
    let before = diagnostics.len();
    validate_fragment_type_condition(diagnostics, schema, None, condition, inline.location)?;
    if diagnostics.len() > before {
        return Ok(false);
    }
    if let Some((schema, parent)) = against_type {
        let inline = FragmentUse::Inline(inline);
        validate_fragment_spread_type(diagnostics, schema, parent, condition, inline, context)?;
    }
    Ok(true)
}

/// Validates a spread, its fragment apart, and answers that.
pub(super) fn check_spread<'a>(
    diagnostics: &mut DiagnosticList,
    document: &'a ExecutableDocument,
    against_type: Option<(&'a Schema, &NamedType)>,
    spread: &Node<FragmentSpread>,
    context: &mut OperationValidationContext<'a>,
) -> Result<Option<&'a Node<Fragment>>, ValidationError>
    requires { IsAgainst (schema_of context.old) against_type }
    ensures checks { Checks result (SpreadStands (schema_of context.old) (fragments_of document.now) (variables_of context.old) (parent_of against_type.entry) spread.now.value.value)
        (IsDiagnostic (SpreadReport (schema_of context.old) (fragments_of document.now) (variables_of context.old) (parent_of against_type.entry) spread.now))
        diagnostics.old diagnostics.new }
    ensures found { IfOk result (λ fragment. option_copied fragment ≡ fragments_of document.now spread.now.value.value.fragment_name) }
    ensures context { StaysAsItWas context.old context.new }
{
    check_each_directive(
        diagnostics,
        context.schema,
        &spread.value.directives,
        DirectiveLocation::FragmentSpread,
        &context.variables,
    )?;
    let Some(fragment) = document.fragments.get(&spread.value.fragment_name) else {
        report_undefined_fragment(diagnostics, spread)?;
        return Ok(None);
    };
    check_possible(diagnostics, against_type, spread, fragment, context)?;
    Ok(Some(fragment))
}

/// Reports a spread that names no fragment.
fn report_undefined_fragment(
    diagnostics: &mut DiagnosticList,
    spread: &Node<FragmentSpread>,
) -> Result<(), ValidationError>
    ensures { Checks result ⊥ (IsDiagnostic (IsUndefined spread.now)) diagnostics.old diagnostics.new }
{
    let name = spread.value.fragment_name.clone()?;
    diagnostics.push(
        spread.location,
        Details::Diagnostic(DiagnosticData::UndefinedFragment { name }),
    )
}

/// Reports a spread whose fragment cannot be visited on the type around, where that is known.
fn check_possible<'a>(
    diagnostics: &mut DiagnosticList,
    against_type: Option<(&'a Schema, &NamedType)>,
    spread: &Node<FragmentSpread>,
    fragment: &Node<Fragment>,
    context: &mut OperationValidationContext<'a>,
) -> Result<(), ValidationError>
    requires { IsAgainst (schema_of context.old) against_type }
    ensures checks { (fragments : Fragments) → fragments spread.now.value.value.fragment_name ≡ Some fragment.now →
        Checks result (IsPossibleIn (schema_of context.old) fragment.now.value.value.selection_set.ty (parent_of against_type.entry))
        (IsDiagnostic (SpreadTargetReport (schema_of context.old) fragments (parent_of against_type.entry) spread.now))
        diagnostics.old diagnostics.new }
    ensures context { StaysAsItWas context.old context.new }
{
    match against_type {
        Some((schema, parent)) => {
            let condition = &fragment.value.selection_set.ty;
            let spread = FragmentUse::Spread(spread, fragment);
            validate_fragment_spread_type(diagnostics, schema, parent, condition, spread, context)
        }
        None => Ok(()),
    }
}

/// Validates a fragment, the selections in it apart, and answers whether these are to be validated: not
/// where its condition is no composite type, nor where it spreads itself or nests too deep. A cycle is searched unless it is
/// known that there is none.
pub(super) fn check_fragment(
    diagnostics: &mut DiagnosticList,
    document: &ExecutableDocument,
    fragment: &Node<Fragment>,
    has_no_cycle: bool,
    context: &OperationValidationContext,
) -> Result<bool, ValidationError>
    requires { IsTrue has_no_cycle → FragmentHasNoCycle (fragments_of document.now) fragment.now }
    ensures checks { ChecksWithin result (FragmentHolds (schema_of context.now) (fragments_of document.now) (variables_of context.now) fragment.now)
        (IsDiagnostic (FragmentReport (schema_of context.now) (fragments_of document.now) (variables_of context.now) fragment.now))
        (λ e. FragmentLimit (fragments_of document.now) fragment.now e.details e.location)
        diagnostics.old diagnostics.new }
    ensures answer { IfOk result (λ goes_on. goes_on ≡ false → entries diagnostics.new ≢ entries diagnostics.old) }
    ensures goes_on { IfOk result (λ goes_on. IsTrue goes_on →
        TargetHolds (schema_of context.now) fragment.now.value.value.selection_set.ty × FragmentHasNoCycle (fragments_of document.now) fragment.now) }
    ensures stops { IfOk result (λ goes_on. goes_on ≡ false → TargetHolds (schema_of context.now) fragment.now.value.value.selection_set.ty →
        FragmentHasNoCycle (fragments_of document.now) fragment.now → ¬ KeepsReports (λ e. ¬ IsLimitEntry e) (entries diagnostics.old) (entries diagnostics.new)) }
{
    check_each_directive(
        diagnostics,
        context.schema,
        &fragment.value.directives,
        DirectiveLocation::FragmentDefinition,
        &context.variables,
    )?;
    let before = diagnostics.len();
    check_target(diagnostics, context.schema, fragment)?;
    check_cycles(diagnostics, document, fragment, has_no_cycle)?;
    Ok(diagnostics.len() == before)
}

/// Reports a fragment whose condition is no composite type, where there is a schema.
fn check_target(
    diagnostics: &mut DiagnosticList,
    schema: Option<&Schema>,
    fragment: &Node<Fragment>,
) -> Result<(), ValidationError>
    ensures { (fragments : Fragments) → Checks result (TargetHolds (option_copied schema.entry) fragment.now.value.value.selection_set.ty)
        (IsDiagnostic (FragmentFormReport (option_copied schema.entry) fragments fragment.now))
        diagnostics.old diagnostics.new }
{
    let Some(schema) = schema else {
        return Ok(());
    };
    let name = fragment.value.name.clone()?;
    let condition = &fragment.value.selection_set.ty;
    validate_fragment_type_condition(
        diagnostics,
        schema,
        Some(name),
        condition,
        fragment.location,
    )
}

/// Reports a fragment that spreads itself, or from which a path goes through too many others, unless it is known that no path
/// leads back to it.
fn check_cycles(
    diagnostics: &mut DiagnosticList,
    document: &ExecutableDocument,
    fragment: &Node<Fragment>,
    has_no_cycle: bool,
) -> Result<(), ValidationError>
    requires { IsTrue has_no_cycle → FragmentHasNoCycle (fragments_of document.now) fragment.now }
    ensures { (schema : Option Schema) → ChecksWithin result (FragmentHasNoCycle (fragments_of document.now) fragment.now)
        (IsDiagnostic (FragmentFormReport schema (fragments_of document.now) fragment.now))
        (λ e. FragmentLimit (fragments_of document.now) fragment.now e.details e.location) diagnostics.old diagnostics.new }
{
    if has_no_cycle {
        return Ok(());
    }
    validate_fragment_cycles(diagnostics, document, fragment)
}
