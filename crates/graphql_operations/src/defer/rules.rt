ghost use Rattle.std.specs.Prelude.{◌≡◌, ◌↔◌, All, Contains, IfOk, IsTrue, List, map};
ghost use Rattle.graphql_specification.specs.Defer.{CanBeDisabled, defers};
ghost use Rattle.graphql_nodes.specs.Names.{NameText};
ghost use Rattle.graphql_diagnostics.specs.Reports.{Checks, ChecksWithin};
ghost use Rattle.graphql_documents.specs.Selections.{fragments_of};
ghost use Rattle.graphql_documents.specs.Walks.{HasListed, PassesDepth};
ghost use Rattle.graphql_documents.specs.declared.documents.directives.Directive.{Directive};
ghost use Rattle.graphql_nodes.specs.declared.nodes.Node.{Node};
ghost use Rattle.graphql_documents.specs.declared.documents.values.Value.TheVariants as literal;
ghost use Rattle.graphql_operations.specs.OperationDefers.{DirectivesDeferReport, SelectionsDeferReport, SelectionDeferReport, HoldsAt, IsVisited, MeetsIfDeferred, Meets, DeferRuleReport, RuleHolds, RuleLimit, broken_by, concerns, is_defer, walk_of};

use super::DEFER_DIRECTIVE_NAME;
use graphql_diagnostics::{BuildError, Details, DiagnosticData, DiagnosticList};
use graphql_documents::documents::{Directive, ExecutableDocument, Selection, SelectionSet, Value};
use graphql_nodes::{Node, OperationType, ValidationError};
use graphql_variables::conditions::{argument_value, directives_of, is_literally};
use graphql_variables::{Walked, walk_open_selections, walk_selections};
use std::alloc::Global;

/// What must hold of each `@defer` that a walk over an operation visits.
#[derive(Clone, Copy)]
pub(super) enum DeferRule {
    /// There is none on a fragment at the root of an operation of this type.
    NotAtRoot(OperationType),
    /// It can be disabled.
    CanBeDisabled,
}

impl DeferRule {
    /// Reports each `@defer` below a set that breaks the rule, in order of the walk, and behind them a
    /// limit if the walk passed its limit.
    pub(super) fn check(
        self,
        diagnostics: &mut DiagnosticList,
        document: &ExecutableDocument,
        set: &SelectionSet,
    ) -> Result<(), ValidationError>
        ensures { ChecksWithin result (RuleHolds self (fragments_of document.now) set.now)
            (DeferRuleReport self (fragments_of document.now) set.now)
            (RuleLimit self (fragments_of document.now) set.now)
            diagnostics.old diagnostics.new }
    {
        let walked = self.walk(diagnostics.allocator(), document, set)?;
        self.check_selections(diagnostics, &walked.selections)?;
        if walked.complete {
            return Ok(());
        }
        diagnostics.push(None, Details::Diagnostic(DiagnosticData::RecursionError))
    }

    /// Walks over the selections that the rule is about.
    fn walk<'doc>(
        self,
        alloc: Global,
        document: &'doc ExecutableDocument,
        set: &'doc SelectionSet,
    ) -> Result<Walked<'doc>, ValidationError>
        ensures { IfOk result (λ walked. HasListed (IsVisited self (fragments_of document.now) set.now)
            (PassesDepth (fragments_of document.now) (walk_of self) set.now)
            (map (λ s. s.now) walked.selections.items) walked.complete) }
    {
        match self {
            DeferRule::NotAtRoot(_) => walk_selections(alloc, document, set),
            DeferRule::CanBeDisabled => walk_open_selections(alloc, document, set),
        }
    }

    /// Reports each `@defer` on these selections that breaks the rule.
    fn check_selections(
        self,
        diagnostics: &mut DiagnosticList,
        selections: &[&Selection],
    ) -> Result<(), ValidationError>
        ensures { Checks result (All (λ s. HoldsAt self s.now) selections.now) (SelectionsDeferReport self selections.now) diagnostics.old diagnostics.new }
    {
        for selection in selections {
            self.check_selection(diagnostics, selection)?;
        }
        Ok(())
    }

    /// Reports each `@defer` on a selection that breaks the rule.
    fn check_selection(
        self,
        diagnostics: &mut DiagnosticList,
        selection: &Selection,
    ) -> Result<(), ValidationError>
        ensures { Checks result (HoldsAt self selection.now) (SelectionDeferReport self selection.now) diagnostics.old diagnostics.new }
    {
        if self.concerns(selection) {
            self.check_directives(diagnostics, directives_of(selection))
        } else {
            Ok(())
        }
    }

    /// Reports each `@defer` among these directives that breaks the rule.
    fn check_directives(
        self,
        diagnostics: &mut DiagnosticList,
        directives: &[Node<Directive>],
    ) -> Result<(), ValidationError>
        ensures { Checks result (All (Meets self) (defers directives.now)) (DirectivesDeferReport self directives.now) diagnostics.old diagnostics.new }
    {
        for directive in directives {
            self.check_directive(diagnostics, directive)?;
        }
        Ok(())
    }

    /// Reports a directive if it is a `@defer` that breaks the rule.
    fn check_directive(
        self,
        diagnostics: &mut DiagnosticList,
        directive: &Node<Directive>,
    ) -> Result<(), ValidationError>
        ensures { (directives : List (Node Directive)) → Contains directives directive.now →
            Checks result (MeetsIfDeferred self directive.now) (DirectivesDeferReport self directives) diagnostics.old diagnostics.new }
    {
        if !is_defer(directive) || self.is_visited_by(directive) {
            return Ok(());
        }
        diagnostics.push(directive.location, Details::Build(self.broken()))
    }

    /// Whether the rule is about a selection.
    fn concerns(self, selection: &Selection) -> bool
        ensures { result ≡ concerns self selection.now }
    {
        match self {
            DeferRule::NotAtRoot(_) => !matches!(selection, Selection::Field(_)),
            DeferRule::CanBeDisabled => true,
        }
    }

    /// Whether a `@defer` meets the rule.
    fn is_visited_by(self, directive: &Node<Directive>) -> bool
        ensures { IsTrue result ↔ Meets self directive.now }
    {
        match self {
            DeferRule::NotAtRoot(_) => false,
            DeferRule::CanBeDisabled => can_be_disabled(directive),
        }
    }

    /// What is reported where the rule is broken.
    fn broken(self) -> BuildError
        ensures { result ≡ broken_by self }
    {
        match self {
            DeferRule::NotAtRoot(operation_type) => {
                BuildError::DeferOnRootMutationOrSubscriptionField { operation_type }
            }
            DeferRule::CanBeDisabled => BuildError::DeferInSubscriptionMustBeConditional,
        }
    }
}

/// Whether a directive is `@defer`.
fn is_defer(directive: &Node<Directive>) -> bool
    ensures { result ≡ is_defer directive.now }
{
    directive.value.name.as_str() == DEFER_DIRECTIVE_NAME
}

/// Whether the argument `if` of a directive is literally false or a variable.
fn can_be_disabled(directive: &Node<Directive>) -> bool
    ensures { IsTrue result ↔ CanBeDisabled directive.now }
{
    is_literally(false, &directive.value)
        || argument_value(&directive.value, "if").is_some_and(|value| is_variable(&value.value))
}

/// Whether a value is a variable.
fn is_variable(value: &Value) -> bool
    ensures { IsTrue result ↔ ((name : NameText) × (value.now ≡ literal.Variable name)) }
{
    matches!(value, Value::Variable(_))
}
