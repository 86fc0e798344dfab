ghost use Rattle.std.specs.Prelude.{◌≡◌, ◌+◌, ◌∷◌, ◌⊎◌, [], IfOk, List, MatchResult, OnOk, filter_map, map};
ghost use Rattle.graphql_diagnostics.specs.Diagnostics.{IsDiagnostic};
ghost use Rattle.graphql_specification.specs.DirectiveCycles.{DirectiveLimit, directive_depth_limit, DirectiveHasNoCycle, HasLongDirectivePath, HasLongTypePath, IsDirectiveCycle, SchemaReference, applied, by_directive, by_type, DirectiveCycleReport};
ghost use Rattle.graphql_diagnostics.specs.Reports.{ChecksWithin};
ghost use Rattle.graphql_nodes.specs.Spans.{recompose};
ghost use Rattle.graphql_documents.specs.declared.documents.schemas.Schema.{Schema};
ghost use Rattle.graphql_cycles.specs.CycleSearches.{Traces};
ghost use Rattle.graphql_cycles.specs.DirectiveSearches.{BeginsAt, IsBeginning, KeepsPaths, LeadsToError, SearchesFor};
ghost use Rattle.graphql_cycles.specs.References.{is_off_path, reference_of};

use super::schema_references::{Reference, references_of_directive, references_of_type};
use super::steps::{mark, trace_step};
use graphql_diagnostics::{Details, DiagnosticData, DiagnosticList};
use graphql_documents::documents::{Directive, DirectiveDefinition, ExtendedType, Schema};
use graphql_guards::{CycleError, RecursionStack};
use graphql_hash_seeds::HashSeed;
use graphql_nodes::{Name, NamedType, Node, SourceSpan, ValidationError};
use indexmap::IndexSet;
use std::alloc::Global;

/// Reports a directive definition that leads back to itself, by the directives that are applied on its
/// arguments and in their types, with one cycle: the applications on the way, from the one that leads back
/// to the definition's own. A definition that only reaches the cycle of another is not reported.
///
/// Where a path of references goes through more than 32 directives, or more than 32 types, before a cycle is
/// found, that is reported instead, at the head of the definition. The only error is a failed allocation.
///
/// Specification: 3.13 Directives.
pub fn validate_directive_cycles(
    diagnostics: &mut DiagnosticList,
    schema: &Schema,
    definition: &Node<DirectiveDefinition>,
) -> Result<(), ValidationError>
    ensures { ChecksWithin result (DirectiveHasNoCycle schema.now definition.now)
        (IsDiagnostic (DirectiveCycleReport schema.now definition.now))
        (λ e. DirectiveLimit schema.now definition.now e.details e.location) diagnostics.old diagnostics.new }
{
    match search_from(diagnostics.allocator(), schema, definition) {
        Ok(()) => Ok(()),
        Err(CycleError::Recursed(trace)) => report_cycle(diagnostics, definition, trace),
        Err(CycleError::Limit) => report_nesting(diagnostics, definition),
        Err(CycleError::Memory) => Err(ValidationError::OutOfMemory),
    }
}

/// Searches all to which the arguments of a directive definition lead for a way back to it.
fn search_from(
    alloc: Global,
    schema: &Schema,
    definition: &Node<DirectiveDefinition>,
) -> Result<(), CycleError<Directive>>
    ensures { MatchResult result (λ _. DirectiveHasNoCycle schema.now definition.now) (LeadsToError schema.now definition.now) }
{
    let Ok(references) = references_of_directive(alloc, definition) else {
        return Err(CycleError::Memory);
    };
    let Ok(mut progress) = Progress::from_root(alloc, schema.hash_seed(), &definition.value.name)
    else {
        return Err(CycleError::Memory);
    };
    let search = DirectiveSearch {
        alloc,
        schema,
        root: definition,
    };
    search.search_references(&references, &mut progress)
}

/// Reports a directive definition that leads back to itself.
fn report_cycle(
    diagnostics: &mut DiagnosticList,
    definition: &Node<DirectiveDefinition>,
    trace: Vec<Node<Directive>>,
) -> Result<(), ValidationError>
    ensures { (schema : Schema) (path : List SchemaReference) →
        IsDirectiveCycle schema definition.now path → Traces trace.items (filter_map applied path) →
        ChecksWithin result (DirectiveHasNoCycle schema definition.now)
        (IsDiagnostic (DirectiveCycleReport schema definition.now))
        (λ e. DirectiveLimit schema definition.now e.details e.location) diagnostics.old diagnostics.new }
{
    let head = head_of(definition);
    let name = definition.value.name.clone()?;
    diagnostics.push(
        head,
        Details::Diagnostic(DiagnosticData::RecursiveDirectiveDefinition { name, trace }),
    )
}

/// Reports a directive definition from which a path goes through too many directives or types.
fn report_nesting(
    diagnostics: &mut DiagnosticList,
    definition: &Node<DirectiveDefinition>,
) -> Result<(), ValidationError>
    ensures { (schema : Schema) →
        HasLongDirectivePath schema definition.now (directive_depth_limit + 1) ⊎ HasLongTypePath schema definition.now (directive_depth_limit + 1) →
        ChecksWithin result (DirectiveHasNoCycle schema definition.now)
        (IsDiagnostic (DirectiveCycleReport schema definition.now))
        (λ e. DirectiveLimit schema definition.now e.details e.location) diagnostics.old diagnostics.new }
{
    let head = head_of(definition);
    let name = definition.value.name.clone()?;
    diagnostics.push(
        head,
        Details::Diagnostic(DiagnosticData::DeeplyNestedType {
            name,
            describe_type: "directive",
        }),
    )
}

/// Where the head of a directive definition is: from its start to the end of its name.
fn head_of(definition: &Node<DirectiveDefinition>) -> Option<SourceSpan>
    ensures { result ≡ recompose definition.now.location definition.now.value.value.name.location }
{
    SourceSpan::recompose(definition.location, definition.value.name.location())
}

/// What a search for a cycle goes over, and the directive that it seeks.
#[derive(Drop)]
struct DirectiveSearch<'schema> {
    alloc: Global,
    schema: &'schema Schema,
    root: &'schema Node<DirectiveDefinition>,
}

/// How far a search is: the directives and the types on its path, and the names of all that it has visited.
#[derive(Drop)]
struct Progress<'schema> {
    directive_path: RecursionStack,
    type_path: RecursionStack,
    seen_directives: IndexSet<&'schema Name, HashSeed>,
    seen_types: IndexSet<&'schema NamedType, HashSeed>,
}

impl Progress<'_> {
    /// The beginning of a search: its root is on the path of directives, and nothing was visited.
    fn from_root<'schema>(
        alloc: Global,
        hash_seed: HashSeed,
        root: &Name,
    ) -> Result<Progress<'schema>, ValidationError>
        ensures { IfOk result (IsBeginning root.now) }
    {
        let directive_path = RecursionStack::with_root(alloc, root.clone()?)?;
        Ok(Progress {
            directive_path,
            type_path: RecursionStack::new(alloc),
            seen_directives: IndexSet::with_hasher(alloc, hash_seed),
            seen_types: IndexSet::with_hasher(alloc, hash_seed),
        })
    }
}

impl<'schema> DirectiveSearch<'schema> {
    /// Searches the definitions to which references lead, but none again that was visited. The search ends where
    /// an application leads back to the root, or a path is full.
    #[cycle(search)]
    fn search_references(
        &self,
        references: &[Reference<'schema>],
        progress: &mut Progress<'schema>,
    ) -> Result<(), CycleError<Directive>>
        requires { BeginsAt self.now progress.old }
        ensures searches { SearchesFor self.now (map reference_of references.now) progress.old progress.new result }
        ensures paths { OnOk result (KeepsPaths progress.old progress.new) }
    {
        for reference in references {
            self.search_reference(*reference, progress)?;
        }
        Ok(())
    }

    /// Searches the definition to which a reference leads, if it was not visited. The search ends if an
    /// application leads back to the root, or if a path is full.
    #[cycle(search)]
    fn search_reference(
        &self,
        reference: Reference<'schema>,
        progress: &mut Progress<'schema>,
    ) -> Result<(), CycleError<Directive>>
        requires { BeginsAt self.now progress.old }
        ensures searches { SearchesFor self.now (reference_of reference.entry ∷ []) progress.old progress.new result }
        ensures paths { OnOk result (KeepsPaths progress.old progress.new) }
    {
        match reference {
            Reference::Directive(application) => self.search_application(application, progress),
            Reference::Type(name) => self.search_type(name, progress),
        }
    }

    /// Searches the definition of a directive that is applied, if its name was not seen: marks the name, and
    /// searches the definition if there is one. The search ends if the application leads back to the root, or if
    /// a path is full.
    #[cycle(search)]
    fn search_application(
        &self,
        application: &'schema Node<Directive>,
        progress: &mut Progress<'schema>,
    ) -> Result<(), CycleError<Directive>>
        requires { BeginsAt self.now progress.old }
        ensures searches { SearchesFor self.now (by_directive application.now ∷ []) progress.old progress.new result }
        ensures paths { OnOk result (KeepsPaths progress.old progress.new) }
    {
        let name = &application.value.name;
        let leads_back = *name == self.root.value.name;
        if leads_back {
            return Err(trace_step(CycleError::Recursed(Vec::new(self.alloc)), application));
        }
        // Each name on the path but the root's is marked, so what is there is passed over too.
        if !mark(&mut progress.seen_directives, name)? {
            return Ok(());
        }
        let Some(definition) = self.schema.directive_definitions.get(name) else {
            return Ok(());
        };
        let Ok(references) = references_of_directive(self.alloc, definition) else {
            return Err(CycleError::Memory);
        };
        progress.directive_path.enter(name)?;
        match self.search_references(&references, progress) {
            Ok(()) => {
                progress.directive_path.leave();
                Ok(())
            }
            Err(error) => Err(trace_step(error, application)),
        }
    }

    /// Searches the type of this name, if the name was not seen: marks the name, and searches the type if it is
    /// defined. A type that every schema has goes on the path only as an input object: no other one leads to a
    /// type. The search ends if an application leads back to the root, or if a path is full.
    #[cycle(search)]
    fn search_type(
        &self,
        name: &'schema NamedType,
        progress: &mut Progress<'schema>,
    ) -> Result<(), CycleError<Directive>>
        requires { BeginsAt self.now progress.old }
        ensures searches { SearchesFor self.now (by_type name.now ∷ []) progress.old progress.new result }
        ensures paths { OnOk result (KeepsPaths progress.old progress.new) }
    {
        if !mark(&mut progress.seen_types, name)? {
            return Ok(());
        }
        let Some(definition) = self.schema.types.get(name) else {
            return Ok(());
        };
        let Ok(references) = references_of_type(self.alloc, definition) else {
            return Err(CycleError::Memory);
        };
        if is_off_path(definition) {
            return self.search_references(&references, progress);
        }
        progress.type_path.enter(name)?;
        self.search_references(&references, progress)?;
        progress.type_path.leave();
        Ok(())
    }
}

/// Whether the definition of a type goes on no path.
fn is_off_path(definition: &ExtendedType) -> bool
    ensures { result ≡ is_off_path definition.now }
{
    definition.is_built_in() && !matches!(definition, ExtendedType::InputObject(_))
}
