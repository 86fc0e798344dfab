ghost use Rattle.std.specs.Prelude.{◌≡◌, ◌↔◌, [], ◌∷◌, All, Contains, IsTrue, IfOk, OnOk, MatchResult, map};
ghost use Rattle.graphql_diagnostics.specs.Diagnostics.{IsDiagnostic, entries};
ghost use Rattle.std.specs.List.{list_any};
ghost use Rattle.graphql_nodes.specs.Names.{NameText, different_names, same_name};
ghost use Rattle.graphql_diagnostics.specs.Reports.{Appends, Checks, KeepsReports};
ghost use Rattle.graphql_documents.specs.Selections.{Fragments, Reachable, fragments_of};
ghost use Rattle.graphql_specification.specs.Variables.{AreUnusedReports, AreUsesReports, UsesReport};
ghost use Rattle.graphql_documents.specs.VariableUses.{UsesVariable};
ghost use Rattle.graphql_documents.specs.declared.documents.executables.Operation.{Operation};
ghost use Rattle.graphql_documents.specs.declared.documents.executables.Selection.{Selection};
ghost use Rattle.graphql_variables.specs.Uses.{AreUsed, HasUsed, IsLastDefinition, IsNamedIn, NamesAlso, NamesDefinitions, UsedAt, UsedInDefinition, known_names, names_of};

use super::uses::{add_in_arguments, add_in_directives};
use super::walks::walk_selections_with_deduped_fragments;
use graphql_diagnostics::{Details, DiagnosticData, DiagnosticList};
use graphql_documents::documents::{ExecutableDocument, Operation, Selection, VariableDefinition};
use graphql_hash_seeds::HashSeed;
use graphql_nodes::{Name, Node, SourceSpan, ValidationError};
use indexmap::{IndexMap, IndexSet};
use std::alloc::Global;

/// Up to so many names are looked through for each one, which takes no more time than a set.
const FEW: usize = 8;

/// Names among which others are looked up.
#[derive(Drop)]
enum UsedNames<'doc> {
    Few(Vec<&'doc Name>),
    Many(IndexSet<&'doc Name, HashSeed>),
}

impl<'doc> UsedNames<'doc> {
    /// These names. Many are hashed by this seed.
    fn of(
        alloc: Global,
        hash_seed: HashSeed,
        names: Vec<&'doc Name>,
    ) -> Result<UsedNames<'doc>, ValidationError>
        ensures { IfOk result (λ used. AreUsed (IsNamedIn (names_of names.entry.items)) (known_names used)) }
    {
        if names.len() <= FEW {
            return Ok(UsedNames::Few(names));
        }
        Ok(UsedNames::Many(set_of(alloc, hash_seed, &names)?))
    }

    /// Whether this name is one of them.
    fn contains(&self, name: &Name) -> bool
        ensures { result ≡ list_any (λ used. same_name name.now used.now) (known_names self.now) }
    {
        match self {
            UsedNames::Few(names) => is_among(name, names),
            UsedNames::Many(names) => names.contains(&name),
        }
    }
}

/// Whether this name is one of those.
fn is_among(name: &Name, names: &[&Name]) -> bool
    ensures { result ≡ list_any (λ used. same_name name.now used.now) names.now }
{
    names.iter().any(|used| *name == **used)
}

/// Reports each variable of the operation that is not used: neither in its directives, nor in the
/// directives or arguments of a selection that it reaches, nor in the directives of a fragment that it
/// reaches. Each name is reported once, in order of its first definition, as its last one writes it and
/// at that place.
///
/// Where the walk over the operation passes its limit, this alone is reported. The only error is a failed
/// allocation.
///
/// Specification: 5.8.4 All Variables Used.
pub fn validate_unused_variables(
    diagnostics: &mut DiagnosticList,
    document: &ExecutableDocument,
    operation: &Operation,
) -> Result<(), ValidationError>
    ensures exact { OnOk result (Appends (AreUsesReports (fragments_of document.now) operation.now) (entries diagnostics.old) (entries diagnostics.new)) }
    ensures kept { KeepsReports (IsDiagnostic (UsesReport (fragments_of document.now) operation.now)) (entries diagnostics.old) (entries diagnostics.new) }
{
    let alloc = diagnostics.allocator();
    let walked = walk_selections_with_deduped_fragments(alloc, document, &operation.selection_set)?;
    if !walked.complete {
        return diagnostics.push(None, Details::Diagnostic(DiagnosticData::RecursionError));
    }
    let used = used_variables(alloc, document, operation, &walked.selections)?;
    let last = last_definitions(alloc, document.hash_seed(), &operation.variables)?;
    report_unused(diagnostics, &last, &used)
}

/// The variables that the operation and these selections use.
fn used_variables<'doc>(
    alloc: Global,
    document: &'doc ExecutableDocument,
    operation: &'doc Operation,
    selections: &[&'doc Selection],
) -> Result<UsedNames<'doc>, ValidationError>
    ensures { ((s : Selection) → Contains (map (λ s. s.now) selections.now) s ↔ Reachable (fragments_of document.now) operation.now.selection_set s) →
        IfOk result (λ used. AreUsed (UsesVariable (fragments_of document.now) operation.now) (known_names used)) }
{
    let mut names = Vec::new(alloc);
    let mut entered = IndexSet::with_hasher(alloc, document.hash_seed());
    add_in_directives(&mut names, &operation.directives)?;
    for selection in selections {
        add_in_selection(&mut names, &mut entered, document, selection)?;
    }
    UsedNames::of(alloc, document.hash_seed(), names)
}

/// Adds the variables that a selection uses, except those below it. The directives of each fragment are gone through once, at
/// its first spread.
fn add_in_selection<'doc>(
    names: &mut Vec<&'doc Name>,
    entered: &mut IndexSet<&'doc Name, HashSeed>,
    document: &'doc ExecutableDocument,
    selection: &'doc Selection,
) -> Result<(), ValidationError>
    requires { NamesDefinitions (fragments_of document.now) entered.old.keys names.old.items }
    ensures also { OnOk result (NamesAlso (UsedAt (fragments_of document.now) selection.now) names.old.items names.new.items) }
    ensures definitions { OnOk result (NamesDefinitions (fragments_of document.now) entered.new.keys names.new.items) }
{
    match selection {
        Selection::Field(field) => {
            add_in_directives(names, &field.value.directives)?;
            add_in_arguments(names, &field.value.arguments)
        }
        Selection::FragmentSpread(spread) => {
            add_in_directives(names, &spread.value.directives)?;
            add_in_definition(names, entered, document, &spread.value.fragment_name)
        }
        Selection::InlineFragment(fragment) => add_in_directives(names, &fragment.value.directives),
    }
}

/// Adds the variables in the directives of the fragment of this name, unless it was entered before.
fn add_in_definition<'doc>(
    names: &mut Vec<&'doc Name>,
    entered: &mut IndexSet<&'doc Name, HashSeed>,
    document: &'doc ExecutableDocument,
    name: &'doc Name,
) -> Result<(), ValidationError>
    requires { NamesDefinitions (fragments_of document.now) entered.old.keys names.old.items }
    ensures also { OnOk result (NamesAlso (UsedInDefinition (fragments_of document.now) name.now) names.old.items names.new.items) }
    ensures definitions { OnOk result (NamesDefinitions (fragments_of document.now) entered.new.keys names.new.items) }
{
    if !entered.insert(name)? {
        return Ok(());
    }
    match document.fragments.get(name) {
        Some(fragment) => add_in_directives(names, &fragment.value.directives),
        None => Ok(()),
    }
}

/// The set of these names.
fn set_of<'doc>(
    alloc: Global,
    hash_seed: HashSeed,
    names: &[&'doc Name],
) -> Result<IndexSet<&'doc Name, HashSeed>, ValidationError>
    ensures { IfOk result (HasUsed (IsNamedIn (names_of names.now))) }
{
    let mut set = IndexSet::with_hasher(alloc, hash_seed);
    for name in names {
        set.insert(*name)?;
    }
    Ok(set)
}

/// Reports each of these variables that is not used.
fn report_unused(
    diagnostics: &mut DiagnosticList,
    variables: &IndexMap<&Name, &Node<VariableDefinition>, HashSeed>,
    used: &UsedNames<'_>,
) -> Result<(), ValidationError>
    ensures { (fragments : Fragments) (o : Operation) → AreUsed (UsesVariable fragments o) (known_names used.now) →
        All (λ e. IsLastDefinition o.variables.items e.0.now e.1.now) variables.now.entries →
        MatchResult result
        (λ _. Appends (AreUnusedReports fragments o (map (λ e. e.0.now) variables.now.entries)) (entries diagnostics.old) (entries diagnostics.new))
        (λ _. KeepsReports (IsDiagnostic (UsesReport fragments o)) (entries diagnostics.old) (entries diagnostics.new)) }
{
    for (_, variable) in variables {
        check_use(diagnostics, variable, used)?;
    }
    Ok(())
}

/// The last definition of each name, in order of the first.
fn last_definitions<'doc>(
    alloc: Global,
    hash_seed: HashSeed,
    variables: &'doc [Node<VariableDefinition>],
) -> Result<IndexMap<&'doc Name, &'doc Node<VariableDefinition>, HashSeed>, ValidationError>
    ensures names { IfOk result (λ last. map (λ e. e.0.now) last.entries ≡ different_names (map (λ v. v.value.value.name) variables.now)) }
    ensures definitions { IfOk result (λ last. All (λ e. IsLastDefinition variables.now e.0.now e.1.now) last.entries) }
{
    let mut last = IndexMap::with_hasher(alloc, hash_seed);
    for variable in variables {
        last.insert(&variable.value.name, variable)?;
    }
    Ok(last)
}

/// Reports a variable if its name is not used.
fn check_use(
    diagnostics: &mut DiagnosticList,
    variable: &Node<VariableDefinition>,
    used: &UsedNames<'_>,
) -> Result<(), ValidationError>
    ensures { (fragments : Fragments) (o : Operation) (name : NameText) → AreUsed (UsesVariable fragments o) (known_names used.now) →
        IsLastDefinition o.variables.items name variable.now →
        MatchResult result
        (λ _. Appends (AreUnusedReports fragments o (name ∷ [])) (entries diagnostics.old) (entries diagnostics.new))
        (λ _. entries diagnostics.new ≡ entries diagnostics.old) }
{
    let name = &variable.value.name;
    if used.contains(name) {
        return Ok(());
    }
    let place = SourceSpan::recompose(variable.location, name.location());
    let name = name.clone()?;
    diagnostics.push(
        place,
        Details::Diagnostic(DiagnosticData::UnusedVariable { name }),
    )
}
