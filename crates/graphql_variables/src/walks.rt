//! Walks over the selections of an operation.

ghost use Rattle.std.specs.Prelude.{◌≡◌, ◌+◌, List, [], map, not, IfOk, IsTrue, OnOk};
ghost use Rattle.graphql_guards.specs.Guards.{depth_limit, depth_of};
ghost use Rattle.graphql_nodes.specs.Names.{NameText, stands_on, with_name};
ghost use Rattle.graphql_documents.specs.Selections.{InExpandedSet, Reachable, fragments_of, selections_of, fields_among};
ghost use Rattle.graphql_specification.specs.Defer.{Open};
ghost use Rattle.graphql_specification.specs.Subscriptions.{WalkedFields};
ghost use Rattle.graphql_documents.specs.Walks.{HasListed, PassesDepth, full_walk, open_walk, root_walk};
ghost use Rattle.graphql_documents.specs.declared.documents.executables.Selection.TheVariants as kind;
ghost use Rattle.graphql_variables.specs.WalkSteps.{VisitedFrom, OrderBelow, OrderOver, WalksBelow, WalksOver, listed_of, visited_fragment_names, walk_of};
ghost use Rattle.graphql_variables.specs.declared.walks.Extent.TheVariants as extent;

use crate::conditions::can_be_excluded;
use graphql_documents::documents::{ExecutableDocument, FragmentSpread, Selection, SelectionSet};
use graphql_guards::DepthCounter;
use graphql_hash_seeds::HashSeed;
use graphql_nodes::{Name, Node, ValidationError};
use indexmap::IndexSet;
use std::alloc::Global;

/// How deep a walk may go.
const WALK_LIMIT: usize = 500;

/// How many selections a walk has room for at first.
const SOME: usize = 16;

/// The selections that a walk visited, in the order in which it visited them, and whether it came to its end
/// or passed its limit.
#[derive(Drop)]
pub struct Walked<'doc> {
    pub selections: Vec<&'doc Selection>,
    pub complete: bool,
}

/// Walks over each selection that is inside a set: in the set itself or in that of a fragment in it, at any
/// depth, but not below fields. Each named fragment is visited once, and an undefined one gives nothing. A
/// selection is listed before what is in its set or fragment, and that before the next selection. The walk
/// stops where it would go into more than 500 sets, one in another. The only error is a failed allocation.
///
/// Specification: 5.2.3.1 Single Root Field.
pub fn walk_selections<'doc>(
    alloc: Global,
    document: &'doc ExecutableDocument,
    selection_set: &'doc SelectionSet,
) -> Result<Walked<'doc>, ValidationError>
    ensures listed { IfOk result (λ walked. HasListed (InExpandedSet (fragments_of document.now) selection_set.now)
        (PassesDepth (fragments_of document.now) root_walk selection_set.now)
        (map (λ s. s.now) walked.selections.items) walked.complete) }
    ensures ordered { IfOk result (λ walked. IsTrue walked.complete → (visited : List NameText) ×
        WalkedFields (fragments_of document.now) [] (selections_of selection_set.now)
        (fields_among (map (λ s. s.now) walked.selections.items)) visited) }
{
    let walk = SelectionWalk {
        document,
        extent: Extent::InExpandedSet,
    };
    walk.over(alloc, selection_set)
}

/// Walks over each selection that is reached from a set, at any depth, also below fields. Fragments are
/// visited, selections are listed and the walk stops as in `walk_selections`. The only error is a failed
/// allocation.
///
/// Specification: 5.8.4 All Variables Used; 5.5.1.4 Fragments Must Be Used.
pub fn walk_selections_with_deduped_fragments<'doc>(
    alloc: Global,
    document: &'doc ExecutableDocument,
    selection_set: &'doc SelectionSet,
) -> Result<Walked<'doc>, ValidationError>
    ensures { IfOk result (λ walked. HasListed (Reachable (fragments_of document.now) selection_set.now)
        (PassesDepth (fragments_of document.now) full_walk selection_set.now)
        (map (λ s. s.now) walked.selections.items) walked.complete) }
{
    let walk = SelectionWalk {
        document,
        extent: Extent::Reachable,
    };
    walk.over(alloc, selection_set)
}

/// Walks over the selections that are reached from a set, also below fields, whatever the conditions: a
/// selection that may be left out by `@skip` or `@include` is neither listed nor visited. A fragment is
/// visited at the first spread that is reached so and cannot be left out. Selections are listed and the walk
/// stops as in `walk_selections`. The only error is a failed allocation.
///
/// Specification: the incremental delivery proposal, Defer And Stream Directives Are Used In Valid
/// Operations.
pub fn walk_open_selections<'doc>(
    alloc: Global,
    document: &'doc ExecutableDocument,
    selection_set: &'doc SelectionSet,
) -> Result<Walked<'doc>, ValidationError>
    ensures { IfOk result (λ walked. HasListed (Open (fragments_of document.now) selection_set.now)
        (PassesDepth (fragments_of document.now) open_walk selection_set.now)
        (map (λ s. s.now) walked.selections.items) walked.complete) }
{
    let walk = SelectionWalk {
        document,
        extent: Extent::Open,
    };
    walk.over(alloc, selection_set)
}

/// Which selections a walk goes through: those inside a set, those that are reached from it, or those of
/// them that are visited whatever the conditions.
#[derive(Clone, Copy)]
enum Extent {
    InExpandedSet,
    Reachable,
    Open,
}

impl Extent {
    /// Whether the walk goes into the sets of fields.
    fn goes_into_fields(self) -> bool
        ensures { result ≡ (walk_of self).into_fields }
    {
        match self {
            Extent::InExpandedSet => false,
            Extent::Reachable | Extent::Open => true,
        }
    }

    /// Whether the walk goes through a selection.
    fn goes_through(self, selection: &Selection) -> bool
        ensures { result ≡ (walk_of self).goes_through selection.now }
    {
        match self {
            Extent::InExpandedSet | Extent::Reachable => true,
            Extent::Open => !can_be_excluded(selection),
        }
    }
}

/// What a walk goes over, and how far.
#[derive(Drop)]
struct SelectionWalk<'doc> {
    document: &'doc ExecutableDocument,
    extent: Extent,
}

/// What a walk has visited: the names of the fragments that it has visited, and the selections.
#[derive(Drop)]
struct Visited<'doc> {
    visited_fragments: IndexSet<&'doc Name, HashSeed>,
    selections: Vec<&'doc Selection>,
}

impl<'doc> Visited<'doc> {
    /// Adds the name of a fragment, and answers whether it is new.
    fn enter(&mut self, name: &'doc Name) -> Result<bool, ValidationError>
        ensures is_new { IfOk result (λ new. new ≡ not (stands_on (visited_fragment_names self.old) name.now)) }
        ensures names { OnOk result (visited_fragment_names self.new ≡ with_name (visited_fragment_names self.old) name.now) }
        ensures selections { OnOk result (listed_of self.new ≡ listed_of self.old) }
    {
        Ok(self.visited_fragments.insert(name)?)
    }
}

impl<'doc> SelectionWalk<'doc> {
    /// Walks over a set.
    fn over(&self, alloc: Global, set: &'doc SelectionSet) -> Result<Walked<'doc>, ValidationError>
        ensures listed { IfOk result (λ walked. HasListed (VisitedFrom (fragments_of self.now.document.now) (walk_of self.now.extent) set.now)
            (PassesDepth (fragments_of self.now.document.now) (walk_of self.now.extent) set.now)
            (map (λ s. s.now) walked.selections.items) walked.complete) }
        ensures ordered { IfOk result (λ walked. IsTrue walked.complete → self.now.extent ≡ extent.InExpandedSet → (visited : List NameText) ×
            WalkedFields (fragments_of self.now.document.now) [] (selections_of set.now)
            (fields_among (map (λ s. s.now) walked.selections.items)) visited) }
    {
        let mut visited = Visited {
            visited_fragments: IndexSet::with_hasher(alloc, self.document.hash_seed()),
            selections: Vec::with_capacity(alloc, SOME)?,
        };
        let mut depth = DepthCounter::new().with_limit(WALK_LIMIT);
        let complete = self.walk_set(set, &mut visited, &mut depth)?;
        Ok(Walked {
            selections: visited.selections,
            complete,
        })
    }

    /// Walks over a set, and answers whether it came to its end.
    #[cycle(walk)]
    fn walk_set(
        &self,
        set: &'doc SelectionSet,
        visited: &mut Visited<'doc>,
        depth: &mut DepthCounter,
    ) -> Result<bool, ValidationError>
        ensures walks { IfOk result (λ complete. WalksOver self.now depth.old (depth_of depth.old) set.now visited.old visited.new complete) }
        ensures order { IfOk result (λ complete. OrderOver self.now set.now visited.old visited.new complete) }
        ensures depth { OnOk result (depth_of depth.new ≡ depth_of depth.old) }
        ensures limit { OnOk result (depth_limit depth.new ≡ depth_limit depth.old) }
    {
        for selection in &set.selections {
            if !self.extent.goes_through(selection) {
                continue;
            }
            visited.selections.push(selection)?;
            if !self.walk_below(selection, visited, depth)? {
                return Ok(false);
            }
        }
        Ok(true)
    }

    /// Walks over the selections below a selection, and answers whether the walk came to its end.
    #[cycle(walk)]
    fn walk_below(
        &self,
        selection: &'doc Selection,
        visited: &mut Visited<'doc>,
        depth: &mut DepthCounter,
    ) -> Result<bool, ValidationError>
        ensures walks { IfOk result (λ complete. WalksBelow self.now depth.old selection.now visited.old visited.new complete) }
        ensures order { IfOk result (λ complete. OrderBelow self.now selection.now visited.old visited.new complete) }
        ensures depth { OnOk result (depth_of depth.new ≡ depth_of depth.old) }
        ensures limit { OnOk result (depth_limit depth.new ≡ depth_limit depth.old) }
    {
        match selection {
            Selection::Field(field) if self.extent.goes_into_fields() => {
                self.walk_deeper(&field.value.selection_set, visited, depth)
            }
            Selection::Field(_) => Ok(true),
            Selection::InlineFragment(fragment) => {
                self.walk_deeper(&fragment.value.selection_set, visited, depth)
            }
            Selection::FragmentSpread(spread) => self.walk_fragment(spread, visited, depth),
        }
    }

    /// Walks over the fragment that a spread names, if it is defined and was not yet visited, and answers
    /// whether the walk came to its end.
    #[cycle(walk)]
    fn walk_fragment(
        &self,
        spread: &'doc Node<FragmentSpread>,
        visited: &mut Visited<'doc>,
        depth: &mut DepthCounter,
    ) -> Result<bool, ValidationError>
        ensures walks { IfOk result (λ complete. WalksBelow self.now depth.old (kind.FragmentSpread spread.now) visited.old visited.new complete) }
        ensures order { IfOk result (λ complete. OrderBelow self.now (kind.FragmentSpread spread.now) visited.old visited.new complete) }
        ensures depth { OnOk result (depth_of depth.new ≡ depth_of depth.old) }
        ensures limit { OnOk result (depth_limit depth.new ≡ depth_limit depth.old) }
    {
        let name = &spread.value.fragment_name;
        if !visited.enter(name)? {
            return Ok(true);
        }
        match self.document.fragments.get(name) {
            Some(fragment) => self.walk_deeper(&fragment.value.selection_set, visited, depth),
            None => Ok(true),
        }
    }

    /// Walks over a set that is one step deeper, and answers whether the walk came to its end. If the walk
    /// is at its limit, it visits nothing and answers `false`.
    #[cycle(walk)]
    fn walk_deeper(
        &self,
        set: &'doc SelectionSet,
        visited: &mut Visited<'doc>,
        depth: &mut DepthCounter,
    ) -> Result<bool, ValidationError>
        ensures walks { IfOk result (λ complete. WalksOver self.now depth.old (depth_of depth.old + 1) set.now visited.old visited.new complete) }
        ensures order { IfOk result (λ complete. OrderOver self.now set.now visited.old visited.new complete) }
        ensures depth { OnOk result (depth_of depth.new ≡ depth_of depth.old) }
        ensures limit { OnOk result (depth_limit depth.new ≡ depth_limit depth.old) }
    {
        match depth.increment() {
            Ok(mut guard) => self.walk_set(set, visited, guard.counter),
            Err(_) => Ok(false),
        }
    }
}
