ghost use Rattle.std.specs.Prelude.{◌≡◌, ◌+◌, ◌∷◌, ◌++◌, [], IfOk, OnOk, map};
ghost use Rattle.graphql_specification.specs.Defer.{defers};
ghost use Rattle.graphql_documents.specs.Selections.{selections_of};
ghost use Rattle.graphql_guards.specs.Guards.{depth_limit, depth_of};
ghost use Rattle.graphql_operations.specs.DeferLabels.{HasVisitedDefers, MeetsDefers};

use super::DEFER_DIRECTIVE_NAME;
use graphql_documents::documents::{Directive, Selection, SelectionSet};
use graphql_guards::DepthCounter;
use graphql_nodes::{Node, ValidationError};
use graphql_variables::conditions::directives_of;
use std::alloc::Global;

/// How deep a walk may go.
const WALK_LIMIT: usize = 500;

/// The `@defer` applications that a walk visited, in the order in which they are written, and whether it
/// came to its end or passed its limit.
#[derive(Drop)]
pub(super) struct WrittenDefers<'doc> {
    pub applications: Vec<&'doc Node<Directive>>,
    pub complete: bool,
}

/// Walks over what is written in a set, at any depth, spreads not followed, and lists the `@defer`
/// applications: those of a selection, then those below it, then those of the next. The walk stops
/// where it would go into more than 500 sets, one in another.
pub(super) fn written_defers<'doc>(
    alloc: Global,
    set: &'doc SelectionSet,
) -> Result<WrittenDefers<'doc>, ValidationError>
    ensures { IfOk result (λ written. HasVisitedDefers set.now (map (λ d. d.now) written.applications.items) written.complete) }
{
    let mut applications = Vec::new(alloc);
    let mut depth = DepthCounter::new().with_limit(WALK_LIMIT);
    let complete = walk_set(set, &mut applications, &mut depth)?;
    Ok(WrittenDefers {
        applications,
        complete,
    })
}

/// Adds the applications in a set, and answers whether the walk came to its end.
#[cycle(written)]
fn walk_set<'doc>(
    set: &'doc SelectionSet,
    visited: &mut Vec<&'doc Node<Directive>>,
    depth: &mut DepthCounter,
) -> Result<bool, ValidationError>
    ensures walks { IfOk result (λ complete. MeetsDefers (depth_limit depth.old) (depth_of depth.old) 1 (selections_of set.now)
        (map (λ d. d.now) visited.old.items) (map (λ d. d.now) visited.new.items) complete) }
    ensures depth { OnOk result (depth_of depth.new ≡ depth_of depth.old) }
    ensures limit { OnOk result (depth_limit depth.new ≡ depth_limit depth.old) }
{
    for selection in &set.selections {
        if !walk_selection(selection, visited, depth)? {
            return Ok(false);
        }
    }
    Ok(true)
}

/// Adds the `@defer` applications on a selection, then those below it, and answers whether the walk came
/// to its end.
#[cycle(written)]
fn walk_selection<'doc>(
    selection: &'doc Selection,
    visited: &mut Vec<&'doc Node<Directive>>,
    depth: &mut DepthCounter,
) -> Result<bool, ValidationError>
    ensures walks { IfOk result (λ complete. MeetsDefers (depth_limit depth.old) (depth_of depth.old) 1 (selection.now ∷ [])
        (map (λ d. d.now) visited.old.items) (map (λ d. d.now) visited.new.items) complete) }
    ensures depth { OnOk result (depth_of depth.new ≡ depth_of depth.old) }
    ensures limit { OnOk result (depth_limit depth.new ≡ depth_limit depth.old) }
{
    add_defers(directives_of(selection), visited)?;
    match selection {
        Selection::Field(field) => walk_deeper(&field.value.selection_set, visited, depth),
        Selection::InlineFragment(fragment) => {
            walk_deeper(&fragment.value.selection_set, visited, depth)
        }
        Selection::FragmentSpread(_) => Ok(true),
    }
}

/// Adds the `@defer` applications in a set that is one step deeper, and answers whether the walk came to
/// its end. If the walk is at its limit, this adds nothing and answers `false`.
#[cycle(written)]
fn walk_deeper<'doc>(
    set: &'doc SelectionSet,
    visited: &mut Vec<&'doc Node<Directive>>,
    depth: &mut DepthCounter,
) -> Result<bool, ValidationError>
    ensures walks { IfOk result (λ complete. MeetsDefers (depth_limit depth.old) (depth_of depth.old + 1) 0 (selections_of set.now)
        (map (λ d. d.now) visited.old.items) (map (λ d. d.now) visited.new.items) complete) }
    ensures depth { OnOk result (depth_of depth.new ≡ depth_of depth.old) }
    ensures limit { OnOk result (depth_limit depth.new ≡ depth_limit depth.old) }
{
    match depth.increment() {
        Ok(mut guard) => walk_set(set, visited, guard.counter),
        Err(_) => Ok(false),
    }
}

/// Adds those of these directives that are `@defer`.
fn add_defers<'doc>(
    directives: &'doc [Node<Directive>],
    visited: &mut Vec<&'doc Node<Directive>>,
) -> Result<(), ValidationError>
    ensures { OnOk result (map (λ d. d.now) visited.new.items ≡ map (λ d. d.now) visited.old.items ++ defers directives.now) }
{
    for directive in directives {
        if directive.value.name.as_str() == DEFER_DIRECTIVE_NAME {
            visited.push(directive)?;
        }
    }
    Ok(())
}
