//! What of selections is at fault.

ghost use Rattle.std.specs.Prelude.{◌≡◌, IfOk, IsFalse, IsTrue};
ghost use Rattle.graphql_kept_texts.specs.Faults.{HasNothing};

use crate::cuts::Cut;
use crate::faults::Faults;
use crate::rooms::{cut_at, fill_set};
use graphql_nodes::SourceSpan;
use graphql_trees::{Field, FragmentSpread, InlineFragment, Selection, SelectionSet};
use std::alloc::AllocError;

/// A text, and what is at fault in it.
#[derive(Clone, Copy)]
pub(crate) struct Walk<'a> {
    pub text: &'a str,
    pub faults: &'a Faults,
}

/// Cuts what is at fault in a set. If nothing is left of it, `__typename` comes in its place. False, if there is no room for that.
#[cycle(selections)]
pub(crate) fn cut_set(
    walk: Walk<'_>,
    set: &SelectionSet,
    cuts: &mut Vec<Cut>,
) -> Result<bool, AllocError>
    ensures { HasNothing walk.entry.faults.now → IfOk result (λ is_left. IsTrue is_left × (cuts.new.items ≡ cuts.old.items)) }
{
    let before = cuts.len();
    if cut_selections(walk, set.selections.as_slice(), cuts)? {
        return Ok(true);
    }
    cuts.truncate(before);
    fill_set(walk.text, set.span, cuts)
}

/// Cuts what is at fault in selections. The answer is whether one of them is left, if there is one.
#[cycle(selections)]
pub(crate) fn cut_selections(
    walk: Walk<'_>,
    selections: &[Selection],
    cuts: &mut Vec<Cut>,
) -> Result<bool, AllocError>
    ensures { HasNothing walk.entry.faults.now → IfOk result (λ is_left. IsTrue is_left × (cuts.new.items ≡ cuts.old.items)) }
{
    let mut is_left = selections.is_empty();
    for selection in selections {
        if cut_selection(walk, selection, cuts)? {
            is_left = true;
        }
    }
    Ok(is_left)
}

#[cycle(selections)]
fn cut_selection(
    walk: Walk<'_>,
    selection: &Selection,
    cuts: &mut Vec<Cut>,
) -> Result<bool, AllocError>
    ensures { HasNothing walk.entry.faults.now → IfOk result (λ is_left. IsTrue is_left × (cuts.new.items ≡ cuts.old.items)) }
{
    match selection {
        Selection::Field(field) => cut_field(walk, field, cuts),
        Selection::FragmentSpread(spread) => cut_spread(walk, spread, cuts),
        Selection::InlineFragment(fragment) => cut_inline_fragment(walk, fragment, cuts),
    }
}

/// Cuts a field, if its name is at fault. If the field itself is, its set is cut.
#[cycle(selections)]
fn cut_field(walk: Walk<'_>, field: &Field, cuts: &mut Vec<Cut>) -> Result<bool, AllocError>
    ensures { HasNothing walk.entry.faults.now → IfOk result (λ is_left. IsTrue is_left × (cuts.new.items ≡ cuts.old.items)) }
{
    if walk.faults.has_name(&field.name) {
        cut_at(field.span, cuts)?;
        return Ok(false);
    }
    let Some(set) = &field.selection_set else {
        return Ok(true);
    };
    if walk.faults.has(field.span) {
        cut_at(set.get().span, cuts)?;
        return Ok(true);
    }
    cut_below(walk, field.span, set.get(), cuts)
}

/// Cuts a spread, if it is at fault, or all fragments of its name are.
fn cut_spread(
    walk: Walk<'_>,
    spread: &FragmentSpread,
    cuts: &mut Vec<Cut>,
) -> Result<bool, AllocError>
    ensures { HasNothing walk.entry.faults.now → IfOk result (λ is_left. IsTrue is_left × (cuts.new.items ≡ cuts.old.items)) }
{
    if walk.faults.has(spread.span) || walk.faults.has_fragment(&spread.name) {
        cut_at(spread.span, cuts)?;
        return Ok(false);
    }
    Ok(true)
}

/// Cuts an inline fragment, if it is at fault, or its condition is.
#[cycle(selections)]
fn cut_inline_fragment(
    walk: Walk<'_>,
    fragment: &InlineFragment,
    cuts: &mut Vec<Cut>,
) -> Result<bool, AllocError>
    ensures { HasNothing walk.entry.faults.now → IfOk result (λ is_left. IsTrue is_left × (cuts.new.items ≡ cuts.old.items)) }
{
    if walk.faults.has(fragment.span) || has_condition(walk, fragment) {
        cut_at(fragment.span, cuts)?;
        return Ok(false);
    }
    cut_below(walk, fragment.span, &fragment.selection_set, cuts)
}

/// Whether the condition of the fragment is at fault.
fn has_condition(walk: Walk<'_>, fragment: &InlineFragment) -> bool
    ensures { HasNothing walk.entry.faults.now → IsFalse result }
{
    match &fragment.type_condition {
        Some(condition) => walk.faults.has_name(condition),
        None => false,
    }
}

/// Cuts what is at fault in the set of what is at this place, and all of this if nothing is left of the set.
#[cycle(selections)]
pub(crate) fn cut_below(
    walk: Walk<'_>,
    owner: SourceSpan,
    set: &SelectionSet,
    cuts: &mut Vec<Cut>,
) -> Result<bool, AllocError>
    ensures { HasNothing walk.entry.faults.now → IfOk result (λ is_left. IsTrue is_left × (cuts.new.items ≡ cuts.old.items)) }
{
    let before = cuts.len();
    if cut_set(walk, set, cuts)? {
        return Ok(true);
    }
    cuts.truncate(before);
    cut_at(owner, cuts)?;
    Ok(false)
}
