//! What is written in a definition: how many levels, and which fragments it spreads at which of them.

ghost use Rattle.std.specs.Prelude.{◌≡◌, ◌++◌, ◌+◌, IfOk, OnOk, [], ◌∷◌, filter_map, map, max};
ghost use Rattle.graphql_documents.specs.Selections.{fragments_of, no_fragments, selections_of};
ghost use Rattle.graphql_nesting.specs.Nesting.{set_below};
ghost use Rattle.graphql_nesting.specs.Written.{AreWrittenLevels, left_of, fragment_spread, spreads_of};

use crate::spreads::{PlacedSpread, Progress};
use graphql_documents::documents::{ExecutableDocument, Selection, SelectionSet};
use graphql_nodes::ValidationError;
use std::alloc::Global;

/// The levels that are written in a set, and the spreads of defined fragments in it.
#[derive(Debug, Drop)]
pub(crate) struct WrittenLevels {
    pub(crate) levels: usize,
    pub(crate) spreads: Vec<PlacedSpread>,
}

impl WrittenLevels {
    /// Before the first spread.
    pub(crate) fn start(&self) -> Progress
        ensures { result ≡ record { next = 0; levels = self.now.levels } }
    {
        Progress {
            next: 0,
            levels: self.levels,
        }
    }
}

/// What is written in a set. Fails where an allocation does, or where the number of levels does not fit: no memory holds so
/// many sets.
pub(crate) fn written_levels(
    alloc: Global,
    document: &ExecutableDocument,
    set: &SelectionSet,
) -> Result<WrittenLevels, ValidationError>
    ensures { IfOk result (AreWrittenLevels document.now set.now) }
{
    let mut walk = LevelWalk::begin(alloc, document, set)?;
    while let Some(below) = walk.left.pop() {
        walk.add_set(below)?;
    }
    Ok(walk.written)
}

/// A set that is written in another one, and how many levels are above it.
#[derive(Clone, Copy, Debug)]
struct SetBelow<'doc> {
    set: &'doc SelectionSet,
    above: usize,
}

/// What was found so far, and the sets that were not looked at yet.
#[derive(Drop)]
struct LevelWalk<'doc> {
    document: &'doc ExecutableDocument,
    left: Vec<SetBelow<'doc>>,
    written: WrittenLevels,
}

impl<'doc> LevelWalk<'doc> {
    /// One level, and this set to be looked at.
    fn begin(
        alloc: Global,
        document: &'doc ExecutableDocument,
        set: &'doc SelectionSet,
    ) -> Result<LevelWalk<'doc>, ValidationError>
        ensures document { IfOk result (λ walk. walk.document.now ≡ document.now) }
        ensures levels { IfOk result (λ walk. walk.written.levels ≡ 1) }
        ensures left { IfOk result (λ walk. left_of walk ≡ (set.now, 0) ∷ []) }
        ensures spreads { IfOk result (λ walk. walk.written.spreads.items ≡ []) }
    {
        let mut left = Vec::new(alloc);
        left.push(SetBelow { set, above: 0 })?;
        let written = WrittenLevels {
            levels: 1,
            spreads: Vec::new(alloc),
        };
        Ok(LevelWalk {
            document,
            left,
            written,
        })
    }

    /// Looks at a set: counts its level, and adds the sets and the spreads that are in it.
    fn add_set(&mut self, below: SetBelow<'doc>) -> Result<(), ValidationError>
        ensures document { self.new.document ≡ self.old.document }
        ensures levels { OnOk result (self.new.written.levels ≡ max self.old.written.levels (below.entry.above + 1)) }
        ensures left { OnOk result (left_of self.new ≡ left_of self.old ++
            map (λ set. (set, below.entry.above + 1)) (filter_map (set_below no_fragments) (selections_of below.entry.set.now))) }
        ensures spreads { OnOk result (spreads_of self.new ≡ spreads_of self.old ++
            map (λ d. (Some d, below.entry.above + 1)) (filter_map (fragment_spread (fragments_of self.old.document.now)) (selections_of below.entry.set.now))) }
    {
        let Some(level) = below.above.checked_add(1) else {
            return Err(ValidationError::OutOfMemory);
        };
        self.add_selections(below.set, level)?;
        self.written.levels = self.written.levels.max(level);
        Ok(())
    }

    /// Adds the sets and the spreads that are in a set, below so many levels.
    fn add_selections(
        &mut self,
        set: &'doc SelectionSet,
        above: usize,
    ) -> Result<(), ValidationError>
        ensures document { self.new.document ≡ self.old.document }
        ensures levels { self.new.written.levels ≡ self.old.written.levels }
        ensures left { OnOk result (left_of self.new ≡ left_of self.old ++
            map (λ set. (set, above)) (filter_map (set_below no_fragments) (selections_of set.now))) }
        ensures spreads { OnOk result (spreads_of self.new ≡ spreads_of self.old ++
            map (λ d. (Some d, above)) (filter_map (fragment_spread (fragments_of self.old.document.now)) (selections_of set.now))) }
    {
        for selection in &set.selections {
            self.add_selection(selection, above)?;
        }
        Ok(())
    }

    /// Adds the set that is written in a selection, or its spread.
    fn add_selection(
        &mut self,
        selection: &'doc Selection,
        above: usize,
    ) -> Result<(), ValidationError>
        ensures document { self.new.document ≡ self.old.document }
        ensures levels { self.new.written.levels ≡ self.old.written.levels }
        ensures left { OnOk result (left_of self.new ≡ left_of self.old ++
            map (λ set. (set, above)) (filter_map (set_below no_fragments) (selection.now ∷ []))) }
        ensures spreads { OnOk result (spreads_of self.new ≡ spreads_of self.old ++
            map (λ d. (Some d, above)) (filter_map (fragment_spread (fragments_of self.old.document.now)) (selection.now ∷ []))) }
    {
        match selection {
            Selection::Field(field) => {
                if field.value.selection_set.selections.is_empty() {
                    return Ok(());
                }
                self.push_set(&field.value.selection_set, above)
            }
            Selection::InlineFragment(inline) => self.push_set(&inline.value.selection_set, above),
            Selection::FragmentSpread(spread) => {
                let fragments = &self.document.fragments;
                match fragments.get_index_of(&spread.value.fragment_name) {
                    Some(fragment) => self.push_spread(PlacedSpread { fragment, above }),
                    None => Ok(()),
                }
            }
        }
    }

    /// Adds a set to those that are to be looked at.
    fn push_set(&mut self, set: &'doc SelectionSet, above: usize) -> Result<(), ValidationError>
        ensures document { self.new.document ≡ self.old.document }
        ensures written { self.new.written ≡ self.old.written }
        ensures left { OnOk result (left_of self.new ≡ left_of self.old ++ (set.now, above) ∷ []) }
    {
        self.left.push(SetBelow { set, above })?;
        Ok(())
    }

    /// Adds a spread.
    fn push_spread(&mut self, spread: PlacedSpread) -> Result<(), ValidationError>
        ensures document { self.new.document ≡ self.old.document }
        ensures levels { self.new.written.levels ≡ self.old.written.levels }
        ensures left { self.new.left ≡ self.old.left }
        ensures spreads { OnOk result (self.new.written.spreads.items ≡ self.old.written.spreads.items ++ spread ∷ []) }
    {
        self.written.spreads.push(spread)?;
        Ok(())
    }
}
