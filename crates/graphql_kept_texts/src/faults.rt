//! What is at fault in texts.

ghost use Rattle.std.specs.Prelude.{IsFalse};
ghost use Rattle.graphql_kept_texts.specs.Faults.{HasNothing};

use graphql_nodes::{FileId, Name, SourceSpan};
use std::alloc::{AllocError, Global};
use std::collections::BTreeSet;

/// What is at fault in texts, so that it is left out of them.
#[derive(Drop)]
pub struct Faults {
    /// The files, first bytes and ends of definitions, selections, conditions and names.
    places: BTreeSet<(u32, u32, u32)>,
    /// The files and first bytes of definitions of variables.
    variables: BTreeSet<(u32, u32)>,
    /// The names of fragments that are left out wherever they are spread.
    fragments: BTreeSet<String>,
    /// The files of the places and of the variables.
    files: BTreeSet<u32>,
}

impl Faults {
    /// Nothing is at fault.
    pub fn new(alloc: Global) -> Faults
        ensures { HasNothing result }
    {
        Faults {
            places: BTreeSet::new(alloc),
            variables: BTreeSet::new(alloc),
            fragments: BTreeSet::new(alloc),
            files: BTreeSet::new(alloc),
        }
    }

    /// Whether nothing is at fault.
    pub fn is_empty(&self) -> bool {
        self.files.is_empty() && self.fragments.is_empty()
    }

    /// Whether something in this file may be at fault.
    pub fn may_be_in(&self, file_id: FileId) -> bool {
        !self.fragments.is_empty() || self.files.contains(&file_id.0)
    }

    /// What is at this place, if it is one, is at fault.
    pub fn add(&mut self, place: Option<SourceSpan>) -> Result<(), AllocError> {
        let Some(place) = place else {
            return Ok(());
        };
        self.files.insert(place.file_id.0)?;
        self.places
            .insert((place.file_id.0, place.start, place.end))?;
        Ok(())
    }

    /// The definition of a variable that begins at this place, if it is one, is at fault.
    pub fn add_variable(&mut self, place: Option<SourceSpan>) -> Result<(), AllocError> {
        let Some(place) = place else {
            return Ok(());
        };
        self.files.insert(place.file_id.0)?;
        self.variables.insert((place.file_id.0, place.start))?;
        Ok(())
    }

    /// The fragments of this name are at fault.
    pub fn add_fragment(&mut self, alloc: Global, name: &Name) -> Result<(), AllocError> {
        self.fragments
            .insert(String::from_str(alloc, name.as_str())?)?;
        Ok(())
    }

    /// Whether what is at this place is at fault.
    pub(crate) fn has(&self, place: SourceSpan) -> bool
        ensures { HasNothing self.now → IsFalse result }
    {
        self.places
            .contains(&(place.file_id.0, place.start, place.end))
    }

    /// Whether what this name names is at fault.
    pub(crate) fn has_name(&self, name: &Name) -> bool
        ensures { HasNothing self.now → IsFalse result }
    {
        match name.location() {
            Some(place) => self.has(place),
            None => false,
        }
    }

    /// Whether the definition of a variable at this place is at fault.
    pub(crate) fn has_variable(&self, place: SourceSpan) -> bool
        ensures { HasNothing self.now → IsFalse result }
    {
        self.variables.contains(&(place.file_id.0, place.start))
    }

    /// Whether the fragments of this name are at fault.
    pub(crate) fn has_fragment(&self, name: &Name) -> bool
        ensures { HasNothing self.now → IsFalse result }
    {
        self.fragments.contains(name.as_str())
    }

    /// Whether a definition of a variable is at fault.
    pub(crate) fn has_variables(&self) -> bool
        ensures { HasNothing self.now → IsFalse result }
    {
        !self.variables.is_empty()
    }
}
