//! Names that are like another one.

ghost use Rattle.std.specs.Prelude.{◌≡◌, All, Contains, IfOk, List, OnOk};
ghost use Rattle.graphql_nodes.specs.Names.{NameText};
ghost use Rattle.graphql_suggestions.specs.Suggestions.{AreSuggested, IsSuggested};

use graphql_nodes::{Name, ValidationError};
use std::alloc::Global;
use strsim::levenshtein;

/// So many names are suggested at most.
const MOST: usize = 5;

/// A longer name is not compared with others, since that takes time.
const LONGEST: usize = 100;

/// A name that may have been meant.
#[derive(Debug, Drop)]
pub struct Suggestion {
    pub name: Name,
    /// How many characters have to be put in, taken out or exchanged to make the name of the wanted one.
    pub edits: usize,
}

/// Adds the name, if it is like the wanted one.
pub(crate) fn add_if_alike(
    alloc: Global,
    wanted: &Name,
    name: &Name,
    found: &mut Vec<Suggestion>,
) -> Result<(), ValidationError>
    ensures { (names : List NameText) → Contains names name.now → All (IsSuggested names wanted.now) found.old.items →
        OnOk result (All (IsSuggested names wanted.now) found.new.items) }
{
    let length = wanted.as_str().len();
    if LONGEST < length || LONGEST < name.as_str().len() {
        return Ok(());
    }
    let edits = levenshtein(alloc, wanted.as_str(), name.as_str())?;
    if length * 2 / 5 + 1 < edits {
        return Ok(());
    }
    let name = name.clone_in(alloc)?;
    found.push(Suggestion { name, edits })?;
    Ok(())
}

/// The names that are the most like the wanted one, at most five.
pub(crate) fn most_alike(mut found: Vec<Suggestion>) -> Result<Vec<Suggestion>, ValidationError>
    ensures { (names : List NameText) (wanted : NameText) → All (IsSuggested names wanted) found.items →
        IfOk result (λ few. AreSuggested names wanted few.items) }
{
    found.sort_by_key(|suggestion| suggestion.edits)?;
    found.truncate(MOST);
    Ok(found)
}
