//! The fragments that operations use.

ghost use Rattle.std.specs.Prelude.{◌∷◌, [], OnOk};
ghost use Rattle.graphql_pools.specs.Uses.{NotesNames};
ghost use Rattle.graphql_variables.specs.Uses.{names_of};

use graphql_documents::documents::ExecutableDocument;
use graphql_hash_seeds::HashSeed;
use graphql_nodes::{Name, ValidationError};
use indexmap::IndexSet;

/// The names of fragments that operations reach.
pub type Used<'a> = IndexSet<&'a Name, HashSeed>;

/// Notes the fragments of the pool that have these names, which an operation reaches. Earlier names stay. The only error is a failed
/// allocation.
///
/// Specification: 5.5.1.4 Fragments Must Be Used.
pub fn note_uses<'a>(
    pool: &'a ExecutableDocument,
    names: &IndexSet<&Name, HashSeed>,
    used: &mut Used<'a>,
) -> Result<(), ValidationError>
    ensures { OnOk result (NotesNames pool.now (names_of names.now.keys) (names_of used.old.keys) (names_of used.new.keys)) }
{
    for name in names {
        note_use(pool, *name, used)?;
    }
    Ok(())
}

fn note_use<'a>(
    pool: &'a ExecutableDocument,
    name: &Name,
    used: &mut Used<'a>,
) -> Result<(), ValidationError>
    ensures { OnOk result (NotesNames pool.now (name.now ∷ []) (names_of used.old.keys) (names_of used.new.keys)) }
{
    match pool.fragments.get(name) {
        Some(fragment) => {
            used.insert(&fragment.value.name)?;
            Ok(())
        }
        None => Ok(()),
    }
}
