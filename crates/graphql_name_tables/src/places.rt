//! Tables of the places of the first elements of each name.

ghost use Rattle.std.specs.Prelude.{◌≡◌, OnOk};
ghost use Rattle.graphql_name_tables.specs.Places.{AddsPlace, place_under};

use graphql_hash_seeds::HashSeed;
use graphql_nodes::Name;
use std::alloc::AllocError;
use std::collections::HashMap;

/// The place of the first element of each name.
pub type Places<'a> = HashMap<&'a Name, usize, HashSeed>;

/// Up to so many elements are looked through for each name, and a table is not made for fewer look-ups: that takes no
/// memory, and for so few no more time.
pub const FEW: usize = 8;

/// The place of the first element of this name.
pub fn place_of(places: &Places<'_>, name: &Name) -> Option<usize>
    ensures { result ≡ place_under places.now name.now }
{
    places.get(&name).copied()
}

/// Adds the place of an element, unless there is one of its name. The only error is a failed allocation.
pub fn add_if_new<'a>(
    places: &mut Places<'a>,
    name: &'a Name,
    place: usize,
) -> Result<(), AllocError>
    ensures { OnOk result (AddsPlace places.old places.new name.now place) }
{
    if !places.contains_key(&name) {
        places.insert(name, place)?;
    }
    Ok(())
}
