//! Names that were visited, each with the location of the first.

ghost use Rattle.std.specs.Option.{option_copied, option_or};
ghost use Rattle.std.specs.Prelude.{◌≡◌, ◌∷◌, ◌++◌, [], IfOk, List, None, OnOk, Option, Some, cond, find};
ghost use Rattle.graphql_nodes.specs.Names.{NameText, same_name};
ghost use Rattle.graphql_nodes.specs.declared.spans.SourceSpan.{SourceSpan};
ghost use Rattle.graphql_variables.specs.FirstPlaces.{Remembers, known_place, place_in, places_of};

use graphql_hash_seeds::HashSeed;
use graphql_nodes::{Name, SourceSpan, ValidationError};
use std::alloc::{AllocError, Global};
use std::collections::HashMap;

/// Up to so many names are looked through for each one, which takes no more time than a map.
const FEW: usize = 8;

/// A name and its location.
type Place<'a> = (&'a Name, Option<SourceSpan>);

/// The first of each name among those that were visited, with its location.
#[derive(Drop)]
pub struct FirstPlaces<'a> {
    few: Vec<Place<'a>>,
    // takes no memory before there are more than a few
    others: HashMap<&'a Name, Option<SourceSpan>, HashSeed>,
}

impl<'a> FirstPlaces<'a> {
    /// No names. Where there come to be many, they are hashed by this seed.
    pub fn with_hasher(alloc: Global, hash_seed: HashSeed) -> FirstPlaces<'a>
        ensures { Remembers result [] }
    {
        FirstPlaces {
            few: Vec::new(alloc),
            others: HashMap::with_hasher(alloc, hash_seed),
        }
    }

    /// The location of the first of this name.
    fn find(&self, name: &Name) -> Option<Option<SourceSpan>>
        ensures { result ≡ known_place self.now name.now }
    {
        match location_of(&self.few, name) {
            Some(location) => Some(location),
            None => self.others.get(&name).copied(),
        }
    }

    /// Adds a new name. The only error is a failed allocation.
    fn add(&mut self, name: &'a Name, location: Option<SourceSpan>) -> Result<(), AllocError>
        requires { known_place self.old name.now ≡ None }
        ensures { OnOk result ((other : NameText) →
            known_place self.new other ≡ option_or (known_place self.old other) (cond (same_name name.now other) (Some location) None)) }
    {
        if self.few.len() < FEW {
            self.few.push((name, location))?;
        } else {
            self.others.insert(name, location)?;
        }
        Ok(())
    }
}

/// The location of the first of these places that is of this name.
fn location_of(places: &[Place<'_>], name: &Name) -> Option<Option<SourceSpan>>
    ensures { result ≡ place_in (places_of places.now) name.now }
{
    match first_named(places, name) {
        Some(place) => Some(place.1),
        None => None,
    }
}

/// The first of these places that is of this name.
fn first_named<'p, 'a>(places: &'p [Place<'a>], name: &Name) -> Option<&'p Place<'a>>
    ensures { option_copied result ≡ find (λ place. same_name place.0.now name.now) places.now }
{
    places.iter().find(|place| *place.0 == *name)
}

/// Answers the location of the first of this name among those that were visited. Where the name is new, there
/// is none, and this location stands for it from then on. The only error is a failed allocation.
pub fn first_place<'a>(
    seen: &mut FirstPlaces<'a>,
    name: &'a Name,
    location: Option<SourceSpan>,
) -> Result<Option<Option<SourceSpan>>, ValidationError>
    ensures found { IfOk result (λ first. (visited : List (NameText × Option SourceSpan)) → Remembers seen.old visited → first ≡ place_in visited name.now) }
    ensures remembered { OnOk result ((visited : List (NameText × Option SourceSpan)) → Remembers seen.old visited → Remembers seen.new (visited ++ (name.now, location) ∷ [])) }
{
    match seen.find(name) {
        Some(first) => Ok(Some(first)),
        None => {
            seen.add(name, location)?;
            Ok(None)
        }
    }
}
