//! Lists whose elements are found by their names.

ghost use Rattle.std.specs.Option.{option_copied};
ghost use Rattle.std.specs.Prelude.{◌≡◌, ◌↔◌, ◌++◌, ◌∷◌, [], IfOk, IsNone, IsTrue, find, length};
ghost use Rattle.graphql_nodes.specs.Names.{same_name};
ghost use Rattle.graphql_name_tables.specs.Places.{HasPlaces};

use crate::named::Named;
use crate::places::{FEW, Places, add_if_new, place_of};
use graphql_hash_seeds::HashSeed;
use graphql_nodes::Name;
use std::alloc::{AllocError, Global};
use std::marker::Model;

/// The elements of a list, each found by its name in about constant time. Of those with one name the first is found. The list
/// can grow, so that no more of it is read than has to be.
#[derive(Drop)]
pub struct ByName<'a, T: Named> {
    elements: &'a [T],
    // none where the elements or the look-ups are few
    places: Option<Places<'a>>,
}

impl<'a, T: Named> Model for ByName<'a, T> {
    ghost use Rattle.std.specs.Option.{ForSome};
    ghost use Rattle.std.specs.Prelude.{List};
    ghost use Rattle.graphql_name_tables.specs.Places.{HasPlaces};

    ghost Value = { List T };

    ghost view = { λ named. named.elements.now };

    ghost invariant = { λ named. ForSome named.places (λ places. HasPlaces T.name_of places named.elements.now) };
}

impl<'a, T: Named> ByName<'a, T> {
    /// These elements, of which about so many will be looked up, their names hashed by this seed. Making it and the look-ups
    /// take time in proportion to the elements and the look-ups together. The only error is a failed allocation; few elements
    /// or few look-ups take no memory.
    pub fn new(
        alloc: Global,
        hash_seed: HashSeed,
        elements: &'a [T],
        look_ups: usize,
    ) -> Result<ByName<'a, T>, AllocError>
        ensures { IfOk result (λ named. named ≡ elements.now) }
    {
        if elements.len() <= FEW || look_ups <= FEW {
            return Ok(ByName {
                elements,
                places: None,
            });
        }
        let places = first_places(alloc, hash_seed, elements)?;
        Ok(ByName {
            elements,
            places: Some(places),
        })
    }

    /// How many elements there are.
    pub fn len(&self) -> usize
        ensures { result ≡ length self.now }
    {
        self.elements.len()
    }

    /// The first element with this name.
    pub fn find(&self, name: &Name) -> Option<&'a T>
        ensures { option_copied result ≡ find (λ x. same_name (T.name_of x) name.now) self.now }
    {
        match &self.places {
            None => first_named(self.elements, name),
            Some(places) => match place_of(places, name) {
                Some(place) => self.elements.get(place),
                None => None,
            },
        }
    }

    /// Has these elements from now on: one more, the last. Answers whether none before it has its name. Growing
    /// one by one takes about linear time in all. The only error is a failed allocation.
    pub fn grow(
        &mut self,
        alloc: Global,
        hash_seed: HashSeed,
        elements: &'a [T],
        last: &'a T,
    ) -> Result<bool, AllocError>
        requires { elements.now ≡ self.old ++ last.now ∷ [] }
        ensures elements { IfOk result (λ _. self.new ≡ elements.now) }
        ensures first { IfOk result (λ first. IsTrue first ↔ IsNone (find (λ x. same_name (T.name_of x) (T.name_of last.now)) self.old)) }
    {
        let place = self.elements.len();
        let is_first = self.find(last.name()).is_none();
        // taken out, since a table that could not grow is of no use
        let places = match self.places.take() {
            Some(mut places) => {
                add_if_new(&mut places, last.name(), place)?;
                Some(places)
            }
            None if place < FEW => None,
            None => Some(first_places(alloc, hash_seed, elements)?),
        };
        self.elements = elements;
        self.places = places;
        Ok(is_first)
    }
}

/// The first of these elements that has the name.
fn first_named<'a, T: Named>(elements: &'a [T], name: &Name) -> Option<&'a T>
    ensures { option_copied result ≡ find (λ x. same_name (T.name_of x) name.now) elements.now }
{
    elements.iter().find(|element| element.name() == name)
}

/// The place of the first element of each name.
fn first_places<'a, T: Named>(
    alloc: Global,
    hash_seed: HashSeed,
    elements: &'a [T],
) -> Result<Places<'a>, AllocError>
    ensures { IfOk result (λ places. HasPlaces T.name_of places elements.now) }
{
    let mut places = Places::with_hasher(alloc, hash_seed);
    for (place, element) in elements.iter().enumerate() {
        add_if_new(&mut places, element.name(), place)?;
    }
    Ok(places)
}
