//! Built-in directives that texts define again.

ghost use Rattle.std.specs.Prelude.{◌≡◌, ◌++◌, ◌∷◌, [], IfOk, List, OnOk, filter, map, not};
ghost use Rattle.std.specs.List.{list_any};
ghost use Rattle.graphql_nodes.specs.Names.{same_name};
ghost use Rattle.graphql_trees.specs.declared.type_system.DirectiveDefinition as directive_tree;
ghost use Rattle.graphql_repetitions.specs.References.{nows};
ghost use Rattle.graphql_schema_building.specs.SchemaSays.{directives_with, in_place_of, is_built_in_directive};
ghost use Rattle.graphql_schema_building.specs.Steps.{FindsFirst};

use graphql_hash_seeds::HashSeed;
use graphql_nodes::{Name, ValidationError};
use graphql_schema_checking::names::is_built_in;
use graphql_trees::DirectiveDefinition;
use indexmap::IndexMap;
use std::alloc::Global;

/// The directives of a schema: those that every schema has, in whose places stand those of texts that have their
/// names; then the others of texts, in order. The only error is a failed allocation.
///
/// Specification: 3.13 Directives.
pub(crate) fn directives_of_schema<'a>(
    alloc: Global,
    hash_seed: HashSeed,
    directives: &[&'a DirectiveDefinition],
) -> Result<Vec<&'a DirectiveDefinition>, ValidationError>
    ensures { IfOk result (λ said. nows said.items ≡ directives_with (filter is_built_in_directive (nows directives.now))
        (filter (λ d. not (is_built_in_directive d)) (nows directives.now))) }
{
    let sorted = SortedDirectives::of(alloc, directives)?;
    let own = directives_by_name(alloc, hash_seed, &sorted.own)?;
    let built_in = directives_by_name(alloc, hash_seed, &sorted.built_in)?;
    let mut said = Vec::new(alloc);
    add_in_place(&mut said, &sorted.built_in, &own)?;
    add_others(&mut said, &sorted.own, &built_in)?;
    Ok(said)
}

/// Adds each of the built-in directives, or what a text defines in its place.
fn add_in_place<'a>(
    said: &mut Vec<&'a DirectiveDefinition>,
    built_in: &[&'a DirectiveDefinition],
    own: &IndexMap<&'a Name, &'a DirectiveDefinition, HashSeed>,
) -> Result<(), ValidationError>
    ensures { OnOk result ((all : List directive_tree.DirectiveDefinition) → FindsFirst own.now all →
        nows said.new.items ≡ nows said.old.items ++ map (in_place_of all) (nows built_in.now)) }
{
    for directive in built_in {
        said.push(in_place_of(*directive, own))?;
    }
    Ok(())
}

/// What a text defines in the place of a built-in directive, or else the directive itself.
fn in_place_of<'a>(
    directive: &'a DirectiveDefinition,
    own: &IndexMap<&'a Name, &'a DirectiveDefinition, HashSeed>,
) -> &'a DirectiveDefinition
    ensures { (all : List directive_tree.DirectiveDefinition) → FindsFirst own.now all → result.now ≡ in_place_of all directive.now }
{
    match own.get(&&directive.name) {
        Some(own) => *own,
        None => directive,
    }
}

/// Adds each of the directives of texts that has not the name of a built-in one.
fn add_others<'a>(
    said: &mut Vec<&'a DirectiveDefinition>,
    own: &[&'a DirectiveDefinition],
    built_in: &IndexMap<&'a Name, &'a DirectiveDefinition, HashSeed>,
) -> Result<(), ValidationError>
    ensures { OnOk result ((all : List directive_tree.DirectiveDefinition) → FindsFirst built_in.now all →
        nows said.new.items ≡ nows said.old.items ++ filter (λ o. not (list_any (λ d. same_name d.name o.name) all)) (nows own.now)) }
{
    for directive in own {
        add_other(said, *directive, built_in)?;
    }
    Ok(())
}

fn add_other<'a>(
    said: &mut Vec<&'a DirectiveDefinition>,
    directive: &'a DirectiveDefinition,
    built_in: &IndexMap<&'a Name, &'a DirectiveDefinition, HashSeed>,
) -> Result<(), ValidationError>
    ensures { OnOk result ((all : List directive_tree.DirectiveDefinition) → FindsFirst built_in.now all →
        nows said.new.items ≡ nows said.old.items ++ filter (λ o. not (list_any (λ d. same_name d.name o.name) all)) (directive.now ∷ [])) }
{
    if !built_in.contains_key(&&directive.name) {
        said.push(directive)?;
    }
    Ok(())
}

/// The first directive of each name. The only error is a failed allocation.
fn directives_by_name<'a>(
    alloc: Global,
    hash_seed: HashSeed,
    directives: &[&'a DirectiveDefinition],
) -> Result<IndexMap<&'a Name, &'a DirectiveDefinition, HashSeed>, ValidationError>
    ensures { IfOk result (λ found. FindsFirst found (nows directives.now)) }
{
    let mut found = IndexMap::with_hasher(alloc, hash_seed);
    for directive in directives {
        add_if_new(&mut found, *directive)?;
    }
    Ok(found)
}

/// Adds a directive, unless one of its name is there.
fn add_if_new<'a>(
    found: &mut IndexMap<&'a Name, &'a DirectiveDefinition, HashSeed>,
    directive: &'a DirectiveDefinition,
) -> Result<(), ValidationError>
    ensures { OnOk result ((before : List directive_tree.DirectiveDefinition) → FindsFirst found.old before →
        FindsFirst found.new (before ++ directive.now ∷ [])) }
{
    let name = &directive.name;
    if !found.contains_key(&name) {
        found.insert(name, directive)?;
    }
    Ok(())
}

/// The definitions of directives: those that every schema has, and those of texts.
#[derive(Drop)]
struct SortedDirectives<'a> {
    built_in: Vec<&'a DirectiveDefinition>,
    own: Vec<&'a DirectiveDefinition>,
}

impl<'a> SortedDirectives<'a> {
    fn of(
        alloc: Global,
        directives: &[&'a DirectiveDefinition],
    ) -> Result<SortedDirectives<'a>, ValidationError>
        ensures built_in { IfOk result (λ sorted. nows sorted.built_in.items ≡ filter is_built_in_directive (nows directives.now)) }
        ensures own { IfOk result (λ sorted. nows sorted.own.items ≡ filter (λ d. not (is_built_in_directive d)) (nows directives.now)) }
    {
        let mut sorted = SortedDirectives {
            built_in: Vec::new(alloc),
            own: Vec::new(alloc),
        };
        for directive in directives {
            sorted.add(*directive)?;
        }
        Ok(sorted)
    }

    fn add(&mut self, directive: &'a DirectiveDefinition) -> Result<(), ValidationError>
        ensures built_in { OnOk result (nows self.new.built_in.items ≡
            nows self.old.built_in.items ++ filter is_built_in_directive (directive.now ∷ [])) }
        ensures own { OnOk result (nows self.new.own.items ≡
            nows self.old.own.items ++ filter (λ d. not (is_built_in_directive d)) (directive.now ∷ [])) }
    {
        if is_built_in(&directive.name) {
            self.built_in.push(directive)?;
        } else {
            self.own.push(directive)?;
        }
        Ok(())
    }
}
