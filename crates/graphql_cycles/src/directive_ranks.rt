//! Ranks of directive definitions and of the types to which they lead, by which those are known from which no path of
//! references leads back, though it may lead to a cycle of others.

ghost use Rattle.std.specs.Prelude.{All, IfOk, IsTrue};
ghost use Rattle.graphql_specification.specs.DirectiveCycles.{directive_part, type_part};
ghost use Rattle.graphql_cycles.specs.DirectiveRanks.{ArePartRanks, DirectiveEntryLeadsNoHigher, LeadsNoHigher, TypeEntryLeadsNoHigher};

use super::directive_levels::PartLevels;
use super::schema_references::{Reference, references_of_directive, references_of_type};
use graphql_documents::documents::{DirectiveDefinition, ExtendedType, Schema};
use graphql_name_tables::places::{add_if_new, place_of};
use graphql_nodes::{Name, NamedType, Node, ValidationError};
use std::alloc::{AllocError, Global};

/// Finds ranks of the directive definitions of a schema and of all to which they lead, such that none refers to one of a
/// higher rank. The search gives one rank only to definitions of one cycle, if it can, and none a rank that is lower than the
/// number of others on a path from it. Takes time in proportion to the schema. The only error is a failed allocation.
pub(super) fn find_ranks(alloc: Global, schema: &Schema) -> Result<PartLevels<'_>, ValidationError>
    ensures { IfOk result (ArePartRanks schema.now) }
{
    let ranks = ranks_by_search(alloc, schema)?;
    let are_ranks = are_ranks(alloc, schema, &ranks)?;
    if are_ranks {
        Ok(ranks)
    } else {
        Ok(PartLevels::unknown(alloc, schema.hash_seed()))
    }
}

/// Whether none of the definitions of a schema refers to one of a higher rank.
fn are_ranks(
    alloc: Global,
    schema: &Schema,
    ranks: &PartLevels<'_>,
) -> Result<bool, ValidationError>
    ensures { IfOk result (λ are. IsTrue are → ArePartRanks schema.now ranks.now) }
{
    let directives = directives_lead_no_higher(alloc, schema, ranks)?;
    let types = types_lead_no_higher(alloc, schema, ranks)?;
    Ok(directives && types)
}

/// Whether no directive definition refers to a definition of a higher rank.
fn directives_lead_no_higher(
    alloc: Global,
    schema: &Schema,
    ranks: &PartLevels<'_>,
) -> Result<bool, ValidationError>
    ensures { IfOk result (λ all. IsTrue all → All (DirectiveEntryLeadsNoHigher ranks.now) schema.now.directive_definitions.entries) }
{
    for (name, definition) in &schema.directive_definitions {
        let rank = place_of(&ranks.directives, name);
        let no_higher = directive_leads_no_higher(alloc, ranks, rank, definition)?;
        if !no_higher {
            return Ok(false);
        }
    }
    Ok(true)
}

/// Whether no type refers to a definition of a higher rank.
fn types_lead_no_higher(
    alloc: Global,
    schema: &Schema,
    ranks: &PartLevels<'_>,
) -> Result<bool, ValidationError>
    ensures { IfOk result (λ all. IsTrue all → All (TypeEntryLeadsNoHigher ranks.now) schema.now.types.entries) }
{
    for (name, definition) in &schema.types {
        let rank = place_of(&ranks.types, name);
        let no_higher = type_leads_no_higher(alloc, ranks, rank, definition)?;
        if !no_higher {
            return Ok(false);
        }
    }
    Ok(true)
}

/// Whether a directive definition of this rank, if it has one, refers to none of a higher rank.
fn directive_leads_no_higher(
    alloc: Global,
    ranks: &PartLevels<'_>,
    rank: Option<usize>,
    definition: &Node<DirectiveDefinition>,
) -> Result<bool, ValidationError>
    ensures { IfOk result (λ leads. IsTrue leads → LeadsNoHigher ranks.now rank (directive_part definition.now)) }
{
    let Some(rank) = rank else {
        return Ok(true);
    };
    match rank.checked_add(1) {
        Some(above) => ranks.directive_leads_lower(alloc, definition, above),
        None => Ok(false),
    }
}

/// Whether a type definition of this rank, if it has one, refers to none of a higher rank.
fn type_leads_no_higher(
    alloc: Global,
    ranks: &PartLevels<'_>,
    rank: Option<usize>,
    definition: &ExtendedType,
) -> Result<bool, ValidationError>
    ensures { IfOk result (λ leads. IsTrue leads → LeadsNoHigher ranks.now rank (type_part definition.now)) }
{
    let Some(rank) = rank else {
        return Ok(true);
    };
    match rank.checked_add(1) {
        Some(above) => ranks.type_leads_lower(alloc, definition, above),
        None => Ok(false),
    }
}

/// The ranks that a search finds, which goes depth first through all to which directive definitions lead, and gives the
/// definitions of a cycle one rank (Tarjan's algorithm). No contract says that they are ranks: `are_ranks` tests it. The only
/// error is a failed allocation.
fn ranks_by_search(alloc: Global, schema: &Schema) -> Result<PartLevels<'_>, ValidationError> {
    let mut ranking = Ranking {
        alloc,
        schema,
        places: PartLevels::unknown(alloc, schema.hash_seed()),
        ranks: PartLevels::unknown(alloc, schema.hash_seed()),
        unranked: Vec::new(alloc),
        entered: Vec::new(alloc),
        references: Vec::new(alloc),
    };
    for (name, _) in &schema.directive_definitions {
        ranking.rank(PartName::Directive(name))?;
    }
    Ok(ranking.ranks)
}

/// The name of a directive or of a type.
#[derive(Clone, Copy)]
enum PartName<'schema> {
    Directive(&'schema Name),
    Type(&'schema NamedType),
}

/// A definition that was entered and was not left.
#[derive(Clone, Copy)]
struct Entered {
    /// Its place among those that have no rank.
    place: usize,
    /// The first of these places to which it is known to lead.
    first: usize,
    /// A rank above all to which it is known to lead, those of the same cycle apart.
    rank: usize,
    /// How many references of others are below its own.
    below: usize,
}

/// A search that finds ranks.
#[derive(Drop)]
struct Ranking<'schema> {
    alloc: Global,
    schema: &'schema Schema,
    /// The place at which each name was entered.
    places: PartLevels<'schema>,
    ranks: PartLevels<'schema>,
    /// The names that were entered and have no rank, in order.
    unranked: Vec<PartName<'schema>>,
    /// The way to where the search is.
    entered: Vec<Entered>,
    /// What those on the way refer to and was not gone into, that of the last one on top.
    references: Vec<Reference<'schema>>,
}

impl<'schema> Ranking<'schema> {
    /// Gives ranks to the definition of this name and to all to which it leads.
    fn rank(&mut self, name: PartName<'schema>) -> Result<(), ValidationError> {
        if level_of(&self.places, name).is_some() {
            return Ok(());
        }
        self.enter(name)?;
        for _ in 0..u64::MAX {
            let Some(last) = self.entered.pop() else {
                return Ok(());
            };
            self.go_on(last)?;
        }
        Ok(())
    }

    /// Goes to what the next reference of a definition names, or leaves the definition, if it was gone through.
    fn go_on(&mut self, from: Entered) -> Result<(), ValidationError> {
        if self.references.len() <= from.below {
            return self.leave(from);
        }
        match self.references.pop() {
            Some(Reference::Directive(application)) => {
                self.go_to(from, PartName::Directive(&application.value.name))
            }
            Some(Reference::Type(name)) => self.go_to(from, PartName::Type(name)),
            None => self.leave(from),
        }
    }

    /// Goes from a definition to what it refers to by this name.
    fn go_to(&mut self, from: Entered, name: PartName<'schema>) -> Result<(), ValidationError> {
        let Some(place) = level_of(&self.places, name) else {
            self.entered.push(from)?;
            return self.enter(name);
        };
        let passed = match level_of(&self.ranks, name) {
            Some(rank) => with_found(from, from.place, rank.saturating_add(1)),
            None => with_found(from, place, 0),
        };
        self.entered.push(passed)?;
        Ok(())
    }

    /// Enters the definition of a name, or finds that it has none.
    fn enter(&mut self, name: PartName<'schema>) -> Result<(), ValidationError> {
        let place = self.unranked.len();
        add_level(&mut self.places, name, place)?;
        self.unranked.push(name)?;
        self.entered.push(Entered {
            place,
            first: place,
            rank: 0,
            below: self.references.len(),
        })?;
        let references = self.references_of(name)?;
        self.references.extend_from_slice(&references)?;
        Ok(())
    }

    /// What the definition of a name refers to.
    fn references_of(
        &self,
        name: PartName<'schema>,
    ) -> Result<Vec<Reference<'schema>>, ValidationError> {
        match name {
            PartName::Directive(name) => match self.schema.directive_definitions.get(name) {
                Some(definition) => references_of_directive(self.alloc, definition),
                None => Ok(Vec::new(self.alloc)),
            },
            PartName::Type(name) => match self.schema.types.get(name) {
                Some(definition) => references_of_type(self.alloc, definition),
                None => Ok(Vec::new(self.alloc)),
            },
        }
    }

    /// Leaves a definition. If it leads to none that was entered before it, then it gets a rank, together with all without one
    /// that were entered after it: these lead back to it.
    fn leave(&mut self, left: Entered) -> Result<(), ValidationError> {
        if left.first < left.place {
            return self.pass_on(left.first, left.rank);
        }
        let count = self.unranked.len().saturating_sub(left.place);
        let rank = left.rank.saturating_add(count.saturating_sub(1));
        for _ in 0..count {
            if let Some(name) = self.unranked.pop() {
                add_level(&mut self.ranks, name, rank)?;
            }
        }
        self.pass_on(left.place, rank.saturating_add(1))
    }

    /// Notes what was found behind a definition at the one from which the search came to it.
    fn pass_on(&mut self, first: usize, rank: usize) -> Result<(), ValidationError> {
        if let Some(from) = self.entered.pop() {
            self.entered.push(with_found(from, first, rank))?;
        }
        Ok(())
    }
}

/// A definition of which it was found that it leads to this place, and to what is below this rank.
fn with_found(entered: Entered, first: usize, rank: usize) -> Entered {
    Entered {
        first: entered.first.min(first),
        rank: entered.rank.max(rank),
        ..entered
    }
}

/// The level under a name.
fn level_of(levels: &PartLevels<'_>, name: PartName<'_>) -> Option<usize> {
    match name {
        PartName::Directive(name) => place_of(&levels.directives, name),
        PartName::Type(name) => place_of(&levels.types, name),
    }
}

/// Puts a name at a level, if it has none. The only error is a failed allocation.
fn add_level<'schema>(
    levels: &mut PartLevels<'schema>,
    name: PartName<'schema>,
    level: usize,
) -> Result<(), AllocError> {
    match name {
        PartName::Directive(name) => add_if_new(&mut levels.directives, name, level),
        PartName::Type(name) => add_if_new(&mut levels.types, name, level),
    }
}
