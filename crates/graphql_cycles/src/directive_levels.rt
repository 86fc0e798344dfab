//! Directive definitions that are known by their levels to lead to no cycle, so that none is searched from them.

ghost use Rattle.std.specs.Prelude.{◌≡◌, ◌+◌, ◌⊎◌, ◌↔◌, All, IfOk, IsTrue, map};
ghost use Rattle.graphql_diagnostics.specs.Diagnostics.{IsDiagnostic};
ghost use Rattle.graphql_diagnostics.specs.Reports.{ChecksWithin};
ghost use Rattle.graphql_specification.specs.DirectiveCycles.{DirectiveCycleReport, DirectiveHasNoCycle, DirectiveLimit, HasLongDirectivePath, HasLongTypePath, directive_depth_limit, directive_part, type_part};
ghost use Rattle.graphql_cycles.specs.DirectiveLevels.{ArePartLevels, DirectiveLeadsLowerUnder, PartLeadsLower, ReferenceIsLower, TypeLeadsLowerUnder};
ghost use Rattle.graphql_cycles.specs.DirectiveRanks.{ArePartRanks};

use super::directive_ranks::find_ranks;
use super::directives::validate_directive_cycles;
use super::levels::{LEVELS, Levels, add_level};
use super::schema_references::{Reference, references_of_directive, references_of_type};
use graphql_diagnostics::DiagnosticList;
use graphql_documents::documents::{DirectiveDefinition, ExtendedType, Schema};
use graphql_hash_seeds::HashSeed;
use graphql_name_tables::places::{FEW, place_of};
use graphql_nodes::{Name, NamedType, Node, ValidationError};
use std::alloc::Global;

/// The levels of the directive definitions and of the types of a schema, as far as they are known: a definition of a level
/// refers only to such of lower levels.
#[derive(Drop)]
pub(super) struct PartLevels<'schema> {
    pub(super) directives: Levels<'schema>,
    pub(super) types: Levels<'schema>,
}

/// A schema with the levels of its directive definitions, as far as they are known, and ranks of those that have no level.
#[derive(Drop)]
pub struct DirectiveLevels<'schema> {
    pub schema: &'schema Schema,
    levels: PartLevels<'schema>,
    ranks: PartLevels<'schema>,
    ghost lower: { ∥ ArePartLevels schema.now levels 32 ∥₁ },
    ghost ranked: { ∥ ArePartRanks schema.now ranks ∥₁ },
}

impl<'schema> DirectiveLevels<'schema> {
    /// A schema of whose directive definitions no levels are known. This takes no memory.
    pub fn unknown(alloc: Global, schema: &'schema Schema) -> DirectiveLevels<'schema>
        ensures { result.schema.now ≡ schema.now }
    {
        DirectiveLevels {
            schema,
            levels: PartLevels::unknown(alloc, schema.hash_seed()),
            ranks: PartLevels::unknown(alloc, schema.hash_seed()),
        }
    }

    /// Finds the levels of all directive definitions from which each path of references ends within 32 definitions, types
    /// among them, and ranks if some have no level; of a few directive definitions, which are as soon searched, nothing is
    /// found. Takes time in proportion to the schema, whatever refers to what. The only error is a failed allocation.
    ///
    /// Specification: 3.13 Directives.
    pub fn find(
        alloc: Global,
        schema: &'schema Schema,
    ) -> Result<DirectiveLevels<'schema>, ValidationError>
        ensures { IfOk result (λ found. found.schema.now ≡ schema.now) }
    {
        if schema.directive_definitions.len() <= FEW {
            return Ok(DirectiveLevels::unknown(alloc, schema));
        }
        let levels = find_levels(alloc, schema)?;
        let ranks = ranks_beside(alloc, schema, &levels)?;
        Ok(DirectiveLevels {
            schema,
            levels,
            ranks,
        })
    }

    /// Whether a directive definition is known by its level to lead to no cycle, and to no path of references that goes through
    /// more than 32 directives or more than 32 types: `validate_directive_cycles` reports nothing of such a one. The only error
    /// is a failed allocation.
    ///
    /// Specification: 3.13 Directives.
    pub fn is_known_without_cycle(
        &self,
        alloc: Global,
        definition: &Node<DirectiveDefinition>,
    ) -> Result<bool, ValidationError>
        ensures no_cycle { IfOk result (λ known. IsTrue known → DirectiveHasNoCycle self.now.schema.now definition.now) }
        ensures no_long_directive_path { IfOk result (λ known. IsTrue known →
            ¬ HasLongDirectivePath self.now.schema.now definition.now (directive_depth_limit + 1)) }
        ensures no_long_type_path { IfOk result (λ known. IsTrue known →
            ¬ HasLongTypePath self.now.schema.now definition.now (directive_depth_limit + 1)) }
    {
        let Some(level) = place_of(&self.levels.directives, &definition.value.name) else {
            return Ok(false);
        };
        self.levels.directive_leads_lower(alloc, definition, level)
    }

    /// Whether a directive definition is known to be on no cycle: by its level; or because it has a rank below 32 and refers
    /// only to lower ones, though it may lead to a cycle of others. No path from it is longer than `validate_directive_cycles`
    /// allows. The only error is a failed allocation.
    fn is_on_no_cycle(
        &self,
        alloc: Global,
        definition: &Node<DirectiveDefinition>,
    ) -> Result<bool, ValidationError>
        ensures { IfOk result (λ on_no_cycle. IsTrue on_no_cycle → DirectiveHasNoCycle self.now.schema.now definition.now) }
    {
        let is_known = self.is_known_without_cycle(alloc, definition)?;
        if is_known {
            return Ok(true);
        }
        match place_of(&self.ranks.directives, &definition.value.name) {
            Some(rank) if rank < LEVELS => {
                self.ranks.directive_leads_lower(alloc, definition, rank)
            }
            _ => Ok(false),
        }
    }
}

/// Reports a directive definition that leads back to itself, and one from which a path of references goes through too many
/// directives or types, as `validate_directive_cycles` does in the schema of the levels. Where the level or the rank of the
/// definition says that there is nothing to report, nothing to which it refers is searched.
///
/// Specification: 3.13 Directives.
pub fn validate_directive_cycles_by_levels(
    diagnostics: &mut DiagnosticList,
    levels: &DirectiveLevels<'_>,
    definition: &Node<DirectiveDefinition>,
) -> Result<(), ValidationError>
    ensures { ChecksWithin result (DirectiveHasNoCycle levels.now.schema.now definition.now)
        (IsDiagnostic (DirectiveCycleReport levels.now.schema.now definition.now))
        (λ e. DirectiveLimit levels.now.schema.now definition.now e.details e.location) diagnostics.old diagnostics.new }
{
    let on_no_cycle = levels.is_on_no_cycle(diagnostics.allocator(), definition)?;
    if on_no_cycle {
        return Ok(());
    }
    validate_directive_cycles(diagnostics, levels.schema, definition)
}

/// The levels of the definitions of a schema: each time round those that refer only to such as have levels already.
fn find_levels(alloc: Global, schema: &Schema) -> Result<PartLevels<'_>, ValidationError>
    ensures { IfOk result (λ levels. ArePartLevels schema.now levels 32) }
{
    let mut levels = PartLevels::unknown(alloc, schema.hash_seed());
    for level in 0..LEVELS {
        let directives = levels.next_directives(alloc, schema, level)?;
        let types = levels.next_types(alloc, schema, level)?;
        if directives.is_empty() && types.is_empty() {
            return Ok(levels);
        }
        add_level(&mut levels.directives, &directives, level)?;
        add_level(&mut levels.types, &types, level)?;
    }
    Ok(levels)
}

/// Ranks of the definitions of a schema, unless all directive definitions have levels.
fn ranks_beside<'schema>(
    alloc: Global,
    schema: &'schema Schema,
    levels: &PartLevels<'_>,
) -> Result<PartLevels<'schema>, ValidationError>
    ensures { IfOk result (ArePartRanks schema.now) }
{
    if levels.directives.len() < schema.directive_definitions.len() {
        return find_ranks(alloc, schema);
    }
    Ok(PartLevels::unknown(alloc, schema.hash_seed()))
}

impl<'schema> PartLevels<'schema> {
    /// No levels, in maps of this seed.
    pub(super) fn unknown(alloc: Global, hash_seed: HashSeed) -> PartLevels<'schema>
        ensures { (schema : Schema) → ArePartLevels schema result 0 }
    {
        PartLevels {
            directives: Levels::with_hasher(alloc, hash_seed),
            types: Levels::with_hasher(alloc, hash_seed),
        }
    }

    /// The names of the directive definitions that have no level yet, and refer only to lower ones than this.
    fn next_directives(
        &self,
        alloc: Global,
        schema: &'schema Schema,
        level: usize,
    ) -> Result<Vec<&'schema Name>, ValidationError>
        ensures { IfOk result (λ next. All (DirectiveLeadsLowerUnder schema.now self.now level) (map (λ name. name.now) next.items)) }
    {
        let mut next = Vec::new(alloc);
        for (name, _) in &schema.directive_definitions {
            let is_next = self.is_next_directive(alloc, schema, name, level)?;
            if is_next {
                next.push(name)?;
            }
        }
        Ok(next)
    }

    /// The names of the types that have no level yet, and refer only to lower ones than this.
    fn next_types(
        &self,
        alloc: Global,
        schema: &'schema Schema,
        level: usize,
    ) -> Result<Vec<&'schema NamedType>, ValidationError>
        ensures { IfOk result (λ next. All (TypeLeadsLowerUnder schema.now self.now level) (map (λ name. name.now) next.items)) }
    {
        let mut next = Vec::new(alloc);
        for (name, _) in &schema.types {
            let is_next = self.is_next_type(alloc, schema, name, level)?;
            if is_next {
                next.push(name)?;
            }
        }
        Ok(next)
    }

    /// Whether the directive definition of this name has no level yet, and refers only to lower ones than this.
    fn is_next_directive(
        &self,
        alloc: Global,
        schema: &Schema,
        name: &Name,
        level: usize,
    ) -> Result<bool, ValidationError>
        ensures { IfOk result (λ next. IsTrue next → DirectiveLeadsLowerUnder schema.now self.now level name.now) }
    {
        if place_of(&self.directives, name).is_some() {
            return Ok(false);
        }
        match schema.directive_definitions.get(name) {
            Some(definition) => self.directive_leads_lower(alloc, definition, level),
            None => Ok(false),
        }
    }

    /// Whether the type of this name has no level yet, and refers only to lower ones than this.
    fn is_next_type(
        &self,
        alloc: Global,
        schema: &Schema,
        name: &NamedType,
        level: usize,
    ) -> Result<bool, ValidationError>
        ensures { IfOk result (λ next. IsTrue next → TypeLeadsLowerUnder schema.now self.now level name.now) }
    {
        if place_of(&self.types, name).is_some() {
            return Ok(false);
        }
        match schema.types.get(name) {
            Some(definition) => self.type_leads_lower(alloc, definition, level),
            None => Ok(false),
        }
    }

    /// Whether a directive definition refers only to lower levels than this.
    pub(super) fn directive_leads_lower(
        &self,
        alloc: Global,
        definition: &Node<DirectiveDefinition>,
        level: usize,
    ) -> Result<bool, ValidationError>
        ensures { IfOk result (λ lower. IsTrue lower → PartLeadsLower self.now level (directive_part definition.now)) }
    {
        let references = references_of_directive(alloc, definition)?;
        Ok(self.all_lower(&references, level))
    }

    /// Whether a type definition refers only to lower levels than this.
    pub(super) fn type_leads_lower(
        &self,
        alloc: Global,
        definition: &ExtendedType,
        level: usize,
    ) -> Result<bool, ValidationError>
        ensures { IfOk result (λ lower. IsTrue lower → PartLeadsLower self.now level (type_part definition.now)) }
    {
        let references = references_of_type(alloc, definition)?;
        Ok(self.all_lower(&references, level))
    }

    /// Whether each of these references leads to a lower level than this.
    fn all_lower(&self, references: &[Reference<'_>], level: usize) -> bool
        ensures { IsTrue result ↔ All (ReferenceIsLower self.now level) references.now }
    {
        for reference in references {
            if !self.is_lower(reference, level) {
                return false;
            }
        }
        true
    }

    /// Whether a reference leads to a lower level than this.
    fn is_lower(&self, reference: &Reference<'_>, level: usize) -> bool
        ensures { IsTrue result ↔ ReferenceIsLower self.now level reference.now }
    {
        let found = match reference {
            Reference::Directive(application) => place_of(
                &self.directives,
                &application.value.name,
            ),
            Reference::Type(name) => place_of(&self.types, name),
        };
        match found {
            Some(found) => found < level,
            None => false,
        }
    }
}
