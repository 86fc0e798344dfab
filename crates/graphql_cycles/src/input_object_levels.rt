//! Input objects that are known by their levels to lead to no cycle, so that none is searched from them.

ghost use Rattle.std.specs.Prelude.{◌≡◌, ◌+◌, ◌↔◌, All, IfOk, IsTrue, map};
ghost use Rattle.graphql_diagnostics.specs.Diagnostics.{IsDiagnostic};
ghost use Rattle.graphql_diagnostics.specs.Reports.{ChecksWithin};
ghost use Rattle.graphql_specification.specs.InputObjectCycles.{HasLongRequiredPath, InputObjectCycleReport, InputObjectHasNoCycle, InputObjectLimit, input_object_depth_limit};
ghost use Rattle.graphql_cycles.specs.InputObjectLevels.{AreInputObjectLevels, FieldLeadsLower, RequiresLower, RequiresLowerUnder};

use super::input_objects::validate_input_object_cycles;
use super::levels::{LEVELS, Levels, add_level};
use graphql_diagnostics::DiagnosticList;
use graphql_documents::documents::{
    ExtendedType, InputObjectType, InputValueDefinition, Schema, Type,
};
use graphql_name_tables::places::place_of;
use graphql_nodes::{Name, Node, ValidationError};
use std::alloc::Global;

/// A schema with the levels of its input objects, as far as they are known: an input object of a level requires only such of
/// lower levels.
#[derive(Drop)]
pub struct InputObjectLevels<'schema> {
    pub schema: &'schema Schema,
    levels: Levels<'schema>,
    ghost lower: { ∥ AreInputObjectLevels levels schema.now 32 ∥₁ },
}

impl<'schema> InputObjectLevels<'schema> {
    /// A schema of whose input objects no levels are known. This takes no memory.
    pub fn unknown(alloc: Global, schema: &'schema Schema) -> InputObjectLevels<'schema>
        ensures { result.schema.now ≡ schema.now }
    {
        InputObjectLevels {
            schema,
            levels: Levels::with_hasher(alloc, schema.hash_seed()),
        }
    }

    /// Finds the levels of all input objects from which each chain of required fields ends within 32 input objects. Takes time
    /// in proportion to the schema, whatever requires what. The only error is a failed allocation.
    ///
    /// Specification: 3.10 Input Objects, Circular References.
    pub fn find(
        alloc: Global,
        schema: &'schema Schema,
    ) -> Result<InputObjectLevels<'schema>, ValidationError>
        ensures { IfOk result (λ found. found.schema.now ≡ schema.now) }
    {
        let levels = find_levels(alloc, schema)?;
        Ok(InputObjectLevels { schema, levels })
    }

    /// Whether an input object is known by its level to lead to no cycle, and to no chain of required fields that goes through
    /// more than 32 input objects: `validate_input_object_cycles` reports nothing of such a one.
    ///
    /// Specification: 3.10 Input Objects, Circular References.
    pub fn is_known_without_cycle(&self, input_object: &Node<InputObjectType>) -> bool
        ensures no_cycle { IsTrue result → InputObjectHasNoCycle self.now.schema.now input_object.now }
        ensures no_long_path { IsTrue result → ¬ HasLongRequiredPath self.now.schema.now input_object.now (input_object_depth_limit + 1) }
    {
        match place_of(&self.levels, &input_object.value.name) {
            Some(level) => requires_lower(self.schema, &self.levels, input_object, level),
            None => false,
        }
    }
}

/// Reports an input object that must hold itself, and one from which a chain of required fields goes through too many input
/// objects, as `validate_input_object_cycles` does in the schema of the levels. Where the level of the input object says that
/// there is nothing to report, none of what it requires is searched.
///
/// Specification: 3.10 Input Objects, Circular References.
pub fn validate_input_object_cycles_by_levels(
    diagnostics: &mut DiagnosticList,
    levels: &InputObjectLevels<'_>,
    input_object: &Node<InputObjectType>,
) -> Result<(), ValidationError>
    ensures { ChecksWithin result (InputObjectHasNoCycle levels.now.schema.now input_object.now)
        (IsDiagnostic (InputObjectCycleReport levels.now.schema.now input_object.now))
        (λ e. InputObjectLimit levels.now.schema.now input_object.now e.details e.location) diagnostics.old diagnostics.new }
{
    if levels.is_known_without_cycle(input_object) {
        return Ok(());
    }
    validate_input_object_cycles(diagnostics, levels.schema, input_object)
}

/// The levels of the input objects of a schema: each time round those that require only such as have levels already.
fn find_levels(alloc: Global, schema: &Schema) -> Result<Levels<'_>, ValidationError>
    ensures { IfOk result (λ levels. AreInputObjectLevels levels schema.now 32) }
{
    let mut levels = Levels::with_hasher(alloc, schema.hash_seed());
    for level in 0..LEVELS {
        let next = next_input_objects(alloc, schema, &levels, level)?;
        if next.is_empty() {
            return Ok(levels);
        }
        add_level(&mut levels, &next, level)?;
    }
    Ok(levels)
}

/// The names of the input objects that have no level yet, and require only lower ones than this.
fn next_input_objects<'schema>(
    alloc: Global,
    schema: &'schema Schema,
    levels: &Levels<'schema>,
    level: usize,
) -> Result<Vec<&'schema Name>, ValidationError>
    ensures { IfOk result (λ next. All (RequiresLowerUnder levels.now schema.now level) (map (λ name. name.now) next.items)) }
{
    let mut next = Vec::new(alloc);
    for (name, definition) in &schema.types {
        if matches!(definition, ExtendedType::InputObject(_))
            && is_next(schema, levels, name, level)
        {
            next.push(name)?;
        }
    }
    Ok(next)
}

/// Whether the input object of this name has no level yet, and requires only lower ones than this.
fn is_next(schema: &Schema, levels: &Levels<'_>, name: &Name, level: usize) -> bool
    ensures { IsTrue result → RequiresLowerUnder levels.now schema.now level name.now }
{
    if place_of(levels, name).is_some() {
        return false;
    }
    match schema.get_input_object(name) {
        Some(input_object) => requires_lower(schema, levels, input_object, level),
        None => false,
    }
}

/// Whether an input object requires only such of lower levels than this.
fn requires_lower(
    schema: &Schema,
    levels: &Levels<'_>,
    input_object: &Node<InputObjectType>,
    level: usize,
) -> bool
    ensures { IsTrue result ↔ All (λ entry. FieldLeadsLower levels.now schema.now level entry.1.node) input_object.now.value.value.fields.entries }
{
    input_object.value.fields.iter().all(|(_, field)| leads_lower(
        schema,
        levels,
        &field.node,
        level,
    ))
}

/// Whether a field requires no input object, or one of a lower level than this.
fn leads_lower(
    schema: &Schema,
    levels: &Levels<'_>,
    field: &Node<InputValueDefinition>,
    level: usize,
) -> bool
    ensures { IsTrue result ↔ FieldLeadsLower levels.now schema.now level field.now }
{
    let Type::NonNullNamed(name) = &*field.value.ty.value else {
        return true;
    };
    if schema.get_input_object(name).is_none() {
        return true;
    }
    match place_of(levels, name) {
        Some(found) => found < level,
        None => false,
    }
}
