//! The shortest ways on which documents come to the types of a schema.

ghost use Rattle.std.specs.Prelude.{◌≡◌, IfOk, IfSome, OnOk, Some};
ghost use Rattle.std.specs.Option.{option_copied, option_map};
ghost use Rattle.graphql_schema_ways.specs.Ways.{IsWay, LeadsTo, Reaches, StepsLead, entry_at, name_at, start_of, step_at};

use crate::inputs::{InputSite, InputSites};
use graphql_documents::documents::{
    Component, ComponentName, ExtendedType, FieldDefinition, Schema,
};
use graphql_nodes::{Name, NamedType, OperationType, ValidationError};
use graphql_schema_parts::{FieldMap, fields_of};
use std::alloc::Global;

/// The last step on a way to a type. Types are known by their indices in the map of types.
#[derive(Clone, Copy)]
pub enum Step<'a> {
    /// The type is the root type of this kind of operation.
    Root(OperationType),
    /// A field of the type at this index has the type.
    Field {
        parent: usize,
        field: &'a Component<FieldDefinition>,
    },
    /// The type can be a condition on the type at this index.
    Condition {
        parent: usize,
    },
}

impl Step<'_> {
    /// The type from which the step leads, if there is one.
    fn start(self) -> Option<usize>
        ensures { result ≡ start_of self.entry }
    {
        match self {
            Step::Root(_) => None,
            Step::Field { parent, .. } => Some(parent),
            Step::Condition { parent } => Some(parent),
        }
    }
}

/// For each type of a schema, a shortest way on which a document comes to it: to a selection on it, to a field of it, or to a
/// place where a value of it is given.
#[derive(Drop)]
pub struct Ways<'a> {
    /// The schema.
    pub schema: &'a Schema,
    // by the indices of types
    steps: Vec<Option<Step<'a>>>,
    overlaps: Vec<Vec<usize>>,
    inputs: InputSites<'a>,
}

/// A way from the root type of a kind of operation.
#[derive(Drop)]
pub struct Way {
    pub operation: OperationType,
    /// The types on the way behind the root, the last one first.
    pub indices: Vec<usize>,
}

impl<'a> Ways<'a> {
    /// Finds the ways of a schema, each type and each field once. The only error is a failed allocation.
    pub fn new(alloc: Global, schema: &'a Schema) -> Result<Ways<'a>, ValidationError>
        ensures schema { IfOk result (λ ways. ways.schema ≡ schema.entry) }
        ensures steps { IfOk result (λ ways. StepsLead schema.now ways.steps.items) }
    {
        let overlaps = overlaps_of(alloc, schema)?;
        let search = search_from_roots(alloc, schema, &overlaps)?;
        let inputs = InputSites::new(alloc, schema, &search.order)?;
        Ok(Ways {
            schema,
            steps: search.steps,
            overlaps,
            inputs,
        })
    }

    /// The allocator of the ways.
    pub fn allocator(&self) -> Global {
        *self.steps.allocator()
    }

    /// The index of a type.
    pub fn index_of(&self, name: &NamedType) -> Option<usize> {
        self.schema.types.get_index_of(name)
    }

    /// The name of the type at this index.
    pub fn name_at(&self, index: usize) -> Option<&'a Name>
        ensures { option_copied result ≡ name_at self.now.schema.now index }
    {
        let (name, _) = self.schema.types.get_index(index)?;
        Some(name)
    }

    /// The definition of the type at this index.
    pub fn definition_at(&self, index: usize) -> Option<&'a ExtendedType>
        ensures { option_copied result ≡ option_map (λ entry. entry.1) (entry_at self.now.schema.now index) }
    {
        let (_, definition) = self.schema.types.get_index(index)?;
        Some(definition)
    }

    /// The last step to the type at this index, if there is a way to it.
    pub fn step_to(&self, index: usize) -> Option<Step<'a>>
        ensures { result ≡ step_at self.now.steps.items index }
    {
        *self.steps.get(index)?
    }

    /// The way to the type at this index, if there is one. No way has more types than the schema.
    pub fn way_to(&self, place: usize) -> Result<Option<Way>, ValidationError>
        ensures { IfOk result (λ found. IfSome found (λ way.
            StepsLead self.now.schema.now self.now.steps.items → IsWay self.now.schema.now way.operation place way.indices.items)) }
    {
        let mut indices = Vec::new(self.allocator());
        let mut at = place;
        for _ in 0..self.schema.types.len() {
            let Some(step) = self.step_to(at) else {
                return Ok(None);
            };
            if let Step::Root(operation) = step {
                return Ok(Some(Way { operation, indices }));
            }
            let Some(parent) = step.start() else {
                return Ok(None);
            };
            indices.push(at)?;
            at = parent;
        }
        Ok(None)
    }

    /// A place where a value of the input type at this index can be given, if there is one.
    pub fn site_of(&self, index: usize) -> Option<InputSite<'a>> {
        self.inputs.site_of(index)
    }

    /// The types that have an object in common with the type at this index: one of the two is an object, and the other an
    /// interface or a union of it.
    pub fn overlaps_at(&self, index: usize) -> &[usize] {
        match self.overlaps.get(index) {
            Some(others) => others.as_slice(),
            None => &[],
        }
    }
}

/// A search from the root types, in which each type is reached once.
#[derive(Drop)]
struct Search<'a> {
    steps: Vec<Option<Step<'a>>>,
    /// The composite types that were reached, in order.
    order: Vec<usize>,
}

fn search_from_roots<'a>(
    alloc: Global,
    schema: &'a Schema,
    overlaps: &[Vec<usize>],
) -> Result<Search<'a>, ValidationError>
    ensures { IfOk result (λ search. StepsLead schema.now search.steps.items) }
{
    let mut search = Search {
        steps: no_steps(alloc, schema)?,
        order: Vec::new(alloc),
    };
    search.reach_root(schema, OperationType::Query)?;
    search.reach_root(schema, OperationType::Mutation)?;
    search.reach_root(schema, OperationType::Subscription)?;
    search.go_on(schema, overlaps)?;
    Ok(search)
}

/// No step to any type.
fn no_steps<'a>(alloc: Global, schema: &Schema) -> Result<Vec<Option<Step<'a>>>, ValidationError>
    ensures { IfOk result (λ steps. StepsLead schema.now steps.items) }
{
    let mut steps = Vec::new(alloc);
    for _ in 0..schema.types.len() {
        steps.push(None)?;
    }
    Ok(steps)
}

impl<'a> Search<'a> {
    fn reach_root(
        &mut self,
        schema: &'a Schema,
        operation: OperationType,
    ) -> Result<(), ValidationError>
        ensures { OnOk result (Reaches schema.now self.old.steps.items self.new.steps.items) }
    {
        match schema.root_operation(operation) {
            Some(name) => {
                self.reach(schema, name, Step::Root(operation))?;
                Ok(())
            }
            None => Ok(()),
        }
    }

    /// Reaches all that follow: there are no more composite types than types.
    fn go_on(&mut self, schema: &'a Schema, overlaps: &[Vec<usize>]) -> Result<(), ValidationError>
        ensures { OnOk result (Reaches schema.now self.old.steps.items self.new.steps.items) }
    {
        for position in 0..schema.types.len() {
            let Some(index) = self.order.get(position) else {
                break;
            };
            let index = *index;
            self.reach_from(schema, index, overlaps)?;
        }
        Ok(())
    }

    /// Reaches the types of the fields of a type, and those that can be a condition on it.
    fn reach_from(
        &mut self,
        schema: &'a Schema,
        parent: usize,
        overlaps: &[Vec<usize>],
    ) -> Result<(), ValidationError>
        ensures { OnOk result (Reaches schema.now self.old.steps.items self.new.steps.items) }
    {
        let Some((place, definition)) = schema.types.get_index(parent) else {
            return Ok(());
        };
        self.reach_below(schema, parent, place, definition)?;
        let meta_fields = &schema.meta_fields;
        self.reach_field(schema, parent, place, &meta_fields.schema.node.value.name)?;
        self.reach_field(
            schema,
            parent,
            place,
            &meta_fields.type_by_name.node.value.name,
        )?;
        match overlaps.get(parent) {
            Some(others) => {
                self.reach_conditions(schema, parent, place, others)?;
                Ok(())
            }
            None => Ok(()),
        }
    }

    fn reach_below(
        &mut self,
        schema: &'a Schema,
        parent: usize,
        place: &NamedType,
        definition: &ExtendedType,
    ) -> Result<(), ValidationError>
        requires { name_at schema.now parent ≡ Some place.now }
        ensures { OnOk result (Reaches schema.now self.old.steps.items self.new.steps.items) }
    {
        match fields_of(definition) {
            Some(fields) => {
                self.reach_fields(schema, parent, place, fields)?;
                Ok(())
            }
            None => Ok(()),
        }
    }

    fn reach_fields(
        &mut self,
        schema: &'a Schema,
        parent: usize,
        place: &NamedType,
        fields: &FieldMap,
    ) -> Result<(), ValidationError>
        requires { name_at schema.now parent ≡ Some place.now }
        ensures { OnOk result (Reaches schema.now self.old.steps.items self.new.steps.items) }
    {
        for (name, _) in fields {
            self.reach_field(schema, parent, place, name)?;
        }
        Ok(())
    }

    /// Reaches the type of the field of this name, if the type at the index has it.
    fn reach_field(
        &mut self,
        schema: &'a Schema,
        parent: usize,
        place: &NamedType,
        name: &Name,
    ) -> Result<(), ValidationError>
        requires { name_at schema.now parent ≡ Some place.now }
        ensures { OnOk result (Reaches schema.now self.old.steps.items self.new.steps.items) }
    {
        match schema.type_field(place, name) {
            Ok(field) => {
                let below = field.node.value.ty.inner_named_type();
                self.reach(schema, below, Step::Field { parent, field })?;
                Ok(())
            }
            Err(_) => Ok(()),
        }
    }

    fn reach_conditions(
        &mut self,
        schema: &'a Schema,
        parent: usize,
        place: &NamedType,
        others: &[usize],
    ) -> Result<(), ValidationError>
        requires { name_at schema.now parent ≡ Some place.now }
        ensures { OnOk result (Reaches schema.now self.old.steps.items self.new.steps.items) }
    {
        for other in others {
            self.reach_condition(schema, parent, place, *other)?;
        }
        Ok(())
    }

    /// Reaches the type at the second index, if each of its objects is one of the first type, or the other way round.
    fn reach_condition(
        &mut self,
        schema: &'a Schema,
        parent: usize,
        place: &NamedType,
        other: usize,
    ) -> Result<(), ValidationError>
        requires { name_at schema.now parent ≡ Some place.now }
        ensures { OnOk result (Reaches schema.now self.old.steps.items self.new.steps.items) }
    {
        let Some((name, _)) = schema.types.get_index(other) else {
            return Ok(());
        };
        if schema.is_subtype(place, name) || schema.is_subtype(name, place) {
            self.reach(schema, name, Step::Condition { parent })?;
        }
        Ok(())
    }

    /// Reaches a type by this step, if it was not reached before.
    fn reach(
        &mut self,
        schema: &'a Schema,
        name: &NamedType,
        step: Step<'a>,
    ) -> Result<(), ValidationError>
        requires { LeadsTo schema.now name.now step }
        ensures { OnOk result (Reaches schema.now self.old.steps.items self.new.steps.items) }
    {
        let Some((index, _, definition)) = schema.types.get_full(name) else {
            return Ok(());
        };
        let Some(None) = self.steps.get(index) else {
            return Ok(());
        };
        self.steps[index] = Some(step);
        if definition.is_composite() {
            self.order.push(index)?;
        }
        Ok(())
    }
}

/// For each type, those that have an object in common with it: of an object its interfaces and unions, and of these their objects.
fn overlaps_of(alloc: Global, schema: &Schema) -> Result<Vec<Vec<usize>>, ValidationError> {
    let mut overlaps = Vec::new(alloc);
    for _ in &schema.types {
        overlaps.push(Vec::new(alloc))?;
    }
    for (name, definition) in &schema.types {
        if let Some(index) = schema.types.get_index_of(name) {
            add_overlaps(&mut overlaps, schema, index, definition)?;
        }
    }
    Ok(overlaps)
}

fn add_overlaps(
    overlaps: &mut [Vec<usize>],
    schema: &Schema,
    index: usize,
    definition: &ExtendedType,
) -> Result<(), ValidationError> {
    match definition {
        ExtendedType::Object(object) => {
            let interfaces = object.value.implements_interfaces.as_slice();
            add_each(overlaps, schema, index, interfaces)
        }
        ExtendedType::Union(union) => {
            let members = union.value.members.as_slice();
            add_each(overlaps, schema, index, members)
        }
        _ => Ok(()),
    }
}

/// Adds that the type at this index has an object in common with each of these.
fn add_each(
    overlaps: &mut [Vec<usize>],
    schema: &Schema,
    index: usize,
    others: &[ComponentName],
) -> Result<(), ValidationError> {
    for other in others {
        if let Some(other) = schema.types.get_index_of(&other.name) {
            add_to(overlaps, index, other)?;
            add_to(overlaps, other, index)?;
        }
    }
    Ok(())
}

fn add_to(overlaps: &mut [Vec<usize>], index: usize, other: usize) -> Result<(), ValidationError> {
    if let Some(known) = overlaps.get_mut(index) {
        known.push(other)?;
    }
    Ok(())
}
