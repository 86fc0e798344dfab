//! The groups in which the fields of a list are put together.

ghost use Rattle.std.specs.Prelude.{◌≡◌, ◌≤◌, ◌+◌, ◌*◌, ◌++◌, ◌∷◌, [], false, IfErr, IfOk, List, OnOk, flat_map, length, map};
ghost use Rattle.std.specs.Option.{option_map_or};
ghost use Rattle.graphql_documents.specs.Schemas.{is_composite, type_definition};
ghost use Rattle.graphql_specification.specs.MergedSets.{is_abstract, with_parents, groups_of, groups_on, objects_of, unless_empty};
ghost use Rattle.graphql_merging.specs.NumberedFields.{AreGroupsNumbered, AreNumberedIn, IsNumberedIn, listed, lists_of, selection_of};
ghost use Rattle.graphql_merging.specs.Groups.{by_keys, by_objects, fields_under, pass_of, with_field, with_owned};
ghost use Rattle.graphql_merging.specs.NumberedGroups.{AreEntriesNumbered, named_fields};
ghost use Rattle.graphql_merging.specs.Works.{IsUnbounded, Pays, weight};
ghost use Rattle.graphql_merging.specs.declared.work.Interruption.TheVariants.{OutOfMemory};
ghost use Rattle.graphql_contents.specs.declared.contents.Content.{Content};

pub use crate::keyed_fields::fields_by_key;
use crate::numbered_fields::NumberedField;
use crate::work::{Interruption, Work};
use graphql_documents::documents::{ExtendedType, Schema};
use graphql_hash_seeds::HashSeed;
use graphql_nodes::{Name, ValidationError};
use graphql_steps::Steps;
use indexmap::IndexMap;
use std::alloc::Global;
use std::hash::BuildHasher;
use std::sync::ledger::Ledger;

/// Which fields of a list are put together, and what must hold of them.
///
/// Specification: 5.3.2 Field Selection Merging.
#[derive(Clone, Copy, Debug, PartialEq, Eq)]
pub enum Pass {
    /// All with one response key, which must have one shape (SameResponseShape).
    Shapes,
    /// Those with one response key whose parents may overlap, which must be one field with the same
    /// arguments (FieldsInSetCanMerge).
    NamesAndArguments,
}

/// The groups of a list of fields, in order of first field. Fields that are on no object, interface or union
/// are in no group for names and arguments. The call is interrupted if more fields are copied than the work allows.
///
/// Specification: 5.3.2 Field Selection Merging.
pub(crate) fn groups_of<'doc, L: Ledger>(
    alloc: Global,
    hash_seed: HashSeed,
    work: &mut Work,
    steps: &mut Steps<L>,
    schema: &Schema,
    pass: Pass,
    fields: &[NumberedField<'doc>],
) -> Result<Vec<Vec<NumberedField<'doc>>>, Interruption>
    ensures groups { IfOk result (λ groups. lists_of groups.items ≡ groups_of schema.now (pass_of pass) (listed fields.now)) }
    ensures numbered { (contents : List Content) → AreNumberedIn contents fields.now → IfOk result (λ groups. AreGroupsNumbered contents groups.items) }
    ensures unbounded { IsUnbounded work.old → IsUnbounded work.new × IfErr result (λ e. e ≡ OutOfMemory) }
    // For each group, and for each field in it, there are four steps to spare.
    ensures spare { IfOk result (λ groups.
        Pays work.old work.new (steps.old + 23 * length fields.now) (steps.new + 4 * weight (lists_of groups.items)) 0) }
    ensures cost { Pays work.old work.new steps.old steps.new (23 * length fields.now) }
{
    if fields.len() == 1 {
        steps.take(1);
        return Ok(groups_of_one(alloc, schema, pass, fields[0])?);
    }
    let fields_by_key = numbered_by_key(alloc, hash_seed, fields, steps)?;
    match pass {
        Pass::Shapes => {
            steps.take(fields_by_key.len());
            Ok(fields_by_key.into_values().collect(alloc)?)
        }
        Pass::NamesAndArguments => groups_by_types(alloc, work, steps, schema, fields_by_key),
    }
}

/// The groups of a list of one field: itself, unless types are looked at and it is on none with fields to select.
fn groups_of_one<'doc>(
    alloc: Global,
    schema: &Schema,
    pass: Pass,
    field: NumberedField<'doc>,
) -> Result<Vec<Vec<NumberedField<'doc>>>, ValidationError>
    ensures groups { IfOk result (λ groups. lists_of groups.items ≡ groups_of schema.now (pass_of pass) (selection_of field.entry ∷ [])) }
    ensures numbered { (contents : List Content) → IsNumberedIn contents field.entry → IfOk result (λ groups. AreGroupsNumbered contents groups.items) }
    ensures weight { IfOk result (λ groups. weight (lists_of groups.items) ≤ 2) }
{
    let group = vec![in alloc; field]?;
    match pass {
        Pass::Shapes => Ok(vec![in alloc; group]?),
        Pass::NamesAndArguments => {
            let mut groups = Vec::new(alloc);
            push_alone(&mut groups, schema, group)?;
            Ok(groups)
        }
    }
}

/// The groups, by types, of the fields under each key.
fn groups_by_types<'doc, L: Ledger>(
    alloc: Global,
    work: &mut Work,
    steps: &mut Steps<L>,
    schema: &Schema,
    fields_by_key: IndexMap<&'doc Name, Vec<NumberedField<'doc>>, HashSeed>,
) -> Result<Vec<Vec<NumberedField<'doc>>>, Interruption>
    ensures groups { IfOk result (λ groups. lists_of groups.items ≡
        flat_map (λ entry. groups_on schema.now entry.1 (objects_of schema.now entry.1)) (named_fields fields_by_key.entry.entries)) }
    ensures numbered { (contents : List Content) → AreEntriesNumbered contents fields_by_key.entry.entries → IfOk result (λ groups. AreGroupsNumbered contents groups.items) }
    ensures unbounded { IsUnbounded work.old → IsUnbounded work.new × IfErr result (λ e. e ≡ OutOfMemory) }
    ensures spare { IfOk result (λ groups. Pays work.old work.new (steps.old + 11 * weight (fields_under (named_fields fields_by_key.entry.entries)))
        (steps.new + 4 * weight (lists_of groups.items)) 0) }
    ensures cost { Pays work.old work.new steps.old steps.new (11 * weight (fields_under (named_fields fields_by_key.entry.entries))) }
{
    let mut groups = Vec::new(alloc);
    for fields in fields_by_key.into_values() {
        push_groups(&mut groups, alloc, work, steps, schema, fields)?;
    }
    Ok(groups)
}

/// The fields of a list by their response keys, as `fields_by_key` finds them.
fn numbered_by_key<'doc, L: Ledger>(
    alloc: Global,
    hash_seed: HashSeed,
    fields: &[NumberedField<'doc>],
    steps: &mut Steps<L>,
) -> Result<IndexMap<&'doc Name, Vec<NumberedField<'doc>>, HashSeed>, ValidationError>
    ensures found { IfOk result (λ found. named_fields found.entries ≡ by_keys (listed fields.now)) }
    ensures numbered { (contents : List Content) → AreNumberedIn contents fields.now → IfOk result (λ found. AreEntriesNumbered contents found.entries) }
    ensures steps { steps.new ≤ steps.old + length fields.now }
{
    let mut fields_by_key = IndexMap::with_capacity_and_hasher(alloc, fields.len(), hash_seed)?;
    for field in fields {
        steps.take(1);
        push_under(
            &mut fields_by_key,
            alloc,
            field.field.value.response_key(),
            *field,
        )?;
    }
    Ok(fields_by_key)
}

/// Puts the field behind those under the name.
fn push_under<'name, 'doc, S: BuildHasher>(
    fields_by_name: &mut IndexMap<&'name Name, Vec<NumberedField<'doc>>, S>,
    alloc: Global,
    name: &'name Name,
    field: NumberedField<'doc>,
) -> Result<(), ValidationError>
    ensures found { OnOk result (named_fields fields_by_name.new.entries ≡
        with_field (named_fields fields_by_name.old.entries) name.now (selection_of field.entry)) }
    ensures numbered { (contents : List Content) → AreEntriesNumbered contents fields_by_name.old.entries → IsNumberedIn contents field.entry →
        OnOk result (AreEntriesNumbered contents fields_by_name.new.entries) }
{
    fields_by_name
        .entry(name)?
        .or_insert(Vec::new(alloc))
        .push(field)?;
    Ok(())
}

/// Adds the groups of fields with one response key.
fn push_groups<'doc, L: Ledger>(
    groups: &mut Vec<Vec<NumberedField<'doc>>>,
    alloc: Global,
    work: &mut Work,
    steps: &mut Steps<L>,
    schema: &Schema,
    fields: Vec<NumberedField<'doc>>,
) -> Result<(), Interruption>
    ensures groups { OnOk result (lists_of groups.new.items ≡
        lists_of groups.old.items ++ groups_on schema.now (listed fields.entry.items) (objects_of schema.now (listed fields.entry.items))) }
    ensures numbered { (contents : List Content) → AreGroupsNumbered contents groups.old.items → AreNumberedIn contents fields.entry.items → OnOk result (AreGroupsNumbered contents groups.new.items) }
    ensures unbounded { IsUnbounded work.old → IsUnbounded work.new × IfErr result (λ e. e ≡ OutOfMemory) }
    ensures spare { OnOk result (Pays work.old work.new (steps.old + 11 * (1 + length fields.entry.items) + 4 * weight (lists_of groups.old.items))
        (steps.new + 4 * weight (lists_of groups.new.items)) 0) }
    ensures cost { Pays work.old work.new steps.old steps.new (11 * (1 + length fields.entry.items)) }
{
    steps.take(1);
    if fields.len() == 1 {
        Ok(push_alone(groups, schema, fields)?)
    } else {
        push_by_types(groups, alloc, work, steps, schema, &fields)
    }
}

/// Adds a field that no other has the response key of as a group, if it is on an object type, an interface or a
/// union.
fn push_alone<'doc>(
    groups: &mut Vec<Vec<NumberedField<'doc>>>,
    schema: &Schema,
    group: Vec<NumberedField<'doc>>,
) -> Result<(), ValidationError>
    requires { length group.items ≡ 1 }
    ensures groups { OnOk result (lists_of groups.new.items ≡
        lists_of groups.old.items ++ groups_on schema.now (listed group.entry.items) (objects_of schema.now (listed group.entry.items))) }
    ensures numbered { (contents : List Content) → AreGroupsNumbered contents groups.old.items → AreNumberedIn contents group.entry.items → OnOk result (AreGroupsNumbered contents groups.new.items) }
    ensures weight { OnOk result (weight (lists_of groups.new.items) ≤ weight (lists_of groups.old.items) + 2) }
{
    if !is_on_composite(schema, group[0]) {
        return Ok(());
    }
    groups.push(group)?;
    Ok(())
}

/// Whether the field is on an object type, an interface or a union.
fn is_on_composite(schema: &Schema, field: NumberedField) -> bool
    ensures { result ≡ option_map_or is_composite (type_definition schema.now field.entry.parent_type.now) false }
{
    match schema.types.get(field.parent_type) {
        Some(definition) => definition.is_composite(),
        None => false,
    }
}

/// Adds the groups of fields with one response key: for each object type the fields on it, and then those
/// on abstract types; or the latter alone, if none is on an object type. The fields on abstract types are counted for each
/// object type, since its group has a copy of them.
fn push_by_types<'doc, L: Ledger>(
    groups: &mut Vec<Vec<NumberedField<'doc>>>,
    alloc: Global,
    work: &mut Work,
    steps: &mut Steps<L>,
    schema: &Schema,
    fields: &[NumberedField<'doc>],
) -> Result<(), Interruption>
    ensures groups { OnOk result (lists_of groups.new.items ≡
        lists_of groups.old.items ++ groups_on schema.now (listed fields.now) (objects_of schema.now (listed fields.now))) }
    ensures numbered { (contents : List Content) → AreGroupsNumbered contents groups.old.items → AreNumberedIn contents fields.now → OnOk result (AreGroupsNumbered contents groups.new.items) }
    ensures unbounded { IsUnbounded work.old → IsUnbounded work.new × IfErr result (λ e. e ≡ OutOfMemory) }
    ensures spare { OnOk result (Pays work.old work.new (steps.old + 11 * length fields.now + 4 * (1 + weight (lists_of groups.old.items)))
        (steps.new + 4 * weight (lists_of groups.new.items)) 0) }
    ensures cost { Pays work.old work.new steps.old steps.new (11 * length fields.now) }
{
    let FieldsOnTypes {
        on_objects,
        on_abstract,
    } = FieldsOnTypes::of(alloc, schema, fields, steps)?;
    if on_objects.is_empty() {
        return Ok(push_unless_empty(groups, on_abstract)?);
    }
    push_each_with(groups, work, steps, on_objects, &on_abstract)?;
    Ok(())
}

/// Adds a group, if there is a field in it.
fn push_unless_empty<'doc>(
    groups: &mut Vec<Vec<NumberedField<'doc>>>,
    group: Vec<NumberedField<'doc>>,
) -> Result<(), ValidationError>
    ensures groups { OnOk result (lists_of groups.new.items ≡ lists_of groups.old.items ++ unless_empty (listed group.entry.items)) }
    ensures numbered { (contents : List Content) → AreGroupsNumbered contents groups.old.items → AreNumberedIn contents group.entry.items → OnOk result (AreGroupsNumbered contents groups.new.items) }
{
    if !group.is_empty() {
        groups.push(group)?;
    }
    Ok(())
}

/// Adds the fields on each object type as a group, each with these further fields, which count each time.
fn push_each_with<'doc, L: Ledger>(
    groups: &mut Vec<Vec<NumberedField<'doc>>>,
    work: &mut Work,
    steps: &mut Steps<L>,
    on_objects: IndexMap<&Name, Vec<NumberedField<'doc>>, HashSeed>,
    further: &[NumberedField<'doc>],
) -> Result<(), Interruption>
    ensures groups { OnOk result (lists_of groups.new.items ≡
        lists_of groups.old.items ++ map (λ group. listed group.items ++ listed further.now) (map (λ entry. entry.1) on_objects.entry.entries)) }
    ensures numbered { (contents : List Content) → AreGroupsNumbered contents groups.old.items → AreEntriesNumbered contents on_objects.entry.entries → AreNumberedIn contents further.now → OnOk result (AreGroupsNumbered contents groups.new.items) }
    ensures unbounded { IsUnbounded work.old → IsUnbounded work.new × IfErr result (λ e. e ≡ OutOfMemory) }
    ensures spare { OnOk result (Pays work.old work.new
        (steps.old + 5 * weight (fields_under (named_fields on_objects.entry.entries)) + 4 * weight (lists_of groups.old.items))
        (steps.new + 4 * weight (lists_of groups.new.items)) 0) }
    ensures cost { Pays work.old work.new steps.old steps.new (5 * weight (fields_under (named_fields on_objects.entry.entries))) }
{
    for group in on_objects.into_values() {
        work.count(further.len())?;
        steps.take(1);
        steps.take(further.len());
        push_with(groups, group, further)?;
    }
    Ok(())
}

/// Adds a group with these further fields.
fn push_with<'doc>(
    groups: &mut Vec<Vec<NumberedField<'doc>>>,
    mut group: Vec<NumberedField<'doc>>,
    further: &[NumberedField<'doc>],
) -> Result<(), ValidationError>
    ensures groups { OnOk result (lists_of groups.new.items ≡ lists_of groups.old.items ++ (listed group.entry.items ++ listed further.now) ∷ []) }
    ensures numbered { (contents : List Content) → AreGroupsNumbered contents groups.old.items → AreNumberedIn contents group.entry.items → AreNumberedIn contents further.now → OnOk result (AreGroupsNumbered contents groups.new.items) }
{
    group.extend_from_slice(further)?;
    groups.push(group)?;
    Ok(())
}

/// Fields by the types on which they are: those on each object type, by its own name, and those on interfaces
/// and unions.
#[derive(Drop)]
struct FieldsOnTypes<'schema, 'doc> {
    on_objects: IndexMap<&'schema Name, Vec<NumberedField<'doc>>, HashSeed>,
    on_abstract: Vec<NumberedField<'doc>>,
}

impl<'schema, 'doc> FieldsOnTypes<'schema, 'doc> {
    fn of<L: Ledger>(
        alloc: Global,
        schema: &'schema Schema,
        fields: &[NumberedField<'doc>],
        steps: &mut Steps<L>,
    ) -> Result<FieldsOnTypes<'schema, 'doc>, ValidationError>
        ensures objects { IfOk result (λ found. named_fields found.on_objects.entries ≡ by_objects schema.now (listed fields.now)) }
        ensures on_abstract { IfOk result (λ found. listed found.on_abstract.items ≡ with_parents schema.now is_abstract (listed fields.now)) }
        ensures numbered { (contents : List Content) → AreNumberedIn contents fields.now →
            IfOk result (λ found. AreEntriesNumbered contents found.on_objects.entries × AreNumberedIn contents found.on_abstract.items) }
        ensures few { IfOk result (λ found. length found.on_abstract.items ≤ length fields.now) }
        ensures steps { steps.new ≤ steps.old + length fields.now }
    {
        let mut fields_on_types = FieldsOnTypes {
            on_objects: IndexMap::with_hasher(alloc, schema.hash_seed()),
            on_abstract: Vec::new(alloc),
        };
        for field in fields {
            steps.take(1);
            fields_on_types.add(alloc, schema, *field)?;
        }
        Ok(fields_on_types)
    }

    /// Adds the field to those of its type, unless this is undefined or has no fields to select.
    fn add(
        &mut self,
        alloc: Global,
        schema: &'schema Schema,
        field: NumberedField<'doc>,
    ) -> Result<(), ValidationError>
        ensures objects { OnOk result (named_fields self.new.on_objects.entries ≡
            with_owned schema.now (named_fields self.old.on_objects.entries) (selection_of field.entry)) }
        ensures on_abstract { OnOk result (listed self.new.on_abstract.items ≡
            listed self.old.on_abstract.items ++ with_parents schema.now is_abstract (selection_of field.entry ∷ [])) }
        ensures few { OnOk result (length self.new.on_abstract.items ≤ length self.old.on_abstract.items + 1) }
        ensures numbered { (contents : List Content) → AreEntriesNumbered contents self.old.on_objects.entries → AreNumberedIn contents self.old.on_abstract.items → IsNumberedIn contents field.entry →
            OnOk result (AreEntriesNumbered contents self.new.on_objects.entries × AreNumberedIn contents self.new.on_abstract.items) }
    {
        match schema.types.get(field.parent_type) {
            Some(ExtendedType::Object(object)) => {
                push_under(&mut self.on_objects, alloc, &object.value.name, field)?;
            }
            Some(ExtendedType::Interface(_) | ExtendedType::Union(_)) => {
                self.on_abstract.push(field)?;
            }
            _ => {}
        }
        Ok(())
    }
}
