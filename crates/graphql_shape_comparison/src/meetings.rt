//! Fields that can come under one response key, by the shapes of their types.

ghost use Rattle.std.specs.Prelude.{◌≡◌, ◌⊎◌, All, IfOk, IfSome, IsNone, IsSome, IsTrue, Ok, OnOk, Some};
ghost use Rattle.graphql_documents.specs.Schemas.{fields_of, is_composite, type_definition, type_field};
ghost use Rattle.graphql_documents.specs.declared.documents.schemas.Schema.{Schema};
ghost use Rattle.graphql_change_kinds.specs.Changes.{PartsFrom};
ghost use Rattle.graphql_shape_comparison.specs.Fields.{AreFieldsOf};
ghost use Rattle.graphql_change_kinds.specs.Forms.{Form, form_in};
ghost use Rattle.graphql_shape_comparison.specs.Shapes.{AreMeetings, HasForm, HasOtherForm, IsMeeting, Knows, KnowsAllFields, KnowsEntry, KnowsField, KnowsNoOther, KnowsType, Learns, form_of};

use crate::shapes::{Shape, shape_of};
use graphql_change_kinds::SchemaPair;
use graphql_coordinates::TypeAttributeCoordinate;
use graphql_documents::documents::{Component, ExtendedType, FieldDefinition, Type};
use graphql_hash_seeds::HashSeed;
use graphql_nodes::{Name, NamedType, ValidationError};
use graphql_schema_parts::{FieldMap, fields_of};
use std::alloc::Global;
use std::collections::HashMap;

/// For each shape of the old schema, a field whose type has it, and the shape of its new type; and a second such field, if the
/// new type of one has another shape.
pub struct Meetings<'a> {
    by_shape: HashMap<Shape, Meeting<'a>, HashSeed>,
}

// Written out, so that only this crate proves it: a derived one is proved again in each crate that drops such a table.
impl Drop for Meetings<'_> {
    fn drop(self) {
        let Meetings { by_shape: _ } = self;
    }
}

#[derive(Drop)]
struct Meeting<'a> {
    first: FieldPlace<'a>,
    shape: Shape,
    other: Option<FieldPlace<'a>>,
}

#[derive(Clone, Copy)]
struct FieldPlace<'a> {
    ty: &'a NamedType,
    field: &'a Name,
}

impl<'a> Meetings<'a> {
    /// The fields of all composite types that both schemas have.
    pub fn new(
        alloc: Global,
        hash_seed: HashSeed,
        pair: SchemaPair<'a>,
    ) -> Result<Meetings<'a>, ValidationError>
        ensures knows { IfOk result (λ meetings. All (λ entry. IsTrue (is_composite entry.1) →
            KnowsType meetings.by_shape pair.entry.old.now pair.entry.new.now entry.0 entry.1) pair.entry.old.now.types.entries) }
        ensures each { IfOk result (λ meetings. AreMeetings pair.entry.old.now pair.entry.new.now meetings.by_shape) }
    {
        let mut meetings = Meetings {
            by_shape: HashMap::with_hasher(alloc, hash_seed),
        };
        for (ty, definition) in &pair.old.types {
            meetings.add_type(alloc, pair, ty, definition)?;
        }
        Ok(meetings)
    }

    fn add_type(
        &mut self,
        alloc: Global,
        pair: SchemaPair<'a>,
        ty: &'a NamedType,
        definition: &'a ExtendedType,
    ) -> Result<(), ValidationError>
        requires { type_definition pair.old.now ty.now ≡ Some definition.now }
        ensures { OnOk result (Learns pair.entry.old.now pair.entry.new.now self.old.by_shape self.new.by_shape (λ table. IsTrue (is_composite definition.now) →
            KnowsType table pair.entry.old.now pair.entry.new.now ty.now definition.now)) }
    {
        if !definition.is_composite() {
            return Ok(());
        }
        self.add_own_fields(alloc, pair, ty, definition)?;
        let meta_fields = &pair.old.meta_fields;
        self.add_meta_field(alloc, pair, ty, &meta_fields.typename)?;
        self.add_meta_field(alloc, pair, ty, &meta_fields.schema)?;
        self.add_meta_field(alloc, pair, ty, &meta_fields.type_by_name)?;
        Ok(())
    }

    fn add_own_fields(
        &mut self,
        alloc: Global,
        pair: SchemaPair<'a>,
        ty: &'a NamedType,
        definition: &'a ExtendedType,
    ) -> Result<(), ValidationError>
        requires { type_definition pair.old.now ty.now ≡ Some definition.now }
        ensures { OnOk result (Learns pair.entry.old.now pair.entry.new.now self.old.by_shape self.new.by_shape (λ table.
            All (λ entry. KnowsEntry table pair.entry.old.now pair.entry.new.now ty.now entry.0 entry.1) (fields_of definition.now))) }
    {
        match fields_of(definition) {
            Some(fields) => {
                self.add_fields(alloc, pair, ty, fields)?;
                Ok(())
            }
            None => Ok(()),
        }
    }

    fn add_fields(
        &mut self,
        alloc: Global,
        pair: SchemaPair<'a>,
        ty: &'a NamedType,
        fields: &'a FieldMap,
    ) -> Result<(), ValidationError>
        requires { AreFieldsOf pair.old.now ty.now fields.now }
        ensures { OnOk result (Learns pair.entry.old.now pair.entry.new.now self.old.by_shape self.new.by_shape (λ table.
            All (λ entry. KnowsEntry table pair.entry.old.now pair.entry.new.now ty.now entry.0 entry.1) fields.now.entries)) }
    {
        for (name, field) in fields {
            self.add_field(alloc, pair, FieldPlace { ty, field: name }, field)?;
        }
        Ok(())
    }

    fn add_meta_field(
        &mut self,
        alloc: Global,
        pair: SchemaPair<'a>,
        ty: &'a NamedType,
        field: &'a Component<FieldDefinition>,
    ) -> Result<(), ValidationError>
        ensures { OnOk result (Learns pair.entry.old.now pair.entry.new.now self.old.by_shape self.new.by_shape (λ table.
            KnowsField table pair.entry.old.now pair.entry.new.now ty.now field.now.node.value.value.name)) }
    {
        let name = &field.node.value.name;
        match pair.old.type_field(ty, name) {
            Ok(field) => {
                self.add_field(alloc, pair, FieldPlace { ty, field: name }, field)?;
                Ok(())
            }
            Err(_) => Ok(()),
        }
    }

    fn add_field(
        &mut self,
        alloc: Global,
        pair: SchemaPair<'a>,
        place: FieldPlace<'a>,
        field: &Component<FieldDefinition>,
    ) -> Result<(), ValidationError>
        requires { type_field pair.old.now place.ty.now place.field.now ≡ Ok field.now }
        ensures { OnOk result (Learns pair.entry.old.now pair.entry.new.now self.old.by_shape self.new.by_shape (λ table.
            KnowsEntry table pair.entry.old.now pair.entry.new.now place.entry.ty.now place.entry.field.now field.now)) }
    {
        let Ok(new) = pair.new.type_field(place.ty, place.field) else {
            return Ok(());
        };
        let old_shape = shape_of(alloc, pair.old, &field.node.value.ty)?;
        let new_shape = shape_of(alloc, pair.new, &new.node.value.ty)?;
        self.add_shapes(pair, place, old_shape, new_shape)?;
        Ok(())
    }

    fn add_shapes(
        &mut self,
        pair: SchemaPair<'a>,
        place: FieldPlace<'a>,
        old_shape: Shape,
        new_shape: Shape,
    ) -> Result<(), ValidationError>
        requires was { HasForm pair.old.now place (form_of old_shape) }
        requires is { HasForm pair.new.now place (form_of new_shape) }
        ensures { OnOk result (Learns pair.entry.old.now pair.entry.new.now self.old.by_shape self.new.by_shape (λ table. Knows table (form_of old_shape) (form_of new_shape))) }
    {
        match self.by_shape.get_mut(&old_shape) {
            Some(meeting) => {
                meeting.meet(place, &new_shape);
                drop(old_shape);
                drop(new_shape);
                Ok(())
            }
            None => {
                let meeting = Meeting {
                    first: place,
                    shape: new_shape,
                    other: None,
                };
                drop(self.by_shape.insert(old_shape, meeting)?);
                Ok(())
            }
        }
    }

    /// A field whose old type has the shape of this old type, and whose new type has not the shape of this new one.
    pub fn met(
        &self,
        alloc: Global,
        pair: SchemaPair<'_>,
        from: &Type,
        to: &Type,
    ) -> Result<Option<TypeAttributeCoordinate>, ValidationError>
        requires { AreMeetings pair.old.now pair.new.now self.now.by_shape }
        ensures none { IfOk result (λ met. IsNone met → KnowsNoOther self.now.by_shape (form_in pair.entry.old.now from.now) (form_in pair.entry.new.now to.now)) }
        ensures some { IfOk result (λ met. IfSome met (PartsFrom pair.entry.old.now pair.entry.new.now from.now to.now)) }
    {
        let old_shape = shape_of(alloc, pair.old, from)?;
        let found = self.by_shape.get(&old_shape);
        drop(old_shape);
        let Some(meeting) = found else {
            return Ok(None);
        };
        let new_shape = shape_of(alloc, pair.new, to)?;
        let differing = meeting.differing(&new_shape);
        drop(new_shape);
        match differing {
            Some(place) => {
                let coordinate = place.coordinate(alloc)?;
                Ok(Some(coordinate))
            }
            None => Ok(None),
        }
    }
}

impl<'a> Meeting<'a> {
    /// Notes a further field, if its new type has another shape.
    fn meet(&mut self, place: FieldPlace<'a>, shape: &Shape)
        ensures same { self.new.shape ≡ self.old.shape }
        ensures noted { (form_of self.new.shape ≡ form_of shape.now) ⊎ IsSome self.new.other }
        ensures others { IsSome self.old.other → IsSome self.new.other }
        ensures each { (old new : Schema) (before : Form) → IsMeeting old new before self.old →
            HasForm old place.entry before → HasForm new place.entry (form_of shape.now) → IsMeeting old new before self.new }
    {
        if self.shape == *shape {
            return;
        }
        if self.other.is_none() {
            self.other = Some(place);
        }
    }

    /// A field whose new type has not this shape.
    fn differing(&self, shape: &Shape) -> Option<FieldPlace<'a>>
        ensures none { IsNone result → (form_of self.now.shape ≡ form_of shape.now) × IsNone self.now.other }
        ensures some { (old new : Schema) (before : Form) → IsMeeting old new before self.now → IfSome result (HasOtherForm old new before (form_of shape.now)) }
    {
        if self.shape == *shape {
            self.other
        } else {
            Some(self.first)
        }
    }
}

impl FieldPlace<'_> {
    fn coordinate(self, alloc: Global) -> Result<TypeAttributeCoordinate, ValidationError>
        ensures { IfOk result (λ c. c ≡ record { ty = self.entry.ty.now; attribute = self.entry.field.now }) }
    {
        TypeAttributeCoordinate::new(alloc, self.ty, self.field)
    }
}
