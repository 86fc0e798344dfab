//! Documents that use what a change takes away.

use crate::merging::{push_conflicts, push_meetings};
use graphql_change_kinds::{Change, Gain, InputCoordinate, TypeEffect};
use graphql_coordinates::{
    DirectiveArgumentCoordinate, DirectiveCoordinate, FieldArgumentCoordinate,
    TypeAttributeCoordinate,
};
use graphql_documents::documents::{
    Component, DirectiveDefinition, ExtendedType, FieldDefinition, Schema, Type, definition_named,
};
use graphql_nodes::{DirectiveLocation, Name, NamedType, Node, OperationType, ValidationError};
use graphql_schema_parts::fields_of;
use graphql_schema_ways::directives::{application, document_at, document_with};
use graphql_schema_ways::literals::{Piece, push_literal};
use graphql_schema_ways::texts::{any_selection, document, field_text, first_field, push_field};
use graphql_schema_ways::values::{document_giving, document_with_variable};
use graphql_schema_ways::{InputSite, Step, Ways};

/// Documents that may be witnesses of a change, the shortest first.
#[derive(Drop)]
pub(crate) struct Candidates {
    pub texts: Vec<String>,
}

impl Candidates {
    /// Adds a document, if there is one.
    pub fn push(&mut self, text: Option<String>) -> Result<(), ValidationError> {
        if let Some(text) = text {
            self.texts.push(text)?;
        }
        Ok(())
    }
}

/// Documents that use what a change takes away from the schema of these ways; the other schema is the new one. None of them is
/// known to be valid. There are at most a few, the shortest first, and none if no document comes to the place. The only error is a
/// failed allocation.
pub fn witness_candidates(
    ways: &Ways<'_>,
    new: &Schema,
    change: &Change,
) -> Result<Vec<String>, ValidationError> {
    let mut candidates = Candidates {
        texts: Vec::new(ways.allocator()),
    };
    push_candidates(&mut candidates, ways, new, change)?;
    let Candidates { mut texts } = candidates;
    texts.sort_by_key(|text| text.len())?;
    Ok(texts)
}

fn push_candidates(
    candidates: &mut Candidates,
    ways: &Ways<'_>,
    new: &Schema,
    change: &Change,
) -> Result<(), ValidationError> {
    match change {
        Change::RootRemoved { operation } => candidates.push(root_document(ways, *operation)?),
        Change::RootChanged { from, .. } => candidates.push(naming(ways, from)?),
        Change::TypeRemoved(ty) => push_type(candidates, ways, &ty.ty),
        Change::KindChanged { ty, .. } => {
            push_type(candidates, ways, &ty.ty)?;
            push_uses(candidates, ways, &ty.ty)?;
            push_conflicts(candidates, ways, new, &ty.ty)
        }
        Change::FieldRemoved(field) => candidates.push(field_document(ways, field)?),
        Change::FieldTypeChanged { field, effect, .. } => {
            push_field_type(candidates, ways, new, field, effect)
        }
        Change::EnumValueRemoved(value) => candidates.push(enum_document(ways, value)?),
        Change::MemberRemoved { union, member } => push_overlap(candidates, ways, union, member),
        Change::MemberAdded {
            union: wide,
            member: root,
            gain: Gain::SubscriptionRoot,
        }
        | Change::InterfaceAdded {
            ty: root,
            interface: wide,
            gain: Gain::SubscriptionRoot,
        } => push_second_root_fields(candidates, ways, root, wide),
        Change::InterfaceRemoved { ty, interface, .. } => {
            push_overlap(candidates, ways, interface, ty)
        }
        Change::DirectiveRemoved { directive, .. } => {
            candidates.push(directive_document(ways, directive, 1)?)
        }
        Change::RepeatableRemoved { directive, .. } => {
            candidates.push(directive_document(ways, directive, 2)?)
        }
        Change::LocationRemoved {
            directive,
            location,
        } => candidates.push(location_document(ways, directive, *location)?),
        _ => push_of_input(candidates, ways, change),
    }
}

/// Adds documents for a change of an argument or input field.
fn push_of_input(
    candidates: &mut Candidates,
    ways: &Ways<'_>,
    change: &Change,
) -> Result<(), ValidationError> {
    match change {
        Change::InputAdded { input, .. } | Change::DefaultRemoved { input, .. } => {
            candidates.push(document_without(ways, input)?)
        }
        Change::InputRemoved(input) => push_values(candidates, ways, input),
        Change::InputTypeChanged { input, .. } => {
            candidates.push(document_without(ways, input)?)?;
            push_values(candidates, ways, input)
        }
        _ => Ok(()),
    }
}

// ==== types

/// A document with a short selection on the root type of a kind of operation.
fn root_document(
    ways: &Ways<'_>,
    operation: OperationType,
) -> Result<Option<String>, ValidationError> {
    match ways.schema.root_operation(operation) {
        Some(root) => selecting_any(ways, root),
        None => Ok(None),
    }
}

/// A document with a short selection on a type.
fn selecting_any(ways: &Ways<'_>, ty: &NamedType) -> Result<Option<String>, ValidationError> {
    let Some(index) = ways.index_of(ty) else {
        return Ok(None);
    };
    match any_selection(ways, index)? {
        Some(selection) => document(ways, "", index, selection.as_str()),
        None => Ok(None),
    }
}

/// A document with a short selection on a type, which it names as a condition.
fn naming(ways: &Ways<'_>, ty: &NamedType) -> Result<Option<String>, ValidationError> {
    let Some(index) = ways.index_of(ty) else {
        return Ok(None);
    };
    match ways.step_to(index) {
        Some(Step::Condition { .. }) => selecting_any(ways, ty),
        _ => condition_on(ways, ty, ty),
    }
}

/// A document with the second type as a condition on the first.
///
/// Specification: 5.5.2.3 Fragment Spread Is Possible.
fn condition_on(
    ways: &Ways<'_>,
    place: &NamedType,
    condition: &NamedType,
) -> Result<Option<String>, ValidationError> {
    let (Some(index), Some(inner)) = (ways.index_of(place), ways.index_of(condition)) else {
        return Ok(None);
    };
    match any_selection(ways, inner)? {
        Some(selection) => conditional(ways, index, condition, selection.as_str()),
        None => Ok(None),
    }
}

/// A document that selects this under a condition on the type at this index.
fn conditional(
    ways: &Ways<'_>,
    place: usize,
    condition: &NamedType,
    selection: &str,
) -> Result<Option<String>, ValidationError> {
    let mut text = String::new(ways.allocator());
    write!(text, "... on {condition} {{ {selection} }}")?;
    document(ways, "", place, text.as_str())
}

/// Adds documents that name a type: as a condition, and as the type of a variable.
fn push_type(
    candidates: &mut Candidates,
    ways: &Ways<'_>,
    ty: &NamedType,
) -> Result<(), ValidationError> {
    candidates.push(naming(ways, ty)?)?;
    match site_for(ways, ty) {
        Some(site) => candidates.push(document_with_variable(ways, site)?),
        None => Ok(()),
    }
}

/// Adds documents that select a field of a type, or below one, or give a value of it.
fn push_uses(
    candidates: &mut Candidates,
    ways: &Ways<'_>,
    ty: &NamedType,
) -> Result<(), ValidationError> {
    let Some(index) = ways.index_of(ty) else {
        return Ok(());
    };
    candidates.push(leaf_document(ways, index)?)?;
    if let Some(selection) = first_field(ways, index)? {
        candidates.push(conditional(ways, index, ty, selection.as_str())?)?;
    }
    candidates.push(literal_document(ways, ty)?)
}

/// A document that selects a field of the leaf type at this index.
fn leaf_document(ways: &Ways<'_>, index: usize) -> Result<Option<String>, ValidationError> {
    match ways.step_to(index) {
        Some(Step::Field { parent, field }) => { selecting(ways, parent, field) }
        _ => Ok(None),
    }
}

/// A document that gives a short value of an input type.
fn literal_document(ways: &Ways<'_>, ty: &NamedType) -> Result<Option<String>, ValidationError> {
    let Some(site) = site_for(ways, ty) else {
        return Ok(None);
    };
    let alloc = ways.allocator();
    let mut value = String::new(alloc);
    if push_literal(&mut value, alloc, ways.schema, Piece::NamedValue(ty))? {
        document_giving(ways, site, "", value.as_str())
    } else {
        Ok(None)
    }
}

/// The place for values of the type of this name.
fn site_for<'a>(ways: &Ways<'a>, ty: &NamedType) -> Option<InputSite<'a>> {
    ways.site_of(ways.index_of(ty)?)
}

/// A document that gives a value of an enum.
fn enum_document(
    ways: &Ways<'_>,
    value: &TypeAttributeCoordinate,
) -> Result<Option<String>, ValidationError> {
    match site_for(ways, &value.ty) {
        Some(site) => document_giving(ways, site, "", value.attribute.as_str()),
        None => Ok(None),
    }
}

/// Adds documents in which one of two types is a condition on the other.
fn push_overlap(
    candidates: &mut Candidates,
    ways: &Ways<'_>,
    wide: &NamedType,
    object: &NamedType,
) -> Result<(), ValidationError> {
    candidates.push(condition_on(ways, wide, object)?)?;
    candidates.push(condition_on(ways, object, wide)?)
}

/// Adds subscriptions with a second field under a condition that did not apply to their root type, inside one that does.
///
/// Specification: 5.2.3.1 Single Root Field.
fn push_second_root_fields(
    candidates: &mut Candidates,
    ways: &Ways<'_>,
    root: &NamedType,
    wide: &NamedType,
) -> Result<(), ValidationError> {
    let Some(index) = ways.index_of(root) else {
        return Ok(());
    };
    for between in ways.overlaps_at(index).iter().take(MOST_CONDITIONS) {
        candidates.push(second_root_field(ways, index, *between, wide)?)?;
    }
    Ok(())
}

/// A subscription with a second field on the type of this name, inside a condition on the type at the second index.
fn second_root_field(
    ways: &Ways<'_>,
    root: usize,
    between: usize,
    wide: &NamedType,
) -> Result<Option<String>, ValidationError> {
    let (Some(first), Some(name)) = (first_field(ways, root)?, ways.name_at(between)) else {
        return Ok(None);
    };
    let Some(second) = aliased_field(ways, between, wide)? else {
        return Ok(None);
    };
    let mut text = String::new(ways.allocator());
    let first = first.as_str();
    let second = second.as_str();
    write!(
        text,
        "{first} ... on {name} {{ ... on {wide} {{ {second} }} }}"
    )?;
    document(ways, "", root, text.as_str())
}

/// A field on the type of this name, under a response key of its own: of the type itself, or if it has none, of the type at this
/// index.
fn aliased_field(
    ways: &Ways<'_>,
    other: usize,
    wide: &NamedType,
) -> Result<Option<String>, ValidationError> {
    let Some(index) = ways.index_of(wide) else {
        return Ok(None);
    };
    let mut text = String::new(ways.allocator());
    if let Some(field) = first_field(ways, index)? {
        let field = field.as_str();
        write!(text, "k: {field}")?;
        return Ok(Some(text));
    }
    match (first_field(ways, other)?, ways.name_at(other)) {
        (Some(field), Some(name)) => {
            let field = field.as_str();
            write!(text, "... on {name} {{ k: {field} }}")?;
            Ok(Some(text))
        }
        _ => Ok(None),
    }
}

// ==== fields

/// The definition of a field of the old schema.
fn field_of<'a>(
    ways: &Ways<'a>,
    field: &TypeAttributeCoordinate,
) -> Option<&'a Component<FieldDefinition>> {
    field_named(ways.schema, &field.ty, &field.attribute)
}

/// The definition of a field.
pub(crate) fn field_named<'a>(
    schema: &'a Schema,
    ty: &NamedType,
    field: &Name,
) -> Option<&'a Component<FieldDefinition>> {
    match schema.type_field(ty, field) {
        Ok(definition) => Some(definition),
        Err(_) => None,
    }
}

/// A document that selects a field.
fn field_document(
    ways: &Ways<'_>,
    field: &TypeAttributeCoordinate,
) -> Result<Option<String>, ValidationError> {
    match (ways.index_of(&field.ty), field_of(ways, field)) {
        (Some(place), Some(definition)) => selecting(ways, place, definition),
        _ => Ok(None),
    }
}

/// A document that selects this field of the type at this index.
fn selecting(
    ways: &Ways<'_>,
    place: usize,
    field: &Component<FieldDefinition>,
) -> Result<Option<String>, ValidationError> {
    match field_text(ways, field, None)? {
        Some(selection) => document(ways, "", place, selection.as_str()),
        None => Ok(None),
    }
}

/// Adds documents for a field that has another type.
fn push_field_type(
    candidates: &mut Candidates,
    ways: &Ways<'_>,
    new: &Schema,
    field: &TypeAttributeCoordinate,
    effect: &TypeEffect,
) -> Result<(), ValidationError> {
    let Some(definition) = field_of(ways, field) else {
        return Ok(());
    };
    match effect {
        TypeEffect::OtherSelections => {
            candidates.push(field_document(ways, field)?)?;
            push_below(candidates, ways, new, field, definition)
        }
        TypeEffect::MeetsOther(_) => push_meetings(candidates, ways, new, &field.ty, definition),
        TypeEffect::OtherResponses | TypeEffect::Narrower => Ok(()),
    }
}

/// Adds documents that select below a field what its new type may not have.
fn push_below(
    candidates: &mut Candidates,
    ways: &Ways<'_>,
    new: &Schema,
    field: &TypeAttributeCoordinate,
    definition: &Component<FieldDefinition>,
) -> Result<(), ValidationError> {
    let Some(place) = ways.index_of(&field.ty) else {
        return Ok(());
    };
    let from = definition.node.value.ty.inner_named_type();
    let Some(below) = ways.index_of(from) else {
        return Ok(());
    };
    let below_field = BelowField {
        place,
        field: definition,
    };
    below_field.push_lost_field(candidates, ways, new, &field.ty, from)?;
    below_field.push_condition(candidates, ways, below)?;
    for other in ways.overlaps_at(below).iter().take(MOST_CONDITIONS) {
        below_field.push_condition(candidates, ways, *other)?;
    }
    Ok(())
}

/// So many conditions are tried below a field.
const MOST_CONDITIONS: usize = 8;

/// A field of the type at an index, below which something is selected.
#[derive(Clone, Copy)]
struct BelowField<'a> {
    place: usize,
    field: &'a Component<FieldDefinition>,
}

impl BelowField<'_> {
    /// Adds a document with the type at this index as a condition below the field.
    fn push_condition(
        self,
        candidates: &mut Candidates,
        ways: &Ways<'_>,
        condition: usize,
    ) -> Result<(), ValidationError> {
        let Some(name) = ways.name_at(condition) else {
            return Ok(());
        };
        let mut text = String::new(ways.allocator());
        write!(text, "... on {name} {{ __typename }}")?;
        self.push_selection(candidates, ways, text.as_str())
    }

    /// Adds a document with a field of the old type that the new one does not have.
    fn push_lost_field(
        self,
        candidates: &mut Candidates,
        ways: &Ways<'_>,
        new: &Schema,
        ty: &NamedType,
        from: &NamedType,
    ) -> Result<(), ValidationError> {
        let Some(after) = field_named(new, ty, &self.field.node.value.name) else {
            return Ok(());
        };
        let to = after.node.value.ty.inner_named_type();
        match lost_field(ways.schema, new, from, to) {
            Some(lost) => match field_text(ways, lost, None)? {
                Some(selection) => self.push_selection(candidates, ways, selection.as_str()),
                None => Ok(()),
            },
            None => Ok(()),
        }
    }

    fn push_selection(
        self,
        candidates: &mut Candidates,
        ways: &Ways<'_>,
        selection: &str,
    ) -> Result<(), ValidationError> {
        let mut text = String::new(ways.allocator());
        if push_field(&mut text, ways, self.field, None)? {
            write!(text, " {{ {selection} }}")?;
            candidates.push(document(ways, "", self.place, text.as_str())?)
        } else {
            Ok(())
        }
    }
}

/// The first field of the old type that the new one does not have.
fn lost_field<'a>(
    old: &'a Schema,
    new: &Schema,
    from: &NamedType,
    to: &NamedType,
) -> Option<&'a Component<FieldDefinition>> {
    let fields = fields_of(old.types.get(from)?)?;
    for (name, field) in fields {
        if new.type_field(to, name).is_err() {
            return Some(field);
        }
    }
    None
}

// ==== arguments and input fields

/// A document in which an argument or input field could be given, and is not.
fn document_without(
    ways: &Ways<'_>,
    input: &InputCoordinate,
) -> Result<Option<String>, ValidationError> {
    match input {
        InputCoordinate::Argument(argument) => {
            match (
                ways.index_of(&argument.ty),
                field_named(ways.schema, &argument.ty, &argument.field),
            ) {
                (Some(place), Some(field)) => selecting(ways, place, field),
                _ => Ok(None),
            }
        }
        InputCoordinate::InputField(field) => literal_document(ways, &field.ty),
        InputCoordinate::DirectiveArgument(argument) => applied(ways, &argument.directive, 1),
        InputCoordinate::SchemaDirectiveArgument(_) => Ok(None),
    }
}

/// Adds documents that give an argument or input field: null, a short value, a list of null, a variable.
fn push_values(
    candidates: &mut Candidates,
    ways: &Ways<'_>,
    input: &InputCoordinate,
) -> Result<(), ValidationError> {
    let Some((site, ty)) = site_of_input(ways, input) else {
        return Ok(());
    };
    candidates.push(document_giving(ways, site, "", "null")?)?;
    if ty.is_list() {
        candidates.push(document_giving(ways, site, "", "[null]")?)?;
    }
    let alloc = ways.allocator();
    let mut value = String::new(alloc);
    if push_literal(&mut value, alloc, ways.schema, Piece::Value(ty))? {
        candidates.push(document_giving(ways, site, "", value.as_str())?)?;
    }
    candidates.push(document_with_variable(ways, site)?)
}

/// The place of an argument or input field of the old schema, and its type.
fn site_of_input<'a>(
    ways: &Ways<'a>,
    input: &InputCoordinate,
) -> Option<(InputSite<'a>, &'a Type)> {
    match input {
        InputCoordinate::Argument(argument) => site_of_argument(ways, argument),
        InputCoordinate::InputField(field) => site_of_field(ways, field),
        InputCoordinate::DirectiveArgument(argument) => site_of_directive_argument(ways, argument),
        InputCoordinate::SchemaDirectiveArgument(_) => None,
    }
}

fn site_of_argument<'a>(
    ways: &Ways<'a>,
    argument: &FieldArgumentCoordinate,
) -> Option<(InputSite<'a>, &'a Type)> {
    let place = ways.index_of(&argument.ty)?;
    let field = field_named(ways.schema, &argument.ty, &argument.field)?;
    let argument = definition_named(&field.node.value.arguments, &argument.argument)?;
    let site = InputSite::Argument {
        place,
        field,
        argument,
    };
    Some((site, &argument.value.ty.value))
}

fn site_of_field<'a>(
    ways: &Ways<'a>,
    field: &TypeAttributeCoordinate,
) -> Option<(InputSite<'a>, &'a Type)> {
    let object = ways.index_of(&field.ty)?;
    let Some(ExtendedType::InputObject(definition)) = ways.definition_at(object) else {
        return None;
    };
    let field = &definition.value.fields.get(&field.attribute)?.node;
    let site = InputSite::Entry { object, field };
    Some((site, &field.value.ty.value))
}

fn site_of_directive_argument<'a>(
    ways: &Ways<'a>,
    argument: &DirectiveArgumentCoordinate,
) -> Option<(InputSite<'a>, &'a Type)> {
    let directive = directive_named(ways.schema, &argument.directive)?;
    let argument = definition_named(&directive.value.arguments, &argument.argument)?;
    let site = InputSite::DirectiveArgument {
        directive,
        argument,
    };
    Some((site, &argument.value.ty.value))
}

// ==== directives

fn directive_named<'a>(schema: &'a Schema, name: &Name) -> Option<&'a Node<DirectiveDefinition>> {
    schema.directive_definitions.get(name)
}

/// A document that applies a directive so many times.
fn directive_document(
    ways: &Ways<'_>,
    directive: &DirectiveCoordinate,
    times: usize,
) -> Result<Option<String>, ValidationError> {
    applied(ways, &directive.directive, times)
}

fn applied(ways: &Ways<'_>, name: &Name, times: usize) -> Result<Option<String>, ValidationError> {
    let Some(directive) = directive_named(ways.schema, name) else {
        return Ok(None);
    };
    match repeated(ways, &directive.value, times)? {
        Some(text) => document_with(ways, &directive.value, "", text.as_str()),
        None => Ok(None),
    }
}

/// So many applications of a directive.
fn repeated(
    ways: &Ways<'_>,
    directive: &DirectiveDefinition,
    times: usize,
) -> Result<Option<String>, ValidationError> {
    let Some(one) = application(ways, directive, None)? else {
        return Ok(None);
    };
    let mut text = String::new(ways.allocator());
    for position in 0..times {
        if position > 0 {
            text.push(' ')?;
        }
        text.push_str(one.as_str())?;
    }
    Ok(Some(text))
}

/// A document that applies a directive at this location.
fn location_document(
    ways: &Ways<'_>,
    directive: &DirectiveCoordinate,
    location: DirectiveLocation,
) -> Result<Option<String>, ValidationError> {
    let Some(directive) = directive_named(ways.schema, &directive.directive) else {
        return Ok(None);
    };
    match application(ways, &directive.value, None)? {
        Some(text) => document_at(ways, location, "", text.as_str()),
        None => Ok(None),
    }
}
