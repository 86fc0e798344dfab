//! Whether a document uses what a change is about.

use crate::uses::{Use, Uses};
use graphql_change_kinds::{Change, InputCoordinate};
use graphql_coordinates::TypeAttributeCoordinate;
use graphql_nodes::NamedType;

/// Whether the document uses what the change is about: the field, argument, type, value or directive that the old schema has there; if a
/// type gains or loses a member or an implementer, that type; and if an input gains a condition, what it belongs to. A document uses
/// nothing of what is new by itself.
pub(crate) fn is_used<'a>(uses: &Uses<'a>, change: &'a Change) -> bool {
    match change {
        Change::RootAdded { .. }
        | Change::TypeAdded(_)
        | Change::FieldAdded(_)
        | Change::DirectiveAdded(_) => false,
        Change::RootRemoved { operation } | Change::RootChanged { operation, .. } => {
            uses.has(Use::Operation(operation.name()))
        }
        Change::TypeRemoved(coordinate) | Change::KindChanged { ty: coordinate, .. } => {
            is_type_used(uses, &coordinate.ty)
        }
        Change::FieldRemoved(field) | Change::FieldTypeChanged { field, .. } => {
            uses.has(Use::Field(field.ty.as_str(), field.attribute.as_str()))
        }
        Change::InputRemoved(input) => is_input_given(uses, input),
        Change::InputAdded { input, .. }
        | Change::InputTypeChanged { input, .. }
        | Change::DefaultAdded(input)
        | Change::DefaultRemoved { input, .. }
        | Change::DefaultChanged(input) => is_owner_used(uses, input),
        Change::EnumValueAdded(value) => is_type_used(uses, &value.ty),
        Change::EnumValueRemoved(value) => is_attribute_given(uses, value),
        Change::MemberAdded { union, .. } | Change::MemberRemoved { union, .. } => {
            is_type_used(uses, union)
        }
        Change::InterfaceAdded { interface, .. } | Change::InterfaceRemoved { interface, .. } => {
            is_type_used(uses, interface)
        }
        Change::DirectiveRemoved { directive, .. }
        | Change::LocationAdded { directive, .. }
        | Change::LocationRemoved { directive, .. }
        | Change::RepeatableAdded(directive)
        | Change::RepeatableRemoved { directive, .. } => {
            uses.has(Use::Directive(directive.directive.as_str()))
        }
    }
}

/// Whether the type is that of a selection set, a field, a literal, or part of a value of a variable.
fn is_type_used<'a>(uses: &Uses<'a>, ty: &'a NamedType) -> bool {
    let name = ty.as_str();
    uses.has(Use::Type(name)) || uses.has(Use::InputType(name))
}

/// Whether a literal has the input field or enum value, or a value of a variable may have it.
fn is_attribute_given<'a>(uses: &Uses<'a>, attribute: &'a TypeAttributeCoordinate) -> bool {
    let ty = attribute.ty.as_str();
    uses.has(Use::Attribute(ty, attribute.attribute.as_str())) || uses.has(Use::InputType(ty))
}

/// Whether a value is given, or can be: of an argument, or of an input field.
fn is_input_given<'a>(uses: &Uses<'a>, input: &'a InputCoordinate) -> bool {
    match input {
        InputCoordinate::Argument(argument) => uses.has(Use::Argument(
            argument.ty.as_str(),
            argument.field.as_str(),
            argument.argument.as_str(),
        )),
        InputCoordinate::InputField(field) => is_attribute_given(uses, field),
        InputCoordinate::DirectiveArgument(argument) => uses.has(Use::DirectiveArgument(
            argument.directive.as_str(),
            argument.argument.as_str(),
        )),
        InputCoordinate::SchemaDirectiveArgument(_) => false,
    }
}

/// Whether the field, input object or directive is used to which the input belongs: one that is not given may matter, too.
fn is_owner_used<'a>(uses: &Uses<'a>, input: &'a InputCoordinate) -> bool {
    match input {
        InputCoordinate::Argument(argument) => {
            uses.has(Use::Field(argument.ty.as_str(), argument.field.as_str()))
        }
        InputCoordinate::InputField(field) => is_type_used(uses, &field.ty),
        InputCoordinate::DirectiveArgument(argument) => {
            uses.has(Use::Directive(argument.directive.as_str()))
        }
        InputCoordinate::SchemaDirectiveArgument(_) => false,
    }
}
