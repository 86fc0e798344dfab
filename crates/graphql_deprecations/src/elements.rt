//! The uses of single elements.

ghost use Rattle.std.specs.Option.{option_copied};
ghost use Rattle.std.specs.Prelude.{◌≡◌, ◌∷◌, [], OnOk};
ghost use Rattle.graphql_deprecations.specs.Deprecations.{reason_of};
ghost use Rattle.graphql_deprecations.specs.InOrder.{Adds, EnumValueUses, argument_element, element_uses};
ghost use Rattle.graphql_deprecations.specs.Usages.{enum_value_at, input_field_at};
ghost use Rattle.graphql_deprecations.specs.declared.reports.DeprecatedElement.TheVariants as kind;

use crate::arguments::ArgumentOwner;
use crate::deprecations::deprecation_in;
use crate::reports::{DeprecatedElement, DeprecatedUsage};
use graphql_coordinates::TypeAttributeCoordinate;
use graphql_documents::documents::{
    Component, Directive, EnumValueDefinition, ExtendedType, InputValueDefinition, Schema,
};
use graphql_nodes::{Name, NamedType, Node, SourceSpan, ValidationError};

/// Adds the use of an element that this directive deprecates.
fn add_usage(
    found: &mut Vec<DeprecatedUsage>,
    element: DeprecatedElement,
    place: Option<SourceSpan>,
    deprecation: &Node<Directive>,
) -> Result<(), ValidationError>
    ensures { OnOk result (Adds (λ uses. uses ≡ record { element = element; place = place; reason = reason_of deprecation.now.value.value } ∷ []) found.old.items found.new.items) }
{
    let deprecation = deprecation.clone()?;
    found.push(DeprecatedUsage {
        element,
        place,
        deprecation,
    })?;
    Ok(())
}

/// Adds the use of a field of a type, if one of these directives deprecates it.
pub(crate) fn add_field(
    found: &mut Vec<DeprecatedUsage>,
    ty: &NamedType,
    name: &Name,
    directives: &[Node<Directive>],
) -> Result<(), ValidationError>
    ensures { OnOk result (Adds (λ uses. uses ≡ element_uses (kind.Field (record { ty = ty.now; attribute = name.now })) name.now directives.now) found.old.items found.new.items) }
{
    match deprecation_in(directives) {
        Some(deprecation) => {
            let coordinate = TypeAttributeCoordinate::new(*found.allocator(), ty, name)?;
            let element = DeprecatedElement::Field(coordinate);
            add_usage(found, element, name.location(), deprecation)
        }
        None => Ok(()),
    }
}

/// Adds the use of an argument, if one of these directives deprecates it.
pub(crate) fn add_argument(
    found: &mut Vec<DeprecatedUsage>,
    owner: ArgumentOwner<'_>,
    name: &Name,
    directives: &[Node<Directive>],
) -> Result<(), ValidationError>
    ensures { OnOk result (Adds (λ uses. uses ≡ element_uses (argument_element owner.entry name.now) name.now directives.now) found.old.items found.new.items) }
{
    match deprecation_in(directives) {
        Some(deprecation) => {
            let element = owner.element(*found.allocator(), name)?;
            add_usage(found, element, name.location(), deprecation)
        }
        None => Ok(()),
    }
}

/// Adds the use of a field of an input object, if one of these directives deprecates it.
pub(crate) fn add_input_field(
    found: &mut Vec<DeprecatedUsage>,
    ty: &NamedType,
    name: &Name,
    directives: &[Node<Directive>],
) -> Result<(), ValidationError>
    ensures { OnOk result (Adds (λ uses. uses ≡ element_uses (kind.InputField (record { ty = ty.now; attribute = name.now })) name.now directives.now) found.old.items found.new.items) }
{
    match deprecation_in(directives) {
        Some(deprecation) => {
            let coordinate = TypeAttributeCoordinate::new(*found.allocator(), ty, name)?;
            let element = DeprecatedElement::InputField(coordinate);
            add_usage(found, element, name.location(), deprecation)
        }
        None => Ok(()),
    }
}

/// Adds the use of an enum value where a value of the type is expected, if the type is an enum that has it and it is deprecated.
pub(crate) fn add_enum_value(
    found: &mut Vec<DeprecatedUsage>,
    schema: &Schema,
    ty: &NamedType,
    name: &Name,
) -> Result<(), ValidationError>
    ensures { OnOk result (Adds (EnumValueUses schema.now ty.now name.now) found.old.items found.new.items) }
{
    match enum_value_at(schema, ty, name) {
        Some(value) => add_known_enum_value(found, ty, name, &value.node.value.directives),
        None => Ok(()),
    }
}

fn add_known_enum_value(
    found: &mut Vec<DeprecatedUsage>,
    ty: &NamedType,
    name: &Name,
    directives: &[Node<Directive>],
) -> Result<(), ValidationError>
    ensures { OnOk result (Adds (λ uses. uses ≡ element_uses (kind.EnumValue (record { ty = ty.now; attribute = name.now })) name.now directives.now) found.old.items found.new.items) }
{
    match deprecation_in(directives) {
        Some(deprecation) => {
            let coordinate = TypeAttributeCoordinate::new(*found.allocator(), ty, name)?;
            let element = DeprecatedElement::EnumValue(coordinate);
            add_usage(found, element, name.location(), deprecation)
        }
        None => Ok(()),
    }
}

/// The value of this name, if the type is an enum.
///
/// Specification: 3.9 Enums.
fn enum_value_at<'a>(
    schema: &'a Schema,
    ty: &NamedType,
    name: &Name,
) -> Option<&'a Component<EnumValueDefinition>>
    ensures { option_copied result ≡ enum_value_at schema.now ty.now name.now }
{
    match schema.types.get(ty) {
        Some(ExtendedType::Enum(definition)) => definition.value.values.get(name),
        _ => None,
    }
}

/// The input field of this name, if the type is an input object.
///
/// Specification: 3.10 Input Objects.
pub(crate) fn input_field_at<'a>(
    schema: &'a Schema,
    ty: &NamedType,
    name: &Name,
) -> Option<&'a Component<InputValueDefinition>>
    ensures { option_copied result ≡ input_field_at schema.now ty.now name.now }
{
    match schema.get_input_object(ty) {
        Some(definition) => definition.value.fields.get(name),
        None => None,
    }
}
