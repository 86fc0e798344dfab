//! The fields of types that were looked up.

ghost use Rattle.std.specs.Option.{option_and_then, option_copied};
ghost use Rattle.std.specs.Prelude.{◌≡◌, Err, MatchResult, Ok};
ghost use Rattle.graphql_documents.specs.Schemas.{own_field, type_definition, type_field};

use graphql_documents::documents::{
    Component, ExtendedType, FieldDefinition, FieldLookupError, Schema,
};
use graphql_nodes::{Name, NamedType};

/// The definition of a field of the type that has this name and definition. The type is looked up again only where the field is
/// not its own.
///
/// Specification: 5.3.1 Field Selections.
pub fn field_of_type<'a>(
    schema: &'a Schema,
    type_name: &NamedType,
    definition: Option<&'a ExtendedType>,
    field_name: &Name,
) -> Result<&'a Component<FieldDefinition>, FieldLookupError>
    requires { option_copied definition ≡ type_definition schema.now type_name.now }
    ensures { MatchResult result
        (λ d. type_field schema.now type_name.now field_name.now ≡ Ok d.now)
        (λ e. type_field schema.now type_name.now field_name.now ≡ Err e) }
{
    match own_field(definition, field_name) {
        Some(field) => Ok(field),
        None => schema.type_field(type_name, field_name),
    }
}

/// The field that a type defines itself, if there is a type.
fn own_field<'a>(
    definition: Option<&'a ExtendedType>,
    field_name: &Name,
) -> Option<&'a Component<FieldDefinition>>
    ensures { option_copied result ≡ option_and_then (λ d. own_field d field_name.now) (option_copied definition.entry) }
{
    match definition? {
        ExtendedType::Object(definition) => definition.value.fields.get(field_name),
        ExtendedType::Interface(definition) => definition.value.fields.get(field_name),
        _ => None,
    }
}
