//! The types of meta-fields.

ghost use Rattle.std.specs.Prelude.{◌≡◌, ◌↔◌, ◌&&◌, IsTrue};
ghost use Rattle.graphql_documents.specs.Schemas.{NamesKind, is_output_type};
ghost use Rattle.graphql_documents.specs.TypeReferences.{inner_named_type};
ghost use Rattle.graphql_building_laws.specs.MetaFieldTypes.{HasTypesOfMetaFields};

use graphql_documents::documents::{Component, FieldDefinition, Schema};

/// Whether the schema has the types of `__typename`, `__schema` and `__type`, as output types. One that was built of
/// texts has, if the definitions that every schema has are among them.
///
/// Specification: 4.1 Type Name Introspection; 4.2 Schema Introspection.
pub(crate) fn has_types_of_meta_fields(schema: &Schema) -> bool
    ensures { IsTrue result ↔ HasTypesOfMetaFields schema.now }
{
    let typename = has_type_of(schema, &schema.meta_fields.typename);
    let schema_field = has_type_of(schema, &schema.meta_fields.schema);
    let type_by_name = has_type_of(schema, &schema.meta_fields.type_by_name);
    are_all(typename, schema_field, type_by_name)
}

fn are_all(first: bool, second: bool, third: bool) -> bool
    ensures { result ≡ (first && (second && third)) }
{
    first && (second && third)
}

/// Whether the schema has the type of a field, as an output type.
fn has_type_of(schema: &Schema, field: &Component<FieldDefinition>) -> bool
    ensures { IsTrue result ↔ NamesKind schema.now is_output_type (inner_named_type field.now.node.value.value.ty) }
{
    match schema.types.get(field.node.value.ty.inner_named_type()) {
        Some(definition) => definition.is_output_type(),
        None => false,
    }
}
