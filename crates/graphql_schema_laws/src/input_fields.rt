//! What every schema that exists has: the fields of its input objects are those of maps.

ghost use Rattle.std.specs.Prelude.{◌≡◌};
ghost use Rattle.graphql_nodes.specs.declared.nodes.Node.{Node};
ghost use Rattle.graphql_documents.specs.declared.documents.schemas.ExtendedType.TheVariants.{InputObject};
ghost use Rattle.graphql_documents.specs.declared.documents.schemas.InputObjectType.{InputObjectType};
ghost use Rattle.graphql_schema_laws.specs.InputFields.{HasFieldsOfMap, InputObjectsHaveFieldsOfMaps};

use graphql_documents::documents::schemas::{ExtendedType, Schema};

/// If the type is an input object, its fields are those of a map.
pub fn fields_of_type_are_of_a_map(definition: &ExtendedType)
    ensures { (d : Node InputObjectType) → definition.now ≡ InputObject d → HasFieldsOfMap d.value.value }
{
    if let ExtendedType::InputObject(d) = definition {
        let _count = d.value.fields.len();
    }
}

/// The fields of each input object of the schema are those of a map.
pub fn fields_of_input_objects_are_of_maps(schema: &Schema)
    ensures { InputObjectsHaveFieldsOfMaps schema.now }
{
    for (_, definition) in &schema.types {
        fields_of_type_are_of_a_map(definition);
    }
}
