//! Laws of the default values of a schema.

ghost use Rattle.std.specs.Prelude.{◌≡◌, [], Contains, Some};
ghost use Rattle.graphql_specification.specs.DefaultValues.{DefaultValuesHold, inputs_of};
ghost use Rattle.graphql_specification.specs.Values.{Accepts};
ghost use Rattle.graphql_specification.specs.Schemas.{SchemaHolds};
ghost use Rattle.graphql_documents.specs.Schemas.{NamesKind, is_input_type};
ghost use Rattle.graphql_specification.specs.BuiltInScalars.{SchemaRetainsUsedBuiltInScalars};
ghost use Rattle.graphql_documents.specs.TypeReferences.{inner_named_type};
ghost use Rattle.graphql_documents.specs.declared.documents.definitions.InputValueDefinition.{InputValueDefinition};
ghost use Rattle.graphql_documents.specs.declared.documents.schemas.Schema.{Schema};
ghost use Rattle.graphql_documents.specs.declared.documents.values.Value.{Value};
ghost use Rattle.graphql_nodes.specs.declared.nodes.Node.{Node};

/// Each argument and input field of a schema that holds is of a defined input type once the built-in scalars of the
/// schema are retained.
///
/// Specification: 3.6.1 Field Arguments; 3.10 Input Objects.
pub fn each_input_of_the_retained_schema_is_of_an_input_type()
    ensures { (schema retained : Schema) (d : Node InputValueDefinition) →
        SchemaHolds schema → SchemaRetainsUsedBuiltInScalars schema retained → Contains (inputs_of retained) d →
        NamesKind retained is_input_type (inner_named_type d.value.value.ty.value.value) }
{}

/// In a schema that was accepted, as `validate_schema` leaves it, each default of an argument or input field is
/// accepted for its type.
///
/// Specification: 3.6.1 Field Arguments; 3.10 Input Objects; 5.6.1 Values of Correct Type.
pub fn each_default_of_an_accepted_schema_is_accepted()
    ensures { (schema retained : Schema) (d : Node InputValueDefinition) (value : Node Value) →
        SchemaHolds schema → SchemaRetainsUsedBuiltInScalars schema retained → DefaultValuesHold retained →
        Contains (inputs_of retained) d → d.value.value.default_value ≡ Some value →
        Accepts retained [] d.value.value.ty.value.value value.value.value }
{}
