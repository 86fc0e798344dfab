//! Laws of the input types of a schema that holds.

ghost use Rattle.graphql_documents.specs.declared.documents.schemas.Schema.{Schema};
ghost use Rattle.graphql_specification.specs.BuiltInScalars.{SchemaRetainsUsedBuiltInScalars};
ghost use Rattle.graphql_specification.specs.Schemas.{SchemaHolds};
ghost use Rattle.graphql_kept_rules.specs.InputTypes.{HasInputTypes, HasMetaArgumentTypes};

/// The arguments and input fields of a schema that holds are of input types, once its used built-in scalars are retained. What
/// no text defines, the argument of `__type`, is a premise.
///
/// Specification: 3.6.1 Field Arguments, 3.10 Input Objects, 3.13 Directives.
pub fn inputs_of_a_schema_that_holds_are_of_input_types()
    ensures { (schema retained : Schema) → SchemaHolds schema → SchemaRetainsUsedBuiltInScalars schema retained → HasMetaArgumentTypes retained → HasInputTypes retained }
{}
