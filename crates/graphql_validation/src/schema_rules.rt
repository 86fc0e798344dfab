//! The rules of schemas.

pub use graphql_schemas::directive_definitions::{
    validate_directive_definition, validate_directive_definitions,
};
pub use graphql_schemas::enums::{validate_enum_definition, validate_enum_value};
pub use graphql_schemas::extensions::extensions;
pub use graphql_schemas::field_definitions::built_in_scalars::BuiltInScalars;
pub use graphql_schemas::field_definitions::fields::{
    validate_field_definition, validate_field_definitions,
};
pub use graphql_schemas::field_definitions::input_values::{
    validate_argument_definitions, validate_input_value_definitions,
};
pub use graphql_schemas::field_definitions::names::validate_type_system_name;
pub use graphql_schemas::implementations::{
    is_valid_implementation_field_type, validate_implementation_field_arguments,
    validate_implementation_field_types, validate_implements_interfaces,
};
pub use graphql_schemas::input_objects::validate_input_object_definition;
pub use graphql_schemas::interfaces::validate_interface_definition;
pub use graphql_schemas::objects::validate_object_type_definition;
pub use graphql_schemas::scalars::validate_scalar_definition;
pub use graphql_schemas::schema::validate_schema;
pub use graphql_schemas::schema_definition::{
    validate_root_operation_definitions, validate_schema_definition,
};
pub use graphql_schemas::unions::validate_union_definition;
