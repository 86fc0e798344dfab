//! Operations, with the selections and fragments that they reach.

pub use graphql_operations::{
    DEFER_DIRECTIVE_NAME, FragmentUse, OperationValidationContext, operations_of, validate_defer,
    validate_fragment_spread_type, validate_fragment_type_condition, validate_fragments_used,
    validate_subscription,
};
pub use graphql_rules::cycles::fragments::validate_fragment_cycles;
pub use graphql_rules::operations::{
    validate_field, validate_fragment_definition, validate_fragment_spread,
    validate_inline_fragment, validate_leaf_field_selection, validate_operation,
    validate_operation_definitions, validate_selection_set,
};
pub use graphql_variables::conditions::{INCLUDE_DIRECTIVE_NAME, SKIP_DIRECTIVE_NAME};
