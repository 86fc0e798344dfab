//! Names each type and call of the typed layer, by its module of `graphql_validation`, the only library of this crate: the crate
//! builds only if each of them is public there.
#![tactic(auto)]

pub mod documents {
    pub use graphql_validation::built_against;
    pub use graphql_validation::documents::{
        Argument, Component, ComponentName, Directive, DirectiveDefinition, DirectiveLocation,
        EnumValueDefinition, ExecutableDocument, ExtendedType, Field, FieldDefinition,
        FieldLookupError, FieldSet, FileId, FloatValue, Fragment, FragmentSpread, InlineFragment,
        InputValueDefinition, IntValue, Name, NamedType, Node, Operation, OperationType, Schema,
        Selection, SelectionSet, SourceSpan, Type, Valid, Value, VariableDefinition,
    };
}

pub mod diagnostics {
    pub use graphql_validation::diagnostics::{
        BuildError, Details, DiagnosticData, DiagnosticList, NameOrAnon, RecursionLimitError,
        ValidationError,
    };
}

pub mod guards {
    pub use graphql_validation::guards::{
        CycleError, DEFAULT_RECURSION_LIMIT, DepthCounter, DepthGuard, LimitCounter,
        RecursionGuard, RecursionStack,
    };
}

pub mod value {
    pub use graphql_validation::value::{validate_values, value_of_correct_type};
}

pub mod argument {
    pub use graphql_validation::argument::validate_arguments;
}

pub mod variable {
    pub use graphql_validation::variable::{
        Walked, is_variable_usage_allowed, validate_unused_variables, validate_variable_usage,
        variables_in_value, walk_selections, walk_selections_with_deduped_fragments,
    };
}

pub mod directive {
    pub use graphql_validation::directive::{
        validate_directive_cycles, validate_directives, validate_variable_definitions,
    };
}

pub mod schema_rules {
    pub use graphql_validation::schema_rules::{
        BuiltInScalars, extensions, is_valid_implementation_field_type,
        validate_argument_definitions, validate_directive_definition,
        validate_directive_definitions, validate_enum_definition, validate_enum_value,
        validate_field_definition, validate_field_definitions,
        validate_implementation_field_arguments, validate_implementation_field_types,
        validate_implements_interfaces, validate_input_object_definition,
        validate_input_value_definitions, validate_interface_definition,
        validate_object_type_definition, validate_root_operation_definitions,
        validate_scalar_definition, validate_schema, validate_schema_definition,
        validate_type_system_name, validate_union_definition,
    };
}

pub mod operations {
    pub use graphql_validation::operations::{
        DEFER_DIRECTIVE_NAME, FragmentUse, INCLUDE_DIRECTIVE_NAME, OperationValidationContext,
        SKIP_DIRECTIVE_NAME, validate_defer, validate_field, validate_fragment_cycles,
        validate_fragment_definition, validate_fragment_spread, validate_fragment_spread_type,
        validate_fragment_type_condition, validate_fragments_used, validate_inline_fragment,
        validate_leaf_field_selection, validate_operation, validate_operation_definitions,
        validate_selection_set, validate_subscription,
    };
}

pub mod merging {
    pub use graphql_validation::merging::{
        FieldConflict, FieldSelection, FieldsInSetCanMerge, expand_selections,
        same_name_and_arguments, same_output_type_shape, same_value,
    };
}

pub mod entry {
    pub use graphql_validation::entry::{
        validate_executable_document, validate_field_set, validate_standalone_executable,
    };
}

pub mod collect {
    pub use graphql_validation::collect::collect_fields;
}
