//! The words for names, details, locations of directives and kinds of operations.
use super::{FIRST, SECOND, test_data};
use crate::fixtures::is_text;
use graphql_diagnostics::{BuildError, Details, DiagnosticData, NameOrAnon};
use graphql_documents::documents::Type;
use graphql_nodes::{DirectiveLocation, Name, OperationType, RecursionLimitError, ValidationError};

#[test]
fn names_or_words(rt: HostRuntime) {
    let given = test_data(&rt);
    let written = given.name("F");
    let named = NameOrAnon {
        name: Some(&written),
        if_some_prefix: "fragment",
        if_none: "inline fragment",
    };
    given.prints(named, "fragment `F`");
    let anonymous: NameOrAnon<'_, Name> = NameOrAnon {
        name: None,
        if_some_prefix: "fragment",
        if_none: "inline fragment",
    };
    given.prints(anonymous, "inline fragment");
}

#[test]
fn details_show_messages_and_names(rt: HostRuntime) {
    let given = test_data(&rt);
    given.prints(ValidationError::OutOfMemory, "out of memory");
    given.prints(RecursionLimitError, "too much recursion");
    given.prints(
        Details::RecursionLimit(RecursionLimitError),
        "RecursionLimitError",
    );
    let unused = DiagnosticData::UnusedVariable {
        name: given.name("v"),
    };
    given.prints(Details::Diagnostic(unused), "unused variable: `$v`");
    let subscription = BuildError::SubscriptionUsesMultipleFields {
        name: Some(given.name("S")),
        fields: Vec::new(given.alloc),
    };
    given.prints(
        Details::Build(subscription),
        "SubscriptionUsesMultipleFields",
    );
    let conflict = BuildError::ConflictingFieldType {
        alias: given.name("x"),
        original_location: FIRST,
        original_coordinate: given.attribute("A", "f"),
        original_type: Type::Named(given.name("Int")),
        conflicting_location: SECOND,
        conflicting_coordinate: given.attribute("B", "g"),
        conflicting_type: Type::Named(given.name("String")),
    };
    given.prints(Details::Build(conflict), "ConflictingFieldType");
}

const LOCATIONS: &[(DirectiveLocation, &str)] = &[
    (DirectiveLocation::Query, "QUERY"),
    (DirectiveLocation::Mutation, "MUTATION"),
    (DirectiveLocation::Subscription, "SUBSCRIPTION"),
    (DirectiveLocation::Field, "FIELD"),
    (DirectiveLocation::FragmentDefinition, "FRAGMENT_DEFINITION"),
    (DirectiveLocation::FragmentSpread, "FRAGMENT_SPREAD"),
    (DirectiveLocation::InlineFragment, "INLINE_FRAGMENT"),
    (DirectiveLocation::VariableDefinition, "VARIABLE_DEFINITION"),
    (DirectiveLocation::Schema, "SCHEMA"),
    (DirectiveLocation::Scalar, "SCALAR"),
    (DirectiveLocation::Object, "OBJECT"),
    (DirectiveLocation::FieldDefinition, "FIELD_DEFINITION"),
    (DirectiveLocation::ArgumentDefinition, "ARGUMENT_DEFINITION"),
    (DirectiveLocation::Interface, "INTERFACE"),
    (DirectiveLocation::Union, "UNION"),
    (DirectiveLocation::Enum, "ENUM"),
    (DirectiveLocation::EnumValue, "ENUM_VALUE"),
    (DirectiveLocation::InputObject, "INPUT_OBJECT"),
    (
        DirectiveLocation::InputFieldDefinition,
        "INPUT_FIELD_DEFINITION",
    ),
];

const OPERATION_TYPES: &[(OperationType, &str)] = &[
    (OperationType::Query, "query"),
    (OperationType::Mutation, "mutation"),
    (OperationType::Subscription, "subscription"),
];

#[test]
fn words_of_locations_and_operations(rt: HostRuntime) {
    for (location, expected) in LOCATIONS {
        is_text(&rt, location.name(), expected);
    }
    for (operation_type, expected) in OPERATION_TYPES {
        is_text(&rt, operation_type.name(), expected);
    }
}
