//! The texts of reports, each written out in full.
mod interfaces;
mod words;

use super::fixtures::{is_text, name, node, text};
use graphql_coordinates::{
    DirectiveArgumentCoordinate, DirectiveCoordinate, FieldArgumentCoordinate, SchemaCoordinate,
    TypeAttributeCoordinate,
};
use graphql_diagnostics::DiagnosticData;
use graphql_documents::documents::{Type, Value};
use graphql_nodes::{DirectiveLocation, FileId, Name, Node, OperationType, SourceSpan};
use std::alloc::Global;
use std::fmt::Display;
use std::process::Abort;

const FIRST: Option<SourceSpan> = Some(SourceSpan {
    file_id: FileId(1),
    start: 0,
    end: 1,
});

const SECOND: Option<SourceSpan> = Some(SourceSpan {
    file_id: FileId(1),
    start: 4,
    end: 6,
});

/// What builds data and prints it, or ends the test.
#[derive(Drop)]
struct TestData<'a, R> {
    rt: &'a R,
    alloc: Global,
}

fn test_data<R: Abort + AllocGlobal>(rt: &R) -> TestData<'_, R> {
    TestData {
        rt,
        alloc: rt.alloc(),
    }
}

impl<R: Abort> TestData<'_, R> {
    fn text(&self, written: &str) -> String {
        text(self.rt, self.alloc, written)
    }

    fn name(&self, written: &str) -> Name {
        name(self.rt, self.alloc, written)
    }

    fn node<T: Drop>(&self, value: T) -> Node<T> {
        node(self.rt, self.alloc, value)
    }

    fn attribute(&self, ty: &str, attribute: &str) -> TypeAttributeCoordinate {
        TypeAttributeCoordinate {
            ty: self.name(ty),
            attribute: self.name(attribute),
        }
    }

    /// What is shown prints this text.
    fn prints<T: Display + Drop>(&self, shown: T, expected: &str) {
        let printed = shown.to_string(self.alloc);
        let printed = printed.expect(self.rt, "memory for a text");
        is_text(self.rt, printed.as_str(), expected);
    }
}

#[test]
fn repeated_names(rt: HostRuntime) {
    let given = test_data(&rt);
    given.prints(
        DiagnosticData::UniqueVariable {
            name: given.name("v"),
            original_definition: FIRST,
            redefined_definition: SECOND,
        },
        "the variable `$v` is declared multiple times",
    );
    given.prints(
        DiagnosticData::UniqueArgument {
            name: given.name("n"),
            original_definition: FIRST,
            redefined_definition: SECOND,
        },
        "the argument `n` is provided multiple times",
    );
    given.prints(
        DiagnosticData::UniqueInputValue {
            name: given.name("a"),
            original_definition: FIRST,
            redefined_definition: SECOND,
        },
        "the value `a` is defined multiple times",
    );
    given.prints(
        DiagnosticData::UniqueDirective {
            name: given.name("d"),
            original_application: FIRST,
        },
        "non-repeatable directive d can only be used once per location",
    );
    given.prints(
        DiagnosticData::DuplicateRootOperationType {
            name: given.name("Root"),
            original_operation: OperationType::Query,
            original_definition: FIRST,
            redefined_operation: OperationType::Mutation,
            redefined_definition: SECOND,
        },
        "the same type `Root` must not be used for multiple root operation types",
    );
}

#[test]
fn unknown_arguments(rt: HostRuntime) {
    let given = test_data(&rt);
    let of_field = SchemaCoordinate::TypeAttribute(given.attribute("T", "f"));
    given.prints(
        DiagnosticData::UndefinedArgument {
            name: given.name("x"),
            coordinate: of_field,
            definition_location: FIRST,
        },
        "the argument `x` is not supported by `T.f`",
    );
    let of_directive = SchemaCoordinate::Directive(DirectiveCoordinate {
        directive: given.name("d"),
    });
    given.prints(
        DiagnosticData::UndefinedArgument {
            name: given.name("x"),
            coordinate: of_directive,
            definition_location: FIRST,
        },
        "the argument `x` is not supported by `@d`",
    );
}

#[test]
fn unknown_names(rt: HostRuntime) {
    let given = test_data(&rt);
    given.prints(
        DiagnosticData::UndefinedDefinition {
            name: given.name("T"),
        },
        "cannot find type `T` in this document",
    );
    given.prints(
        DiagnosticData::UndefinedDirective {
            name: given.name("d"),
        },
        "cannot find directive `@d` in this document",
    );
    given.prints(
        DiagnosticData::UndefinedVariable {
            name: given.name("v"),
        },
        "variable `$v` is not defined",
    );
    given.prints(
        DiagnosticData::UndefinedFragment {
            name: given.name("F"),
        },
        "cannot find fragment `F` in this document",
    );
    given.prints(
        DiagnosticData::UndefinedEnumValue {
            value: given.name("RED"),
            definition: given.name("Colour"),
            definition_location: FIRST,
        },
        "value `RED` does not exist on `Colour`",
    );
    given.prints(
        DiagnosticData::UndefinedInputValue {
            value: given.name("x"),
            definition: given.name("Input"),
            definition_location: FIRST,
        },
        "field `x` does not exist on `Input`",
    );
}

#[test]
fn required_values(rt: HostRuntime) {
    let given = test_data(&rt);
    let of_field = FieldArgumentCoordinate {
        ty: given.name("T"),
        field: given.name("f"),
        argument: given.name("a"),
    };
    given.prints(
        DiagnosticData::RequiredArgument {
            name: given.name("y"),
            coordinate: SchemaCoordinate::FieldArgument(of_field),
            expected_type: given.node(Type::NonNullNamed(given.name("Z"))),
            definition_location: FIRST,
        },
        "the required argument `T.f(a:)` is not provided",
    );
    let of_directive = DirectiveArgumentCoordinate {
        directive: given.name("d"),
        argument: given.name("a"),
    };
    given.prints(
        DiagnosticData::RequiredArgument {
            name: given.name("y"),
            coordinate: SchemaCoordinate::DirectiveArgument(of_directive),
            expected_type: given.node(Type::NonNullNamed(given.name("Z"))),
            definition_location: FIRST,
        },
        "the required argument `@d(a:)` is not provided",
    );
    given.prints(
        DiagnosticData::RequiredField {
            name: given.name("y"),
            coordinate: given.attribute("Input", "x"),
            expected_type: given.node(Type::NonNullNamed(given.name("Z"))),
            definition_location: FIRST,
        },
        "the required field `Input.x` is not provided",
    );
}

#[test]
fn kinds_of_types(rt: HostRuntime) {
    let given = test_data(&rt);
    given.prints(
        DiagnosticData::OutputType {
            name: given.name("f"),
            describe_type: "an input object type",
            type_location: FIRST,
        },
        "`f` field must return an output type",
    );
    given.prints(
        DiagnosticData::InputType {
            name: given.name("a"),
            describe_type: "an object type",
            type_location: FIRST,
        },
        "`a` field must be of an input type",
    );
    given.prints(
        DiagnosticData::VariableInputType {
            name: given.name("v"),
            ty: given.node(Type::Named(given.name("T"))),
            describe_type: "a union type",
        },
        "`$v` variable must be of an input type",
    );
    given.prints(
        DiagnosticData::RootOperationObjectType {
            name: given.name("Query"),
            describe_type: "an interface type",
        },
        "`Query` field must return an object type",
    );
    given.prints(
        DiagnosticData::UnionMemberObjectType {
            name: given.name("M"),
            describe_type: "a scalar type",
        },
        "union member `M` must be an object type",
    );
    given.prints(
        DiagnosticData::QueryRootOperationType,
        "missing query root operation type in schema definition",
    );
}

#[test]
fn values_and_locations(rt: HostRuntime) {
    let given = test_data(&rt);
    let mut valid_locations = Vec::new(given.alloc);
    valid_locations
        .push(DirectiveLocation::Object)
        .expect(&rt, "memory for a location");
    given.prints(
        DiagnosticData::UnsupportedLocation {
            name: given.name("d"),
            location: DirectiveLocation::FieldDefinition,
            valid_locations,
            definition_location: FIRST,
        },
        "d directive is not supported for FIELD_DEFINITION location",
    );
    given.prints(
        DiagnosticData::UnsupportedValueType {
            value: given.node(Value::Enum(given.name("RED"))),
            ty: given.node(Type::NonNullNamed(given.name("Int"))),
            definition_location: FIRST,
        },
        "expected value of type Int!, found an enum",
    );
    given.prints(
        DiagnosticData::IntCoercionError {
            value: given.text("2147483648"),
        },
        "int cannot represent non 32-bit signed integer value",
    );
}

#[test]
fn variables(rt: HostRuntime) {
    let given = test_data(&rt);
    given.prints(
        DiagnosticData::UnusedVariable {
            name: given.name("v"),
        },
        "unused variable: `$v`",
    );
    given.prints(
        DiagnosticData::DisallowedVariableUsage {
            variable: given.name("v"),
            variable_type: Type::Named(given.name("A")),
            argument: given.name("a"),
            argument_type: Type::NonNullNamed(given.name("B")),
            variable_location: FIRST,
            argument_location: SECOND,
        },
        "variable `$v` of type `A` cannot be used for argument `a` of type `B!`",
    );
}

#[test]
fn selections(rt: HostRuntime) {
    let given = test_data(&rt);
    given.prints(
        DiagnosticData::MissingSubselection {
            coordinate: given.attribute("T", "f"),
            output_type: given.name("U"),
            describe_type: "a union type",
        },
        "interface, union and object types must have a subselection set",
    );
    given.prints(
        DiagnosticData::UnusedFragment {
            name: given.name("F"),
        },
        "fragment `F` must be used in an operation",
    );
}

#[test]
fn conditions_of_fragments(rt: HostRuntime) {
    let given = test_data(&rt);
    given.prints(
        DiagnosticData::InvalidFragmentTarget {
            name: Some(given.name("F")),
            ty: given.name("T"),
        },
        "fragment `F` must have a composite type in its type condition",
    );
    given.prints(
        DiagnosticData::InvalidFragmentTarget {
            name: None,
            ty: given.name("T"),
        },
        "inline fragment must have a composite type in its type condition",
    );
    given.prints(
        DiagnosticData::InvalidFragmentSpread {
            name: Some(given.name("F")),
            type_condition: given.name("T"),
            type_name: given.name("P"),
            fragment_location: FIRST,
            type_location: SECOND,
        },
        "fragment `F` with type condition `T` cannot be applied to `P`",
    );
    given.prints(
        DiagnosticData::InvalidFragmentSpread {
            name: None,
            type_condition: given.name("T"),
            type_name: given.name("P"),
            fragment_location: FIRST,
            type_location: SECOND,
        },
        "inline fragment with type condition `T` cannot be applied to `P`",
    );
}

#[test]
fn cycles_and_limits(rt: HostRuntime) {
    let given = test_data(&rt);
    given.prints(
        DiagnosticData::RecursiveDirectiveDefinition {
            name: given.name("d"),
            trace: Vec::new(given.alloc),
        },
        "`d` directive definition cannot reference itself",
    );
    given.prints(
        DiagnosticData::RecursiveInputObjectDefinition {
            name: given.name("Input"),
            trace: Vec::new(given.alloc),
        },
        "`Input` input object cannot reference itself",
    );
    given.prints(
        DiagnosticData::RecursiveFragmentDefinition {
            name: given.name("F"),
            head_location: FIRST,
            trace: Vec::new(given.alloc),
        },
        "`F` fragment cannot reference itself",
    );
    given.prints(
        DiagnosticData::DeeplyNestedType {
            name: given.name("A1"),
            describe_type: "input object",
        },
        "`A1` contains too much nesting",
    );
    given.prints(DiagnosticData::RecursionError, "too much recursion");
}

#[test]
fn empty_types_and_reserved_names(rt: HostRuntime) {
    let given = test_data(&rt);
    given.prints(
        DiagnosticData::EmptyFieldSet {
            type_name: given.name("T"),
            type_location: FIRST,
            extensions_locations: Vec::new(given.alloc),
        },
        "`T` has no fields",
    );
    given.prints(
        DiagnosticData::EmptyValueSet {
            type_name: given.name("E"),
            type_location: FIRST,
            extensions_locations: Vec::new(given.alloc),
        },
        "`E` has no enum values",
    );
    given.prints(
        DiagnosticData::EmptyMemberSet {
            type_name: given.name("U"),
            type_location: FIRST,
            extensions_locations: Vec::new(given.alloc),
        },
        "`U` has no member types",
    );
    given.prints(
        DiagnosticData::EmptyInputValueSet {
            type_name: given.name("Input"),
            type_location: FIRST,
            extensions_locations: Vec::new(given.alloc),
        },
        "`Input` has no input values",
    );
    given.prints(
        DiagnosticData::ReservedName {
            name: given.name("__f"),
            describe: "a field",
        },
        "a field cannot be named `__f` as names starting with two underscores are reserved",
    );
}
