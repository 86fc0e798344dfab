//! The diagnostics, with their names and their texts.

ghost use Rattle.std.specs.Prelude.{◌≡◌, Some};
ghost use Rattle.graphql_diagnostics.specs.Messages.{diagnostic_name, fragment_text, message, name_or_anon_text};

use super::names::{FieldOf, NameOrAnon};
use graphql_coordinates::{SchemaCoordinate, TypeAttributeCoordinate};
use graphql_documents::documents::definitions::InputValueDefinition;
use graphql_documents::documents::directives::Directive;
use graphql_documents::documents::executables::FragmentSpread;
use graphql_documents::documents::type_references::Type;
use graphql_documents::documents::values::Value;
use graphql_nodes::{DirectiveLocation, Name, Node, OperationType, SourceSpan};
use std::fmt;

/// A broken rule, with what its message names.
#[derive(Drop, PartialEq, Eq)]
pub enum DiagnosticData {
    /// A variable has the name of an earlier one. Reported at the later declaration.
    ///
    /// Specification: 5.8.1 Variable Uniqueness.
    UniqueVariable {
        name: Name,
        /// The earlier variable of the name.
        original_definition: Option<SourceSpan>,
        redefined_definition: Option<SourceSpan>,
    },
    /// An argument has the name of an earlier one. Reported at the repetition.
    ///
    /// Specification: 5.4.2 Argument Uniqueness.
    UniqueArgument {
        name: Name,
        /// The first argument of the name.
        original_definition: Option<SourceSpan>,
        redefined_definition: Option<SourceSpan>,
    },
    /// An argument definition has the name of an earlier one. Reported at the original.
    ///
    /// Specification: 3.6.1 Field Arguments; 3.13 Directives.
    UniqueInputValue {
        name: Name,
        /// The earlier definition of the name.
        original_definition: Option<SourceSpan>,
        redefined_definition: Option<SourceSpan>,
    },
    /// An argument is not defined. Reported at the argument.
    ///
    /// Specification: 5.4.1 Argument Names.
    UndefinedArgument {
        name: Name,
        coordinate: SchemaCoordinate,
        /// The field or directive definition that lacks the argument.
        definition_location: Option<SourceSpan>,
    },
    /// A type is not defined. Reported at its name; for the type of a variable, at the variable.
    ///
    /// Specification: 3.4 Types; 5.8.2 Variables Are Input Types.
    UndefinedDefinition {
        name: Name,
    },
    /// A directive is not defined. Reported at the application.
    ///
    /// Specification: 5.7.1 Directives Are Defined.
    UndefinedDirective {
        name: Name,
    },
    /// A variable is not defined. Reported at the value.
    ///
    /// Specification: 5.8.3 All Variable Uses Defined.
    UndefinedVariable {
        name: Name,
    },
    /// A fragment is not defined. Reported at the spread.
    ///
    /// Specification: 5.5.2.1 Fragment Spread Target Defined.
    UndefinedFragment {
        name: Name,
    },
    /// An enum has no such value. Reported at the name of the value.
    ///
    /// Specification: 5.6.1 Values of Correct Type.
    UndefinedEnumValue {
        value: Name,
        /// The name of the enum.
        definition: Name,
        /// The enum.
        definition_location: Option<SourceSpan>,
    },
    /// An input object has no such field. Reported at the value of the entry.
    ///
    /// Specification: 5.6.2 Input Object Field Names.
    UndefinedInputValue {
        /// The name of the entry.
        value: Name,
        /// The name of the input object.
        definition: Name,
        /// The input object.
        definition_location: Option<SourceSpan>,
    },
    /// A type lacks a field of an interface that it implements. Reported at the implementing type.
    ///
    /// Specification: 3.6 Objects; 3.7 Interfaces.
    MissingInterfaceField {
        name: Name,
        interface: Name,
        field: Name,
        /// The name of the interface as the type lists it.
        implements_location: Option<SourceSpan>,
        /// The field of the interface.
        field_location: Option<SourceSpan>,
    },
    /// The type of a field is not valid for that of the interface's field. Reported at the
    /// implementing field.
    ///
    /// Specification: 3.6 Objects; 3.7 Interfaces.
    InvalidImplementationFieldType {
        name: Name,
        interface: Name,
        field: Name,
        interface_type: Type,
        actual_type: Type,
        /// The implementing field.
        field_location: Option<SourceSpan>,
        interface_field_location: Option<SourceSpan>,
    },
    /// A field lacks an argument of the interface's field. Reported at the implementing field.
    ///
    /// Specification: 3.6 Objects; 3.7 Interfaces.
    MissingInterfaceFieldArgument {
        name: Name,
        interface: Name,
        field: Name,
        argument: Name,
        /// The implementing field.
        field_location: Option<SourceSpan>,
        interface_argument_location: Option<SourceSpan>,
    },
    /// The type of an argument is not that of the interface's argument. Reported at the implementing
    /// argument.
    ///
    /// Specification: 3.6 Objects; 3.7 Interfaces.
    InvalidImplementationFieldArgumentType {
        name: Name,
        interface: Name,
        field: Name,
        argument: Name,
        interface_type: Node<Type>,
        actual_type: Node<Type>,
        /// The implementing argument.
        argument_location: Option<SourceSpan>,
        interface_argument_location: Option<SourceSpan>,
    },
    /// A field requires an argument that the interface's field does not have. Reported at the
    /// argument.
    ///
    /// Specification: 3.6 Objects; 3.7 Interfaces.
    ExtraRequiredImplementationFieldArgument {
        name: Name,
        interface: Name,
        field: Name,
        argument: Name,
        argument_location: Option<SourceSpan>,
        interface_field_location: Option<SourceSpan>,
    },
    /// A required argument is not given, or is null. Reported at the field or directive.
    ///
    /// Specification: 5.4.2.1 Required Arguments.
    RequiredArgument {
        name: Name,
        coordinate: SchemaCoordinate,
        expected_type: Node<Type>,
        /// The definition of the argument.
        definition_location: Option<SourceSpan>,
    },
    /// A required field of an input object is not given, or is null. Reported at the object value.
    ///
    /// Specification: 5.6.4 Input Object Required Fields.
    RequiredField {
        name: Name,
        coordinate: TypeAttributeCoordinate,
        expected_type: Node<Type>,
        /// The definition of the field.
        definition_location: Option<SourceSpan>,
    },
    /// A type implements an interface, and not an interface that this one implements. Reported at the
    /// implementing type.
    ///
    /// Specification: 3.6 Objects; 3.7 Interfaces.
    TransitiveImplementedInterfaces {
        /// The name of the implementing type, also of an object.
        interface: Name,
        via_interface: Name,
        missing_interface: Name,
        /// The missing name as the other interface lists it.
        transitive_interface_location: Option<SourceSpan>,
    },
    /// The type of a field is no output type. Reported at the field.
    ///
    /// Specification: 3.6 Objects; 3.7 Interfaces.
    OutputType {
        name: Name,
        describe_type: &'static str,
        /// The innermost name of the type.
        type_location: Option<SourceSpan>,
    },
    /// The type of an argument or of an input field is no input type. Reported at the argument or
    /// input field.
    ///
    /// Specification: 3.6.1 Field Arguments; 3.10 Input Objects; 3.13 Directives.
    InputType {
        name: Name,
        describe_type: &'static str,
        /// The type as written.
        type_location: Option<SourceSpan>,
    },
    /// The type of a variable is no input type. Reported at the variable.
    ///
    /// Specification: 5.8.2 Variables Are Input Types.
    VariableInputType {
        name: Name,
        ty: Node<Type>,
        describe_type: &'static str,
    },
    /// A schema has no query root. Reported at the schema definition.
    ///
    /// Specification: 3.3.1 Root Operation Types.
    QueryRootOperationType,
    /// A variable is not used. Reported at the head of its declaration.
    ///
    /// Specification: 5.8.4 All Variables Used.
    UnusedVariable {
        name: Name,
    },
    /// A root operation type is no object. Reported at the name of the root.
    ///
    /// Specification: 3.3.1 Root Operation Types.
    RootOperationObjectType {
        name: Name,
        describe_type: &'static str,
    },
    /// Two root operations have one type. Reported at the later name.
    ///
    /// Specification: 3.3.1 Root Operation Types.
    DuplicateRootOperationType {
        name: Name,
        /// The first operation of the type.
        original_operation: OperationType,
        original_definition: Option<SourceSpan>,
        redefined_operation: OperationType,
        redefined_definition: Option<SourceSpan>,
    },
    /// A member of a union is no object. Reported at the member.
    ///
    /// Specification: 3.8 Unions.
    UnionMemberObjectType {
        name: Name,
        describe_type: &'static str,
    },
    /// A directive is applied where it may not be. Reported at the application.
    ///
    /// Specification: 5.7.2 Directives Are In Valid Locations.
    UnsupportedLocation {
        name: Name,
        location: DirectiveLocation,
        /// Where it may be applied.
        valid_locations: Vec<DirectiveLocation>,
        /// The definition of the directive.
        definition_location: Option<SourceSpan>,
    },
    /// A value is not of the type of its place. Reported at the value.
    ///
    /// Specification: 5.6.1 Values of Correct Type.
    UnsupportedValueType {
        value: Node<Value>,
        ty: Node<Type>,
        /// Where the type against which the value was checked is referred to.
        definition_location: Option<SourceSpan>,
    },
    /// An integer literal for `Int` is outside 32 bits. Reported at the value.
    ///
    /// Specification: 3.5.1 Int; 5.6.1 Values of Correct Type.
    IntCoercionError {
        /// The literal as written.
        value: String,
    },
    /// A directive that is not repeatable is repeated. Reported at the repetition.
    ///
    /// Specification: 5.7.3 Directives Are Unique Per Location.
    UniqueDirective {
        name: Name,
        /// The head of the first application.
        original_application: Option<SourceSpan>,
    },
    /// A field of a composite type selects nothing. Reported at the field.
    ///
    /// Specification: 5.3.3 Leaf Field Selections.
    MissingSubselection {
        coordinate: TypeAttributeCoordinate,
        output_type: Name,
        describe_type: &'static str,
    },
    /// The type condition of a fragment names no composite type. Reported at the fragment.
    ///
    /// Specification: 5.5.1.2 Fragment Spread Type Existence; 5.5.1.3 Fragments On Composite Types.
    InvalidFragmentTarget {
        /// The name of the fragment; none for an inline fragment.
        name: Option<Name>,
        /// The type condition.
        ty: Name,
    },
    /// A fragment can never apply where it is spread. Reported at the spread or inline fragment.
    ///
    /// Specification: 5.5.2.3 Fragment Spread Is Possible.
    InvalidFragmentSpread {
        /// The name of the fragment; none for an inline fragment.
        name: Option<Name>,
        type_condition: Name,
        /// The name of the type around the spread.
        type_name: Name,
        /// The fragment or inline fragment.
        fragment_location: Option<SourceSpan>,
        /// The definition of the type around the spread.
        type_location: Option<SourceSpan>,
    },
    /// A fragment is used in no operation. Reported at the fragment.
    ///
    /// Specification: 5.5.1.4 Fragments Must Be Used.
    UnusedFragment {
        name: Name,
    },
    /// A variable is given to an argument for which its type does not do. Reported at the argument.
    ///
    /// Specification: 5.8.5 All Variable Usages are Allowed.
    DisallowedVariableUsage {
        variable: Name,
        variable_type: Type,
        argument: Name,
        argument_type: Type,
        /// The definition of the variable.
        variable_location: Option<SourceSpan>,
        /// The argument as given.
        argument_location: Option<SourceSpan>,
    },
    /// A directive definition reaches itself. Reported at the head of the definition.
    ///
    /// Specification: 3.13 Directives.
    RecursiveDirectiveDefinition {
        name: Name,
        /// The applications on the way, from the one that leads back to the definition to the
        /// definition's own.
        trace: Vec<Node<Directive>>,
    },
    /// An interface lists itself among those that it implements. Reported at the listed name.
    ///
    /// Specification: 3.7 Interfaces.
    RecursiveInterfaceDefinition {
        name: Name,
    },
    /// An input object must hold one of its own kind. Reported at the input object.
    ///
    /// Specification: 3.10 Input Objects.
    RecursiveInputObjectDefinition {
        name: Name,
        /// The fields on the way, from the one that leads back to the input object to the input
        /// object's own.
        trace: Vec<Node<InputValueDefinition>>,
    },
    /// A fragment spreads itself. Reported at the fragment.
    ///
    /// Specification: 5.5.2.2 Fragment Spreads Must Not Form Cycles.
    RecursiveFragmentDefinition {
        name: Name,
        /// The head of the fragment.
        head_location: Option<SourceSpan>,
        /// The spreads on the way, from the one that leads back to the fragment to the fragment's
        /// own.
        trace: Vec<Node<FragmentSpread>>,
    },
    /// A search for cycles passed its limit. Reported at the head of the directive or fragment, or at
    /// the input object.
    DeeplyNestedType {
        name: Name,
        describe_type: &'static str,
    },
    /// A walk passed its limit. Reported without a place.
    RecursionError,
    /// An object or interface has no fields. Reported at the type.
    ///
    /// Specification: 3.6 Objects; 3.7 Interfaces.
    EmptyFieldSet {
        type_name: Name,
        /// The definition of the type.
        type_location: Option<SourceSpan>,
        extensions_locations: Vec<Option<SourceSpan>>,
    },
    /// An enum has no values. Reported at the type.
    ///
    /// Specification: 3.9 Enums.
    EmptyValueSet {
        type_name: Name,
        /// The definition of the type.
        type_location: Option<SourceSpan>,
        extensions_locations: Vec<Option<SourceSpan>>,
    },
    /// A union has no members. Reported at the type.
    ///
    /// Specification: 3.8 Unions.
    EmptyMemberSet {
        type_name: Name,
        /// The definition of the type.
        type_location: Option<SourceSpan>,
        extensions_locations: Vec<Option<SourceSpan>>,
    },
    /// An input object has no fields. Reported at the type.
    ///
    /// Specification: 3.10 Input Objects.
    EmptyInputValueSet {
        type_name: Name,
        /// The definition of the type.
        type_location: Option<SourceSpan>,
        extensions_locations: Vec<Option<SourceSpan>>,
    },
    /// A name begins with two underscores. Reported at the name.
    ///
    /// Specification: 2.1.9 Names.
    ReservedName {
        name: Name,
        /// What has the name, as `a field`.
        describe: &'static str,
    },
}

impl DiagnosticData {
    /// The name of the broken rule, as machines read it.
    pub fn name(&self) -> &'static str
        ensures { result.now ≡ diagnostic_name self.now }
    {
        match self {
            DiagnosticData::UniqueVariable { .. } => "UniqueVariable",
            DiagnosticData::UniqueArgument { .. } => "UniqueArgument",
            DiagnosticData::UniqueInputValue { .. } => "UniqueInputValue",
            DiagnosticData::UndefinedArgument { .. } => "UndefinedArgument",
            DiagnosticData::UndefinedDefinition { .. } => "UndefinedDefinition",
            DiagnosticData::UndefinedDirective { .. } => "UndefinedDirective",
            DiagnosticData::UndefinedVariable { .. } => "UndefinedVariable",
            DiagnosticData::UndefinedFragment { .. } => "UndefinedFragment",
            DiagnosticData::UndefinedEnumValue { .. } => "UndefinedEnumValue",
            DiagnosticData::UndefinedInputValue { .. } => "UndefinedInputValue",
            DiagnosticData::MissingInterfaceField { .. } => "MissingInterfaceField",
            DiagnosticData::InvalidImplementationFieldType { .. } =>
                "InvalidImplementationFieldType",
            DiagnosticData::MissingInterfaceFieldArgument { .. } => "MissingInterfaceFieldArgument",
            DiagnosticData::InvalidImplementationFieldArgumentType { .. } =>
                "InvalidImplementationFieldArgumentType",
            DiagnosticData::ExtraRequiredImplementationFieldArgument { .. } =>
                "ExtraRequiredImplementationFieldArgument",
            DiagnosticData::RequiredArgument { .. } => "RequiredArgument",
            DiagnosticData::RequiredField { .. } => "RequiredField",
            DiagnosticData::TransitiveImplementedInterfaces { .. } =>
                "TransitiveImplementedInterfaces",
            DiagnosticData::OutputType { .. } => "OutputType",
            DiagnosticData::InputType { .. } => "InputType",
            DiagnosticData::VariableInputType { .. } => "VariableInputType",
            DiagnosticData::QueryRootOperationType => "QueryRootOperationType",
            DiagnosticData::UnusedVariable { .. } => "UnusedVariable",
            DiagnosticData::RootOperationObjectType { .. } => "RootOperationObjectType",
            DiagnosticData::DuplicateRootOperationType { .. } => "DuplicateRootOperationType",
            DiagnosticData::UnionMemberObjectType { .. } => "UnionMemberObjectType",
            DiagnosticData::UnsupportedLocation { .. } => "UnsupportedLocation",
            DiagnosticData::UnsupportedValueType { .. } => "UnsupportedValueType",
            DiagnosticData::IntCoercionError { .. } => "IntCoercionError",
            DiagnosticData::UniqueDirective { .. } => "UniqueDirective",
            DiagnosticData::MissingSubselection { .. } => "MissingSubselection",
            DiagnosticData::InvalidFragmentTarget { .. } => "InvalidFragmentTarget",
            DiagnosticData::InvalidFragmentSpread { .. } => "InvalidFragmentSpread",
            DiagnosticData::UnusedFragment { .. } => "UnusedFragment",
            DiagnosticData::DisallowedVariableUsage { .. } => "DisallowedVariableUsage",
            DiagnosticData::RecursiveDirectiveDefinition { .. } => "RecursiveDirectiveDefinition",
            DiagnosticData::RecursiveInterfaceDefinition { .. } => "RecursiveInterfaceDefinition",
            DiagnosticData::RecursiveInputObjectDefinition { .. } =>
                "RecursiveInputObjectDefinition",
            DiagnosticData::RecursiveFragmentDefinition { .. } => "RecursiveFragmentDefinition",
            DiagnosticData::DeeplyNestedType { .. } => "DeeplyNestedType",
            DiagnosticData::RecursionError => "RecursionError",
            DiagnosticData::EmptyFieldSet { .. } => "EmptyFieldSet",
            DiagnosticData::EmptyValueSet { .. } => "EmptyValueSet",
            DiagnosticData::EmptyMemberSet { .. } => "EmptyMemberSet",
            DiagnosticData::EmptyInputValueSet { .. } => "EmptyInputValueSet",
            DiagnosticData::ReservedName { .. } => "ReservedName",
        }
    }
}

/// The text of the diagnostic, without its place.
impl fmt::Display for DiagnosticData {
    ghost output = { λ report. Some (message report) };

    fn fmt<W: fmt::Write>(&self, f: &mut fmt::Formatter<W>) -> fmt::Result {
        match self {
            DiagnosticData::UniqueVariable { name, .. } => write!(
                f,
                "the variable `${name}` is declared multiple times"
            ),
            DiagnosticData::UniqueArgument { name, .. } => write!(
                f,
                "the argument `{name}` is provided multiple times"
            ),
            DiagnosticData::UniqueInputValue { name, .. } => write!(
                f,
                "the value `{name}` is defined multiple times"
            ),
            DiagnosticData::UndefinedArgument {
                name,
                coordinate,
                ..
            } => write!(
                f,
                "the argument `{name}` is not supported by `{coordinate}`"
            ),
            DiagnosticData::UndefinedDefinition { name } => write!(
                f,
                "cannot find type `{name}` in this document"
            ),
            DiagnosticData::UndefinedDirective { name } => write!(
                f,
                "cannot find directive `@{name}` in this document"
            ),
            DiagnosticData::UndefinedVariable { name } => write!(
                f,
                "variable `${name}` is not defined"
            ),
            DiagnosticData::UndefinedFragment { name } => write!(
                f,
                "cannot find fragment `{name}` in this document"
            ),
            DiagnosticData::UndefinedEnumValue {
                value,
                definition,
                ..
            } => write!(f, "value `{value}` does not exist on `{definition}`"),
            DiagnosticData::UndefinedInputValue {
                value,
                definition,
                ..
            } => write!(f, "field `{value}` does not exist on `{definition}`"),
            DiagnosticData::MissingInterfaceField {
                name,
                interface,
                field,
                ..
            } => write!(
                f,
                "type `{name}` does not satisfy interface `{interface}`: missing field `{field}`"
            ),
            DiagnosticData::InvalidImplementationFieldType {
                name,
                interface,
                field,
                interface_type,
                actual_type,
                ..
            } => {
                let declared = FieldOf {
                    ty: interface,
                    field,
                };
                let own = FieldOf { ty: name, field };
                write!(
                    f,
                    "interface field `{declared}` expects type `{interface_type}` but `{own}` of type `{actual_type}` is not a proper subtype"
                )
            }
            DiagnosticData::MissingInterfaceFieldArgument {
                name,
                interface,
                field,
                argument,
                ..
            } => {
                let declared = FieldOf {
                    ty: interface,
                    field,
                };
                let own = FieldOf { ty: name, field };
                write!(
                    f,
                    "interface field `{declared}` expects argument `{argument}` but `{own}` does not provide it"
                )
            }
            DiagnosticData::InvalidImplementationFieldArgumentType {
                name,
                interface,
                field,
                argument,
                interface_type,
                actual_type,
                ..
            } => {
                let declared = FieldOf {
                    ty: interface,
                    field,
                };
                let interface_type = &interface_type.value;
                let own = FieldOf { ty: name, field };
                let actual_type = &actual_type.value;
                write!(
                    f,
                    "interface field `{declared}` expects argument `{argument}` of type `{interface_type}` but `{own}` provides type `{actual_type}`"
                )
            }
            DiagnosticData::ExtraRequiredImplementationFieldArgument {
                name,
                interface,
                field,
                argument,
                ..
            } => {
                let own = FieldOf { ty: name, field };
                let declared = FieldOf {
                    ty: interface,
                    field,
                };
                write!(
                    f,
                    "`{own}` has extra required argument `{argument}` not present in interface `{declared}`"
                )
            }
            DiagnosticData::RequiredArgument { coordinate, .. } => write!(
                f,
                "the required argument `{coordinate}` is not provided"
            ),
            DiagnosticData::RequiredField { coordinate, .. } => write!(
                f,
                "the required field `{coordinate}` is not provided"
            ),
            DiagnosticData::TransitiveImplementedInterfaces {
                interface,
                via_interface,
                missing_interface,
                ..
            } => write!(
                f,
                "interface `{interface}` declares that it implements `{via_interface}`, but to do so it must also implement `{missing_interface}`"
            ),
            DiagnosticData::OutputType { name, .. } => write!(
                f,
                "`{name}` field must return an output type"
            ),
            DiagnosticData::InputType { name, .. } => write!(
                f,
                "`{name}` field must be of an input type"
            ),
            DiagnosticData::VariableInputType { name, .. } => write!(
                f,
                "`${name}` variable must be of an input type"
            ),
            DiagnosticData::QueryRootOperationType => write!(
                f,
                "missing query root operation type in schema definition"
            ),
            DiagnosticData::UnusedVariable { name } => write!(f, "unused variable: `${name}`"),
            DiagnosticData::RootOperationObjectType { name, .. } => write!(
                f,
                "`{name}` field must return an object type"
            ),
            DiagnosticData::DuplicateRootOperationType { name, .. } => write!(
                f,
                "the same type `{name}` must not be used for multiple root operation types"
            ),
            DiagnosticData::UnionMemberObjectType { name, .. } => write!(
                f,
                "union member `{name}` must be an object type"
            ),
            DiagnosticData::UnsupportedLocation { name, location, .. } => write!(
                f,
                "{name} directive is not supported for {location} location"
            ),
            DiagnosticData::UnsupportedValueType { value, ty, .. } => {
                let ty = &ty.value;
                let kind = value.value.describe();
                write!(f, "expected value of type {ty}, found {kind}")
            }
            DiagnosticData::IntCoercionError { .. } => write!(
                f,
                "int cannot represent non 32-bit signed integer value"
            ),
            DiagnosticData::UniqueDirective { name, .. } => write!(
                f,
                "non-repeatable directive {name} can only be used once per location"
            ),
            DiagnosticData::MissingSubselection { .. } => write!(
                f,
                "interface, union and object types must have a subselection set"
            ),
            DiagnosticData::InvalidFragmentTarget { name, .. } => {
                let fragment = fragment_or_inline(name);
                write!(
                    f,
                    "{fragment} must have a composite type in its type condition"
                )
            }
            DiagnosticData::InvalidFragmentSpread {
                name,
                type_condition,
                type_name,
                ..
            } => {
                let fragment = fragment_or_inline(name);
                write!(
                    f,
                    "{fragment} with type condition `{type_condition}` cannot be applied to `{type_name}`"
                )
            }
            DiagnosticData::UnusedFragment { name } => write!(
                f,
                "fragment `{name}` must be used in an operation"
            ),
            DiagnosticData::DisallowedVariableUsage {
                variable,
                variable_type,
                argument,
                argument_type,
                ..
            } => write!(
                f,
                "variable `${variable}` of type `{variable_type}` cannot be used for argument `{argument}` of type `{argument_type}`"
            ),
            DiagnosticData::RecursiveDirectiveDefinition { name, .. } => write!(
                f,
                "`{name}` directive definition cannot reference itself"
            ),
            DiagnosticData::RecursiveInterfaceDefinition { name } => write!(
                f,
                "interface {name} cannot implement itself"
            ),
            DiagnosticData::RecursiveInputObjectDefinition { name, .. } => write!(
                f,
                "`{name}` input object cannot reference itself"
            ),
            DiagnosticData::RecursiveFragmentDefinition { name, .. } => write!(
                f,
                "`{name}` fragment cannot reference itself"
            ),
            DiagnosticData::DeeplyNestedType { name, .. } => write!(
                f,
                "`{name}` contains too much nesting"
            ),
            DiagnosticData::RecursionError => write!(f, "too much recursion"),
            DiagnosticData::EmptyFieldSet { type_name, .. } => write!(
                f,
                "`{type_name}` has no fields"
            ),
            DiagnosticData::EmptyValueSet { type_name, .. } => write!(
                f,
                "`{type_name}` has no enum values"
            ),
            DiagnosticData::EmptyMemberSet { type_name, .. } => write!(
                f,
                "`{type_name}` has no member types"
            ),
            DiagnosticData::EmptyInputValueSet { type_name, .. } => write!(
                f,
                "`{type_name}` has no input values"
            ),
            DiagnosticData::ReservedName { name, describe } => write!(
                f,
                "{describe} cannot be named `{name}` as names starting with two underscores are reserved"
            ),
        }
    }
}

/// What a message calls a fragment: its name, or an inline fragment.
fn fragment_or_inline(name: &Option<Name>) -> NameOrAnon<'_, Name>
    ensures { name_or_anon_text (λ n. Some n.text) result ≡ Some (fragment_text name.now) }
{
    NameOrAnon {
        name: name.as_ref(),
        if_some_prefix: "fragment",
        if_none: "inline fragment",
    }
}

/// The message.
impl fmt::Debug for DiagnosticData {
    fn fmt<W: fmt::Write>(&self, f: &mut fmt::Formatter<W>) -> fmt::Result {
        fmt::Display::fmt(self, f)
    }
}
