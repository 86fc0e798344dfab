//! The texts of reports of what types and interfaces list.
use super::{FIRST, SECOND, test_data};
use graphql_diagnostics::DiagnosticData;
use graphql_documents::documents::Type;

#[test]
fn missing_fields_of_interfaces(rt: HostRuntime) {
    let given = test_data(&rt);
    given.prints(
        DiagnosticData::MissingInterfaceField {
            name: given.name("T"),
            interface: given.name("I"),
            field: given.name("f"),
            implements_location: FIRST,
            field_location: SECOND,
        },
        "type `T` does not satisfy interface `I`: missing field `f`",
    );
    given.prints(
        DiagnosticData::InvalidImplementationFieldType {
            name: given.name("T"),
            interface: given.name("I"),
            field: given.name("f"),
            interface_type: Type::NonNullNamed(given.name("A")),
            actual_type: Type::Named(given.name("B")),
            field_location: FIRST,
            interface_field_location: SECOND,
        },
        "interface field `I.f` expects type `A!` but `T.f` of type `B` is not a proper subtype",
    );
}

#[test]
fn missing_arguments_of_interfaces(rt: HostRuntime) {
    let given = test_data(&rt);
    given.prints(
        DiagnosticData::MissingInterfaceFieldArgument {
            name: given.name("T"),
            interface: given.name("I"),
            field: given.name("f"),
            argument: given.name("a"),
            field_location: FIRST,
            interface_argument_location: SECOND,
        },
        "interface field `I.f` expects argument `a` but `T.f` does not provide it",
    );
    given.prints(
        DiagnosticData::InvalidImplementationFieldArgumentType {
            name: given.name("T"),
            interface: given.name("I"),
            field: given.name("f"),
            argument: given.name("a"),
            interface_type: given.node(Type::Named(given.name("A"))),
            actual_type: given.node(Type::NonNullNamed(given.name("B"))),
            argument_location: FIRST,
            interface_argument_location: SECOND,
        },
        "interface field `I.f` expects argument `a` of type `A` but `T.f` provides type `B!`",
    );
    given.prints(
        DiagnosticData::ExtraRequiredImplementationFieldArgument {
            name: given.name("T"),
            interface: given.name("I"),
            field: given.name("f"),
            argument: given.name("a"),
            argument_location: FIRST,
            interface_field_location: SECOND,
        },
        "`T.f` has extra required argument `a` not present in interface `I.f`",
    );
}

#[test]
fn implemented_interfaces(rt: HostRuntime) {
    let given = test_data(&rt);
    given.prints(
        DiagnosticData::TransitiveImplementedInterfaces {
            interface: given.name("A"),
            via_interface: given.name("B"),
            missing_interface: given.name("C"),
            transitive_interface_location: FIRST,
        },
        "interface `A` declares that it implements `B`, but to do so it must also implement `C`",
    );
    given.prints(
        DiagnosticData::RecursiveInterfaceDefinition {
            name: given.name("I"),
        },
        "interface I cannot implement itself",
    );
}
