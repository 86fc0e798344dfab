//! The definitions of Apollo Federation 2.

use crate::rows::Row;

/// A directive of Federation: its name, and its definition after the name.
#[derive(Clone, Copy)]
pub struct FederationDirective {
    pub name: &'static str,
    pub tail: &'static str,
}

/// The directives of Apollo Federation 2.9, in the order of its specification.
pub fn federation_directives() -> &'static [FederationDirective] {
    &[
        FederationDirective {
            name: "key",
            tail: "(fields: federation__FieldSet!, resolvable: Boolean = true) repeatable on OBJECT | INTERFACE\n",
        },
        FederationDirective {
            name: "requires",
            tail: "(fields: federation__FieldSet!) on FIELD_DEFINITION\n",
        },
        FederationDirective {
            name: "provides",
            tail: "(fields: federation__FieldSet!) on FIELD_DEFINITION\n",
        },
        FederationDirective {
            name: "external",
            tail: "(reason: String) on OBJECT | FIELD_DEFINITION\n",
        },
        FederationDirective {
            name: "shareable",
            tail: " repeatable on OBJECT | FIELD_DEFINITION\n",
        },
        FederationDirective {
            name: "inaccessible",
            tail: " on FIELD_DEFINITION | OBJECT | INTERFACE | UNION | ARGUMENT_DEFINITION | SCALAR | ENUM | ENUM_VALUE | INPUT_OBJECT | INPUT_FIELD_DEFINITION\n",
        },
        FederationDirective {
            name: "tag",
            tail: "(name: String!) repeatable on FIELD_DEFINITION | INTERFACE | OBJECT | UNION | ARGUMENT_DEFINITION | SCALAR | ENUM | ENUM_VALUE | INPUT_OBJECT | INPUT_FIELD_DEFINITION | SCHEMA\n",
        },
        FederationDirective {
            name: "override",
            tail: "(from: String!, label: String) on FIELD_DEFINITION\n",
        },
        FederationDirective {
            name: "composeDirective",
            tail: "(name: String!) repeatable on SCHEMA\n",
        },
        FederationDirective {
            name: "extends",
            tail: " on OBJECT | INTERFACE\n",
        },
        FederationDirective {
            name: "interfaceObject",
            tail: " on OBJECT\n",
        },
        FederationDirective {
            name: "authenticated",
            tail: " on FIELD_DEFINITION | OBJECT | INTERFACE | SCALAR | ENUM\n",
        },
        FederationDirective {
            name: "requiresScopes",
            tail: "(scopes: [[federation__Scope!]!]!) on FIELD_DEFINITION | OBJECT | INTERFACE | SCALAR | ENUM\n",
        },
        FederationDirective {
            name: "policy",
            tail: "(policies: [[federation__Policy!]!]!) on FIELD_DEFINITION | OBJECT | INTERFACE | SCALAR | ENUM\n",
        },
        FederationDirective {
            name: "context",
            tail: "(name: String!) repeatable on OBJECT | INTERFACE | UNION\n",
        },
        FederationDirective {
            name: "fromContext",
            tail: "(field: federation__ContextFieldValue) on ARGUMENT_DEFINITION\n",
        },
        FederationDirective {
            name: "cost",
            tail: "(weight: Int!) on ARGUMENT_DEFINITION | ENUM | FIELD_DEFINITION | INPUT_FIELD_DEFINITION | OBJECT | SCALAR\n",
        },
        FederationDirective {
            name: "listSize",
            tail: "(assumedSize: Int, slicingArguments: [String!], sizedFields: [String!], requireOneSlicingArgument: Boolean = true) on FIELD_DEFINITION\n",
        },
    ]
}

/// The directive by which a schema links specifications.
pub fn link_directive() -> Row<'static> {
    Row {
        head: "directive @",
        name: "link",
        tail: "(url: String, as: String, for: link__Purpose, import: [link__Import]) repeatable on SCHEMA\n",
    }
}

/// The types of Apollo Federation. Arguments name a scalar by its name with the namespace, which an imported name means, too.
pub fn federation_types() -> &'static [Row<'static>] {
    &[
        Row {
            head: "scalar ",
            name: "link__Import",
            tail: "\n",
        },
        Row {
            head: "enum ",
            name: "link__Purpose",
            tail: " { SECURITY EXECUTION }\n",
        },
        Row {
            head: "scalar ",
            name: "federation__FieldSet",
            tail: "\n",
        },
        Row {
            head: "scalar ",
            name: "FieldSet",
            tail: "\n",
        },
        Row {
            head: "scalar ",
            name: "federation__Scope",
            tail: "\n",
        },
        Row {
            head: "scalar ",
            name: "federation__Policy",
            tail: "\n",
        },
        Row {
            head: "scalar ",
            name: "federation__ContextFieldValue",
            tail: "\n",
        },
        Row {
            head: "scalar ",
            name: "_Any",
            tail: "\n",
        },
        Row {
            head: "type ",
            name: "_Service",
            tail: " { sdl: String }\n",
        },
    ]
}

/// The root of queries that each subgraph has, if its texts have none.
pub fn query_root() -> Row<'static> {
    Row {
        head: "type ",
        name: "Query",
        tail: " { _service: _Service! }\n",
    }
}
