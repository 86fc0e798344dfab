//! The directives of each client, and the types that they name.

use crate::rows::Row;

/// The directives of Apollo Client, and of its link to REST services.
pub fn apollo_directives() -> &'static [Row<'static>] {
    &[
        Row {
            head: "directive @",
            name: "client",
            tail: "(always: Boolean) on FIELD | FRAGMENT_DEFINITION | INLINE_FRAGMENT\n",
        },
        Row {
            head: "directive @",
            name: "connection",
            tail: "(key: String!, filter: [String!]) on FIELD\n",
        },
        Row {
            head: "directive @",
            name: "export",
            tail: "(as: String!) on FIELD\n",
        },
        Row {
            head: "directive @",
            name: "rest",
            tail: "(type: String!, path: String!, method: String, endpoint: String, pathBuilder: RestFunctionReference, bodyKey: String, bodyBuilder: RestFunctionReference, bodySerializer: RestFunctionReference) on FIELD\n",
        },
        Row {
            head: "directive @",
            name: "type",
            tail: "(name: String!) on FIELD\n",
        },
        Row {
            head: "directive @",
            name: "nonreactive",
            tail: " on FIELD | FRAGMENT_SPREAD | INLINE_FRAGMENT\n",
        },
        Row {
            head: "directive @",
            name: "unmask",
            tail: "(mode: String) on FRAGMENT_SPREAD\n",
        },
    ]
}

/// The types that the directives of Apollo Client name.
pub fn apollo_types() -> &'static [Row<'static>] {
    &[Row {
        head: "scalar ",
        name: "RestFunctionReference",
        tail: "\n",
    }]
}

/// The directives of Relay, without those that give a fragment variables.
pub fn relay_directives() -> &'static [Row<'static>] {
    &[
        Row {
            head: "directive @",
            name: "connection",
            tail: "(key: String!, filters: [String!], handler: String, dynamicKey_UNSTABLE: String, prefetchable_pagination: Boolean = false) on FIELD\n",
        },
        Row {
            head: "directive @",
            name: "stream_connection",
            tail: "(key: String!, filters: [String!], handler: String, label: String, initial_count: Int!, if: Boolean = true, use_customized_batch: Boolean = false, dynamicKey_UNSTABLE: String, prefetchable_pagination: Boolean = false) on FIELD\n",
        },
        Row {
            head: "directive @",
            name: "refetchable",
            tail: "(queryName: String!, directives: [String!], preferFetchable: Boolean) on FRAGMENT_DEFINITION\n",
        },
        Row {
            head: "directive @",
            name: "relay",
            tail: "(plural: Boolean, mask: Boolean) on FRAGMENT_DEFINITION | FRAGMENT_SPREAD\n",
        },
        Row {
            head: "directive @",
            name: "inline",
            tail: " on FRAGMENT_DEFINITION\n",
        },
        Row {
            head: "directive @",
            name: "no_inline",
            tail: "(raw_response_type: Boolean) on FRAGMENT_DEFINITION\n",
        },
        Row {
            head: "directive @",
            name: "alias",
            tail: "(as: String) on FRAGMENT_SPREAD | INLINE_FRAGMENT\n",
        },
        Row {
            head: "directive @",
            name: "dangerously_unaliased_fixme",
            tail: " on FRAGMENT_SPREAD\n",
        },
        Row {
            head: "directive @",
            name: "required",
            tail: "(action: RequiredFieldAction!) on FIELD\n",
        },
        Row {
            head: "directive @",
            name: "catch",
            tail: "(to: CatchFieldTo! = RESULT) on FIELD | INLINE_FRAGMENT | FRAGMENT_DEFINITION | QUERY | MUTATION | SUBSCRIPTION\n",
        },
        Row {
            head: "directive @",
            name: "throwOnFieldError",
            tail: " on FRAGMENT_DEFINITION | QUERY | MUTATION | SUBSCRIPTION\n",
        },
        Row {
            head: "directive @",
            name: "appendNode",
            tail: "(connections: [ID!]!, edgeTypeName: String!) on FIELD\n",
        },
        Row {
            head: "directive @",
            name: "prependNode",
            tail: "(connections: [ID!]!, edgeTypeName: String!) on FIELD\n",
        },
        Row {
            head: "directive @",
            name: "appendEdge",
            tail: "(connections: [ID!]!) on FIELD\n",
        },
        Row {
            head: "directive @",
            name: "prependEdge",
            tail: "(connections: [ID!]!) on FIELD\n",
        },
        Row {
            head: "directive @",
            name: "deleteEdge",
            tail: "(connections: [ID!]!) on FIELD\n",
        },
        Row {
            head: "directive @",
            name: "deleteRecord",
            tail: " on FIELD\n",
        },
        Row {
            head: "directive @",
            name: "match",
            tail: "(key: String) on FIELD\n",
        },
        Row {
            head: "directive @",
            name: "module",
            tail: "(name: String!) on FRAGMENT_SPREAD\n",
        },
        Row {
            head: "directive @",
            name: "raw_response_type",
            tail: " on QUERY | MUTATION | SUBSCRIPTION\n",
        },
        Row {
            head: "directive @",
            name: "preloadable",
            tail: "(hackPreloader: Boolean) on QUERY\n",
        },
        Row {
            head: "directive @",
            name: "live_query",
            tail: "(polling_interval: Int, config_id: String) on QUERY\n",
        },
        Row {
            head: "directive @",
            name: "relay_test_operation",
            tail: " on QUERY | MUTATION | SUBSCRIPTION\n",
        },
        Row {
            head: "directive @",
            name: "assignable",
            tail: " on FRAGMENT_DEFINITION\n",
        },
        Row {
            head: "directive @",
            name: "updatable",
            tail: " on QUERY | FRAGMENT_DEFINITION\n",
        },
        Row {
            head: "directive @",
            name: "waterfall",
            tail: " on FIELD\n",
        },
    ]
}

/// The types that the directives of Relay name.
pub fn relay_types() -> &'static [Row<'static>] {
    &[
        Row {
            head: "enum ",
            name: "RequiredFieldAction",
            tail: " { NONE LOG THROW }\n",
        },
        Row {
            head: "enum ",
            name: "CatchFieldTo",
            tail: " { NULL RESULT }\n",
        },
    ]
}

/// The directives of urql: of its normalized cache, of its exchange that populates mutations, and of `gql.tada`.
pub fn urql_directives() -> &'static [Row<'static>] {
    &[
        Row {
            head: "directive @",
            name: "_optional",
            tail: " on FIELD | FRAGMENT_SPREAD | INLINE_FRAGMENT\n",
        },
        Row {
            head: "directive @",
            name: "_required",
            tail: " on FIELD | FRAGMENT_SPREAD | INLINE_FRAGMENT\n",
        },
        Row {
            head: "directive @",
            name: "_relayPagination",
            tail: "(mergeMode: String) on FIELD\n",
        },
        Row {
            head: "directive @",
            name: "_simplePagination",
            tail: "(offsetArgument: String, limitArgument: String, mergeMode: String) on FIELD\n",
        },
        Row {
            head: "directive @",
            name: "populate",
            tail: " on FIELD\n",
        },
        Row {
            head: "directive @",
            name: "_unmask",
            tail: " on FRAGMENT_DEFINITION | FRAGMENT_SPREAD\n",
        },
    ]
}
