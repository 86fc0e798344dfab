//! The schema of the examples on documents.

/// The text of the schema against which the examples on documents are validated.
pub const SCHEMA: &str =
    "type Query {\n  me: User\n  search(text: String!): [Result!]\n  users(filter: Filter, role: Role): [User!]\n}\ntype Mutation { rename(name: String!): User }\ntype Subscription { userAdded: User userRenamed: User }\ntype User { id: ID! name: String role: Role friends(first: Int): [User!] }\ntype Book { id: ID! title: String name: [String] }\nunion Result = User | Book\nenum Role { ADMIN MEMBER }\ninput Filter { name: String role: Role! }\ndirective @once on FIELD\ndirective @defer(label: String, if: Boolean! = true) on FRAGMENT_SPREAD | INLINE_FRAGMENT\n";
