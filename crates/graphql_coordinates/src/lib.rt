//! The coordinates of types, fields, arguments and directives in a schema, and how they are written.
#![tactic(auto)]

pub mod coordinates;

pub use coordinates::{
    DirectiveArgumentCoordinate, DirectiveCoordinate, FieldArgumentCoordinate, SchemaCoordinate,
    TypeAttributeCoordinate, TypeCoordinate,
};
