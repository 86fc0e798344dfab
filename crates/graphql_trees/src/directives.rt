//! Arguments and directives.

use crate::values::Value;
use graphql_nodes::{Name, SourceSpan};
use sqlite_items::Items;

/// An argument of a field or of a directive.
///
/// Specification: 2.6 Arguments.
#[derive(Drop)]
pub struct Argument {
    pub name: Name,
    pub value: Value,
    pub span: SourceSpan,
}

/// A directive where it is applied. Without parentheses it has no arguments.
///
/// Specification: 2.12 Directives.
#[derive(Drop)]
pub struct Directive {
    pub name: Name,
    pub arguments: Items<Argument>,
    pub span: SourceSpan,
}
