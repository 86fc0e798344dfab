//! References to types.

use graphql_nodes::{Name, SourceSpan};
use sqlite_items::Boxed;

/// A reference to a type. Each but a name alone has its place in the text.
///
/// Specification: 2.11 Type References.
#[derive(Drop)]
pub enum TypeReference {
    Named(Name),
    List(Boxed<TypeReference>, SourceSpan),
    NonNullNamed(Name, SourceSpan),
    NonNullList(Boxed<TypeReference>, SourceSpan),
}
