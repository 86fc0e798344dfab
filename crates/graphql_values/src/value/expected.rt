use graphql_documents::documents::{ExtendedType, Type};
use graphql_nodes::SourceSpan;

/// The type that a value must have: the reference, where this is written, and the definition of the type that it
/// names.
#[derive(Clone, Copy)]
pub(super) struct ExpectedType<'a> {
    pub(super) ty: &'a Type,
    pub(super) location: Option<SourceSpan>,
    pub(super) definition: &'a ExtendedType,
}
