//! Documents.

use crate::executable::{FragmentDefinition, OperationDefinition};
use crate::type_system::{DirectiveDefinition, SchemaDefinition, TypeDefinition};
use graphql_nodes::SourceSpan;
use sqlite_items::Items;

/// A document: definitions of any kind, at least one.
///
/// Specification: 2.2 Document.
pub struct Document {
    pub definitions: Items<Definition>,
    pub span: SourceSpan,
}

impl Document {
    ghost use Rattle.std.specs.Prelude.{◌≡◌};

    /// Takes the definitions out of the document.
    pub fn into_definitions(self) -> Items<Definition>
        ensures { result ≡ self.definitions }
    {
        let Document {
            definitions,
            span: _,
        } = self;
        definitions
    }
}

// Written out, so that only this crate proves it: a derived one is proved again in each crate that drops documents.
impl Drop for Document {
    fn drop(self) {
        let Document {
            definitions: _,
            span: _,
        } = self;
    }
}

/// A definition or an extension.
///
/// Specification: 2.2 Document, 3 Type System.
#[derive(Drop)]
pub enum Definition {
    Operation(OperationDefinition),
    Fragment(FragmentDefinition),
    Schema(SchemaDefinition),
    Type(TypeDefinition),
    Directive(DirectiveDefinition),
    SchemaExtension(SchemaDefinition),
    TypeExtension(TypeDefinition),
}
