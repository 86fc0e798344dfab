//! The kinds of definitions, which messages name.

ghost use Rattle.std.specs.Prelude.{◌≡◌, Some};
ghost use Rattle.graphql_building_reports.specs.Messages.{executable_words, leaf_words, member_words, type_kind_words, type_words};

use std::fmt;

/// The kind of a definition that can be executed. It prints as a message calls such a definition, with its article.
///
/// Specification: 2.2 Document, ExecutableDefinition.
#[derive(Clone, Copy, Debug, PartialEq, Eq)]
pub enum ExecutableKind {
    Operation,
    Fragment,
}

impl fmt::Display for ExecutableKind {
    ghost output = { λ kind. Some (executable_words kind) };

    fn fmt<W: fmt::Write>(&self, f: &mut fmt::Formatter<W>) -> fmt::Result {
        match self {
            ExecutableKind::Operation => f.write_str("an operation definition"),
            ExecutableKind::Fragment => f.write_str("a fragment definition"),
        }
    }
}

/// The kind of a type. It prints as a message calls a type of the kind, without an article.
///
/// Specification: 3.4 Types.
#[derive(Clone, Copy, Debug, PartialEq, Eq)]
pub enum TypeKind {
    Scalar,
    Object,
    Interface,
    Union,
    Enum,
    InputObject,
}

impl TypeKind {
    /// A type of the kind, with its article.
    pub fn with_article(self) -> &'static str
        ensures { result.now ≡ type_words self }
    {
        match self {
            TypeKind::Scalar => "a scalar type",
            TypeKind::Object => "an object type",
            TypeKind::Interface => "an interface type",
            TypeKind::Union => "a union type",
            TypeKind::Enum => "an enum type",
            TypeKind::InputObject => "an input object type",
        }
    }
}

impl fmt::Display for TypeKind {
    ghost output = { λ kind. Some (type_kind_words kind) };

    fn fmt<W: fmt::Write>(&self, f: &mut fmt::Formatter<W>) -> fmt::Result {
        match self {
            TypeKind::Scalar => f.write_str("scalar type"),
            TypeKind::Object => f.write_str("object type"),
            TypeKind::Interface => f.write_str("interface type"),
            TypeKind::Union => f.write_str("union type"),
            TypeKind::Enum => f.write_str("enum type"),
            TypeKind::InputObject => f.write_str("input object type"),
        }
    }
}

/// The kind of a type whose values have no fields to select. It prints as a message calls such a type, without an article.
///
/// Specification: 5.3.3 Leaf Field Selections.
#[derive(Clone, Copy, Debug, PartialEq, Eq)]
pub enum LeafKind {
    Scalar,
    Enum,
}

impl fmt::Display for LeafKind {
    ghost output = { λ kind. Some (leaf_words kind) };

    fn fmt<W: fmt::Write>(&self, f: &mut fmt::Formatter<W>) -> fmt::Result {
        match self {
            LeafKind::Scalar => f.write_str("scalar type"),
            LeafKind::Enum => f.write_str("enum type"),
        }
    }
}

/// What a message calls a part of a type of the kind.
pub(crate) fn member(kind: TypeKind) -> &'static str
    ensures { result.now ≡ member_words kind }
{
    match kind {
        TypeKind::Union => "member",
        TypeKind::Enum => "value",
        _ => "field",
    }
}
