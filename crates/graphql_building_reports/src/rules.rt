//! The rules that a text may break which builds no schema or no document.

ghost use Rattle.std.specs.Prelude.{Some};
ghost use Rattle.graphql_building_reports.specs.Messages.{building_message};

use crate::kinds::{ExecutableKind, LeafKind, TypeKind, member};
use graphql_nodes::{Name, OperationType, SourceSpan};
use std::fmt;

/// A rule that texts break, with what its message names. The original of a repetition is the first. It prints its message.
///
/// Specification: 3 Type System, 5.1 Documents, 5.2 Operations, 5.3 Fields, 5.5 Fragments.
#[derive(Debug, Drop)]
pub enum BuildingRule {
    /// A definition of the type system is in an executable document.
    TypeSystemDefinition,
    /// An operation without a name is not the only operation.
    AmbiguousAnonymousOperation,
    /// An operation has the name of an earlier one.
    OperationNameCollision {
        name: Name,
        original: Option<SourceSpan>,
    },
    /// A fragment has the name of an earlier one.
    FragmentNameCollision {
        name: Name,
        original: Option<SourceSpan>,
    },
    /// The schema has no root type for the operation.
    UndefinedRootOperation {
        operation_type: OperationType,
    },
    /// The type condition of a fragment is not defined.
    UndefinedTypeInNamedFragmentTypeCondition {
        type_name: Name,
        fragment_name: Name,
    },
    /// The type condition of an inline fragment is not defined.
    UndefinedTypeInInlineFragmentTypeCondition {
        type_name: Name,
    },
    /// The type condition of a fragment, or of an inline fragment, which has no name, is no composite type.
    InvalidFragmentTarget {
        fragment_name: Option<Name>,
    },
    /// The type lacks the field.
    UndefinedField {
        type_name: Name,
        field_name: Name,
    },
    /// A field of a scalar or an enum has selections.
    SubselectionOnLeafType {
        kind: LeafKind,
        type_name: Name,
    },
    /// An operation or a fragment is in the text of a schema.
    ExecutableDefinition {
        kind: ExecutableKind,
    },
    /// The schema is defined again.
    SchemaDefinitionCollision {
        original: Option<SourceSpan>,
    },
    /// A root operation type is named again.
    DuplicateRootOperation {
        operation_type: OperationType,
        original: Option<SourceSpan>,
    },
    /// A built-in scalar is defined in a text.
    BuiltInScalarTypeRedefinition,
    /// A type is defined again.
    TypeDefinitionCollision {
        name: Name,
        original: Option<SourceSpan>,
    },
    /// A directive is defined again.
    DirectiveDefinitionCollision {
        name: Name,
        original: Option<SourceSpan>,
    },
    /// A type is extended that is not defined.
    OrphanTypeExtension {
        name: Name,
    },
    /// A type is extended as one of another kind.
    TypeExtensionKindMismatch {
        name: Name,
        extension: TypeKind,
        definition: TypeKind,
        original: Option<SourceSpan>,
    },
    /// A type is extended that every schema has.
    BuiltInTypeExtension {
        name: Name,
    },
    /// A type is implemented that is no interface.
    ImplementedNonInterface {
        name: Name,
        definition: TypeKind,
        original: Option<SourceSpan>,
    },
    /// The schema is extended, and there is none.
    OrphanSchemaExtension,
    /// A field of an object, interface or input object, a member of a union or a value of an enum is in the
    /// type again.
    MemberNameCollision {
        kind: TypeKind,
        type_name: Name,
        name: Name,
        original: Option<SourceSpan>,
    },
    /// An object or an interface implements an interface again.
    DuplicateImplementsInterface {
        kind: TypeKind,
        type_name: Name,
        name: Name,
        original: Option<SourceSpan>,
    },
}

impl fmt::Display for BuildingRule {
    ghost output = { λ rule. Some (building_message rule) };

    fn fmt<W: fmt::Write>(&self, f: &mut fmt::Formatter<W>) -> fmt::Result {
        match self {
            BuildingRule::TypeSystemDefinition => {
                f.write_str(
                    "an executable document must not contain definitions of the type system",
                )
            }
            BuildingRule::AmbiguousAnonymousOperation => f.write_str(
                "anonymous operation cannot be selected when the document contains other operations",
            ),
            BuildingRule::OperationNameCollision { name, .. } => {
                write!(
                    f,
                    "the operation `{name}` is defined multiple times in the document"
                )
            }
            BuildingRule::FragmentNameCollision { name, .. } => {
                write!(
                    f,
                    "the fragment `{name}` is defined multiple times in the document"
                )
            }
            BuildingRule::UndefinedRootOperation { operation_type } => {
                write!(f, "`{operation_type}` root operation type is not defined")
            }
            BuildingRule::UndefinedTypeInNamedFragmentTypeCondition {
                type_name,
                fragment_name,
            } => write!(
                f,
                "type condition `{type_name}` of fragment `{fragment_name}` is not a type defined in the schema"
            ),
            BuildingRule::UndefinedTypeInInlineFragmentTypeCondition { type_name } => write!(
                f,
                "type condition `{type_name}` of inline fragment is not a type defined in the schema"
            ),
            BuildingRule::InvalidFragmentTarget {
                fragment_name: Some(name),
            } => write!(
                f,
                "fragment `{name}` must have a composite type in its type condition"
            ),
            BuildingRule::InvalidFragmentTarget {
                fragment_name: None,
            } => { f.write_str("inline fragment must have a composite type in its type condition") }
            BuildingRule::UndefinedField {
                type_name,
                field_name,
            } => write!(f, "type `{type_name}` does not have a field `{field_name}`"),
            BuildingRule::SubselectionOnLeafType { kind, type_name } => write!(
                f,
                "field selection of {kind} `{type_name}` must not have subselections"
            ),
            BuildingRule::ExecutableDefinition { kind } => {
                write!(f, "a schema document must not contain {kind}")
            }
            BuildingRule::SchemaDefinitionCollision { .. } => {
                f.write_str("must not have multiple `schema` definitions")
            }
            BuildingRule::DuplicateRootOperation { operation_type, .. } => write!(
                f,
                "duplicate definitions for the `{operation_type}` root operation type"
            ),
            BuildingRule::BuiltInScalarTypeRedefinition => {
                f.write_str("built-in scalar definitions must be omitted")
            }
            BuildingRule::TypeDefinitionCollision { name, .. } => {
                write!(
                    f,
                    "the type `{name}` is defined multiple times in the schema"
                )
            }
            BuildingRule::DirectiveDefinitionCollision { name, .. } => write!(
                f,
                "the directive `@{name}` is defined multiple times in the schema"
            ),
            BuildingRule::OrphanTypeExtension { name } => {
                write!(f, "type extension for undefined type `{name}`")
            }
            BuildingRule::TypeExtensionKindMismatch {
                name,
                extension,
                definition,
                ..
            } => {
                let adding = extension.with_article();
                let defined = definition.with_article();
                write!(f, "adding {adding} extension, but `{name}` is {defined}")
            }
            BuildingRule::BuiltInTypeExtension { name } => {
                write!(f, "the built-in type `{name}` must not be extended")
            }
            BuildingRule::ImplementedNonInterface {
                name,
                definition,
                ..
            } => {
                let defined = definition.with_article();
                write!(
                    f,
                    "only interfaces can be implemented, but `{name}` is {defined}"
                )
            }
            BuildingRule::OrphanSchemaExtension => {
                f.write_str("schema extension without a schema definition")
            }
            BuildingRule::MemberNameCollision {
                kind,
                type_name,
                name,
                ..
            } => {
                let member = member(*kind);
                write!(
                    f,
                    "duplicate definitions for the `{name}` {member} of {kind} `{type_name}`"
                )
            }
            BuildingRule::DuplicateImplementsInterface {
                kind,
                type_name,
                name,
                ..
            } => write!(
                f,
                "{kind} `{type_name}` implements interface `{name}` more than once"
            ),
        }
    }
}
