//! What can differ between two schemas.

ghost use Rattle.std.specs.Prelude.{◌≡◌};
ghost use Rattle.graphql_change_kinds.specs.Breaks.{can_become};
ghost use Rattle.graphql_change_kinds.specs.Kinds.{kind_of};

use graphql_coordinates::{
    DirectiveArgumentCoordinate, DirectiveCoordinate, FieldArgumentCoordinate,
    TypeAttributeCoordinate, TypeCoordinate,
};
use graphql_documents::documents::{ExtendedType, Type};
use graphql_nodes::{DirectiveLocation, NamedType, OperationType, SourceSpan};

/// One difference of two schemas, and where it is in their texts.
#[derive(Drop)]
pub struct SchemaChange {
    pub change: Change,
    /// The place in the old schema; of what was added, that of the definition around it.
    pub old: Option<SourceSpan>,
    /// The place in the new schema; of what was removed, that of the definition around it.
    pub new: Option<SourceSpan>,
}

/// The kind of a type, with custom scalars apart from those that every schema has.
///
/// Specification: 3.4 Types; 3.5 Scalars.
#[derive(Clone, Copy, Debug, PartialEq, Eq)]
pub enum TypeKind {
    BuiltInScalar,
    CustomScalar,
    Object,
    Interface,
    Union,
    Enum,
    InputObject,
}

/// An argument of a field or directive, or a field of an input object.
#[derive(Drop)]
pub enum InputCoordinate {
    Argument(FieldArgumentCoordinate),
    InputField(TypeAttributeCoordinate),
    /// The argument of a directive that documents can apply.
    DirectiveArgument(DirectiveArgumentCoordinate),
    /// The argument of a directive that only schemas can apply.
    SchemaDirectiveArgument(DirectiveArgumentCoordinate),
}

/// What the new type of a field means for documents and responses.
#[derive(Drop)]
pub enum TypeEffect {
    /// What is selected below the field is another type, or nothing any longer, or for the first time.
    OtherSelections,
    /// Another field had a type of the same shape, and no longer has. Both can come under one response key.
    MeetsOther(TypeAttributeCoordinate),
    /// Responses can hold what they could not.
    OtherResponses,
    /// Each response is one that the old type allowed.
    Narrower,
}

/// What a further type of an interface or a union means.
#[derive(Clone, Copy, Debug, PartialEq, Eq)]
pub enum Gain {
    /// It is the root type of subscriptions: what is selected on the interface or union is selected on the root too, and a
    /// subscription may have a second field there.
    SubscriptionRoot,
    /// Responses can hold a further object.
    Object,
    /// It is no object, or was one of those before.
    Nothing,
}

/// A difference of two schemas.
#[derive(Drop)]
pub enum Change {
    RootAdded {
        operation: OperationType,
    },
    RootRemoved {
        operation: OperationType,
    },
    RootChanged {
        operation: OperationType,
        from: NamedType,
        to: NamedType,
    },
    TypeAdded(TypeCoordinate),
    TypeRemoved(TypeCoordinate),
    KindChanged {
        ty: TypeCoordinate,
        from: TypeKind,
        to: TypeKind,
    },
    FieldAdded(TypeAttributeCoordinate),
    FieldRemoved(TypeAttributeCoordinate),
    FieldTypeChanged {
        field: TypeAttributeCoordinate,
        from: Type,
        to: Type,
        effect: TypeEffect,
    },
    InputAdded {
        input: InputCoordinate,
        is_required: bool,
    },
    InputRemoved(InputCoordinate),
    InputTypeChanged {
        input: InputCoordinate,
        from: Type,
        to: Type,
    },
    DefaultAdded(InputCoordinate),
    DefaultRemoved {
        input: InputCoordinate,
        /// The new type is non-null, so a value must be given from now on.
        is_required: bool,
    },
    DefaultChanged(InputCoordinate),
    EnumValueAdded(TypeAttributeCoordinate),
    EnumValueRemoved(TypeAttributeCoordinate),
    MemberAdded {
        union: NamedType,
        member: NamedType,
        gain: Gain,
    },
    MemberRemoved {
        union: NamedType,
        member: NamedType,
    },
    InterfaceAdded {
        ty: NamedType,
        interface: NamedType,
        gain: Gain,
    },
    InterfaceRemoved {
        ty: NamedType,
        interface: NamedType,
        /// The type is an object, and no longer one of the interface's.
        is_lost: bool,
    },
    DirectiveAdded(DirectiveCoordinate),
    DirectiveRemoved {
        directive: DirectiveCoordinate,
        /// Documents could apply it.
        is_executable: bool,
    },
    LocationAdded {
        directive: DirectiveCoordinate,
        location: DirectiveLocation,
    },
    LocationRemoved {
        directive: DirectiveCoordinate,
        location: DirectiveLocation,
    },
    RepeatableAdded(DirectiveCoordinate),
    RepeatableRemoved {
        directive: DirectiveCoordinate,
        /// Documents could apply it.
        is_executable: bool,
    },
}

impl TypeKind {
    /// The kind of a type.
    pub fn of(definition: &ExtendedType) -> TypeKind
        ensures { result ≡ kind_of definition.now }
    {
        match definition {
            ExtendedType::Scalar(_) => {
                if definition.is_built_in() {
                    TypeKind::BuiltInScalar
                } else {
                    TypeKind::CustomScalar
                }
            }
            ExtendedType::Object(_) => TypeKind::Object,
            ExtendedType::Interface(_) => TypeKind::Interface,
            ExtendedType::Union(_) => TypeKind::Union,
            ExtendedType::Enum(_) => TypeKind::Enum,
            ExtendedType::InputObject(_) => TypeKind::InputObject,
        }
    }

    /// What a message calls the kind.
    pub fn describe(self) -> &'static str {
        match self {
            TypeKind::BuiltInScalar => "a built-in scalar",
            TypeKind::CustomScalar => "a custom scalar",
            TypeKind::Object => "an object type",
            TypeKind::Interface => "an interface",
            TypeKind::Union => "a union",
            TypeKind::Enum => "an enum",
            TypeKind::InputObject => "an input object",
        }
    }

    /// Whether a type of the other kind can stand for one of this kind: each composite type but an object for a union or an
    /// interface, and a custom scalar for an input type.
    pub fn can_become(self, other: TypeKind) -> bool
        ensures { result ≡ can_become self other }
    {
        match self {
            TypeKind::Object => other == TypeKind::Object,
            TypeKind::Interface | TypeKind::Union => matches!(
                other,
                TypeKind::Object | TypeKind::Interface | TypeKind::Union
            ),
            TypeKind::BuiltInScalar
            | TypeKind::CustomScalar
            | TypeKind::Enum
            | TypeKind::InputObject => other == self || other == TypeKind::CustomScalar,
        }
    }
}
