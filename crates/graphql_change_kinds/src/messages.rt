//! Changes as messages.

use crate::changes::{Change, Gain, InputCoordinate, TypeEffect};
use std::fmt;

impl Change {
    /// The name of the kind of change.
    pub fn name(&self) -> &'static str {
        match self {
            Change::RootAdded { .. } => "RootAdded",
            Change::RootRemoved { .. } => "RootRemoved",
            Change::RootChanged { .. } => "RootChanged",
            Change::TypeAdded(_) => "TypeAdded",
            Change::TypeRemoved(_) => "TypeRemoved",
            Change::KindChanged { .. } => "KindChanged",
            Change::FieldAdded(_) => "FieldAdded",
            Change::FieldRemoved(_) => "FieldRemoved",
            Change::FieldTypeChanged { .. } => "FieldTypeChanged",
            Change::InputAdded { input, .. } => input.added(),
            Change::InputRemoved(input) => input.removed(),
            Change::InputTypeChanged { input, .. } => input.type_changed(),
            Change::DefaultAdded(_) => "DefaultAdded",
            Change::DefaultRemoved { .. } => "DefaultRemoved",
            Change::DefaultChanged(_) => "DefaultChanged",
            Change::EnumValueAdded(_) => "EnumValueAdded",
            Change::EnumValueRemoved(_) => "EnumValueRemoved",
            Change::MemberAdded { .. } => "MemberAdded",
            Change::MemberRemoved { .. } => "MemberRemoved",
            Change::InterfaceAdded { .. } => "InterfaceAdded",
            Change::InterfaceRemoved { .. } => "InterfaceRemoved",
            Change::DirectiveAdded(_) => "DirectiveAdded",
            Change::DirectiveRemoved { .. } => "DirectiveRemoved",
            Change::LocationAdded { .. } => "LocationAdded",
            Change::LocationRemoved { .. } => "LocationRemoved",
            Change::RepeatableAdded(_) => "RepeatableAdded",
            Change::RepeatableRemoved { .. } => "RepeatableRemoved",
        }
    }
}

impl InputCoordinate {
    fn added(&self) -> &'static str {
        match self {
            InputCoordinate::Argument(_) => "ArgumentAdded",
            InputCoordinate::InputField(_) => "InputFieldAdded",
            InputCoordinate::DirectiveArgument(_) | InputCoordinate::SchemaDirectiveArgument(_) => {
                "DirectiveArgumentAdded"
            }
        }
    }

    fn removed(&self) -> &'static str {
        match self {
            InputCoordinate::Argument(_) => "ArgumentRemoved",
            InputCoordinate::InputField(_) => "InputFieldRemoved",
            InputCoordinate::DirectiveArgument(_) | InputCoordinate::SchemaDirectiveArgument(_) => {
                "DirectiveArgumentRemoved"
            }
        }
    }

    fn type_changed(&self) -> &'static str {
        match self {
            InputCoordinate::Argument(_) => "ArgumentTypeChanged",
            InputCoordinate::InputField(_) => "InputFieldTypeChanged",
            InputCoordinate::DirectiveArgument(_) | InputCoordinate::SchemaDirectiveArgument(_) => {
                "DirectiveArgumentTypeChanged"
            }
        }
    }
}

impl fmt::Display for InputCoordinate {
    fn fmt<W: fmt::Write>(&self, f: &mut fmt::Formatter<W>) -> fmt::Result {
        match self {
            InputCoordinate::Argument(coordinate) => write!(f, "{coordinate}"),
            InputCoordinate::InputField(coordinate) => write!(f, "{coordinate}"),
            InputCoordinate::DirectiveArgument(coordinate)
            | InputCoordinate::SchemaDirectiveArgument(coordinate) => write!(f, "{coordinate}"),
        }
    }
}

/// What the change is, as a sentence without an end.
impl fmt::Display for Change {
    fn fmt<W: fmt::Write>(&self, f: &mut fmt::Formatter<W>) -> fmt::Result {
        match self {
            Change::RootAdded { operation } => write!(f, "a {operation} root type is added"),
            Change::RootRemoved { operation } => write!(f, "the {operation} root type is removed"),
            Change::RootChanged {
                operation,
                from,
                to,
            } => write!(
                f,
                "the {operation} root type changes from `{from}` to `{to}`"
            ),
            Change::TypeAdded(ty) => write!(f, "`{ty}` is added"),
            Change::TypeRemoved(ty) => write!(f, "`{ty}` is removed"),
            Change::KindChanged { ty, from, to } => {
                let from = from.describe();
                let to = to.describe();
                write!(f, "`{ty}` changes from {from} to {to}")
            }
            Change::FieldAdded(field) => write!(f, "`{field}` is added"),
            Change::FieldRemoved(field) => write!(f, "`{field}` is removed"),
            Change::FieldTypeChanged {
                field,
                from,
                to,
                effect,
            } => {
                write!(f, "`{field}` changes from `{from}` to `{to}`")?;
                write!(f, "{effect}")
            }
            _ => self.write_part(f),
        }
    }
}

impl Change {
    /// Writes a change of a value of an enum, a member or an interface, or what is left.
    fn write_part<W: fmt::Write>(&self, f: &mut fmt::Formatter<W>) -> fmt::Result {
        match self {
            Change::EnumValueAdded(value) => write!(f, "`{value}` is added"),
            Change::EnumValueRemoved(value) => write!(f, "`{value}` is removed"),
            Change::MemberAdded {
                union,
                member,
                gain,
            } => write!(f, "`{member}` is added to union `{union}`{gain}"),
            Change::MemberRemoved { union, member } => {
                write!(f, "`{member}` is removed from union `{union}`")
            }
            Change::InterfaceAdded {
                ty,
                interface,
                gain,
            } => write!(f, "`{ty}` implements interface `{interface}`{gain}"),
            Change::InterfaceRemoved { ty, interface, .. } => {
                write!(f, "`{ty}` no longer implements interface `{interface}`")
            }
            _ => self.write_further(f),
        }
    }

    /// Writes a change of an input or of a directive.
    fn write_further<W: fmt::Write>(&self, f: &mut fmt::Formatter<W>) -> fmt::Result {
        match self {
            Change::InputAdded { input, is_required } => {
                let kind = if *is_required { "required" } else { "optional" };
                write!(f, "`{input}` is added, and {kind}")
            }
            Change::InputRemoved(input) => write!(f, "`{input}` is removed"),
            Change::InputTypeChanged { input, from, to } => {
                write!(f, "`{input}` changes from `{from}` to `{to}`")
            }
            Change::DefaultAdded(input) => write!(f, "`{input}` has a default value"),
            Change::DefaultRemoved { input, is_required } => {
                write!(f, "`{input}` no longer has a default value")?;
                f.write_str(if *is_required {
                    ", and is required"
                } else {
                    ""
                })
            }
            Change::DefaultChanged(input) => write!(f, "`{input}` has another default value"),
            Change::DirectiveAdded(directive) => write!(f, "`{directive}` is added"),
            Change::DirectiveRemoved { directive, .. } => write!(f, "`{directive}` is removed"),
            Change::LocationAdded {
                directive,
                location,
            } => write!(f, "`{directive}` can be applied at {location}"),
            Change::LocationRemoved {
                directive,
                location,
            } => write!(f, "`{directive}` can no longer be applied at {location}"),
            Change::RepeatableAdded(directive) => write!(f, "`{directive}` can be repeated"),
            Change::RepeatableRemoved { directive, .. } => {
                write!(f, "`{directive}` can no longer be repeated")
            }
            _ => Ok(()),
        }
    }
}

/// What a further type means, behind the sentence that names it.
impl fmt::Display for Gain {
    fn fmt<W: fmt::Write>(&self, f: &mut fmt::Formatter<W>) -> fmt::Result {
        match self {
            Gain::SubscriptionRoot => {
                f.write_str(", so that subscriptions can come to have a second root field")
            }
            Gain::Object | Gain::Nothing => Ok(()),
        }
    }
}

/// What the new type of a field means, behind the sentence that names the two types.
impl fmt::Display for TypeEffect {
    fn fmt<W: fmt::Write>(&self, f: &mut fmt::Formatter<W>) -> fmt::Result {
        match self {
            TypeEffect::OtherSelections => f.write_str(", below which other fields are selected"),
            TypeEffect::MeetsOther(other) => {
                write!(f, ", and can meet `{other}` under one response key")
            }
            TypeEffect::OtherResponses | TypeEffect::Narrower => Ok(()),
        }
    }
}
