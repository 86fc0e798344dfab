ghost use Rattle.std.specs.Prelude.{◌≡◌, Some};
ghost use Rattle.graphql_documents.specs.TypeReferences.{IsTypeCopy, inner_named_type, is_assignable, is_list, is_named, is_non_null, item_type, type_text};

use graphql_nodes::NamedType;
use std::alloc::AllocError;
use std::fmt;

/// A reference to a type, as fields, arguments and variables have it.
///
/// Specification: 2.11 Type References.
#[derive(Debug, Drop, PartialEq, Eq, Hash)]
pub enum Type {
    Named(NamedType),
    NonNullNamed(NamedType),
    List(Box<Type>),
    NonNullList(Box<Type>),
}

impl Type {
    /// The name inside all list and non-null wrappers.
    pub fn inner_named_type(&self) -> &NamedType
        ensures { result.now ≡ inner_named_type self.now }
    {
        match self {
            Type::Named(name) | Type::NonNullNamed(name) => name,
            Type::List(item) | Type::NonNullList(item) => item.inner_named_type(),
        }
    }

    /// Whether `null` is no value of the type.
    pub fn is_non_null(&self) -> bool
        ensures { result ≡ is_non_null self.now }
    {
        matches!(self, Type::NonNullNamed(_) | Type::NonNullList(_))
    }

    /// Whether the type is a list.
    pub fn is_list(&self) -> bool
        ensures { result ≡ is_list self.now }
    {
        matches!(self, Type::List(_) | Type::NonNullList(_))
    }

    /// Whether the type is a name outside any list.
    pub fn is_named(&self) -> bool
        ensures { result ≡ is_named self.now }
    {
        matches!(self, Type::Named(_) | Type::NonNullNamed(_))
    }

    /// The type of the items of a list; of a named type, the type itself.
    pub fn item_type(&self) -> &Type
        ensures { result.now ≡ item_type self.now }
    {
        match self {
            Type::Named(_) | Type::NonNullNamed(_) => self,
            Type::List(item) | Type::NonNullList(item) => item,
        }
    }

    /// Whether a value of this type may be used where the target is expected.
    ///
    /// Specification: 5.8.5 All Variable Usages Are Allowed.
    pub fn is_assignable_to(&self, target: &Type) -> bool
        ensures { result ≡ is_assignable self.now target.now }
    {
        match (self, target) {
            (Type::Named(name), Type::Named(other)) => name == other,
            (Type::NonNullNamed(name), Type::Named(other) | Type::NonNullNamed(other)) => {
                name == other
            }
            (Type::List(item), Type::List(other)) => item.is_assignable_to(other),
            (Type::NonNullList(item), Type::List(other) | Type::NonNullList(other)) => {
                item.is_assignable_to(other)
            }
            _ => false,
        }
    }
}

impl Clone for Type {
    ghost is_clone = { IsTypeCopy };

    fn clone(&self) -> Result<Type, AllocError> {
        match self {
            Type::Named(name) => Ok(Type::Named(name.clone()?)),
            Type::NonNullNamed(name) => Ok(Type::NonNullNamed(name.clone()?)),
            Type::List(item) => {
                let copy = (**item).clone()?;
                Ok(Type::List(Box::new(*Box::allocator(item), copy)?))
            }
            Type::NonNullList(item) => {
                let copy = (**item).clone()?;
                Ok(Type::NonNullList(Box::new(*Box::allocator(item), copy)?))
            }
        }
    }
}

/// The type as GraphQL writes it: a name, or an item type in brackets, and `!` where non-null.
impl fmt::Display for Type {
    ghost output = { λ ty. Some (type_text ty) };

    fn fmt<W: fmt::Write>(&self, f: &mut fmt::Formatter<W>) -> fmt::Result {
        match self {
            Type::Named(name) => write!(f, "{name}"),
            Type::NonNullNamed(name) => write!(f, "{name}!"),
            Type::List(item) => {
                f.write_str("[")?;
                (**item).fmt(f)?;
                f.write_str("]")
            }
            Type::NonNullList(item) => {
                f.write_str("[")?;
                (**item).fmt(f)?;
                f.write_str("]!")
            }
        }
    }
}
