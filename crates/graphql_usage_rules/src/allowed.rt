//! Whether a variable may be used at a place.

ghost use Rattle.std.specs.Prelude.{◌≡◌, ◌↔◌, IsTrue};
ghost use Rattle.graphql_documents.specs.TypeReferences.{is_assignable, nullable};
ghost use Rattle.graphql_specification.specs.VariableUsages.{HasNonNullDefault};
ghost use Rattle.graphql_usage_rules.specs.Parts.{location_at};
ghost use Rattle.graphql_usage_rules.specs.VariableMisuses.{IsAllowedAt};

use crate::locations::UsageLocation;
use graphql_documents::documents::{Type, Value, VariableDefinition};

/// Whether a variable may be used at a place: its type may be there; or the type expected there is non-null, one of the two
/// has a default, which for the variable is not null, and the variable's type may be where null is taken too.
///
/// Specification: 5.8.5 All Variable Usages Are Allowed, IsVariableUsageAllowed.
pub(crate) fn is_allowed_at(variable: &VariableDefinition, location: UsageLocation<'_>) -> bool
    ensures { IsTrue result ↔ IsAllowedAt variable.now (location_at location.entry) }
{
    let variable_type = &*variable.ty.value;
    if location.ty.is_non_null() && !variable_type.is_non_null() {
        return (has_non_null_default(variable) || location.has_default)
            && is_assignable_to_nullable(variable_type, location.ty);
    }
    variable_type.is_assignable_to(location.ty)
}

/// Whether the variable has a default that is not null.
fn has_non_null_default(variable: &VariableDefinition) -> bool
    ensures { IsTrue result ↔ HasNonNullDefault variable.now }
{
    match &variable.default_value {
        Some(value) => !matches!(&*value.value, Value::Null),
        None => false,
    }
}

/// Whether a value of this type may be used where the wanted type, or null, is expected.
fn is_assignable_to_nullable(ty: &Type, wanted: &Type) -> bool
    ensures { result ≡ is_assignable ty.now (nullable wanted.now) }
{
    match (ty, wanted) {
        (
            Type::Named(name) | Type::NonNullNamed(name),
            Type::Named(other) | Type::NonNullNamed(other),
        ) => name == other,
        (
            Type::List(item) | Type::NonNullList(item),
            Type::List(other) | Type::NonNullList(other),
        ) => item.is_assignable_to(other),
        _ => false,
    }
}
