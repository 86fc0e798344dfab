//! The types of an abstract type that have a field.

ghost use Rattle.std.specs.Prelude.{IfOk, IsTrue};
ghost use Rattle.std.specs.List.{All};
ghost use Rattle.graphql_helps.specs.Helps.{HasFieldFor};

use graphql_documents::documents::Schema;
use graphql_nodes::{Name, ValidationError};
use std::alloc::Global;

/// So many types are named at most.
const MOST_TYPES: usize = 5;

/// Types that a value of this type may have and that have the field, at most five, in the order of the schema. There are none if the type is
/// neither an interface nor a union. The only error is a failed allocation.
///
/// Specification: 5.3.1 Field Selections.
pub fn types_with_field(
    alloc: Global,
    schema: &Schema,
    type_name: &Name,
    field_name: &Name,
) -> Result<Vec<Name>, ValidationError>
    ensures { IfOk result (λ types. All (HasFieldFor schema.now type_name.now field_name.now) types.items) }
{
    let mut types = Vec::new(alloc);
    for name in schema.types.keys() {
        if types.len() < MOST_TYPES && has_field_for(schema, type_name, field_name, name) {
            types.push(name.clone_in(alloc)?)?;
        }
    }
    Ok(types)
}

/// Whether a value of this type may be of the type of that name, and this has the field.
fn has_field_for(schema: &Schema, type_name: &Name, field_name: &Name, name: &Name) -> bool
    ensures { IsTrue result → HasFieldFor schema.now type_name.now field_name.now name.now }
{
    if !schema.is_subtype(type_name, name) {
        return false;
    }
    match schema.type_field(name, field_name) {
        Ok(_) => true,
        Err(_) => false,
    }
}
