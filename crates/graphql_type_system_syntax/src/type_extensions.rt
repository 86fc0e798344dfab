//! Extensions of types, behind `extend`. An extension is held as a definition without a description.

ghost use Rattle.std.specs.Prelude.{◌≡◌};
ghost use Rattle.graphql_syntax.specs.Reading.{Reads, input};
ghost use Rattle.graphql_type_system_syntax.specs.TypeExtensionReaders.{enum_added, input_object_added, interface_added, object_added, scalar_added, type_extension_behind, union_added};

use crate::bodies::{is_filled, with_part};
use crate::type_definitions;
use graphql_syntax::{Cursor, Expected, Keyword, Refusal};
use graphql_trees::{
    EnumTypeDefinition, InputObjectTypeDefinition, InterfaceTypeDefinition, ObjectTypeDefinition,
    ScalarTypeDefinition, TypeDefinition, UnionTypeDefinition,
};
use std::alloc::Global;

/// An extension of a type, by its keyword.
///
/// Specification: 3.4.3 Type Extensions.
#[tactic(auto, unfolding(crate::specs::TypeExtensionReaders::type_extension_behind, graphql_syntax::specs::Reading::choose, graphql_syntax::specs::Reading::sequence, graphql_syntax::specs::Reading::refuse, graphql_syntax::specs::Reading::answer))]
pub fn type_extension<'a>(
    alloc: Global,
    cursor: Cursor<'a>,
    start: u32,
    depth: usize,
) -> Result<(TypeDefinition, Cursor<'a>), Refusal>
    ensures { Reads (λ found. (found.0, input found.1)) result (type_extension_behind depth start (input cursor.entry)) }
{
    if cursor.sees_keyword(Keyword::Scalar) {
        let (found, end) = scalar_extension(alloc, cursor, start, depth)?;
        return Ok((TypeDefinition::Scalar(found), end));
    }
    if cursor.sees_keyword(Keyword::Type) {
        let (found, end) = object_extension(alloc, cursor, start, depth)?;
        return Ok((TypeDefinition::Object(found), end));
    }
    if cursor.sees_keyword(Keyword::Interface) {
        let (found, end) = interface_extension(alloc, cursor, start, depth)?;
        return Ok((TypeDefinition::Interface(found), end));
    }
    if cursor.sees_keyword(Keyword::Union) {
        let (found, end) = union_extension(alloc, cursor, start, depth)?;
        return Ok((TypeDefinition::Union(found), end));
    }
    if cursor.sees_keyword(Keyword::Enum) {
        let (found, end) = enum_extension(alloc, cursor, start, depth)?;
        return Ok((TypeDefinition::Enum(found), end));
    }
    if cursor.sees_keyword(Keyword::Input) {
        let (found, end) = input_object_extension(alloc, cursor, start, depth)?;
        return Ok((TypeDefinition::InputObject(found), end));
    }
    Err(cursor.refusal(Expected::Extension))
}

/// An extension of a scalar, with one part at least.
///
/// Specification: 3.5.6 Scalar Extensions.
#[tactic(auto, unfolding(crate::specs::TypeExtensionReaders::scalar_added, graphql_syntax::specs::Reading::sequence))]
fn scalar_extension<'a>(
    alloc: Global,
    cursor: Cursor<'a>,
    start: u32,
    depth: usize,
) -> Result<(ScalarTypeDefinition, Cursor<'a>), Refusal>
    ensures { Reads (λ found. (found.0, input found.1)) result (scalar_added depth start (input cursor.entry)) }
{
    let (found, end) = type_definitions::scalar_type(alloc, cursor, start, None, depth)?;
    let has_part = is_filled(&found.directives);
    with_part(has_part, found, end)
}

/// An extension of an object, with one part at least.
///
/// Specification: 3.6.3 Object Extensions.
#[tactic(auto, unfolding(crate::specs::TypeExtensionReaders::object_added, graphql_syntax::specs::Reading::sequence))]
fn object_extension<'a>(
    alloc: Global,
    cursor: Cursor<'a>,
    start: u32,
    depth: usize,
) -> Result<(ObjectTypeDefinition, Cursor<'a>), Refusal>
    ensures { Reads (λ found. (found.0, input found.1)) result (object_added depth start (input cursor.entry)) }
{
    let (found, end) = type_definitions::object_type(alloc, cursor, start, None, depth)?;
    let has_part = is_filled(&found.interfaces)
        || is_filled(&found.directives)
        || is_filled(&found.fields);
    with_part(has_part, found, end)
}

/// An extension of an interface, with one part at least.
///
/// Specification: 3.7.1 Interface Extensions.
#[tactic(auto, unfolding(crate::specs::TypeExtensionReaders::interface_added, graphql_syntax::specs::Reading::sequence))]
fn interface_extension<'a>(
    alloc: Global,
    cursor: Cursor<'a>,
    start: u32,
    depth: usize,
) -> Result<(InterfaceTypeDefinition, Cursor<'a>), Refusal>
    ensures { Reads (λ found. (found.0, input found.1)) result (interface_added depth start (input cursor.entry)) }
{
    let (found, end) = type_definitions::interface_type(alloc, cursor, start, None, depth)?;
    let has_part = is_filled(&found.interfaces)
        || is_filled(&found.directives)
        || is_filled(&found.fields);
    with_part(has_part, found, end)
}

/// An extension of a union, with one part at least.
///
/// Specification: 3.8.1 Union Extensions.
#[tactic(auto, unfolding(crate::specs::TypeExtensionReaders::union_added, graphql_syntax::specs::Reading::sequence))]
fn union_extension<'a>(
    alloc: Global,
    cursor: Cursor<'a>,
    start: u32,
    depth: usize,
) -> Result<(UnionTypeDefinition, Cursor<'a>), Refusal>
    ensures { Reads (λ found. (found.0, input found.1)) result (union_added depth start (input cursor.entry)) }
{
    let (found, end) = type_definitions::union_type(alloc, cursor, start, None, depth)?;
    let has_part = is_filled(&found.directives) || is_filled(&found.members);
    with_part(has_part, found, end)
}

/// An extension of an enum, with one part at least.
///
/// Specification: 3.9.1 Enum Extensions.
#[tactic(auto, unfolding(crate::specs::TypeExtensionReaders::enum_added, graphql_syntax::specs::Reading::sequence))]
fn enum_extension<'a>(
    alloc: Global,
    cursor: Cursor<'a>,
    start: u32,
    depth: usize,
) -> Result<(EnumTypeDefinition, Cursor<'a>), Refusal>
    ensures { Reads (λ found. (found.0, input found.1)) result (enum_added depth start (input cursor.entry)) }
{
    let (found, end) = type_definitions::enum_type(alloc, cursor, start, None, depth)?;
    let has_part = is_filled(&found.directives) || is_filled(&found.values);
    with_part(has_part, found, end)
}

/// An extension of an input object, with one part at least.
///
/// Specification: 3.10.1 Input Object Extensions.
#[tactic(auto, unfolding(crate::specs::TypeExtensionReaders::input_object_added, graphql_syntax::specs::Reading::sequence))]
fn input_object_extension<'a>(
    alloc: Global,
    cursor: Cursor<'a>,
    start: u32,
    depth: usize,
) -> Result<(InputObjectTypeDefinition, Cursor<'a>), Refusal>
    ensures { Reads (λ found. (found.0, input found.1)) result (input_object_added depth start (input cursor.entry)) }
{
    let (found, end) = type_definitions::input_object_type(alloc, cursor, start, None, depth)?;
    let has_part = is_filled(&found.directives) || is_filled(&found.fields);
    with_part(has_part, found, end)
}
