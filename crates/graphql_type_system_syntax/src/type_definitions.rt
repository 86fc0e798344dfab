//! Definitions of types, behind their descriptions.

ghost use Rattle.std.specs.Prelude.{◌≡◌};
ghost use Rattle.graphql_syntax.specs.Reading.{Reads, input};
ghost use Rattle.graphql_type_system_syntax.specs.TypeDefinitionReaders.{enum_behind, enum_value_definition_at, enum_value_name_at, input_object_behind, interface_behind, members_at, members_in, object_behind, scalar_behind, type_definition_behind, union_behind};

use crate::bodies::{perhaps_in_braces, separated};
use crate::fields::interfaces;
use crate::input_values::description;
use crate::parts::Part;
use graphql_nodes::Name;
use graphql_syntax::directives::directives;
use graphql_syntax::{Cursor, Expected, Keyword, Refusal};
use graphql_tokens::TokenKind;
use graphql_trees::{
    Description, EnumTypeDefinition, EnumValueDefinition, FieldDefinition,
    InputObjectTypeDefinition, InputValueDefinition, InterfaceTypeDefinition, ObjectTypeDefinition,
    ScalarTypeDefinition, TypeDefinition, UnionTypeDefinition,
};
use sqlite_items::Items;
use std::alloc::Global;

/// The definition of a type, by its keyword.
///
/// Specification: 3.4 Types.
#[tactic(auto, unfolding(crate::specs::TypeDefinitionReaders::type_definition_behind, graphql_syntax::specs::Reading::choose, graphql_syntax::specs::Reading::sequence, graphql_syntax::specs::Reading::refuse, graphql_syntax::specs::Reading::answer))]
pub fn type_definition<'a>(
    alloc: Global,
    cursor: Cursor<'a>,
    start: u32,
    description: Option<Description>,
    depth: usize,
) -> Result<(TypeDefinition, Cursor<'a>), Refusal>
    ensures { Reads (λ found. (found.0, input found.1)) result (type_definition_behind depth start description (input cursor.entry)) }
{
    if cursor.sees_keyword(Keyword::Scalar) {
        let (found, end) = scalar_type(alloc, cursor, start, description, depth)?;
        return Ok((TypeDefinition::Scalar(found), end));
    }
    if cursor.sees_keyword(Keyword::Type) {
        let (found, end) = object_type(alloc, cursor, start, description, depth)?;
        return Ok((TypeDefinition::Object(found), end));
    }
    if cursor.sees_keyword(Keyword::Interface) {
        let (found, end) = interface_type(alloc, cursor, start, description, depth)?;
        return Ok((TypeDefinition::Interface(found), end));
    }
    if cursor.sees_keyword(Keyword::Union) {
        let (found, end) = union_type(alloc, cursor, start, description, depth)?;
        return Ok((TypeDefinition::Union(found), end));
    }
    if cursor.sees_keyword(Keyword::Enum) {
        let (found, end) = enum_type(alloc, cursor, start, description, depth)?;
        return Ok((TypeDefinition::Enum(found), end));
    }
    if cursor.sees_keyword(Keyword::Input) {
        let (found, end) = input_object_type(alloc, cursor, start, description, depth)?;
        return Ok((TypeDefinition::InputObject(found), end));
    }
    Err(cursor.refusal(Expected::TypeSystemDefinition))
}

/// The definition of a scalar.
///
/// Specification: 3.5 Scalars.
#[tactic(auto, unfolding(crate::specs::TypeDefinitionReaders::scalar_behind, graphql_syntax::specs::Reading::sequence, graphql_syntax::specs::Reading::place, graphql_syntax::specs::Reading::answer))]
pub fn scalar_type<'a>(
    alloc: Global,
    cursor: Cursor<'a>,
    start: u32,
    description: Option<Description>,
    depth: usize,
) -> Result<(ScalarTypeDefinition, Cursor<'a>), Refusal>
    ensures { Reads (λ found. (found.0, input found.1)) result (scalar_behind depth start description (input cursor.entry)) }
{
    let behind = cursor.expect_keyword(Keyword::Scalar)?;
    let (name, behind) = behind.name(alloc)?;
    let (directives, end) = directives(alloc, behind, true, depth)?;
    let span = end.span_from(start);
    Ok((
        ScalarTypeDefinition {
            description,
            name,
            directives,
            span,
        },
        end,
    ))
}

/// The definition of an object.
///
/// Specification: 3.6 Objects.
#[tactic(auto, unfolding(crate::specs::TypeDefinitionReaders::object_behind, graphql_syntax::specs::Reading::sequence, graphql_syntax::specs::Reading::place, graphql_syntax::specs::Reading::answer))]
pub fn object_type<'a>(
    alloc: Global,
    cursor: Cursor<'a>,
    start: u32,
    description: Option<Description>,
    depth: usize,
) -> Result<(ObjectTypeDefinition, Cursor<'a>), Refusal>
    ensures { Reads (λ found. (found.0, input found.1)) result (object_behind depth start description (input cursor.entry)) }
{
    let behind = cursor.expect_keyword(Keyword::Type)?;
    let (name, behind) = behind.name(alloc)?;
    let (interfaces, behind) = interfaces(alloc, behind, depth)?;
    let (directives, behind) = directives(alloc, behind, true, depth)?;
    let (fields, end) = perhaps_in_braces::<FieldDefinition>(alloc, behind, depth)?;
    let span = end.span_from(start);
    Ok((
        ObjectTypeDefinition {
            description,
            name,
            interfaces,
            directives,
            fields,
            span,
        },
        end,
    ))
}

/// The definition of an interface.
///
/// Specification: 3.7 Interfaces.
#[tactic(auto, unfolding(crate::specs::TypeDefinitionReaders::interface_behind, graphql_syntax::specs::Reading::sequence, graphql_syntax::specs::Reading::place, graphql_syntax::specs::Reading::answer))]
pub fn interface_type<'a>(
    alloc: Global,
    cursor: Cursor<'a>,
    start: u32,
    description: Option<Description>,
    depth: usize,
) -> Result<(InterfaceTypeDefinition, Cursor<'a>), Refusal>
    ensures { Reads (λ found. (found.0, input found.1)) result (interface_behind depth start description (input cursor.entry)) }
{
    let behind = cursor.expect_keyword(Keyword::Interface)?;
    let (name, behind) = behind.name(alloc)?;
    let (interfaces, behind) = interfaces(alloc, behind, depth)?;
    let (directives, behind) = directives(alloc, behind, true, depth)?;
    let (fields, end) = perhaps_in_braces::<FieldDefinition>(alloc, behind, depth)?;
    let span = end.span_from(start);
    Ok((
        InterfaceTypeDefinition {
            description,
            name,
            interfaces,
            directives,
            fields,
            span,
        },
        end,
    ))
}

/// The definition of a union.
///
/// Specification: 3.8 Unions.
#[tactic(auto, unfolding(crate::specs::TypeDefinitionReaders::union_behind, graphql_syntax::specs::Reading::sequence, graphql_syntax::specs::Reading::place, graphql_syntax::specs::Reading::answer))]
pub fn union_type<'a>(
    alloc: Global,
    cursor: Cursor<'a>,
    start: u32,
    description: Option<Description>,
    depth: usize,
) -> Result<(UnionTypeDefinition, Cursor<'a>), Refusal>
    ensures { Reads (λ found. (found.0, input found.1)) result (union_behind depth start description (input cursor.entry)) }
{
    let behind = cursor.expect_keyword(Keyword::Union)?;
    let (name, behind) = behind.name(alloc)?;
    let (directives, behind) = directives(alloc, behind, true, depth)?;
    let (members, end) = members(alloc, behind, depth)?;
    let span = end.span_from(start);
    Ok((
        UnionTypeDefinition {
            description,
            name,
            directives,
            members,
            span,
        },
        end,
    ))
}

/// The definition of an enum.
///
/// Specification: 3.9 Enums.
#[tactic(auto, unfolding(crate::specs::TypeDefinitionReaders::enum_behind, graphql_syntax::specs::Reading::sequence, graphql_syntax::specs::Reading::place, graphql_syntax::specs::Reading::answer))]
pub fn enum_type<'a>(
    alloc: Global,
    cursor: Cursor<'a>,
    start: u32,
    description: Option<Description>,
    depth: usize,
) -> Result<(EnumTypeDefinition, Cursor<'a>), Refusal>
    ensures { Reads (λ found. (found.0, input found.1)) result (enum_behind depth start description (input cursor.entry)) }
{
    let behind = cursor.expect_keyword(Keyword::Enum)?;
    let (name, behind) = behind.name(alloc)?;
    let (directives, behind) = directives(alloc, behind, true, depth)?;
    let (values, end) = perhaps_in_braces::<EnumValueDefinition>(alloc, behind, depth)?;
    let span = end.span_from(start);
    Ok((
        EnumTypeDefinition {
            description,
            name,
            directives,
            values,
            span,
        },
        end,
    ))
}

/// The definition of an input object.
///
/// Specification: 3.10 Input Objects.
#[tactic(auto, unfolding(crate::specs::TypeDefinitionReaders::input_object_behind, graphql_syntax::specs::Reading::sequence, graphql_syntax::specs::Reading::place, graphql_syntax::specs::Reading::answer))]
pub fn input_object_type<'a>(
    alloc: Global,
    cursor: Cursor<'a>,
    start: u32,
    description: Option<Description>,
    depth: usize,
) -> Result<(InputObjectTypeDefinition, Cursor<'a>), Refusal>
    ensures { Reads (λ found. (found.0, input found.1)) result (input_object_behind depth start description (input cursor.entry)) }
{
    let behind = cursor.expect_keyword(Keyword::Input)?;
    let (name, behind) = behind.name(alloc)?;
    let (directives, behind) = directives(alloc, behind, true, depth)?;
    let (fields, end) = perhaps_in_braces::<InputValueDefinition>(alloc, behind, depth)?;
    let span = end.span_from(start);
    Ok((
        InputObjectTypeDefinition {
            description,
            name,
            directives,
            fields,
            span,
        },
        end,
    ))
}

/// The members of a union; none where no `=` comes.
///
/// Specification: 3.8 Unions.
#[tactic(auto, unfolding(crate::specs::TypeDefinitionReaders::members_at, crate::specs::TypeDefinitionReaders::members_in, graphql_syntax::specs::Reading::choose, graphql_syntax::specs::Reading::sequence, graphql_syntax::specs::Reading::answer))]
fn members<'a>(
    alloc: Global,
    cursor: Cursor<'a>,
    depth: usize,
) -> Result<(Items<Name>, Cursor<'a>), Refusal>
    ensures { Reads (λ found. (found.0, input found.1)) result (members_at (input cursor.entry)) }
{
    if !cursor.sees(TokenKind::Equals) {
        return Ok((Items::new(alloc), cursor));
    }
    let behind = cursor.expect(TokenKind::Equals)?;
    separated::<Name>(alloc, behind, TokenKind::VerticalBar, depth)
}

/// The name of an enum value: not `true`, `false` or `null`.
///
/// Specification: 3.9 Enums.
#[tactic(auto, unfolding(crate::specs::TypeDefinitionReaders::enum_value_name_at, graphql_syntax::specs::Reading::choose, graphql_syntax::specs::Reading::refuse))]
fn enum_value_name<'a>(alloc: Global, cursor: Cursor<'a>) -> Result<(Name, Cursor<'a>), Refusal>
    ensures { Reads (λ found. (found.0, input found.1)) result (enum_value_name_at (input cursor.entry)) }
{
    if cursor.sees_keyword(Keyword::True)
        || cursor.sees_keyword(Keyword::False)
        || cursor.sees_keyword(Keyword::Null)
    {
        return Err(cursor.refusal(Expected::EnumValue));
    }
    cursor.name(alloc)
}

impl Part for EnumValueDefinition {
    ghost read_at = { enum_value_definition_at };

    #[tactic(auto, unfolding(crate::specs::TypeDefinitionReaders::enum_value_definition_at, graphql_syntax::specs::Reading::starting, graphql_syntax::specs::Reading::sequence, graphql_syntax::specs::Reading::place, graphql_syntax::specs::Reading::answer))]
    fn read<'a>(
        alloc: Global,
        cursor: Cursor<'a>,
        depth: usize,
    ) -> Result<(EnumValueDefinition, Cursor<'a>), Refusal> {
        let (description, behind) = description(cursor);
        let (name, behind) = enum_value_name(alloc, behind)?;
        let (directives, end) = directives(alloc, behind, true, depth)?;
        let span = end.span_from(cursor.start());
        Ok((
            EnumValueDefinition {
                description,
                name,
                directives,
                span,
            },
            end,
        ))
    }
}
