//! Fields of objects and interfaces, and the interfaces that they implement.

ghost use Rattle.std.specs.Prelude.{◌≡◌};
ghost use Rattle.graphql_syntax.specs.Reading.{Reads, input};
ghost use Rattle.graphql_type_system_syntax.specs.FieldReaders.{field_definition_at, interfaces_at, interfaces_in};

use crate::bodies::separated;
use crate::input_values::{argument_definitions, description};
use crate::parts::Part;
use graphql_nodes::Name;
use graphql_syntax::directives::directives;
use graphql_syntax::types::type_reference;
use graphql_syntax::{Cursor, Keyword, Refusal};
use graphql_tokens::TokenKind;
use graphql_trees::FieldDefinition;
use sqlite_items::Items;
use std::alloc::Global;

impl Part for FieldDefinition {
    ghost read_at = { field_definition_at };

    #[tactic(auto, unfolding(crate::specs::FieldReaders::field_definition_at, graphql_syntax::specs::Reading::starting, graphql_syntax::specs::Reading::sequence, graphql_syntax::specs::Reading::place, graphql_syntax::specs::Reading::answer))]
    fn read<'a>(
        alloc: Global,
        cursor: Cursor<'a>,
        depth: usize,
    ) -> Result<(FieldDefinition, Cursor<'a>), Refusal> {
        let (description, behind) = description(cursor);
        let (name, behind) = behind.name(alloc)?;
        let (arguments, behind) = argument_definitions(alloc, behind, depth)?;
        let behind = behind.expect(TokenKind::Colon)?;
        let (type_reference, behind) = type_reference(alloc, behind, depth)?;
        let (directives, end) = directives(alloc, behind, true, depth)?;
        let span = end.span_from(cursor.start());
        Ok((
            FieldDefinition {
                description,
                name,
                arguments,
                type_reference,
                directives,
                span,
            },
            end,
        ))
    }
}

/// The interfaces that are implemented; none where `implements` does not come.
///
/// Specification: 3.6 Objects, 3.7 Interfaces.
#[tactic(auto, unfolding(crate::specs::FieldReaders::interfaces_at, crate::specs::FieldReaders::interfaces_in, graphql_syntax::specs::Reading::choose, graphql_syntax::specs::Reading::sequence, graphql_syntax::specs::Reading::answer))]
pub fn interfaces<'a>(
    alloc: Global,
    cursor: Cursor<'a>,
    depth: usize,
) -> Result<(Items<Name>, Cursor<'a>), Refusal>
    ensures { Reads (λ found. (found.0, input found.1)) result (interfaces_at (input cursor.entry)) }
{
    if !cursor.sees_keyword(Keyword::Implements) {
        return Ok((Items::new(alloc), cursor));
    }
    let behind = cursor.expect_keyword(Keyword::Implements)?;
    separated::<Name>(alloc, behind, TokenKind::Ampersand, depth)
}
