//! Descriptions, and definitions of arguments and of fields of input objects.

ghost use Rattle.std.specs.Prelude.{◌≡◌};
ghost use Rattle.graphql_syntax.specs.Reading.{Reads, input};
ghost use Rattle.graphql_type_system_syntax.specs.InputValueReaders.{argument_definitions_at, argument_definitions_in, description_at, input_value_definition_at};

use crate::parts::{Part, parts_until};
use graphql_syntax::default_values::default_value;
use graphql_syntax::directives::directives;
use graphql_syntax::types::type_reference;
use graphql_syntax::{Cursor, Refusal};
use graphql_tokens::TokenKind;
use graphql_trees::{Description, InputValueDefinition};
use sqlite_items::Items;
use std::alloc::Global;

/// The description of what comes behind it; none where no string comes.
///
/// Specification: 3.2 Type System Descriptions.
#[tactic(auto, unfolding(crate::specs::InputValueReaders::description_at, crate::specs::InputValueReaders::described_at, graphql_syntax::specs::Reading::choose, graphql_syntax::specs::Reading::starting, graphql_syntax::specs::Reading::sequence, graphql_syntax::specs::Reading::take_one, graphql_syntax::specs::Reading::place, graphql_syntax::specs::Reading::answer))]
pub fn description(cursor: Cursor) -> (Option<Description>, Cursor)
    ensures { description_at (input cursor.entry) ≡ Ok (result.0, input result.1) }
{
    if !cursor.sees_string() {
        return (None, cursor);
    }
    let behind = cursor.behind();
    let span = behind.span_from(cursor.start());
    (Some(Description { span }), behind)
}

impl Part for InputValueDefinition {
    ghost read_at = { input_value_definition_at };

    #[tactic(auto, unfolding(crate::specs::InputValueReaders::input_value_definition_at, graphql_syntax::specs::Reading::starting, graphql_syntax::specs::Reading::sequence, graphql_syntax::specs::Reading::place, graphql_syntax::specs::Reading::answer))]
    fn read<'a>(
        alloc: Global,
        cursor: Cursor<'a>,
        depth: usize,
    ) -> Result<(InputValueDefinition, Cursor<'a>), Refusal> {
        let (description, behind) = description(cursor);
        let (name, behind) = behind.name(alloc)?;
        let behind = behind.expect(TokenKind::Colon)?;
        let (type_reference, behind) = type_reference(alloc, behind, depth)?;
        let (default_value, behind) = default_value(alloc, behind, depth)?;
        let (directives, end) = directives(alloc, behind, true, depth)?;
        let span = end.span_from(cursor.start());
        Ok((
            InputValueDefinition {
                description,
                name,
                type_reference,
                default_value,
                directives,
                span,
            },
            end,
        ))
    }
}

/// Definitions of arguments in parentheses, at least one; none where no parenthesis opens.
///
/// Specification: 3.6.1 Field Arguments.
#[tactic(auto, unfolding(crate::specs::InputValueReaders::argument_definitions_at, crate::specs::InputValueReaders::argument_definitions_in, graphql_syntax::specs::Reading::choose, graphql_syntax::specs::Reading::sequence, graphql_syntax::specs::Reading::answer))]
pub fn argument_definitions<'a>(
    alloc: Global,
    cursor: Cursor<'a>,
    depth: usize,
) -> Result<(Items<InputValueDefinition>, Cursor<'a>), Refusal>
    ensures { Reads (λ found. (found.0, input found.1)) result (argument_definitions_at depth (input cursor.entry)) }
{
    if !cursor.sees(TokenKind::LeftParenthesis) {
        return Ok((Items::new(alloc), cursor));
    }
    let inside = cursor.expect(TokenKind::LeftParenthesis)?;
    let (found, end) = parts_until::<InputValueDefinition>(
        alloc,
        inside,
        TokenKind::RightParenthesis,
        depth,
    )?;
    let behind = end.expect(TokenKind::RightParenthesis)?;
    Ok((found, behind))
}
