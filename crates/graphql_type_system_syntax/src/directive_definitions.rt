//! Definitions of directives, behind their descriptions.

ghost use Rattle.std.specs.Prelude.{◌≡◌};
ghost use Rattle.graphql_syntax.specs.Reading.{Reads, input};
ghost use Rattle.graphql_type_system_syntax.specs.DirectiveDefinitionReaders.{directive_behind, directive_location_at, repeatable_at};

use crate::bodies::separated;
use crate::input_values::argument_definitions;
use crate::locations::location_named;
use crate::parts::Part;
use graphql_syntax::{Cursor, Expected, Keyword, Refusal};
use graphql_tokens::TokenKind;
use graphql_trees::{Description, DirectiveDefinition, PlacedDirectiveLocation};
use std::alloc::Global;

impl Part for PlacedDirectiveLocation {
    ghost read_at = { λ depth. directive_location_at };

    #[tactic(auto, unfolding(crate::specs::DirectiveDefinitionReaders::directive_location_at, graphql_syntax::specs::Reading::starting, graphql_syntax::specs::Reading::sequence, graphql_syntax::specs::Reading::text_with, graphql_syntax::specs::Reading::refuse, graphql_syntax::specs::Reading::place, graphql_syntax::specs::Reading::answer))]
    fn read<'a>(
        _alloc: Global,
        cursor: Cursor<'a>,
        _depth: usize,
    ) -> Result<(PlacedDirectiveLocation, Cursor<'a>), Refusal> {
        if !cursor.sees(TokenKind::Name) {
            return Err(cursor.refusal(Expected::DirectiveLocation));
        }
        match location_named(cursor.next_text()) {
            None => Err(cursor.refusal(Expected::DirectiveLocation)),
            Some(location) => {
                let behind = cursor.behind();
                let span = behind.span_from(cursor.start());
                Ok((PlacedDirectiveLocation { location, span }, behind))
            }
        }
    }
}

/// Whether `repeatable` is here.
#[tactic(auto, unfolding(crate::specs::DirectiveDefinitionReaders::repeatable_at, graphql_syntax::specs::Reading::choose, graphql_syntax::specs::Reading::sequence, graphql_syntax::specs::Reading::answer))]
fn repeatable(cursor: Cursor) -> Result<(bool, Cursor), Refusal>
    ensures { Reads (λ found. (found.0, input found.1)) result (repeatable_at (input cursor.entry)) }
{
    if !cursor.sees_keyword(Keyword::Repeatable) {
        return Ok((false, cursor));
    }
    let behind = cursor.expect_keyword(Keyword::Repeatable)?;
    Ok((true, behind))
}

/// The definition of a directive.
///
/// Specification: 3.13 Directives.
#[tactic(auto, unfolding(crate::specs::DirectiveDefinitionReaders::directive_behind, graphql_syntax::specs::Reading::sequence, graphql_syntax::specs::Reading::place, graphql_syntax::specs::Reading::answer))]
pub fn directive<'a>(
    alloc: Global,
    cursor: Cursor<'a>,
    start: u32,
    description: Option<Description>,
    depth: usize,
) -> Result<(DirectiveDefinition, Cursor<'a>), Refusal>
    ensures { Reads (λ found. (found.0, input found.1)) result (directive_behind depth start description (input cursor.entry)) }
{
    let behind = cursor.expect_keyword(Keyword::Directive)?;
    let behind = behind.expect(TokenKind::At)?;
    let (name, behind) = behind.name(alloc)?;
    let (arguments, behind) = argument_definitions(alloc, behind, depth)?;
    let (repeatable, behind) = repeatable(behind)?;
    let behind = behind.expect_keyword(Keyword::On)?;
    let (locations, end) = separated::<PlacedDirectiveLocation>(
        alloc,
        behind,
        TokenKind::VerticalBar,
        depth,
    )?;
    let span = end.span_from(start);
    Ok((
        DirectiveDefinition {
            description,
            name,
            arguments,
            repeatable,
            locations,
            span,
        },
        end,
    ))
}
