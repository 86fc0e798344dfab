//! Arguments and directives.

ghost use Rattle.std.specs.Prelude.{◌≡◌};
ghost use Rattle.graphql_syntax.specs.DirectiveReaders.{argument_at, arguments_at, arguments_in, directive_at, directives_at};
ghost use Rattle.graphql_syntax.specs.Reading.{Reads, input};

use crate::cursor::Cursor;
use crate::production::{More, Production, items, items_behind};
use crate::refusals::Refusal;
use crate::values::value;
use graphql_tokens::TokenKind;
use graphql_trees::{Argument, Directive};
use sqlite_items::Items;
use std::alloc::Global;

impl Production for Argument {
    ghost read_at = { argument_at };

    #[tactic(auto, unfolding(crate::specs::DirectiveReaders::argument_at, crate::specs::Reading::starting, crate::specs::Reading::sequence, crate::specs::Reading::place, crate::specs::Reading::answer))]
    fn read<'a>(
        alloc: Global,
        cursor: Cursor<'a>,
        constant: bool,
        depth: usize,
    ) -> Result<(Argument, Cursor<'a>), Refusal> {
        let (name, colon) = cursor.name(alloc)?;
        let behind = colon.expect(TokenKind::Colon)?;
        let (value, end) = value(alloc, behind, constant, depth)?;
        let span = end.span_from(cursor.start());
        Ok((Argument { name, value, span }, end))
    }
}

impl Production for Directive {
    ghost read_at = { directive_at };

    #[tactic(auto, unfolding(crate::specs::DirectiveReaders::directive_at, crate::specs::Reading::starting, crate::specs::Reading::sequence, crate::specs::Reading::place, crate::specs::Reading::answer))]
    fn read<'a>(
        alloc: Global,
        cursor: Cursor<'a>,
        constant: bool,
        depth: usize,
    ) -> Result<(Directive, Cursor<'a>), Refusal> {
        let at = cursor.expect(TokenKind::At)?;
        let (name, behind) = at.name(alloc)?;
        let (arguments, end) = arguments(alloc, behind, constant, depth)?;
        let span = end.span_from(cursor.start());
        Ok((
            Directive {
                name,
                arguments,
                span,
            },
            end,
        ))
    }
}

/// Arguments in parentheses, at least one; none where no parenthesis opens.
///
/// Specification: 2.6 Arguments.
#[tactic(auto, unfolding(crate::specs::DirectiveReaders::arguments_at, crate::specs::DirectiveReaders::arguments_in, crate::specs::Reading::choose, crate::specs::Reading::sequence, crate::specs::Reading::answer))]
pub fn arguments<'a>(
    alloc: Global,
    cursor: Cursor<'a>,
    constant: bool,
    depth: usize,
) -> Result<(Items<Argument>, Cursor<'a>), Refusal>
    ensures { Reads (λ found. (found.0, input found.1)) result (arguments_at constant depth (input cursor.entry)) }
{
    if !cursor.sees(TokenKind::LeftParenthesis) {
        return Ok((Items::new(alloc), cursor));
    }
    let inside = cursor.expect(TokenKind::LeftParenthesis)?;
    let (found, end) = items::<Argument>(
        alloc,
        inside,
        More::Until(TokenKind::RightParenthesis),
        constant,
        depth,
    )?;
    let behind = end.expect(TokenKind::RightParenthesis)?;
    Ok((found, behind))
}

/// Reads directives as long as the next token is `@`.
///
/// Specification: 2.12 Directives.
#[tactic(auto, unfolding(crate::specs::DirectiveReaders::directives_at))]
pub fn directives<'a>(
    alloc: Global,
    cursor: Cursor<'a>,
    constant: bool,
    depth: usize,
) -> Result<(Items<Directive>, Cursor<'a>), Refusal>
    ensures { Reads (λ found. (found.0, input found.1)) result (directives_at constant depth (input cursor.entry)) }
{
    items_behind::<Directive>(
        alloc,
        cursor,
        Vec::new(alloc),
        More::While(TokenKind::At),
        constant,
        depth,
    )
}
