//! References to types.

ghost use Rattle.std.specs.Prelude.{◌≡◌};
ghost use Rattle.graphql_syntax.specs.Reading.{Reads, input};
ghost use Rattle.graphql_syntax.specs.TypeReaders.{list_type_behind, list_type_with, named_type_at, type_at};

use crate::cursor::Cursor;
use crate::refusals::Refusal;
use graphql_tokens::TokenKind;
use graphql_trees::TypeReference;
use sqlite_items::Boxed;
use std::alloc::Global;

/// A type, whose lists are nested at most so deep in one another.
///
/// Specification: 2.11 Type References.
#[cycle(types)]
pub fn type_reference<'a>(
    alloc: Global,
    cursor: Cursor<'a>,
    depth: usize,
) -> Result<(TypeReference, Cursor<'a>), Refusal>
    ensures { Reads (λ found. (found.0, input found.1)) result (type_at depth (input cursor.entry)) }
{
    if !cursor.sees(TokenKind::LeftBracket) {
        return named(alloc, cursor);
    }
    if depth == 0 {
        return Err(cursor.too_deep());
    }
    list(alloc, cursor, depth - 1)
}

#[cycle(types)]
#[tactic(auto, unfolding(crate::specs::TypeReaders::list_type_with, crate::specs::Reading::starting, crate::specs::Reading::sequence))]
fn list<'a>(
    alloc: Global,
    cursor: Cursor<'a>,
    depth: usize,
) -> Result<(TypeReference, Cursor<'a>), Refusal>
    ensures { Reads (λ found. (found.0, input found.1)) result (list_type_with (type_at depth) (input cursor.entry)) }
{
    let inside = cursor.expect(TokenKind::LeftBracket)?;
    let (item, end) = type_reference(alloc, inside, depth)?;
    list_end(alloc, cursor.start(), item, end)
}

/// A list from its closing bracket on.
#[tactic(auto, unfolding(crate::specs::TypeReaders::list_type_behind, crate::specs::Reading::sequence, crate::specs::Reading::choose, crate::specs::Reading::place, crate::specs::Reading::answer))]
fn list_end<'a>(
    alloc: Global,
    start: u32,
    item: TypeReference,
    end: Cursor<'a>,
) -> Result<(TypeReference, Cursor<'a>), Refusal>
    ensures { Reads (λ found. (found.0, input found.1)) result (list_type_behind start item (input end.entry)) }
{
    let closed = end.expect(TokenKind::RightBracket)?;
    let item = Boxed::new(alloc, item)?;
    if closed.sees(TokenKind::ExclamationMark) {
        let last = closed.expect(TokenKind::ExclamationMark)?;
        Ok((
            TypeReference::NonNullList(item, last.span_from(start)),
            last,
        ))
    } else {
        Ok((TypeReference::List(item, closed.span_from(start)), closed))
    }
}

#[tactic(auto, unfolding(crate::specs::TypeReaders::named_type_at, crate::specs::Reading::starting, crate::specs::Reading::sequence, crate::specs::Reading::choose, crate::specs::Reading::place, crate::specs::Reading::answer))]
fn named<'a>(alloc: Global, cursor: Cursor<'a>) -> Result<(TypeReference, Cursor<'a>), Refusal>
    ensures { Reads (λ found. (found.0, input found.1)) result (named_type_at (input cursor.entry)) }
{
    let (name, end) = cursor.name(alloc)?;
    if end.sees(TokenKind::ExclamationMark) {
        let last = end.expect(TokenKind::ExclamationMark)?;
        Ok((
            TypeReference::NonNullNamed(name, last.span_from(cursor.start())),
            last,
        ))
    } else {
        Ok((TypeReference::Named(name), end))
    }
}
