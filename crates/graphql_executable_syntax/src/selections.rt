//! Selection sets.

ghost use Rattle.std.specs.Prelude.{◌≡◌};
ghost use Rattle.graphql_syntax.specs.Reading.{Reads, input, many_behind, more_test, some_of};
ghost use Rattle.graphql_syntax.specs.declared.production.More.TheVariants.{Until};
ghost use Rattle.graphql_tokens.specs.declared.token.TokenKind.TheVariants.{RightBrace};
ghost use Rattle.graphql_executable_syntax.specs.SelectionReaders.{field_behind, field_with, fragment_name_at, fragment_spread_behind, inline_fragment_behind, perhaps_set_with, selection_at, selection_set_at, selection_set_with, spread_with, type_condition_at};

use graphql_nodes::Name;
use graphql_syntax::directives::{arguments, directives};
use graphql_syntax::production::{make_room, packed};
use graphql_syntax::{Cursor, Expected, Keyword, More, Refusal};
use graphql_tokens::TokenKind;
use graphql_trees::{Field, FragmentSpread, InlineFragment, Selection, SelectionSet};
use sqlite_items::{Boxed, Items};
use std::alloc::Global;

/// A selection set, in which brackets and braces are nested at most so deep in one another.
///
/// Specification: 2.4 Selection Sets.
#[cycle(selections)]
pub fn selection_set<'a>(
    alloc: Global,
    cursor: Cursor<'a>,
    depth: usize,
) -> Result<(SelectionSet, Cursor<'a>), Refusal>
    ensures { Reads (λ found. (found.0, input found.1)) result (selection_set_at depth (input cursor.entry)) }
{
    if depth == 0 {
        if cursor.sees(TokenKind::LeftBrace) {
            return Err(cursor.too_deep());
        }
        return Err(cursor.refusal(Expected::Token(TokenKind::LeftBrace)));
    }
    in_braces(alloc, cursor, depth - 1)
}

#[cycle(selections)]
#[tactic(auto, unfolding(crate::specs::SelectionReaders::selection_set_with, graphql_syntax::specs::Reading::starting, graphql_syntax::specs::Reading::sequence, graphql_syntax::specs::Reading::place, graphql_syntax::specs::Reading::answer))]
fn in_braces<'a>(
    alloc: Global,
    cursor: Cursor<'a>,
    depth: usize,
) -> Result<(SelectionSet, Cursor<'a>), Refusal>
    ensures { Reads (λ found. (found.0, input found.1)) result
        (selection_set_with (selection_at depth) (input cursor.entry)) }
{
    let inside = cursor.expect(TokenKind::LeftBrace)?;
    let (selections, end) = selections(alloc, inside, depth)?;
    let behind = end.expect(TokenKind::RightBrace)?;
    let span = behind.span_from(cursor.start());
    Ok((SelectionSet { selections, span }, behind))
}

#[cycle(selections)]
#[tactic(auto, unfolding(graphql_syntax::specs::Reading::some_of, graphql_syntax::specs::Reading::sequence))]
fn selections<'a>(
    alloc: Global,
    cursor: Cursor<'a>,
    depth: usize,
) -> Result<(Items<Selection>, Cursor<'a>), Refusal>
    ensures { Reads (λ found. (found.0, input found.1)) result
        (some_of (more_test (Until RightBrace)) (selection_at depth) (input cursor.entry)) }
{
    let (first, behind) = selection(alloc, cursor, depth)?;
    let mut found = Vec::new(alloc);
    make_room(&mut found)?;
    found.push(first)?;
    selections_behind(alloc, behind, found, depth)
}

#[cycle(selections)]
fn selections_behind<'a>(
    alloc: Global,
    cursor: Cursor<'a>,
    found: Vec<Selection>,
    depth: usize,
) -> Result<(Items<Selection>, Cursor<'a>), Refusal>
    ensures { Reads (λ found. (found.0, input found.1)) result
        (many_behind (more_test (Until RightBrace)) (selection_at depth) found.items (input cursor.entry)) }
{
    let mut found = found;
    let mut here = cursor;
    for _turn in 0..cursor.tokens.len() {
        if !here.has_more(More::Until(TokenKind::RightBrace)) {
            return Ok((packed(found), here));
        }
        let (item, behind) = selection(alloc, here, depth)?;
        make_room(&mut found)?;
        found.push(item)?;
        here = behind;
    }
    Ok((packed(found), here))
}

#[cycle(selections)]
#[tactic(auto, unfolding(crate::specs::SelectionReaders::selection_with, graphql_syntax::specs::Reading::choose, graphql_syntax::specs::Reading::refuse))]
fn selection<'a>(
    alloc: Global,
    cursor: Cursor<'a>,
    depth: usize,
) -> Result<(Selection, Cursor<'a>), Refusal>
    ensures { Reads (λ found. (found.0, input found.1)) result (selection_at depth (input cursor.entry)) }
{
    if cursor.sees(TokenKind::Spread) {
        spread(alloc, cursor, depth)
    } else if cursor.sees(TokenKind::Name) {
        field(alloc, cursor, depth)
    } else {
        Err(cursor.refusal(Expected::Selection))
    }
}

#[cycle(selections)]
#[tactic(auto, unfolding(crate::specs::SelectionReaders::field_with, graphql_syntax::specs::Reading::starting, graphql_syntax::specs::Reading::sequence, graphql_syntax::specs::Reading::choose))]
fn field<'a>(
    alloc: Global,
    cursor: Cursor<'a>,
    depth: usize,
) -> Result<(Selection, Cursor<'a>), Refusal>
    ensures { Reads (λ found. (found.0, input found.1)) result
        (field_with depth (selection_set_at depth) (input cursor.entry)) }
{
    let (first, behind) = cursor.name(alloc)?;
    if !behind.sees(TokenKind::Colon) {
        return field_from(alloc, behind, depth, cursor.start(), None, first);
    }
    let colon = behind.expect(TokenKind::Colon)?;
    let (name, end) = colon.name(alloc)?;
    let alias = Boxed::new(alloc, first)?;
    field_from(alloc, end, depth, cursor.start(), Some(alias), name)
}

/// A field from behind its name.
#[cycle(selections)]
#[tactic(auto, unfolding(crate::specs::SelectionReaders::field_behind, graphql_syntax::specs::Reading::sequence, graphql_syntax::specs::Reading::place, graphql_syntax::specs::Reading::answer))]
fn field_from<'a>(
    alloc: Global,
    cursor: Cursor<'a>,
    depth: usize,
    start: u32,
    alias: Option<Boxed<Name>>,
    name: Name,
) -> Result<(Selection, Cursor<'a>), Refusal>
    ensures { Reads (λ found. (found.0, input found.1)) result
        (field_behind depth (selection_set_at depth) start alias name (input cursor.entry)) }
{
    let (arguments, at) = arguments(alloc, cursor, false, depth)?;
    let (directives, brace) = directives(alloc, at, false, depth)?;
    let (selection_set, end) = perhaps_set(alloc, brace, depth)?;
    let span = end.span_from(start);
    Ok((
        Selection::Field(Field {
            alias,
            name,
            arguments,
            directives,
            selection_set,
            span,
        }),
        end,
    ))
}

#[cycle(selections)]
#[tactic(auto, unfolding(crate::specs::SelectionReaders::perhaps_set_with, graphql_syntax::specs::Reading::sequence, graphql_syntax::specs::Reading::choose, graphql_syntax::specs::Reading::answer))]
fn perhaps_set<'a>(
    alloc: Global,
    cursor: Cursor<'a>,
    depth: usize,
) -> Result<(Option<Boxed<SelectionSet>>, Cursor<'a>), Refusal>
    ensures { Reads (λ found. (found.0, input found.1)) result
        (perhaps_set_with (selection_set_at depth) (input cursor.entry)) }
{
    if !cursor.sees(TokenKind::LeftBrace) {
        return Ok((None, cursor));
    }
    let (found, end) = selection_set(alloc, cursor, depth)?;
    Ok((Some(Boxed::new(alloc, found)?), end))
}

/// What begins with `...`: a fragment spread or an inline fragment.
#[cycle(selections)]
#[tactic(auto, unfolding(crate::specs::SelectionReaders::spread_with, graphql_syntax::specs::Reading::starting, graphql_syntax::specs::Reading::sequence, graphql_syntax::specs::Reading::choose))]
fn spread<'a>(
    alloc: Global,
    cursor: Cursor<'a>,
    depth: usize,
) -> Result<(Selection, Cursor<'a>), Refusal>
    ensures { Reads (λ found. (found.0, input found.1)) result
        (spread_with depth (selection_set_at depth) (input cursor.entry)) }
{
    let behind = cursor.expect(TokenKind::Spread)?;
    if behind.sees_keyword(Keyword::On) {
        let (type_condition, end) = type_condition(alloc, behind)?;
        return inline_fragment(alloc, end, depth, cursor.start(), Some(type_condition));
    }
    if behind.sees(TokenKind::Name) {
        return fragment_spread(alloc, behind, depth, cursor.start());
    }
    inline_fragment(alloc, behind, depth, cursor.start(), None)
}

/// An inline fragment from its directives on.
#[cycle(selections)]
#[tactic(auto, unfolding(crate::specs::SelectionReaders::inline_fragment_behind, graphql_syntax::specs::Reading::sequence, graphql_syntax::specs::Reading::place, graphql_syntax::specs::Reading::answer))]
fn inline_fragment<'a>(
    alloc: Global,
    cursor: Cursor<'a>,
    depth: usize,
    start: u32,
    type_condition: Option<Name>,
) -> Result<(Selection, Cursor<'a>), Refusal>
    ensures { Reads (λ found. (found.0, input found.1)) result
        (inline_fragment_behind depth (selection_set_at depth) start type_condition (input cursor.entry)) }
{
    let (directives, brace) = directives(alloc, cursor, false, depth)?;
    let (selection_set, end) = selection_set(alloc, brace, depth)?;
    let span = end.span_from(start);
    Ok((
        Selection::InlineFragment(InlineFragment {
            type_condition,
            directives,
            selection_set,
            span,
        }),
        end,
    ))
}

/// A fragment spread from its name on.
#[tactic(auto, unfolding(crate::specs::SelectionReaders::fragment_spread_behind, graphql_syntax::specs::Reading::sequence, graphql_syntax::specs::Reading::place, graphql_syntax::specs::Reading::answer))]
fn fragment_spread<'a>(
    alloc: Global,
    cursor: Cursor<'a>,
    depth: usize,
    start: u32,
) -> Result<(Selection, Cursor<'a>), Refusal>
    ensures { Reads (λ found. (found.0, input found.1)) result
        (fragment_spread_behind depth start (input cursor.entry)) }
{
    let (name, behind) = fragment_name(alloc, cursor)?;
    let (directives, end) = directives(alloc, behind, false, depth)?;
    let span = end.span_from(start);
    Ok((
        Selection::FragmentSpread(FragmentSpread {
            name,
            directives,
            span,
        }),
        end,
    ))
}

/// The name of a fragment, which is not `on`.
///
/// Specification: 2.8 Fragments.
#[tactic(auto, unfolding(crate::specs::SelectionReaders::fragment_name_at, graphql_syntax::specs::Reading::choose, graphql_syntax::specs::Reading::refuse))]
pub fn fragment_name<'a>(alloc: Global, cursor: Cursor<'a>) -> Result<(Name, Cursor<'a>), Refusal>
    ensures { Reads (λ found. (found.0, input found.1)) result (fragment_name_at (input cursor.entry)) }
{
    if cursor.sees_keyword(Keyword::On) {
        return Err(cursor.refusal(Expected::FragmentName));
    }
    cursor.name(alloc)
}

/// The type that a fragment applies to, behind `on`.
///
/// Specification: 2.8.1 Type Conditions.
#[tactic(auto, unfolding(crate::specs::SelectionReaders::type_condition_at, graphql_syntax::specs::Reading::sequence, graphql_syntax::specs::Reading::answer))]
pub fn type_condition<'a>(alloc: Global, cursor: Cursor<'a>) -> Result<(Name, Cursor<'a>), Refusal>
    ensures { Reads (λ found. (found.0, input found.1)) result (type_condition_at (input cursor.entry)) }
{
    let behind = cursor.expect_keyword(Keyword::On)?;
    behind.name(alloc)
}
