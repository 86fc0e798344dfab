//! What is in braces, and what separators are between.

ghost use Rattle.std.specs.Prelude.{◌≡◌};
ghost use Rattle.graphql_syntax.specs.Reading.{Reads, input};
ghost use Rattle.graphql_type_system_syntax.specs.BodyReaders.{in_braces_at, in_braces_with, is_filled, may_take, perhaps_in_braces_at, separated_at, with_part};

use crate::parts::{Part, more_separated, parts_until};
use graphql_syntax::{Cursor, Expected, Refusal};
use graphql_tokens::TokenKind;
use sqlite_items::Items;
use std::alloc::Global;

/// At least one in braces, and the cursor behind them. What is in the braces may nest a level less.
pub fn in_braces<'a, P: Part>(
    alloc: Global,
    cursor: Cursor<'a>,
    depth: usize,
) -> Result<(Items<P>, Cursor<'a>), Refusal>
    ensures { Reads (λ found. (found.0, input found.1)) result (in_braces_at P.read_at depth (input cursor.entry)) }
{
    if depth == 0 {
        if cursor.sees(TokenKind::LeftBrace) {
            return Err(cursor.too_deep());
        }
        return Err(cursor.refusal(Expected::Token(TokenKind::LeftBrace)));
    }
    braced(alloc, cursor, depth - 1)
}

#[tactic(auto, unfolding(crate::specs::BodyReaders::in_braces_with, graphql_syntax::specs::Reading::sequence, graphql_syntax::specs::Reading::answer))]
fn braced<'a, P: Part>(
    alloc: Global,
    cursor: Cursor<'a>,
    depth: usize,
) -> Result<(Items<P>, Cursor<'a>), Refusal>
    ensures { Reads (λ found. (found.0, input found.1)) result (in_braces_with (P.read_at depth) (input cursor.entry)) }
{
    let inside = cursor.expect(TokenKind::LeftBrace)?;
    let (found, end) = parts_until::<P>(alloc, inside, TokenKind::RightBrace, depth)?;
    let behind = end.expect(TokenKind::RightBrace)?;
    Ok((found, behind))
}

/// At least one in braces; none where no brace opens.
#[tactic(auto, unfolding(crate::specs::BodyReaders::perhaps_in_braces_at, graphql_syntax::specs::Reading::choose, graphql_syntax::specs::Reading::answer))]
pub fn perhaps_in_braces<'a, P: Part>(
    alloc: Global,
    cursor: Cursor<'a>,
    depth: usize,
) -> Result<(Items<P>, Cursor<'a>), Refusal>
    ensures { Reads (λ found. (found.0, input found.1)) result (perhaps_in_braces_at P.read_at depth (input cursor.entry)) }
{
    if !cursor.sees(TokenKind::LeftBrace) {
        return Ok((Items::new(alloc), cursor));
    }
    in_braces::<P>(alloc, cursor, depth)
}

/// At least one, with the separator between them; it may also come before the first.
#[tactic(auto, unfolding(crate::specs::BodyReaders::separated_at, graphql_syntax::specs::Reading::sequence))]
pub fn separated<'a, P: Part>(
    alloc: Global,
    cursor: Cursor<'a>,
    separator: TokenKind,
    depth: usize,
) -> Result<(Items<P>, Cursor<'a>), Refusal>
    ensures { Reads (λ found. (found.0, input found.1)) result (separated_at separator (P.read_at depth) (input cursor.entry)) }
{
    let inside = behind_optional(cursor, separator)?;
    let (first, behind) = P::read(alloc, inside, depth)?;
    let mut found = Vec::new(alloc);
    found.push(first)?;
    more_separated(alloc, behind, found, separator, depth)
}

#[tactic(auto, unfolding(crate::specs::BodyReaders::may_take, graphql_syntax::specs::Reading::choose, graphql_syntax::specs::Reading::answer))]
fn behind_optional(cursor: Cursor, kind: TokenKind) -> Result<Cursor, Refusal>
    ensures { Reads (λ c. (tt, input c)) result (may_take kind (input cursor.entry)) }
{
    if cursor.sees(kind) {
        cursor.expect(kind)
    } else {
        Ok(cursor)
    }
}

/// Whether there is one at least.
pub fn is_filled<T>(items: &Items<T>) -> bool
    ensures { result ≡ is_filled items.now }
{
    match items.as_slice() {
        [] => false,
        [_, ..] => true,
    }
}

/// What was found of an extension, where it has a part; else the refusal of the token that comes in
/// place of one.
#[tactic(auto, unfolding(crate::specs::BodyReaders::with_part, graphql_syntax::specs::Reading::refuse, graphql_syntax::specs::Reading::answer))]
pub fn with_part<'a, T: Drop>(
    has_part: bool,
    found: T,
    end: Cursor<'a>,
) -> Result<(T, Cursor<'a>), Refusal>
    ensures { Reads (λ found. (found.0, input found.1)) result (with_part has_part found (input end.entry)) }
{
    if has_part {
        Ok((found, end))
    } else {
        Err(end.refusal(Expected::ExtensionPart))
    }
}
