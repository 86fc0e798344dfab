//! Parts of definitions, which are read one after another.

ghost use Rattle.std.specs.Prelude.{◌≡◌, ℕ, Result};
ghost use Rattle.graphql_syntax.specs.Inputs.{Input, is_kind};
ghost use Rattle.graphql_syntax.specs.Reading.{Reads, input, many_behind, more_test, name_at, some_of};
ghost use Rattle.graphql_syntax.specs.declared.production.More.TheVariants.{Until};
ghost use Rattle.graphql_syntax.specs.declared.refusals.Refusal.{Refusal};
ghost use Rattle.graphql_type_system_syntax.specs.BodyReaders.{separated_with};

use graphql_nodes::Name;
use graphql_syntax::production::{make_room, packed};
use graphql_syntax::{Cursor, More, Refusal};
use graphql_tokens::TokenKind;
use sqlite_items::Items;
use std::alloc::Global;

/// What can be read one after another in a definition, within levels.
pub trait Part: Sized + Drop {
    ghost read_at: { ℕ → Input → Result (Self × Input) Refusal };

    /// The part that comes next, and the cursor behind it.
    fn read<'a>(
        alloc: Global,
        cursor: Cursor<'a>,
        depth: usize,
    ) -> Result<(Self, Cursor<'a>), Refusal>
        ensures { Reads (λ found. (found.0, input found.1)) result (read_at depth (input cursor.entry)) };
}

impl Part for Name {
    ghost read_at = { λ depth. name_at };

    fn read<'a>(
        alloc: Global,
        cursor: Cursor<'a>,
        _depth: usize,
    ) -> Result<(Name, Cursor<'a>), Refusal> {
        cursor.name(alloc)
    }
}

/// At least one, up to a token that closes, and the cursor before that token.
#[tactic(auto, unfolding(graphql_syntax::specs::Reading::some_of, graphql_syntax::specs::Reading::sequence))]
pub fn parts_until<'a, P: Part>(
    alloc: Global,
    cursor: Cursor<'a>,
    closing: TokenKind,
    depth: usize,
) -> Result<(Items<P>, Cursor<'a>), Refusal>
    ensures { Reads (λ found. (found.0, input found.1)) result
        (some_of (more_test (Until closing)) (P.read_at depth) (input cursor.entry)) }
{
    let (first, behind) = P::read(alloc, cursor, depth)?;
    let mut found = Vec::new(alloc);
    make_room(&mut found)?;
    found.push(first)?;
    more_until(alloc, behind, found, closing, depth)
}

/// As many as come up to a token that closes, behind those found.
fn more_until<'a, P: Part>(
    alloc: Global,
    cursor: Cursor<'a>,
    found: Vec<P>,
    closing: TokenKind,
    depth: usize,
) -> Result<(Items<P>, Cursor<'a>), Refusal>
    ensures { Reads (λ found. (found.0, input found.1)) result
        (many_behind (more_test (Until closing)) (P.read_at depth) found.items (input cursor.entry)) }
{
    let mut found = found;
    let mut here = cursor;
    for _turn in 0..cursor.tokens.len() {
        if !here.has_more(More::Until(closing)) {
            return Ok((packed(found), here));
        }
        let (item, behind) = P::read(alloc, here, depth)?;
        make_room(&mut found)?;
        found.push(item)?;
        here = behind;
    }
    Ok((packed(found), here))
}

/// One behind its separator.
#[tactic(auto, unfolding(crate::specs::BodyReaders::separated_with, graphql_syntax::specs::Reading::sequence))]
fn separated<'a, P: Part>(
    alloc: Global,
    cursor: Cursor<'a>,
    separator: TokenKind,
    depth: usize,
) -> Result<(P, Cursor<'a>), Refusal>
    ensures { Reads (λ found. (found.0, input found.1)) result (separated_with separator (P.read_at depth) (input cursor.entry)) }
{
    let behind = cursor.expect(separator)?;
    P::read(alloc, behind, depth)
}

/// Reads parts as long as a separator comes before each, and adds them to those found.
pub fn more_separated<'a, P: Part>(
    alloc: Global,
    cursor: Cursor<'a>,
    found: Vec<P>,
    separator: TokenKind,
    depth: usize,
) -> Result<(Items<P>, Cursor<'a>), Refusal>
    ensures { Reads (λ found. (found.0, input found.1)) result
        (many_behind (is_kind separator) (separated_with separator (P.read_at depth)) found.items (input cursor.entry)) }
{
    let mut found = found;
    let mut here = cursor;
    for _turn in 0..cursor.tokens.len() {
        if !here.sees(separator) {
            return Ok((packed(found), here));
        }
        let (item, behind) = separated::<P>(alloc, here, separator, depth)?;
        make_room(&mut found)?;
        found.push(item)?;
        here = behind;
    }
    Ok((packed(found), here))
}
