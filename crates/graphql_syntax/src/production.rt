//! What is read one after another.

ghost use Rattle.std.specs.Prelude.{◌≡◌, ℕ, Bool, Result, length};
ghost use Rattle.graphql_syntax.specs.Inputs.{Input, next_passes};
ghost use Rattle.graphql_syntax.specs.Reading.{Reads, input, many_behind, more_test, some_of};
ghost use Rattle.graphql_syntax.specs.declared.refusals.Refusal.{Refusal};

use crate::cursor::Cursor;
use crate::refusals::Refusal;
use graphql_tokens::TokenKind;
use sqlite_items::Items;
use std::alloc::{AllocError, Global};

/// How far one goes on to read.
#[derive(Clone, Copy, Debug, PartialEq, Eq)]
pub enum More {
    /// Until a token of this kind comes.
    Until(TokenKind),
    /// While a token of this kind comes.
    While(TokenKind),
    /// Until no token is left.
    UntilEnd,
}

/// What can be read one after another, with variables or without, within levels.
pub trait Production: Sized + Drop {
    ghost read_at: { Bool → ℕ → Input → Result (Self × Input) Refusal };

    fn read<'a>(
        alloc: Global,
        cursor: Cursor<'a>,
        constant: bool,
        depth: usize,
    ) -> Result<(Self, Cursor<'a>), Refusal>
        ensures { Reads (λ found. (found.0, input found.1)) result (read_at constant depth (input cursor.entry)) };
}

/// Up to so many items are moved to new memory where there is no room for more: that takes less time than to extend theirs.
const FEW: usize = 8;

/// Makes room for one more where there is none: for one at first, and then for twice as many, since most
/// lists are short, and more is read while they are held.
pub fn make_room<T: Drop>(found: &mut Vec<T>) -> Result<(), AllocError>
    ensures { found.new.items ≡ found.old.items }
{
    if found.len() < found.capacity() {
        return Ok(());
    }
    let more = found.len().max(1);
    if FEW < more {
        return found.reserve_exact(more);
    }
    let mut larger = Vec::with_capacity(*found.allocator(), found.len() + more)?;
    larger.append(found)?;
    *found = larger;
    Ok(())
}

/// What was found, in no more memory than it takes.
pub fn packed<T: Drop>(found: Vec<T>) -> Items<T>
    ensures { result ≡ found.items }
{
    let mut found = found;
    found.shrink_to_fit();
    Items::from_vec(found)
}

/// Reads items as long as more come, and adds them to those found.
pub fn items_behind<'a, P: Production>(
    alloc: Global,
    cursor: Cursor<'a>,
    found: Vec<P>,
    more: More,
    constant: bool,
    depth: usize,
) -> Result<(Items<P>, Cursor<'a>), Refusal>
    ensures { Reads (λ found. (found.0, input found.1)) result
        (many_behind (more_test more) (P.read_at constant depth) found.items (input cursor.entry)) }
{
    let mut found = found;
    let mut here = cursor;
    for _turn in 0..cursor.tokens.len() {
        if !here.has_more(more) {
            return Ok((packed(found), here));
        }
        let (item, behind) = P::read(alloc, here, constant, depth)?;
        make_room(&mut found)?;
        found.push(item)?;
        here = behind;
    }
    Ok((packed(found), here))
}

/// At least one, and as many as come.
#[tactic(auto, unfolding(crate::specs::Reading::some_of, crate::specs::Reading::sequence))]
pub fn items<'a, P: Production>(
    alloc: Global,
    cursor: Cursor<'a>,
    more: More,
    constant: bool,
    depth: usize,
) -> Result<(Items<P>, Cursor<'a>), Refusal>
    ensures { Reads (λ found. (found.0, input found.1)) result
        (some_of (more_test more) (P.read_at constant depth) (input cursor.entry)) }
{
    let (first, behind) = P::read(alloc, cursor, constant, depth)?;
    let mut found = Vec::new(alloc);
    make_room(&mut found)?;
    found.push(first)?;
    items_behind(alloc, behind, found, more, constant, depth)
}
