//! Default values.

ghost use Rattle.std.specs.Prelude.{◌≡◌};
ghost use Rattle.graphql_syntax.specs.DefaultValueReaders.{default_value_at};
ghost use Rattle.graphql_syntax.specs.Reading.{Reads, input};

use crate::cursor::Cursor;
use crate::refusals::Refusal;
use crate::values::value;
use graphql_tokens::TokenKind;
use graphql_trees::Value;
use sqlite_items::Boxed;
use std::alloc::Global;

/// A default value, which is constant; none where no `=` comes.
///
/// Specification: 2.10 Variables, and 3.6.1 Field Arguments.
#[tactic(auto, unfolding(crate::specs::DefaultValueReaders::default_value_at, crate::specs::Reading::choose, crate::specs::Reading::sequence, crate::specs::Reading::answer))]
pub fn default_value<'a>(
    alloc: Global,
    cursor: Cursor<'a>,
    depth: usize,
) -> Result<(Option<Boxed<Value>>, Cursor<'a>), Refusal>
    ensures { Reads (λ found. (found.0, input found.1)) result (default_value_at depth (input cursor.entry)) }
{
    if !cursor.sees(TokenKind::Equals) {
        return Ok((None, cursor));
    }
    let behind = cursor.expect(TokenKind::Equals)?;
    let (found, end) = value(alloc, behind, true, depth)?;
    Ok((Some(Boxed::new(alloc, found)?), end))
}
