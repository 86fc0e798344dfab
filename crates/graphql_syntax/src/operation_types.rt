//! The kinds of operation.

ghost use Rattle.std.specs.Prelude.{◌≡◌};
ghost use Rattle.graphql_syntax.specs.OperationTypeReaders.{operation_type_at};
ghost use Rattle.graphql_syntax.specs.Reading.{Reads, input};

use crate::cursor::Cursor;
use crate::keywords::Keyword;
use crate::refusals::{Expected, Refusal};
use graphql_nodes::OperationType;

/// The kind of an operation.
///
/// Specification: 2.3 Operations.
#[tactic(auto, unfolding(crate::specs::OperationTypeReaders::operation_type_at, crate::specs::Reading::choose, crate::specs::Reading::sequence, crate::specs::Reading::answer, crate::specs::Reading::refuse))]
pub fn operation_type(cursor: Cursor) -> Result<(OperationType, Cursor), Refusal>
    ensures { Reads (λ found. (found.0, input found.1)) result (operation_type_at (input cursor.entry)) }
{
    if cursor.sees_keyword(Keyword::Query) {
        let behind = cursor.expect_keyword(Keyword::Query)?;
        Ok((OperationType::Query, behind))
    } else if cursor.sees_keyword(Keyword::Mutation) {
        let behind = cursor.expect_keyword(Keyword::Mutation)?;
        Ok((OperationType::Mutation, behind))
    } else if cursor.sees_keyword(Keyword::Subscription) {
        let behind = cursor.expect_keyword(Keyword::Subscription)?;
        Ok((OperationType::Subscription, behind))
    } else {
        Err(cursor.refusal(Expected::OperationType))
    }
}
