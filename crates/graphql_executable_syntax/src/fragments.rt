//! Fragments.

ghost use Rattle.std.specs.Prelude.{◌≡◌};
ghost use Rattle.graphql_syntax.specs.Reading.{Reads, input};
ghost use Rattle.graphql_executable_syntax.specs.FragmentReaders.{fragment_definition_at};

use crate::selections::{fragment_name, selection_set, type_condition};
use graphql_syntax::directives::directives;
use graphql_syntax::{Cursor, Keyword, Refusal};
use graphql_trees::FragmentDefinition;
use std::alloc::Global;

/// The definition of a fragment, in which brackets and braces are nested at most so deep in one another.
///
/// Specification: 2.8 Fragments.
#[tactic(auto, unfolding(crate::specs::FragmentReaders::fragment_definition_at, graphql_syntax::specs::Reading::starting, graphql_syntax::specs::Reading::sequence, graphql_syntax::specs::Reading::place, graphql_syntax::specs::Reading::answer))]
pub fn fragment_definition<'a>(
    alloc: Global,
    cursor: Cursor<'a>,
    depth: usize,
) -> Result<(FragmentDefinition, Cursor<'a>), Refusal>
    ensures { Reads (λ found. (found.0, input found.1)) result (fragment_definition_at depth (input cursor.entry)) }
{
    let behind = cursor.expect_keyword(Keyword::Fragment)?;
    let (name, on) = fragment_name(alloc, behind)?;
    let (type_condition, at) = type_condition(alloc, on)?;
    let (directives, brace) = directives(alloc, at, false, depth)?;
    let (selection_set, end) = selection_set(alloc, brace, depth)?;
    let span = end.span_from(cursor.start());
    Ok((
        FragmentDefinition {
            name,
            type_condition,
            directives,
            selection_set,
            span,
        },
        end,
    ))
}
