//! Definitions and documents.

ghost use Rattle.std.specs.Prelude.{◌≡◌};
ghost use Rattle.graphql_syntax.specs.Reading.{Reads, input, many_behind, more_test, some_of};
ghost use Rattle.graphql_syntax.specs.declared.production.More.TheVariants.{UntilEnd};
ghost use Rattle.graphql_parser.specs.DocumentReaders.{definition_at, document_at, executable_definition_at, whole_document_at};

use graphql_executable_syntax::{begins_operation, fragment_definition, operation_definition};
use graphql_syntax::production::{make_room, packed};
use graphql_syntax::{Cursor, Expected, Keyword, More, Refusal};
use graphql_trees::{Definition, Document};
use graphql_type_system_syntax::{
    begins_type_system_definition, extension, type_system_definition,
};
use sqlite_items::Items;
use std::alloc::Global;

#[tactic(auto, unfolding(crate::specs::DocumentReaders::definition_at, graphql_syntax::specs::Reading::choose, graphql_syntax::specs::Reading::refuse))]
fn definition<'a>(
    alloc: Global,
    cursor: Cursor<'a>,
    depth: usize,
) -> Result<(Definition, Cursor<'a>), Refusal>
    ensures { Reads (λ found. (found.0, input found.1)) result (definition_at depth (input cursor.entry)) }
{
    if cursor.sees_keyword(Keyword::Extend) {
        extension(alloc, cursor, depth)
    } else if begins_type_system_definition(cursor) {
        type_system_definition(alloc, cursor, depth)
    } else {
        executable_definition(alloc, cursor, depth)
    }
}

#[tactic(auto, unfolding(crate::specs::DocumentReaders::executable_definition_at, graphql_syntax::specs::Reading::choose, graphql_syntax::specs::Reading::sequence, graphql_syntax::specs::Reading::answer, graphql_syntax::specs::Reading::refuse))]
fn executable_definition<'a>(
    alloc: Global,
    cursor: Cursor<'a>,
    depth: usize,
) -> Result<(Definition, Cursor<'a>), Refusal>
    ensures { Reads (λ found. (found.0, input found.1)) result (executable_definition_at depth (input cursor.entry)) }
{
    if begins_operation(cursor) {
        let (operation, end) = operation_definition(alloc, cursor, depth)?;
        return Ok((Definition::Operation(operation), end));
    }
    if cursor.sees_keyword(Keyword::Fragment) {
        let (fragment, end) = fragment_definition(alloc, cursor, depth)?;
        return Ok((Definition::Fragment(fragment), end));
    }
    Err(cursor.refusal(Expected::Definition))
}

/// As many definitions as come, behind those found.
fn definitions_behind<'a>(
    alloc: Global,
    cursor: Cursor<'a>,
    found: Vec<Definition>,
    depth: usize,
) -> Result<(Items<Definition>, Cursor<'a>), Refusal>
    ensures { Reads (λ found. (found.0, input found.1)) result
        (many_behind (more_test UntilEnd) (definition_at depth) found.items (input cursor.entry)) }
{
    let mut found = found;
    let mut here = cursor;
    for _turn in 0..cursor.tokens.len() {
        if !here.has_more(More::UntilEnd) {
            return Ok((packed(found), here));
        }
        make_room(&mut found)?;
        let (item, behind) = definition(alloc, here, depth)?;
        found.push(item)?;
        here = behind;
    }
    Ok((packed(found), here))
}

#[tactic(auto, unfolding(graphql_syntax::specs::Reading::some_of, graphql_syntax::specs::Reading::sequence))]
fn definitions<'a>(
    alloc: Global,
    cursor: Cursor<'a>,
    depth: usize,
) -> Result<(Items<Definition>, Cursor<'a>), Refusal>
    ensures { Reads (λ found. (found.0, input found.1)) result
        (some_of (more_test UntilEnd) (definition_at depth) (input cursor.entry)) }
{
    let mut found = Vec::new(alloc);
    make_room(&mut found)?;
    let (first, behind) = definition(alloc, cursor, depth)?;
    found.push(first)?;
    definitions_behind(alloc, behind, found, depth)
}

#[tactic(auto, unfolding(crate::specs::DocumentReaders::document_at, graphql_syntax::specs::Reading::starting, graphql_syntax::specs::Reading::sequence, graphql_syntax::specs::Reading::place, graphql_syntax::specs::Reading::answer))]
fn document<'a>(
    alloc: Global,
    cursor: Cursor<'a>,
    depth: usize,
) -> Result<(Document, Cursor<'a>), Refusal>
    ensures { Reads (λ found. (found.0, input found.1)) result (document_at depth (input cursor.entry)) }
{
    let (definitions, end) = definitions(alloc, cursor, depth)?;
    let span = end.span_from(cursor.start());
    Ok((Document { definitions, span }, end))
}

/// The document that all tokens from here on are.
#[tactic(auto, unfolding(crate::specs::DocumentReaders::whole_document_at))]
pub(crate) fn whole_document(
    alloc: Global,
    cursor: Cursor,
    depth: usize,
) -> Result<Document, Refusal>
    ensures { Reads (λ tree. tree) result (whole_document_at depth (input cursor.entry)) }
{
    let (document, end) = document(alloc, cursor, depth)?;
    match end.next() {
        None => Ok(document),
        Some(_) => Err(end.refusal(Expected::Definition)),
    }
}
