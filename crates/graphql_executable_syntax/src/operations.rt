//! Operations and their variables.

ghost use Rattle.std.specs.Prelude.{◌≡◌};
ghost use Rattle.graphql_syntax.specs.Inputs.{next_passes};
ghost use Rattle.graphql_syntax.specs.Reading.{Reads, input, many_behind, more_test, some_of};
ghost use Rattle.graphql_syntax.specs.declared.production.More.TheVariants.{Until};
ghost use Rattle.graphql_tokens.specs.declared.token.TokenKind.TheVariants.{RightParenthesis};
ghost use Rattle.graphql_executable_syntax.specs.OperationReaders.{full_operation_at, operation_definition_at, operation_name_at, shorthand_at, variable_definition_at, variable_definitions_at, variable_definitions_in};
ghost use Rattle.graphql_executable_syntax.specs.Operations.{begins_operation};

use crate::selections::selection_set;
use graphql_nodes::{Name, OperationType};
use graphql_syntax::default_values::default_value;
use graphql_syntax::directives::directives;
use graphql_syntax::operation_types::operation_type;
use graphql_syntax::production::{make_room, packed};
use graphql_syntax::types::type_reference;
use graphql_syntax::values::variable;
use graphql_syntax::{Cursor, Keyword, More, Refusal};
use graphql_tokens::TokenKind;
use graphql_trees::{OperationDefinition, VariableDefinition};
use sqlite_items::Items;
use std::alloc::Global;

/// Whether an operation begins here: a selection set, or the kind of an operation.
///
/// Specification: 2.3 Operations.
#[tactic(auto, unfolding(graphql_syntax::specs::Inputs::next_passes))]
pub fn begins_operation(cursor: Cursor) -> bool
    ensures { result ≡ next_passes begins_operation (input cursor.entry) }
{
    cursor.sees(TokenKind::LeftBrace)
        || cursor.sees_keyword(Keyword::Query)
        || cursor.sees_keyword(Keyword::Mutation)
        || cursor.sees_keyword(Keyword::Subscription)
}

/// An operation, in which brackets and braces are nested at most so deep in one another. A selection set
/// alone is a query.
///
/// Specification: 2.3 Operations.
#[tactic(auto, unfolding(crate::specs::OperationReaders::operation_definition_at, graphql_syntax::specs::Reading::choose))]
pub fn operation_definition<'a>(
    alloc: Global,
    cursor: Cursor<'a>,
    depth: usize,
) -> Result<(OperationDefinition, Cursor<'a>), Refusal>
    ensures { Reads (λ found. (found.0, input found.1)) result (operation_definition_at depth (input cursor.entry)) }
{
    if cursor.sees(TokenKind::LeftBrace) {
        shorthand(alloc, cursor, depth)
    } else {
        full_operation(alloc, cursor, depth)
    }
}

#[tactic(auto, unfolding(crate::specs::OperationReaders::shorthand_at, graphql_syntax::specs::Reading::starting, graphql_syntax::specs::Reading::sequence, graphql_syntax::specs::Reading::place, graphql_syntax::specs::Reading::answer))]
fn shorthand<'a>(
    alloc: Global,
    cursor: Cursor<'a>,
    depth: usize,
) -> Result<(OperationDefinition, Cursor<'a>), Refusal>
    ensures { Reads (λ found. (found.0, input found.1)) result (shorthand_at depth (input cursor.entry)) }
{
    let (selection_set, end) = selection_set(alloc, cursor, depth)?;
    let span = end.span_from(cursor.start());
    Ok((
        OperationDefinition {
            operation_type: OperationType::Query,
            name: None,
            variables: Items::new(alloc),
            directives: Items::new(alloc),
            selection_set,
            span,
        },
        end,
    ))
}

#[tactic(auto, unfolding(crate::specs::OperationReaders::full_operation_at, graphql_syntax::specs::Reading::starting, graphql_syntax::specs::Reading::sequence, graphql_syntax::specs::Reading::place, graphql_syntax::specs::Reading::answer))]
fn full_operation<'a>(
    alloc: Global,
    cursor: Cursor<'a>,
    depth: usize,
) -> Result<(OperationDefinition, Cursor<'a>), Refusal>
    ensures { Reads (λ found. (found.0, input found.1)) result (full_operation_at depth (input cursor.entry)) }
{
    let (operation_type, behind) = operation_type(cursor)?;
    let (name, parenthesis) = operation_name(alloc, behind)?;
    let (variables, at) = variable_definitions(alloc, parenthesis, depth)?;
    let (directives, brace) = directives(alloc, at, false, depth)?;
    let (selection_set, end) = selection_set(alloc, brace, depth)?;
    let span = end.span_from(cursor.start());
    Ok((
        OperationDefinition {
            operation_type,
            name,
            variables,
            directives,
            selection_set,
            span,
        },
        end,
    ))
}

/// A name, where one comes.
#[tactic(auto, unfolding(crate::specs::OperationReaders::operation_name_at, graphql_syntax::specs::Reading::choose, graphql_syntax::specs::Reading::sequence, graphql_syntax::specs::Reading::answer))]
fn operation_name<'a>(
    alloc: Global,
    cursor: Cursor<'a>,
) -> Result<(Option<Name>, Cursor<'a>), Refusal>
    ensures { Reads (λ found. (found.0, input found.1)) result (operation_name_at (input cursor.entry)) }
{
    if !cursor.sees(TokenKind::Name) {
        return Ok((None, cursor));
    }
    let (name, behind) = cursor.name(alloc)?;
    Ok((Some(name), behind))
}

/// The variables of an operation in parentheses, at least one; none where no parenthesis opens.
///
/// Specification: 2.10 Variables.
#[tactic(auto, unfolding(crate::specs::OperationReaders::variable_definitions_at, crate::specs::OperationReaders::variable_definitions_in, graphql_syntax::specs::Reading::choose, graphql_syntax::specs::Reading::sequence, graphql_syntax::specs::Reading::answer))]
pub fn variable_definitions<'a>(
    alloc: Global,
    cursor: Cursor<'a>,
    depth: usize,
) -> Result<(Items<VariableDefinition>, Cursor<'a>), Refusal>
    ensures { Reads (λ found. (found.0, input found.1)) result (variable_definitions_at depth (input cursor.entry)) }
{
    if !cursor.sees(TokenKind::LeftParenthesis) {
        return Ok((Items::new(alloc), cursor));
    }
    let inside = cursor.expect(TokenKind::LeftParenthesis)?;
    let (found, end) = definitions(alloc, inside, depth)?;
    let behind = end.expect(TokenKind::RightParenthesis)?;
    Ok((found, behind))
}

/// At least one definition of a variable, and as many as come.
#[tactic(auto, unfolding(graphql_syntax::specs::Reading::some_of, graphql_syntax::specs::Reading::sequence))]
fn definitions<'a>(
    alloc: Global,
    cursor: Cursor<'a>,
    depth: usize,
) -> Result<(Items<VariableDefinition>, Cursor<'a>), Refusal>
    ensures { Reads (λ found. (found.0, input found.1)) result
        (some_of (more_test (Until RightParenthesis)) (variable_definition_at depth) (input cursor.entry)) }
{
    let (first, behind) = variable_definition(alloc, cursor, depth)?;
    let mut found = Vec::new(alloc);
    make_room(&mut found)?;
    found.push(first)?;
    definitions_behind(alloc, behind, found, depth)
}

/// As many definitions of variables as come, behind those found.
fn definitions_behind<'a>(
    alloc: Global,
    cursor: Cursor<'a>,
    found: Vec<VariableDefinition>,
    depth: usize,
) -> Result<(Items<VariableDefinition>, Cursor<'a>), Refusal>
    ensures { Reads (λ found. (found.0, input found.1)) result
        (many_behind (more_test (Until RightParenthesis)) (variable_definition_at depth) found.items (input cursor.entry)) }
{
    let mut found = found;
    let mut here = cursor;
    for _turn in 0..cursor.tokens.len() {
        if !here.has_more(More::Until(TokenKind::RightParenthesis)) {
            return Ok((packed(found), here));
        }
        let (item, behind) = variable_definition(alloc, here, depth)?;
        make_room(&mut found)?;
        found.push(item)?;
        here = behind;
    }
    Ok((packed(found), here))
}

#[tactic(auto, unfolding(crate::specs::OperationReaders::variable_definition_at, graphql_syntax::specs::Reading::starting, graphql_syntax::specs::Reading::sequence, graphql_syntax::specs::Reading::place, graphql_syntax::specs::Reading::answer))]
fn variable_definition<'a>(
    alloc: Global,
    cursor: Cursor<'a>,
    depth: usize,
) -> Result<(VariableDefinition, Cursor<'a>), Refusal>
    ensures { Reads (λ found. (found.0, input found.1)) result (variable_definition_at depth (input cursor.entry)) }
{
    let (variable, colon) = variable(alloc, cursor)?;
    let behind = colon.expect(TokenKind::Colon)?;
    let (type_reference, equals) = type_reference(alloc, behind, depth)?;
    let (default_value, at) = default_value(alloc, equals, depth)?;
    let (directives, end) = directives(alloc, at, true, depth)?;
    let span = end.span_from(cursor.start());
    Ok((
        VariableDefinition {
            variable,
            type_reference,
            default_value,
            directives,
            span,
        },
        end,
    ))
}
