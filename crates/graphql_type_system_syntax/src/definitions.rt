//! Definitions and extensions of the type system.

ghost use Rattle.std.specs.Prelude.{◌≡◌};
ghost use Rattle.graphql_syntax.specs.Inputs.{next_passes};
ghost use Rattle.graphql_syntax.specs.Reading.{Reads, input};
ghost use Rattle.graphql_type_system_syntax.specs.DefinitionReaders.{begins_type_definition, begins_type_system_definition, definition_behind, extension_at, extension_behind, type_system_definition_at};

use crate::directive_definitions::directive;
use crate::input_values::description;
use crate::schemas::{schema, schema_extension};
use crate::type_definitions::type_definition;
use crate::type_extensions::type_extension;
use graphql_syntax::{Cursor, Keyword, Refusal};
use graphql_trees::{Definition, Description};
use std::alloc::Global;

/// Whether a definition of a type can begin here, behind its description.
#[tactic(auto, unfolding(graphql_syntax::specs::Inputs::next_passes))]
fn begins_type_definition(cursor: Cursor) -> bool
    ensures { result ≡ next_passes begins_type_definition (input cursor.entry) }
{
    cursor.sees_keyword(Keyword::Scalar)
        || cursor.sees_keyword(Keyword::Type)
        || cursor.sees_keyword(Keyword::Interface)
        || cursor.sees_keyword(Keyword::Union)
        || cursor.sees_keyword(Keyword::Enum)
        || cursor.sees_keyword(Keyword::Input)
}

/// Whether a definition of the type system can begin here: with a string, or with its keyword.
///
/// Specification: 3 Type System.
#[tactic(auto, unfolding(graphql_syntax::specs::Inputs::next_passes))]
pub fn begins_type_system_definition(cursor: Cursor) -> bool
    ensures { result ≡ next_passes begins_type_system_definition (input cursor.entry) }
{
    cursor.sees_string()
        || cursor.sees_keyword(Keyword::Schema)
        || cursor.sees_keyword(Keyword::Directive)
        || begins_type_definition(cursor)
}

#[tactic(auto, unfolding(crate::specs::DefinitionReaders::definition_behind, graphql_syntax::specs::Reading::choose, graphql_syntax::specs::Reading::sequence, graphql_syntax::specs::Reading::answer))]
fn definition_behind<'a>(
    alloc: Global,
    cursor: Cursor<'a>,
    start: u32,
    description: Option<Description>,
    depth: usize,
) -> Result<(Definition, Cursor<'a>), Refusal>
    ensures { Reads (λ found. (found.0, input found.1)) result (definition_behind depth start description (input cursor.entry)) }
{
    if cursor.sees_keyword(Keyword::Schema) {
        let (found, end) = schema(alloc, cursor, start, description, depth)?;
        return Ok((Definition::Schema(found), end));
    }
    if cursor.sees_keyword(Keyword::Directive) {
        let (found, end) = directive(alloc, cursor, start, description, depth)?;
        return Ok((Definition::Directive(found), end));
    }
    let (found, end) = type_definition(alloc, cursor, start, description, depth)?;
    Ok((Definition::Type(found), end))
}

/// A definition of the type system, of a schema, a type or a directive, and the cursor behind it; or the
/// refusal of the first token with which none goes on.
///
/// Specification: 3 Type System.
#[tactic(auto, unfolding(crate::specs::DefinitionReaders::type_system_definition_at, graphql_syntax::specs::Reading::starting, graphql_syntax::specs::Reading::sequence))]
pub fn type_system_definition<'a>(
    alloc: Global,
    cursor: Cursor<'a>,
    depth: usize,
) -> Result<(Definition, Cursor<'a>), Refusal>
    ensures { Reads (λ found. (found.0, input found.1)) result (type_system_definition_at depth (input cursor.entry)) }
{
    let (description, behind) = description(cursor);
    definition_behind(alloc, behind, cursor.start(), description, depth)
}

#[tactic(auto, unfolding(crate::specs::DefinitionReaders::extension_behind, graphql_syntax::specs::Reading::choose, graphql_syntax::specs::Reading::sequence, graphql_syntax::specs::Reading::answer))]
fn extension_behind<'a>(
    alloc: Global,
    cursor: Cursor<'a>,
    start: u32,
    depth: usize,
) -> Result<(Definition, Cursor<'a>), Refusal>
    ensures { Reads (λ found. (found.0, input found.1)) result (extension_behind depth start (input cursor.entry)) }
{
    if cursor.sees_keyword(Keyword::Schema) {
        let (found, end) = schema_extension(alloc, cursor, start, depth)?;
        return Ok((Definition::SchemaExtension(found), end));
    }
    let (found, end) = type_extension(alloc, cursor, start, depth)?;
    Ok((Definition::TypeExtension(found), end))
}

/// An extension of the type system, of a schema or a type, and the cursor behind it; or the refusal of
/// the first token with which none goes on, among them the one in place of an extension's only part.
///
/// Specification: 3.1 Type System Extensions.
#[tactic(auto, unfolding(crate::specs::DefinitionReaders::extension_at, graphql_syntax::specs::Reading::starting, graphql_syntax::specs::Reading::sequence))]
pub fn extension<'a>(
    alloc: Global,
    cursor: Cursor<'a>,
    depth: usize,
) -> Result<(Definition, Cursor<'a>), Refusal>
    ensures { Reads (λ found. (found.0, input found.1)) result (extension_at depth (input cursor.entry)) }
{
    let behind = cursor.expect_keyword(Keyword::Extend)?;
    extension_behind(alloc, behind, cursor.start(), depth)
}
