//! The definition of a schema, and its extensions.

ghost use Rattle.std.specs.Prelude.{◌≡◌};
ghost use Rattle.graphql_syntax.specs.Reading.{Reads, input};
ghost use Rattle.graphql_type_system_syntax.specs.SchemaReaders.{root_operation_at, schema_added, schema_behind};

use crate::bodies::{in_braces, is_filled, perhaps_in_braces, with_part};
use crate::parts::Part;
use graphql_syntax::directives::directives;
use graphql_syntax::operation_types::operation_type;
use graphql_syntax::{Cursor, Keyword, Refusal};
use graphql_tokens::TokenKind;
use graphql_trees::{Description, RootOperationTypeDefinition, SchemaDefinition};
use std::alloc::Global;

impl Part for RootOperationTypeDefinition {
    ghost read_at = { root_operation_at };

    #[tactic(auto, unfolding(crate::specs::SchemaReaders::root_operation_at, graphql_syntax::specs::Reading::starting, graphql_syntax::specs::Reading::sequence, graphql_syntax::specs::Reading::place, graphql_syntax::specs::Reading::answer))]
    fn read<'a>(
        alloc: Global,
        cursor: Cursor<'a>,
        _depth: usize,
    ) -> Result<(RootOperationTypeDefinition, Cursor<'a>), Refusal> {
        let (operation_type, behind) = operation_type(cursor)?;
        let behind = behind.expect(TokenKind::Colon)?;
        let (name, end) = behind.name(alloc)?;
        let span = end.span_from(cursor.start());
        Ok((
            RootOperationTypeDefinition {
                operation_type,
                name,
                span,
            },
            end,
        ))
    }
}

/// The definition of a schema, behind its description.
///
/// Specification: 3.3 Schema.
#[tactic(auto, unfolding(crate::specs::SchemaReaders::schema_behind, graphql_syntax::specs::Reading::sequence, graphql_syntax::specs::Reading::place, graphql_syntax::specs::Reading::answer))]
pub fn schema<'a>(
    alloc: Global,
    cursor: Cursor<'a>,
    start: u32,
    description: Option<Description>,
    depth: usize,
) -> Result<(SchemaDefinition, Cursor<'a>), Refusal>
    ensures { Reads (λ found. (found.0, input found.1)) result (schema_behind depth start description (input cursor.entry)) }
{
    let behind = cursor.expect_keyword(Keyword::Schema)?;
    let (directives, behind) = directives(alloc, behind, true, depth)?;
    let (root_operations, end) = in_braces::<RootOperationTypeDefinition>(alloc, behind, depth)?;
    let span = end.span_from(start);
    Ok((
        SchemaDefinition {
            description,
            directives,
            root_operations,
            span,
        },
        end,
    ))
}

/// An extension of a schema, behind `extend`.
///
/// Specification: 3.3.2 Schema Extension.
#[tactic(auto, unfolding(crate::specs::SchemaReaders::schema_added, graphql_syntax::specs::Reading::sequence, graphql_syntax::specs::Reading::place))]
pub fn schema_extension<'a>(
    alloc: Global,
    cursor: Cursor<'a>,
    start: u32,
    depth: usize,
) -> Result<(SchemaDefinition, Cursor<'a>), Refusal>
    ensures { Reads (λ found. (found.0, input found.1)) result (schema_added depth start (input cursor.entry)) }
{
    let behind = cursor.expect_keyword(Keyword::Schema)?;
    let (directives, behind) = directives(alloc, behind, true, depth)?;
    let (root_operations, end) = perhaps_in_braces::<RootOperationTypeDefinition>(
        alloc, behind, depth,
    )?;
    let span = end.span_from(start);
    let has_part = is_filled(&directives) || is_filled(&root_operations);
    let found = SchemaDefinition {
        description: None,
        directives,
        root_operations,
        span,
    };
    with_part(has_part, found, end)
}
