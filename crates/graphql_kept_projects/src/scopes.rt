//! Texts that are validated together.

ghost use Rattle.std.specs.Prelude.{◌≡◌, ◌++◌, List, IfOk};
ghost use Rattle.graphql_frontend.specs.Schemas.{IsUsable};
ghost use Rattle.graphql_frontend.specs.declared.texts.SourceText as source_text;
ghost use Rattle.graphql_project_checking.specs.Truth.{AreAllTrue};

use graphql_documents::documents::Schema;
use graphql_frontend::{ProjectReports, SourceText, ValidationError};
use graphql_parser::Bounds;
use graphql_project_checking::{check_part_of_project, check_project};
use std::alloc::Global;

/// Which of texts are judged.
#[derive(Clone, Copy, Debug, PartialEq, Eq)]
pub struct Scope {
    /// So many come first; the others lend fragments.
    pub judged: usize,
    /// No text of the project is missing.
    pub is_whole: bool,
}

/// What is reported of these texts together: of all texts of a project, or of some. The only error is a failed allocation.
///
/// Specification: 5 Validation.
pub fn reports_of(
    alloc: Global,
    schema: &Schema,
    read: &[SourceText<'_>],
    scope: Scope,
    bounds: Bounds,
) -> Result<ProjectReports, ValidationError>
    requires { IsUsable schema.now }
    ensures { IfOk result (λ found. (own : List source_text.SourceText) × (lent : List source_text.SourceText) × (own ++ lent ≡ read.now) ×
        AreAllTrue bounds schema.now own lent found.lists.items) }
{
    let (own, lent) = read.split_at(scope.judged.min(read.len()));
    if scope.is_whole {
        check_project(alloc, schema, own, lent, bounds)
    } else {
        check_part_of_project(alloc, schema, own, lent, bounds)
    }
}
