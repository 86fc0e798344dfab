//! Texts, and the documents that they are.

ghost use Rattle.std.specs.Prelude.{◌≡◌, ◌≢◌, IfOk, OnOk, []};
ghost use Rattle.graphql_diagnostics.specs.Reports.{KeepsReports};
ghost use Rattle.graphql_projects.specs.Projects.{ReadFiles};
ghost use Rattle.graphql_project_checking.specs.Silence.{AddsIfToken, LeavesOutEmpty, SilentOnlyIf};
ghost use Rattle.graphql_project_checking.specs.Truth.{AreErrorsOf, HasErrors, ParsedFiles};

use graphql_frontend::texts::parse_texts;
use graphql_frontend::{Bounds, Reports, SourceText, SyntaxReport, ValidationError};
use graphql_tokens::has_no_token;
use graphql_trees::Document;
use std::alloc::Global;

/// The documents that these texts are, in order. A text without a token is skipped; one that is no document is reported. The only
/// error is a failed allocation.
///
/// Specification: 2.1.6 Lexical Tokens, 2.2 Document.
pub(crate) fn read_texts(
    alloc: Global,
    sources: &[SourceText<'_>],
    bounds: Bounds,
    found: &mut Vec<Reports>,
) -> Result<Vec<Document>, ValidationError>
    ensures silence { IfOk result (λ documents. SilentOnlyIf found.old.items found.new.items (ReadFiles bounds sources.now documents.items)) }
    ensures parsed { IfOk result (λ documents. ParsedFiles bounds sources.now documents.items) }
    ensures truth { OnOk result (KeepsReports (AreErrorsOf bounds sources.now) found.old.items found.new.items) }
{
    let sources = with_tokens(alloc, sources)?;
    let parsed = parse_texts(alloc, &sources, bounds)?;
    add_errors(parsed.errors, found)?;
    Ok(parsed.documents)
}

/// Adds the errors of texts, if there are any.
fn add_errors(errors: Vec<SyntaxReport>, found: &mut Vec<Reports>) -> Result<(), ValidationError>
    ensures silence { OnOk result (SilentOnlyIf found.old.items found.new.items (errors.items ≡ [])) }
    ensures truth { OnOk result (KeepsReports (HasErrors errors.items) found.old.items found.new.items) }
{
    if errors.is_empty() {
        return Ok(());
    }
    found.push(Reports::Syntax(errors))?;
    Ok(())
}

/// The texts that have a token, in order.
fn with_tokens<'a>(
    alloc: Global,
    sources: &[SourceText<'a>],
) -> Result<Vec<SourceText<'a>>, ValidationError>
    ensures { IfOk result (λ kept. LeavesOutEmpty sources.now kept.items) }
{
    let mut kept = Vec::new(alloc);
    for source in sources {
        add_if_token(*source, &mut kept)?;
    }
    Ok(kept)
}

/// Adds the text, if it has a token.
fn add_if_token<'a>(
    source: SourceText<'a>,
    kept: &mut Vec<SourceText<'a>>,
) -> Result<(), ValidationError>
    ensures { OnOk result (AddsIfToken source.entry kept.old.items kept.new.items) }
{
    if has_no_token(source.text) {
        return Ok(());
    }
    kept.push(source)?;
    Ok(())
}
