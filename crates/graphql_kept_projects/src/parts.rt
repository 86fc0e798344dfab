//! Parts of texts that are no documents.

ghost use Rattle.std.specs.Prelude.{[], ◌∷◌, All, IfOk, List, OnOk};
ghost use Rattle.graphql_frontend.specs.declared.texts.SourceText as source_text;
ghost use Rattle.graphql_kept_projects.specs.Documents.{AddsParts, IsOneOrPart, IsPartOfOne};

use crate::kept::LeftText;
use graphql_frontend::{FileId, Reports, SourceText, SyntaxReport, ValidationError};
use graphql_parser::{Bounds, SyntaxError};
use graphql_text_parts::{parts_beside, text_of_part};
use std::alloc::{AllocError, Global};
use std::collections::BTreeMap;

/// The parts that are to be read of those of these texts that are no documents, as these reports say: all but those in which the first errors are.
pub(crate) fn parts_of(
    alloc: Global,
    sources: &[SourceText<'_>],
    reports: &Reports,
    bounds: Bounds,
) -> Result<Vec<LeftText>, ValidationError>
    ensures { IfOk result (λ parts. All (IsPartOfOne sources.now) parts.items) }
{
    let mut parts = Vec::new(alloc);
    if let Reports::Syntax(errors) = reports {
        let by_file = errors_by_file(alloc, errors)?;
        add_all_parts(alloc, sources, &by_file, bounds, &mut parts)?;
    }
    Ok(parts)
}

/// The errors of texts, by the numbers of these.
pub(crate) fn errors_by_file(
    alloc: Global,
    errors: &[SyntaxReport],
) -> Result<BTreeMap<u32, SyntaxError>, AllocError> {
    let mut by_file = BTreeMap::new(alloc);
    for report in errors {
        let FileId(number) = report.file_id;
        by_file.insert(number, report.error)?;
    }
    Ok(by_file)
}

fn add_all_parts(
    alloc: Global,
    sources: &[SourceText<'_>],
    by_file: &BTreeMap<u32, SyntaxError>,
    bounds: Bounds,
    parts: &mut Vec<LeftText>,
) -> Result<(), ValidationError>
    ensures { OnOk result (AddsParts sources.now parts.old.items parts.new.items) }
{
    for source in sources {
        let FileId(number) = source.file_id;
        if let Some(error) = by_file.get(&number) {
            add_parts(alloc, *source, *error, bounds, parts)?;
        }
    }
    Ok(())
}

/// Adds the parts of a text that has this error.
fn add_parts(
    alloc: Global,
    source: SourceText<'_>,
    error: SyntaxError,
    bounds: Bounds,
    parts: &mut Vec<LeftText>,
) -> Result<(), ValidationError>
    ensures { OnOk result (AddsParts (source.entry ∷ []) parts.old.items parts.new.items) }
{
    for part in parts_beside(alloc, source.text, error, bounds)? {
        if let Some(text) = text_of_part(alloc, source.text, part)? {
            parts.push(LeftText {
                file_id: source.file_id,
                text,
            })?;
        }
    }
    Ok(())
}

/// These texts, and behind them their parts.
pub(crate) fn with_parts<'a>(
    alloc: Global,
    sources: &[SourceText<'a>],
    parts: &'a [LeftText],
) -> Result<Vec<SourceText<'a>>, AllocError>
    ensures { (whole : List source_text.SourceText) → All (IsOneOrPart whole) sources.now → All (IsPartOfOne whole) parts.now → IfOk result (λ all. All (IsOneOrPart whole) all.items) }
{
    let mut all = Vec::from_slice(alloc, sources)?;
    for part in parts {
        all.push(SourceText {
            file_id: part.file_id,
            text: part.text.as_str(),
        })?;
    }
    Ok(all)
}
