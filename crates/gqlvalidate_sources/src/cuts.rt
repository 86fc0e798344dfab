//! Texts that are no documents, with their parts as texts beside them: so that a fault in one definition hides no fault in another.

use crate::run_texts::RunTexts;
use gqlvalidate_runs::named_texts::NamedText;
use graphql_frontend::{ProjectReports, Reports, SourceText, SyntaxReport, ValidationError};
use graphql_parser::{Bounds, SyntaxError};
use graphql_text_parts::{parts_beside, text_of_part};
use std::alloc::{AllocError, Global};
use std::collections::BTreeMap;

/// The parts of texts, as texts in which all else is blank, by the positions of the texts.
pub type Cuts = BTreeMap<usize, Vec<String>>;

/// The parts of those of these texts that are no documents.
pub fn cuts_of(
    alloc: Global,
    texts: &[SourceText<'_>],
    found: &ProjectReports,
    bounds: Bounds,
) -> Result<Cuts, ValidationError> {
    let mut cuts = BTreeMap::new(alloc);
    for reports in &found.lists {
        if let Reports::Syntax(errors) = reports {
            add_cuts(alloc, texts, errors, bounds, &mut cuts)?;
        }
    }
    Ok(cuts)
}

/// Adds the parts of those of these texts that have these errors.
pub fn add_cuts(
    alloc: Global,
    texts: &[SourceText<'_>],
    errors: &[SyntaxReport],
    bounds: Bounds,
    cuts: &mut Cuts,
) -> Result<(), ValidationError> {
    let mut by_file = BTreeMap::new(alloc);
    for report in errors {
        by_file.insert(report.file_id.0, report.error)?;
    }
    for (position, text) in texts.iter().enumerate() {
        let Some(error) = by_file.get(&text.file_id.0) else {
            continue;
        };
        let parts = texts_of_parts(alloc, text.text, *error, bounds)?;
        if !parts.is_empty() {
            cuts.insert(position, parts)?;
        }
    }
    Ok(())
}

fn texts_of_parts(
    alloc: Global,
    text: &str,
    error: SyntaxError,
    bounds: Bounds,
) -> Result<Vec<String>, ValidationError> {
    let parts = parts_beside(alloc, text, error, bounds)?;
    let mut texts = Vec::new(alloc);
    for part in parts {
        if let Some(part) = text_of_part(alloc, text, part)? {
            texts.push(part)?;
        }
    }
    Ok(texts)
}

/// How many texts they are.
pub fn count_of(cuts: &Cuts) -> usize {
    let mut count = 0_usize;
    for parts in cuts.values() {
        count = count.saturating_add(parts.len());
    }
    count
}

/// These texts, as they are shown and as they are read, each with its parts after it, under its path. They are numbered anew, from the number of
/// the first one.
pub fn with_cuts<'a>(
    alloc: Global,
    shown: &[NamedText<'a>],
    read: &[SourceText<'a>],
    cuts: &'a Cuts,
) -> Result<RunTexts<'a>, AllocError> {
    let first = shown.first().map_or(0, |text| text.source.file_id.0);
    let mut all = RunTexts::from_number(alloc, first);
    for (position, (text, source)) in shown.iter().zip(read.iter()).enumerate() {
        all.push(text.path, text.source.text, source.text)?;
        if let Some(parts) = cuts.get(&position) {
            all.add_parts(text.path, text.source.text, parts)?;
        }
    }
    Ok(all)
}
