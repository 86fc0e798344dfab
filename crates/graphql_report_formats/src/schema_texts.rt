//! The texts of a schema.

ghost use Rattle.std.specs.Prelude.{◌≡◌, IfOk, map};
ghost use Rattle.graphql_report_formats.specs.NamedTexts.{named_text, path_of, schema_path};
ghost use Rattle.graphql_report_formats.specs.declared.named_texts.NamedText as named_type;

use crate::named_texts::{NamedText, Subject};
use graphql_findings::SourceText;
use graphql_nodes::FileId;
use graphql_schema_building::BUILT_IN_DEFINITIONS;
use std::alloc::{AllocError, Global};

/// The definitions that every schema has, as the first of its texts.
pub const BUILT_IN_TEXT: NamedText<'static> = NamedText {
    path: Some("<built-in>"),
    source: SourceText {
        file_id: FileId::BUILT_IN,
        text: BUILT_IN_DEFINITIONS,
    },
};

/// The texts without their paths.
pub fn sources_of<'a>(
    alloc: Global,
    named: &[NamedText<'a>],
) -> Result<Vec<SourceText<'a>>, AllocError>
    ensures { IfOk result (λ sources. sources.items ≡ map (λ (text : named_type.NamedText). text.source) named.now) }
{
    let mut sources = Vec::new(alloc);
    for text in named {
        sources.push(text.source)?;
    }
    Ok(sources)
}

/// What reports of a schema are about. One without a place is about its first file, which comes behind the
/// definitions that every schema has.
pub fn schema_subject<'a>(texts: &'a [NamedText<'a>], sources: &'a [SourceText<'a>]) -> Subject<'a>
    ensures texts { result.texts ≡ texts.entry }
    ensures sources { result.sources ≡ sources.entry }
    ensures path { path_of result.path ≡ schema_path (map named_text texts.now) }
{
    Subject {
        path: schema_path(texts),
        texts,
        sources,
    }
}

/// The path of the first file of a user.
fn schema_path<'a>(texts: &[NamedText<'a>]) -> Option<&'a str>
    ensures { path_of result ≡ schema_path (map named_text texts.now) }
{
    match texts.get(1) {
        Some(named) => named.path,
        None => BUILT_IN_TEXT.path,
    }
}
