//! The files of a schema, as texts.

ghost use Rattle.std.specs.Prelude.{◌≡◌, IfErr, IfOk, IsUtf8, map};
ghost use Rattle.graphql_answers.specs.Files.{IsRefusalOfFile, IsRefusalOfFiles, file_at, file_text, name_of, texts_of_files};
ghost use Rattle.graphql_report_formats.specs.NamedTexts.{named_text, path_of};

use crate::answers::Refusal;
use crate::texts::text_of;
use graphql_kept_projects::frontend::SourceText;
use graphql_nodes::FileId;
use graphql_report_formats::named_texts::NamedText;
use graphql_report_formats::schema_texts::BUILT_IN_TEXT;
use std::alloc::Global;

/// A file of a schema, in UTF-8.
#[repr(C)]
#[derive(Clone, Copy)]
pub struct SchemaFile<'a> {
    /// What reports call it. Reports do not name a file whose name is empty.
    pub name: &'a [u8],
    pub text: &'a [u8],
}

/// The texts of a schema: the definitions that every schema has, and these files, in order.
pub(crate) fn named_texts<'a>(
    alloc: Global,
    files: &[SchemaFile<'a>],
) -> Result<Vec<NamedText<'a>>, Refusal>
    ensures texts { IfOk result (λ texts. map named_text texts.items ≡ texts_of_files files.now) }
    ensures refused { IfErr result (IsRefusalOfFiles files.now) }
{
    let mut texts = Vec::new(alloc);
    texts.push(BUILT_IN_TEXT)?;
    for (place, file) in files.iter().enumerate() {
        let text = text_of_file(place, file)?;
        texts.push(text)?;
    }
    Ok(texts)
}

/// The text of the file at this place among the files of a schema.
fn text_of_file<'a>(place: usize, file: &SchemaFile<'a>) -> Result<NamedText<'a>, Refusal>
    ensures text { IfOk result (λ text. named_text text ≡ file_text place file.now) }
    ensures refused { IfErr result (IsRefusalOfFile file.now) }
{
    let path = path_of(file.name)?;
    let text = text_of(file.text)?;
    Ok(NamedText {
        path,
        source: SourceText {
            file_id: file_id(place),
            text,
        },
    })
}

/// What reports call a file, if it has a name.
fn path_of<'a>(name: &'a [u8]) -> Result<Option<&'a str>, Refusal>
    ensures path { IfOk result (λ path. path_of path ≡ name_of name.now) }
    ensures refused { IfErr result (λ refusal. (refusal ≡ Refusal.NotUtf8) × ¬ IsUtf8 name.now) }
{
    if name.is_empty() {
        return Ok(None);
    }
    Ok(Some(text_of(name)?))
}

/// The number of the file at this place. The first one has that of the one text of a schema, and none has that of the document.
fn file_id(place: usize) -> FileId
    ensures { result ≡ file_at place }
{
    if place == 0 {
        return FileId(1);
    }
    FileId(place.min(u32::MAX as usize - 2) as u32 + 2)
}
