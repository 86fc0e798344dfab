//! The texts that reports are about, with the paths of their files.

ghost use Rattle.std.specs.Prelude.{◌≡◌, ◌++◌, IfOk, codes, map, unwrap_or};
ghost use Rattle.std.specs.Option.{option_map};
ghost use Rattle.graphql_report_formats.specs.NamedTexts.{all_texts, counted_text, named_text, part, part_at, part_of, path_of, place_in, texts_of};

use graphql_findings::SourceText;
use graphql_nodes::{FileId, SourceSpan};
use graphql_places::{LineIndex, Place};
use std::alloc::{AllocError, Global};

/// A text, and what reports call its file, if it is of one.
#[derive(Clone, Copy)]
pub struct NamedText<'a> {
    pub path: Option<&'a str>,
    pub source: SourceText<'a>,
}

/// What reports are about.
#[derive(Clone, Copy)]
pub struct Subject<'a> {
    /// The file of a report that has no place.
    pub path: Option<&'a str>,
    pub texts: &'a [NamedText<'a>],
    /// The sources of `texts`, in the same order.
    pub sources: &'a [SourceText<'a>],
}

/// What reports are about, with the lines of its texts counted.
pub struct CountedSubject<'a> {
    /// The file of a report that has no place.
    pub path: Option<&'a str>,
    texts: Vec<CountedText<'a>>,
}

// Written out, so that only this crate proves it: a derived one is proved again in each crate that drops subjects.
impl Drop for CountedSubject<'_> {
    fn drop(self) {
        let CountedSubject { path: _, texts: _ } = self;
    }
}

#[derive(Drop)]
struct CountedText<'a> {
    path: Option<&'a str>,
    file_id: FileId,
    lines: LineIndex<'a>,
}

/// The texts that findings are about, with their lines counted: those that are validated, and those of the schema.
#[derive(Clone, Copy)]
pub struct Texts<'a> {
    pub subject: &'a CountedSubject<'a>,
    /// The texts of the schema, if these are others.
    pub schema: Option<&'a CountedSubject<'a>>,
}

/// A part of a text.
#[derive(Clone, Copy)]
pub struct Located<'a> {
    pub path: Option<&'a str>,
    pub text: &'a str,
    pub span: SourceSpan,
    /// Where the part begins.
    pub start: Place,
    /// Where it ends.
    pub end: Place,
}

impl<'a> CountedSubject<'a> {
    /// Counts the lines of the texts.
    pub fn new(alloc: Global, subject: Subject<'a>) -> Result<CountedSubject<'a>, AllocError>
        ensures path { IfOk result (λ counted. counted.path ≡ subject.entry.path) }
        ensures texts { IfOk result (λ counted. texts_of counted ≡ map named_text subject.entry.texts.now) }
    {
        let mut texts = Vec::new(alloc);
        for named in subject.texts {
            texts.push(CountedText {
                path: named.path,
                file_id: named.source.file_id,
                lines: LineIndex::new(alloc, named.source.text)?,
            })?;
        }
        Ok(CountedSubject {
            path: subject.path,
            texts,
        })
    }

    /// The part that this span is of the text of its file: the first text that is of it. None, if there is no span, or if no
    /// text is of its file.
    pub fn locate(&self, span: Option<SourceSpan>) -> Option<Located<'a>>
        ensures { option_map part result ≡ part_at (texts_of self.now) span }
    {
        let span = span?;
        for counted in &self.texts {
            if counted.file_id.0 == span.file_id.0 {
                return Some(counted.part(span));
            }
        }
        None
    }
}

impl<'a> CountedText<'a> {
    /// The part of this text that a span of its file is.
    fn part(&self, span: SourceSpan) -> Located<'a>
        ensures { part result ≡ part_of span (counted_text self.now) }
    {
        let text = self.lines.text();
        Located {
            path: self.path,
            text,
            span,
            start: self.place(span.start as usize),
            end: self.place(span.end as usize),
        }
    }

    /// The place of a byte of the text; behind the text, the place of its end.
    fn place(&self, at: usize) -> Place
        ensures { result ≡ place_in (counted_text self.now).text at }
    {
        self.lines.place(at.min(self.lines.text().len()))
    }
}

impl<'a> Texts<'a> {
    /// The file of a report that has no place.
    pub fn path(&self) -> Option<&'a str>
        ensures { path_of result ≡ path_of self.now.subject.now.path }
    {
        self.subject.path
    }

    /// The part that this span is of the text of its file: the first text that is of it. None, if there is no span, or if no
    /// text is of its file.
    pub fn locate(&self, span: Option<SourceSpan>) -> Option<Located<'a>>
        ensures { option_map part result ≡ part_at (all_texts self.now) span }
    {
        match self.schema {
            Some(schema) => locate_in_either(self.subject, schema, span),
            None => self.subject.locate(span),
        }
    }
}

/// The part of a text of the first, or else of the second.
fn locate_in_either<'a>(
    first: &'a CountedSubject<'a>,
    second: &'a CountedSubject<'a>,
    span: Option<SourceSpan>,
) -> Option<Located<'a>>
    ensures { option_map part result ≡ part_at (texts_of first.now ++ texts_of second.now) span }
{
    match first.locate(span) {
        Some(located) => Some(located),
        None => second.locate(span),
    }
}

/// What a line calls a text: its path, if it is of a file.
pub fn shown_name(path: Option<&str>) -> &str
    ensures { result.now ≡ unwrap_or (path_of path.entry) (codes "<text>") }
{
    path.unwrap_or("<text>")
}
