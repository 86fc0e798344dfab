//! What is left of texts.

ghost use Rattle.std.specs.List.{AllZip};
ghost use Rattle.std.specs.Prelude.{◌≡◌, ◌∷◌, ◌++◌, [], IfOk, IfSome, OnOk};
ghost use Rattle.std.specs.String.{string_bytes};
ghost use Rattle.graphql_kept_projects.specs.Left.{IsLeft, IsLess, IsTextLeft, rest_text};
ghost use Rattle.graphql_kept_reports.specs.Cuts.{IsKeptOf};

use graphql_frontend::{FileId, SourceText, ValidationError};
use graphql_kept_reports::{Doubts, Faults, Kept, kept_of};
use graphql_parser::{Bounds, SyntaxError, parse_document};
use std::alloc::{AllocError, Global};

/// What is left of a text.
#[derive(Drop)]
pub(crate) struct LeftText {
    pub(crate) file_id: FileId,
    pub(crate) text: String,
}

/// What is left of texts.
#[derive(Drop)]
pub(crate) struct Left {
    pub(crate) texts: Vec<LeftText>,
    /// `__typename` is in the place of a part.
    has_type_name: bool,
}

impl LeftText {
    /// All of this text.
    fn of(alloc: Global, source: SourceText<'_>) -> Result<LeftText, AllocError>
        ensures { IfOk result (IsTextLeft source.entry) }
    {
        Ok(LeftText {
            file_id: source.file_id,
            text: String::from_str(alloc, source.text)?,
        })
    }
}

impl Left {
    /// All of these texts.
    pub(crate) fn of(alloc: Global, read: &[SourceText<'_>]) -> Result<Left, AllocError>
        ensures { IfOk result (IsLeft read.now) }
    {
        let mut texts = Vec::new(alloc);
        for source in read {
            texts.push(LeftText::of(alloc, *source)?)?;
        }
        Ok(Left {
            texts,
            has_type_name: false,
        })
    }

    /// Adds what is left of a text without what is at fault.
    fn add(
        &mut self,
        alloc: Global,
        left: LeftText,
        faults: &Faults,
        bounds: Bounds,
    ) -> Result<(), ValidationError>
        ensures { OnOk result ((rest : LeftText) × IsLess left rest × (self.new.texts.items ≡ self.old.texts.items ++ rest ∷ [])) }
    {
        let LeftText { file_id, text } = left;
        let kept = without_faults(alloc, file_id, text.as_str(), faults, bounds)?;
        let (text, has_type_name) = rest_of(text, kept);
        self.has_type_name = self.has_type_name || has_type_name;
        self.texts.push(LeftText { file_id, text })?;
        Ok(())
    }
}

/// The text that is kept, or else the whole text; and whether `__typename` is in the place of a part.
fn rest_of(text: String, kept: Option<Kept>) -> (String, bool)
    ensures { result.0 ≡ rest_text text kept }
{
    match kept {
        Some(
            Kept {
                text,
                has_type_name,
            },
        ) => (text, has_type_name),
        None => (text, false),
    }
}

/// What is left of texts without what is at fault, besides what was left out before.
pub(crate) fn left_without(
    alloc: Global,
    faults: &Faults,
    bounds: Bounds,
    left: Left,
) -> Result<Left, ValidationError>
    ensures { IfOk result (λ rest. AllZip IsLess left.texts.items rest.texts.items) }
{
    let Left {
        texts,
        has_type_name,
    } = left;
    let mut kept = Left {
        texts: Vec::new(alloc),
        has_type_name,
    };
    for text in texts {
        kept.add(alloc, text, faults, bounds)?;
    }
    Ok(kept)
}

/// What is left of the text without what is at fault, if it is a document and something is.
fn without_faults(
    alloc: Global,
    file_id: FileId,
    text: &str,
    faults: &Faults,
    bounds: Bounds,
) -> Result<Option<Kept>, ValidationError>
    ensures { IfOk result (λ kept. IfSome kept (IsKeptOf text.now)) }
{
    if !faults.may_be_in(file_id) {
        return Ok(None);
    }
    match parse_document(alloc, file_id, text, bounds) {
        Ok(document) => Ok(kept_of(alloc, text, &document, faults)?),
        Err(SyntaxError::OutOfMemory) => Err(ValidationError::OutOfMemory),
        Err(_) => Ok(None),
    }
}

/// Which reports on what is left could be false of the whole texts.
pub(crate) fn doubts_of(
    alloc: Global,
    whole: &[SourceText<'_>],
    left: &Left,
) -> Result<Doubts, AllocError> {
    let mut doubts = Doubts::new(alloc);
    if left.has_type_name {
        doubts.note_type_name();
    }
    for (source, left) in whole.iter().zip(left.texts.iter()) {
        doubts.add(alloc, source.text, left.text.as_str())?;
    }
    Ok(doubts)
}

/// What is left of texts, under their numbers.
pub(crate) fn sources_of<'a>(
    alloc: Global,
    left: &'a Left,
) -> Result<Vec<SourceText<'a>>, AllocError>
    ensures { IfOk result (λ sources. AllZip (λ t s. (s.file_id ≡ t.file_id) × (s.text.now ≡ string_bytes t.text)) left.now.texts.items sources.items) }
{
    let mut sources = Vec::new(alloc);
    for left in &left.texts {
        sources.push(SourceText {
            file_id: left.file_id,
            text: left.text.as_str(),
        })?;
    }
    Ok(sources)
}
