//! The texts of bytes.

ghost use Rattle.std.specs.Prelude.{◌≡◌, [], ◌∷◌, IsUtf8, MatchResult, map};
ghost use Rattle.graphql_answers.specs.Answers.{schema_texts, unnamed};
ghost use Rattle.graphql_report_formats.specs.NamedTexts.{named_text};

use crate::answers::Refusal;
use graphql_kept_projects::frontend::SourceText;
use graphql_report_formats::named_texts::NamedText;
use graphql_report_formats::schema_texts::BUILT_IN_TEXT;

/// The text of these bytes.
pub(crate) fn text_of(bytes: &[u8]) -> Result<&str, Refusal>
    ensures { MatchResult result (λ text. text.now ≡ bytes.now) (λ refusal. (refusal ≡ Refusal.NotUtf8) × ¬ IsUtf8 bytes.now) }
{
    match std::str::from_utf8(bytes) {
        Ok(text) => Ok(text),
        Err(_error) => Err(Refusal::NotUtf8),
    }
}

/// The texts of a schema, as reports name them: the one of a user is of no file that they name.
pub(crate) fn schema_texts<'a>(sources: [SourceText<'a>; 2]) -> [NamedText<'a>; 2]
    ensures { map named_text result ≡ schema_texts sources.entry }
{
    let [built_in, own] = sources;
    [
        NamedText {
            path: BUILT_IN_TEXT.path,
            source: built_in,
        },
        unnamed(own),
    ]
}

/// A text that is of no file that reports name.
pub(crate) fn unnamed<'a>(source: SourceText<'a>) -> NamedText<'a>
    ensures { named_text result ≡ unnamed source.entry }
{
    NamedText { path: None, source }
}
