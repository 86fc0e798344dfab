//! What tokens are called.

ghost use Rattle.std.specs.Prelude.{◌≡◌, Some};
ghost use Rattle.graphql_syntax_messages.specs.SyntaxMessages.{character_words, expected_words, kind_words};

use graphql_syntax::Expected;
use graphql_tokens::TokenKind;
use std::fmt;

/// What a token of this kind is called: a punctuator is named by itself, in backquotes.
pub fn kind_words(kind: TokenKind) -> &'static str
    ensures { result.now ≡ kind_words kind }
{
    match kind {
        TokenKind::ExclamationMark => "`!`",
        TokenKind::Dollar => "`$`",
        TokenKind::Ampersand => "`&`",
        TokenKind::LeftParenthesis => "`(`",
        TokenKind::RightParenthesis => "`)`",
        TokenKind::Spread => "`...`",
        TokenKind::Colon => "`:`",
        TokenKind::Equals => "`=`",
        TokenKind::At => "`@`",
        TokenKind::LeftBracket => "`[`",
        TokenKind::RightBracket => "`]`",
        TokenKind::LeftBrace => "`{`",
        TokenKind::VerticalBar => "`|`",
        TokenKind::RightBrace => "`}`",
        TokenKind::Name => "a name",
        TokenKind::IntValue => "an integer",
        TokenKind::FloatValue => "a float",
        TokenKind::StringValue => "a string",
        TokenKind::BlockString => "a block string",
    }
}

/// What was expected in place of a token, in words.
#[derive(Clone, Copy, Debug, PartialEq, Eq)]
pub struct ExpectedWords(pub Expected);

impl fmt::Display for ExpectedWords {
    ghost output = { λ words. Some (expected_words words.0) };

    fn fmt<W: fmt::Write>(&self, f: &mut fmt::Formatter<W>) -> fmt::Result {
        match self.0 {
            Expected::Token(kind) => f.write_str(kind_words(kind)),
            Expected::Keyword(keyword) => {
                let text = keyword.text();
                write!(f, "`{text}`")
            }
            Expected::Value => f.write_str("a value"),
            Expected::ConstantValue => f.write_str("a constant value"),
            Expected::EnumValue => f.write_str("an enum value"),
            Expected::FragmentName => f.write_str("a fragment name"),
            Expected::Selection => f.write_str("a selection"),
            Expected::OperationType => f.write_str("an operation type"),
            Expected::Definition => f.write_str("a definition"),
            Expected::TypeSystemDefinition => f.write_str("a type system definition"),
            Expected::Extension => f.write_str("an extension"),
            Expected::ExtensionPart => f.write_str("a part of the extension"),
            Expected::DirectiveLocation => f.write_str("a directive location"),
        }
    }
}

/// A character: itself in backquotes, or the number of a control character.
#[derive(Clone, Copy, Debug, PartialEq, Eq)]
pub struct CharacterWords(pub char);

impl fmt::Display for CharacterWords {
    ghost output = { λ words. Some (character_words words.0) };

    #[tactic(auto, using(crate::proofs::MessageLemmas::control_words))]
    fn fmt<W: fmt::Write>(&self, f: &mut fmt::Formatter<W>) -> fmt::Result {
        let character = self.0;
        if character.is_control() {
            let number = u32::from(character);
            write!(f, "U+00{number:02X}")
        } else {
            write!(f, "`{character}`")
        }
    }
}
