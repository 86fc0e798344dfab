//! What helps, in words.

ghost use Rattle.std.specs.Prelude.{Some};
ghost use Rattle.graphql_syntax_helps.specs.HelpWords.{syntax_help_words};

use std::fmt;

/// What helps with a text that is no document.
#[derive(Clone, Copy, Debug, PartialEq, Eq)]
pub enum SyntaxHelp {
    /// No quote ends the string on its line.
    UnclosedString,
    /// Three quotes begin a block string, which is no token.
    BlockString,
    /// The string has an escape that there is not.
    UnknownEscape,
    /// The string has escapes of characters by their codes.
    UnicodeEscape,
    /// The number begins with a zero before another digit.
    LeadingZero,
    /// More characters follow the digits of a number.
    UnfinishedNumber,
    /// A string begins with an apostrophe.
    DoubleQuotes,
    /// A semicolon ends a statement of other languages.
    NoSemicolon,
    /// A slash begins a comment of other languages.
    NumberSign,
    /// A name is in quotes.
    NoQuotes,
    /// An equals sign is in the place of a colon.
    Colon,
    /// A comma is between two interfaces.
    Ampersand,
}

impl fmt::Display for SyntaxHelp {
    ghost output = { λ help. Some (syntax_help_words help) };

    fn fmt<W: fmt::Write>(&self, f: &mut fmt::Formatter<W>) -> fmt::Result {
        f.write_str(match self {
            SyntaxHelp::UnclosedString => "the string has no closing quote on this line",
            SyntaxHelp::BlockString => {
                "the block string has no closing `\"\"\"`, or it has a control character"
            }
            SyntaxHelp::UnknownEscape => {
                "after a backslash comes one of `\"`, `\\`, `/`, `b`, `f`, `n`, `r`, `t` and `u`"
            }
            SyntaxHelp::UnicodeEscape => {
                "`\\u` takes four hexadecimal digits, or a code in braces; half of a surrogate pair needs the other half"
            }
            SyntaxHelp::LeadingZero => "a number has no zeros before its first digit",
            SyntaxHelp::UnfinishedNumber => {
                "a number ends before a letter, `_` or `.`; digits follow `.`, `e` and `E`"
            }
            SyntaxHelp::DoubleQuotes => "strings are written in double quotes",
            SyntaxHelp::NoSemicolon => "leave out the semicolon",
            SyntaxHelp::NumberSign => "comments begin with `#`",
            SyntaxHelp::NoQuotes => "names are written without quotes",
            SyntaxHelp::Colon => "write `:` in place of `=`",
            SyntaxHelp::Ampersand => "write `&` between interfaces",
        })
    }
}
