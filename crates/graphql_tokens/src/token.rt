/// The kinds of token. A kind alone does not tell a keyword from another name.
///
/// Specification: 2.1.6 Lexical Tokens, 2.1.8 Punctuators.
#[derive(Clone, Copy, Debug, PartialEq, Eq)]
pub enum TokenKind {
    /// `!`
    ExclamationMark,
    /// `$`
    Dollar,
    /// `&`
    Ampersand,
    /// `(`
    LeftParenthesis,
    /// `)`
    RightParenthesis,
    /// `...`
    Spread,
    /// `:`
    Colon,
    /// `=`
    Equals,
    /// `@`
    At,
    /// `[`
    LeftBracket,
    /// `]`
    RightBracket,
    /// `{`
    LeftBrace,
    /// `|`
    VerticalBar,
    /// `}`
    RightBrace,
    Name,
    IntValue,
    FloatValue,
    /// A string between single quotes.
    StringValue,
    /// A string between triple quotes.
    BlockString,
}

/// A token: its kind, and its bytes from `start` up to `end`.
///
/// Specification: 2.1.6 Lexical Tokens.
#[derive(Clone, Copy, Debug, PartialEq, Eq)]
pub struct Token {
    pub kind: TokenKind,
    pub start: u32,
    pub end: u32,
}
