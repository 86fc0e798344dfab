//! Tokens of programs, as far as they tell where a template string begins.

ghost use Rattle.std.specs.Prelude.{◌≡◌, ◌+◌, ◌<◌, ◌≤◌, length, slice_index, IsTrue};

/// What a token of a program is.
#[derive(Clone, Copy)]
pub(crate) enum TokenKind {
    /// A word or a comment that says that a template string is GraphQL.
    Mark,
    /// White space, or another comment.
    Blank,
    OpeningParenthesis,
    OpeningAngle,
    ClosingAngle,
    Other,
}

/// A token that begins at some byte, and where it ends.
#[derive(Clone, Copy)]
pub(crate) struct Token {
    pub kind: TokenKind,
    pub end: usize,
}

/// The token that begins at this byte, which is in no template string. Regular expressions and the texts of elements are read as code.
pub(crate) fn token_at(bytes: &[u8], at: usize) -> Token
    requires { at < length bytes.now }
    ensures further { at < result.end }
    ensures within { result.end ≤ length bytes.now }
{
    let byte = bytes[at];
    match byte {
        b'/' => token_of_slash(bytes, at),
        b'"' | b'\'' => token_until(TokenKind::Other, string_end(bytes, at)),
        b'\\' => token_until(TokenKind::Other, pair_end(bytes, at)),
        b'=' if follows(bytes, at, b'>') => token_until(TokenKind::Other, at + 2),
        b'(' => token_until(TokenKind::OpeningParenthesis, at + 1),
        b'<' => token_until(TokenKind::OpeningAngle, at + 1),
        b'>' => token_until(TokenKind::ClosingAngle, at + 1),
        _ if continues_word(byte) => word(bytes, at),
        _ if byte.is_ascii_whitespace() => token_until(TokenKind::Blank, at + 1),
        _ => token_until(TokenKind::Other, at + 1),
    }
}

fn token_until(kind: TokenKind, end: usize) -> Token
    ensures { result.end ≡ end }
{
    Token { kind, end }
}

/// Whether this byte is the one after the byte at this place.
pub(crate) fn follows(bytes: &[u8], at: usize, byte: u8) -> bool
    requires { at < length bytes.now }
    ensures within { IsTrue result → at + 1 < length bytes.now }
    ensures byte { IsTrue result → slice_index bytes.now (at + 1) ≡ byte }
{
    at + 1 < bytes.len() && bytes[at + 1] == byte
}

/// Where a backslash and the byte after it end.
pub(crate) fn pair_end(bytes: &[u8], at: usize) -> usize
    requires { at < length bytes.now }
    ensures further { at < result }
    ensures within { result ≤ length bytes.now }
{
    if at + 1 < bytes.len() { at + 2 } else { at + 1 }
}

/// Whether a line ends with this byte.
pub(crate) fn ends_line(byte: u8) -> bool {
    byte == b'\n' || byte == b'\r'
}

/// The comment that begins with this slash, or the slash alone.
fn token_of_slash(bytes: &[u8], at: usize) -> Token
    requires { at < length bytes.now }
    ensures further { at < result.end }
    ensures within { result.end ≤ length bytes.now }
{
    if follows(bytes, at, b'/') {
        return token_until(TokenKind::Blank, line_end(bytes, at + 1));
    }
    if !follows(bytes, at, b'*') {
        return token_until(TokenKind::Other, at + 1);
    }
    let end = comment_end(bytes, at + 2);
    let text = bytes.get(at + 2..end.saturating_sub(2)).unwrap_or(b"");
    if text.trim_ascii().eq_ignore_ascii_case(b"GraphQL") {
        token_until(TokenKind::Mark, end)
    } else {
        token_until(TokenKind::Blank, end)
    }
}

/// The end of the line that this byte is in.
fn line_end(bytes: &[u8], from: usize) -> usize
    requires { from < length bytes.now }
    ensures further { from ≤ result }
    ensures within { result ≤ length bytes.now }
{
    for k in from..bytes.len() {
        if ends_line(bytes[k]) {
            return k;
        }
    }
    bytes.len()
}

/// Where the block comment ends whose text begins at this byte, or the end of the program.
fn comment_end(bytes: &[u8], from: usize) -> usize
    requires { from ≤ length bytes.now }
    ensures further { from ≤ result }
    ensures within { result ≤ length bytes.now }
{
    for k in from..bytes.len() {
        if bytes[k] == b'*' && follows(bytes, k, b'/') {
            return k + 2;
        }
    }
    bytes.len()
}

/// Where the string ends whose quote is at this byte. If it does not end in its line, the quote is an apostrophe and a token by itself.
fn string_end(bytes: &[u8], at: usize) -> usize
    requires { at < length bytes.now }
    ensures further { at < result }
    ensures within { result ≤ length bytes.now }
{
    let quote = bytes[at];
    let mut is_escaped = false;
    for k in at + 1..bytes.len() {
        let byte = bytes[k];
        if is_escaped {
            is_escaped = false;
        } else if byte == b'\\' {
            is_escaped = true;
        } else if byte == quote {
            return k + 1;
        } else if ends_line(byte) {
            break;
        }
    }
    at + 1
}

fn word(bytes: &[u8], at: usize) -> Token
    requires { at < length bytes.now }
    ensures further { at < result.end }
    ensures within { result.end ≤ length bytes.now }
{
    let end = word_end(bytes, at + 1);
    if bytes.get(at..end).is_some_and(is_tag) {
        token_until(TokenKind::Mark, end)
    } else {
        token_until(TokenKind::Other, end)
    }
}

fn is_tag(word: &[u8]) -> bool {
    match word {
        b"gql" => true,
        b"graphql" => true,
        _ => false,
    }
}

fn word_end(bytes: &[u8], from: usize) -> usize
    requires { from ≤ length bytes.now }
    ensures further { from ≤ result }
    ensures within { result ≤ length bytes.now }
{
    for k in from..bytes.len() {
        if !continues_word(bytes[k]) {
            return k;
        }
    }
    bytes.len()
}

/// Whether a word may go on with this byte: those of other alphabets are above 127.
fn continues_word(byte: u8) -> bool {
    byte.is_ascii_alphanumeric() || byte == b'_' || byte == b'$' || byte > 127
}
