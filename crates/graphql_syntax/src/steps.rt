//! What is read in one step.

ghost use Rattle.std.specs.Prelude.{◌≡◌, ◌≤◌, IfOk, IsTrue, length, string_bytes, Err};
ghost use Rattle.graphql_syntax.specs.Inputs.{behind, is_kind, is_keyword, is_string, next_passes, next_text, span_from, start_of, text_of};
ghost use Rattle.graphql_syntax.specs.Reading.{Reads, expect, expect_keyword, input, more_test, name_at};
ghost use Rattle.graphql_syntax.specs.declared.refusals.Refusal.TheVariants.{Unexpected, TooDeep};
ghost use Rattle.std.specs.List.{list_all};
ghost use Rattle.std.specs.Char.{is_ascii};

use crate::cursor::Cursor;
use crate::keywords::Keyword;
use crate::production::More;
use crate::refusals::{Expected, Refusal};
use graphql_nodes::{Name, SourceSpan};
use graphql_tokens::{Token, TokenKind};
use std::alloc::{AllocError, Global};
use std::str;

impl<'a> Cursor<'a> {
    /// Whether a token of this kind comes next.
    #[tactic(auto, unfolding(crate::specs::Inputs::next_passes, crate::specs::Inputs::same_kind))]
    pub fn sees(self, kind: TokenKind) -> bool
        ensures { result ≡ next_passes (is_kind kind) (input self.entry) }
    {
        match self.next() {
            None => false,
            Some(token) => token.kind == kind,
        }
    }

    /// Whether this keyword comes next.
    #[tactic(auto, unfolding(crate::specs::Inputs::next_passes, crate::specs::Inputs::same_kind))]
    pub fn sees_keyword(self, keyword: Keyword) -> bool
        ensures { result ≡ next_passes (is_keyword keyword) (input self.entry) }
    {
        match self.next() {
            None => false,
            Some(token) => token.kind == TokenKind::Name
                && text_of(self.source, token) == keyword.text().as_bytes(),
        }
    }

    /// Whether a string or a block string comes next.
    #[tactic(auto, unfolding(crate::specs::Inputs::next_passes, crate::specs::Inputs::same_kind))]
    pub fn sees_string(self) -> bool
        ensures { result ≡ next_passes is_string (input self.entry) }
    {
        match self.next() {
            None => false,
            Some(token) => token.kind == TokenKind::StringValue
                || token.kind == TokenKind::BlockString,
        }
    }

    /// Whether one more comes.
    #[tactic(auto, unfolding(crate::specs::Inputs::next_passes, crate::specs::Inputs::same_kind))]
    pub fn has_more(self, more: More) -> bool
        ensures { result ≡ next_passes (more_test more) (input self.entry) }
    {
        match self.next() {
            None => false,
            Some(token) => match more {
                More::Until(closing) => token.kind != closing,
                More::While(opening) => token.kind == opening,
                More::UntilEnd => true,
            },
        }
    }

    /// The cursor behind the next token.
    #[tactic(auto, unfolding(crate::specs::Inputs::behind))]
    pub fn behind(self) -> Cursor<'a>
        ensures { input result ≡ behind (input self.entry) }
    {
        let Some(token) = self.next() else {
            return self;
        };
        let (_, tokens) = self.tokens.split_at(1);
        Cursor {
            source: self.source,
            tokens,
            ended: token.end,
            file_id: self.file_id,
        }
    }

    /// Where the next token begins.
    #[tactic(auto, unfolding(crate::specs::Inputs::start_of))]
    pub fn start(self) -> u32
        ensures { result ≡ start_of (input self.entry) }
    {
        match self.next() {
            None => self.ended,
            Some(token) => token.start,
        }
    }

    /// The place from a byte up to where the last token ended.
    pub fn span_from(self, start: u32) -> SourceSpan
        ensures { result ≡ span_from start (input self.entry) }
    {
        SourceSpan {
            file_id: self.file_id,
            start,
            end: self.ended,
        }
    }

    /// The refusal of the next token.
    pub fn refusal(self, expected: Expected) -> Refusal
        ensures { result ≡ Unexpected (length (input self.entry).tokens) expected }
    {
        Refusal::Unexpected(self.tokens.len(), expected)
    }

    /// The refusal of the next token, with which one bracket more opens than may be open.
    pub fn too_deep(self) -> Refusal
        ensures { result ≡ TooDeep (length (input self.entry).tokens) }
    {
        Refusal::TooDeep(self.tokens.len())
    }

    /// The cursor behind the next token, which is to be of this kind.
    #[tactic(auto, unfolding(crate::specs::Reading::take_one, crate::specs::Reading::refuse))]
    pub fn expect(self, kind: TokenKind) -> Result<Cursor<'a>, Refusal>
        ensures { Reads (λ c. (tt, input c)) result (expect kind (input self.entry)) }
    {
        if self.sees(kind) {
            Ok(self.behind())
        } else {
            Err(self.refusal(Expected::Token(kind)))
        }
    }

    /// The cursor behind the next token, which is to be this keyword.
    #[tactic(auto, unfolding(crate::specs::Reading::take_one, crate::specs::Reading::refuse))]
    pub fn expect_keyword(self, keyword: Keyword) -> Result<Cursor<'a>, Refusal>
        ensures { Reads (λ c. (tt, input c)) result (expect_keyword keyword (input self.entry)) }
    {
        if self.sees_keyword(keyword) {
            Ok(self.behind())
        } else {
            Err(self.refusal(Expected::Keyword(keyword)))
        }
    }

    /// The name that comes next, and the cursor behind it.
    ///
    /// Specification: 2.1.9 Names.
    #[tactic(auto, unfolding(crate::specs::Reading::name_at, crate::specs::Reading::refuse))]
    pub fn name(self, alloc: Global) -> Result<(Name, Cursor<'a>), Refusal>
        ensures { Reads (λ found. (found.0, input found.1)) result (name_at (input self.entry)) }
    {
        if !self.sees(TokenKind::Name) {
            return Err(self.refusal(Expected::Token(TokenKind::Name)));
        }
        let behind = self.behind();
        let place = behind.span_from(self.start());
        let name = Name::from_bytes(alloc, self.next_text(), Some(place))?;
        Ok((name, behind))
    }

    /// The text of the next token.
    #[tactic(auto, unfolding(crate::specs::Inputs::next_text))]
    pub fn next_text(self) -> &'a [u8]
        ensures { result.now ≡ next_text (input self.entry) }
    {
        match self.next() {
            None => &[],
            Some(token) => text_of(self.source, token),
        }
    }
}

fn text_of(source: &[u8], token: Token) -> &[u8]
    requires ordered { token.start ≤ token.end }
    requires within { token.end ≤ length source.now }
    ensures { result.now ≡ text_of source.now token }
{
    let (front, _) = source.split_at(token.end as usize);
    let (_, text) = front.split_at(token.start as usize);
    text
}

/// The text of bytes that are ASCII.
pub fn ascii_text(alloc: Global, bytes: &[u8]) -> Result<String, AllocError>
    requires { IsTrue (list_all is_ascii bytes.now) }
    ensures { IfOk result (λ text. string_bytes text ≡ bytes.now) }
{
    match str::from_utf8(bytes) {
        Ok(text) => String::from_str(alloc, text),
        Err(_) => unreachable!(),
    }
}
