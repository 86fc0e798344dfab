//! Which fragments a text defines and spreads.

use graphql_tokens::{Token, TokenKind, scan};
use std::alloc::{AllocError, Global};
use std::mem::replace;

/// A fragment, and the names of the fragments that it spreads itself.
#[derive(Drop)]
pub(crate) struct FragmentLinks {
    pub name: String,
    pub spreads: Vec<String>,
}

/// The fragments that a text defines, and the names of those that it spreads.
#[derive(Drop)]
pub(crate) struct Links {
    /// What the operations spread themselves.
    pub operations: Vec<String>,
    pub fragments: Vec<FragmentLinks>,
}

impl Links {
    /// Those of no definition.
    fn new(alloc: Global) -> Links {
        Links {
            operations: Vec::new(alloc),
            fragments: Vec::new(alloc),
        }
    }

    /// Adds an operation that spreads these.
    fn add_operation(&mut self, spreads: Vec<String>) -> Result<(), AllocError> {
        for name in spreads {
            self.operations.push(name)?;
        }
        Ok(())
    }
}

/// What the next token of a text begins, or continues.
#[derive(Clone, Copy, PartialEq, Eq)]
enum Place {
    /// A definition.
    Definition,
    /// The name of a fragment.
    FragmentName,
    /// The rest of a definition.
    Rest,
}

/// A text that is read up to a token.
#[derive(Drop)]
struct Reader<'a> {
    text: &'a str,
    place: Place,
    /// How many brackets and braces are open.
    depth: usize,
    /// The last token is `...`.
    follows_spread: bool,
    /// The name of the definition, if it is one of a fragment.
    fragment: Option<String>,
    /// What the definition spreads.
    spreads: Vec<String>,
    /// The links of the definitions that ended.
    links: Links,
}

/// The links of a text. Of a text that is no executable document, they may be any. The only error is a failed allocation.
///
/// Specification: 2.2 Document, 2.8 Fragments.
pub(crate) fn links_of(alloc: Global, text: &str) -> Result<Links, AllocError> {
    let mut reader = Reader {
        text,
        place: Place::Definition,
        depth: 0,
        follows_spread: false,
        fragment: None,
        spreads: Vec::new(alloc),
        links: Links::new(alloc),
    };
    let scanned = scan(alloc, text, usize::MAX)?;
    for token in &scanned.tokens {
        reader.read(alloc, *token)?;
    }
    let Reader { links, .. } = reader;
    Ok(links)
}

impl Reader<'_> {
    /// Reads the next token.
    fn read(&mut self, alloc: Global, token: Token) -> Result<(), AllocError> {
        let is_spread = token.kind == TokenKind::Spread;
        let follows_spread = replace(&mut self.follows_spread, is_spread);
        match token.kind {
            TokenKind::LeftBrace | TokenKind::LeftBracket | TokenKind::LeftParenthesis => {
                self.place = Place::Rest;
                self.depth = self.depth.saturating_add(1);
                Ok(())
            }
            TokenKind::RightBracket | TokenKind::RightParenthesis => {
                self.depth = self.depth.saturating_sub(1);
                Ok(())
            }
            TokenKind::RightBrace => self.close(alloc),
            TokenKind::Name => self.read_name(alloc, token, follows_spread),
            _ => Ok(()),
        }
    }

    /// Reads a brace that closes. A definition ends with the brace that closes its selection set.
    fn close(&mut self, alloc: Global) -> Result<(), AllocError> {
        self.depth = self.depth.saturating_sub(1);
        if self.depth > 0 {
            return Ok(());
        }
        self.place = Place::Definition;
        let spreads = replace(&mut self.spreads, Vec::new(alloc));
        match self.fragment.take() {
            Some(name) => {
                self.links.fragments.push(FragmentLinks { name, spreads })?;
                Ok(())
            }
            None => self.links.add_operation(spreads),
        }
    }

    /// Reads a name.
    fn read_name(
        &mut self,
        alloc: Global,
        token: Token,
        follows_spread: bool,
    ) -> Result<(), AllocError> {
        let name = text_of(self.text, token);
        match self.place {
            Place::Definition if name == "fragment" => self.place = Place::FragmentName,
            Place::Definition => self.place = Place::Rest,
            Place::FragmentName => {
                self.fragment = Some(String::from_str(alloc, name)?);
                self.place = Place::Rest;
            }
            Place::Rest if follows_spread && name != "on" => {
                self.spreads.push(String::from_str(alloc, name)?)?;
            }
            Place::Rest => {}
        }
        Ok(())
    }
}

/// The bytes of a token.
fn text_of(text: &str, token: Token) -> &str {
    let start = usize::try_from(token.start).unwrap_or(usize::MAX);
    let end = usize::try_from(token.end).unwrap_or(usize::MAX);
    text.get(start..end).unwrap_or("")
}
