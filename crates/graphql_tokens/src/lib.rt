//! The tokens of a GraphQL text, from its bytes.
//!
//! Specification: 2.1 Source Text, and Appendix B.2 Lexical Tokens.
#![tactic(auto)]

pub mod characters;
mod ignored;
pub mod laws;
pub mod lexer;
mod loads;
mod numbers;
pub mod quoted;
mod scanner;
pub mod strings;
pub mod token;

pub use lexer::{LexicalError, Scanned, Stop, has_no_token, scan, tokens};
pub use strings::StringPart;
pub use token::{Token, TokenKind};
