//! GraphQL literals in the texts of TypeScript and JavaScript programs: where they are, and each as a source text of its own.
//!
//! A literal is a template string after the tag `gql` or `graphql`, or after the comment `/* GraphQL */`, whose letters may be of either case.
//! White space, comments, type arguments and opening parentheses may be between. A tag is a whole word; it may be a member, as in `client.gql`.
//!
//! Tokens alone decide what is found:
//!
//! - Comments, strings in quotes and other template strings hide what is in them, also in the interpolations of such a template string.
//! - A quote that is not closed in its line is an apostrophe, as in the text of an element. Two apostrophes in a line hide what is between them.
//! - Regular expressions, the texts of elements, and all of a file of Vue or Svelte are read as if they were code.
//! - A template string that is no literal and is not closed hides the rest of the program.
#![tactic(auto)]

mod contents;
pub mod literals;
mod places;
mod programs;
mod tags;
mod templates;
mod texts;
mod tokens;

pub use literals::{Literal, Plucked, SkipReason, Skipped, literals_in};
pub use programs::is_program;
pub use texts::{blank_parts, text_of_literal};
