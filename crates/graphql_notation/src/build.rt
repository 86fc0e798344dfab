//! Schemas, documents and their parts as data, from GraphQL text.
//!
//! The text is that of the specification, without comments, descriptions and escapes in strings, and
//! with these additions:
//! - `<first-last: text>` stands for the text once for each number; in it `%` is the number and `%+`
//!   the next one.
//! - In a schema, `without Name` takes a type away that was defined before; `builtin` before a definition
//!   puts it in the file of the built-in ones; `key Name` before a definition puts it under that name, in
//!   place of what is there.
//! - Extensions of a type or of the schema are behind its definition, and name it.
//! - In a document, `key Name` before a fragment puts it under that name.
//!
//! Data has no location, but for what is built in and for texts that are read as a file.

mod applications;
mod definitions;
mod documents;
mod literals;
mod parts;
mod reader;
mod repetitions;
mod schemas;
mod selections;
mod type_references;
mod types;

pub use applications::{arguments, directives};
pub use definitions::{inputs, variables};
pub use documents::{document, document_in_file};
pub use repetitions::written_out;
pub use schemas::{schema, schema_in_file};
pub use selections::field_set;
