//! Documents as a client sends them: without the fields that it answers itself.

use gqlvalidate_inputs::faults::Fault;
use gqlvalidate_inputs::printable::Printable;
use gqlvalidate_words::{ClientName, Dialect};
use graphql_dialects::{client_fields, text_without};
use graphql_documents::documents::Schema;
use graphql_frontend::FileId;
use graphql_parser::{Bounds, SyntaxError, parse_document};
use std::alloc::Global;
use std::io::Write;

/// The file of trees whose places are only used in their own texts.
const NO_FILE: FileId = FileId(u32::MAX);

/// Whether a client with this dialect answers fields of documents itself.
pub fn answers_fields(dialect: Dialect) -> bool {
    matches!(dialect.client, Some(ClientName::Apollo))
}

/// What is read in place of these texts of a file, if it is anything else: texts without the fields that Apollo Client answers. The only error is a
/// failed allocation.
pub fn texts_as_sent(
    alloc: Global,
    schema: &Schema,
    texts: &[&str],
    bounds: Bounds,
) -> Result<Option<Vec<String>>, Fault> {
    if !texts.iter().any(|text| text.contains("@client")) {
        return Ok(None);
    }
    let mut sent = Vec::new(alloc);
    for text in texts {
        sent.push(text_as_sent(alloc, schema, text, bounds)?)?;
    }
    Ok(Some(sent))
}

/// The text without the fields that the client answers; one that is no document stays.
fn text_as_sent(
    alloc: Global,
    schema: &Schema,
    text: &str,
    bounds: Bounds,
) -> Result<String, Fault> {
    let tree = match parse_document(alloc, NO_FILE, text, bounds) {
        Ok(tree) => tree,
        Err(SyntaxError::OutOfMemory) => return Err(Fault::OutOfMemory),
        Err(_) => return Ok(String::from_str(alloc, text)?),
    };
    let fields = client_fields(alloc, schema, &tree)?;
    match text_without(alloc, text, &fields)? {
        Some(sent) => Ok(sent),
        None => Ok(String::from_str(alloc, text)?),
    }
}

/// Says on standard error why Relay's `@arguments` is not defined, if a text of this file has it.
pub fn say_arguments<F: Write>(path: &str, text: &str, dialect: Dialect, faults: &mut F) {
    let is_relay = matches!(dialect.client, Some(ClientName::Relay));
    if is_relay && (text.contains("@arguments") || text.contains("@argumentDefinitions")) {
        let _ = writeln!(
            faults,
            "{}: warning: Relay's `@arguments` and `@argumentDefinitions` are not supported, because they give a fragment variables, which a fragment of the GraphQL specification does not have",
            Printable(path)
        );
    }
}
