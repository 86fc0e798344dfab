//! Compares the lines of each example with those that its texts give: parses, builds and validates each example whose data a
//! text can say.

mod lines;

use crate::faults::Fault;
use graphql_examples::{Example, Subject, tables};
use graphql_notation::build::written_out;
use lines::{Places, document_lines, schema_lines};
use std::alloc::Global;
use std::io::Write;

/// How many examples were compared, and how many gave their lines.
#[derive(Clone, Copy)]
struct Counts {
    compared: u32,
    same: u32,
}

/// Compares one example after another, prints those that give other lines than theirs, and how many do not.
pub fn compare_all<O: Write>(alloc: Global, output: &mut O) -> Result<(), Fault> {
    let mut counts = Counts {
        compared: 0,
        same: 0,
    };
    for examples in tables() {
        compare_each(alloc, examples, &mut counts, output)?;
    }
    let compared = counts.compared;
    let same = counts.same;
    writeln!(
        output,
        "{same} of {compared} examples give their lines from their texts"
    )?;
    Ok(())
}

/// Compares the examples of a table.
fn compare_each<O: Write>(
    alloc: Global,
    examples: &[Example],
    counts: &mut Counts,
    output: &mut O,
) -> Result<(), Fault> {
    for example in examples {
        if let Some(lines) = lines_of(alloc, example)? {
            compare(example, lines.as_slice(), counts, output)?;
        }
    }
    Ok(())
}

/// What the texts of the example give, where texts can say it: neither field sets, nor documents without a schema or with
/// the definitions of another, nor the types that are shown, which are more where introspection is among them.
fn lines_of(alloc: Global, example: &Example) -> Result<Option<Vec<u8>>, Fault> {
    let schema = example.schema;
    let lines = match example.subject {
        Subject::Document(text) => lines_of_document(alloc, schema, text, Places::Hidden)?,
        Subject::DocumentInFile(text) => lines_of_document(alloc, schema, text, Places::Shown)?,
        Subject::Schema => lines_of_schema(alloc, schema, Places::Hidden)?,
        Subject::SchemaInFile => lines_of_schema(alloc, schema, Places::Shown)?,
        Subject::FieldSet(_)
        | Subject::DocumentBuiltBy { .. }
        | Subject::Standalone(_)
        | Subject::RetainedTypes
        | Subject::TypesRetainedAgain => return Ok(None),
    };
    Ok(Some(lines))
}

/// What a document gives, where the example's repetitions are written out.
fn lines_of_document(
    alloc: Global,
    schema: &str,
    text: &str,
    places: Places,
) -> Result<Vec<u8>, Fault> {
    let schema = written_out(alloc, schema)?;
    let text = written_out(alloc, text)?;
    document_lines(alloc, schema.as_str(), text.as_str(), places)
}

/// The lines that a schema gives, after the example's repetitions are written out.
fn lines_of_schema(alloc: Global, text: &str, places: Places) -> Result<Vec<u8>, Fault> {
    let text = written_out(alloc, text)?;
    schema_lines(alloc, text.as_str(), places)
}

/// Counts the example, and prints its name and what it gives if that is not what it should.
fn compare<O: Write>(
    example: &Example,
    lines: &[u8],
    counts: &mut Counts,
    output: &mut O,
) -> Result<(), Fault> {
    counts.compared = counts.compared.saturating_add(1);
    if lines == example.lines.as_bytes() {
        counts.same = counts.same.saturating_add(1);
        return Ok(());
    }
    writeln!(output, "{}:", example.id)?;
    output.write_all(lines)?;
    Ok(())
}
