use crate::examples::{build, validate};
use crate::faults::Fault;
use crate::places::Place;
use graphql_diagnostics::{DiagnosticEntry, DiagnosticList};
use graphql_documents::documents::Schema;
use graphql_examples::{BuiltExample, Example, Subject};
use std::alloc::Global;
use std::io::Write;

/// Validates the example, and prints a line for each report, and the types afterwards where
/// they are shown. Whether there was a diagnostic.
pub fn report_example<O: Write>(
    alloc: Global,
    example: &Example,
    output: &mut O,
) -> Result<bool, Fault> {
    let mut built_example = build(alloc, example)?;
    let mut diagnostics = DiagnosticList::new(alloc);
    let reported = report(
        &mut diagnostics,
        &mut built_example,
        example.subject,
        output,
    );
    drop(built_example);
    drop(diagnostics);
    reported
}

fn report<O: Write>(
    diagnostics: &mut DiagnosticList,
    built_example: &mut BuiltExample,
    subject: Subject,
    output: &mut O,
) -> Result<bool, Fault> {
    validate(diagnostics, built_example)?;
    for entry in diagnostics.iter() {
        let place = Place(entry.location);
        print_entry(entry, place, output)?;
    }
    if matches!(
        subject,
        Subject::RetainedTypes | Subject::TypesRetainedAgain
    ) {
        print_types(&built_example.schema.0, output)?;
    }
    Ok(!diagnostics.is_empty())
}

fn print_types<O: Write>(schema: &Schema, output: &mut O) -> Result<(), Fault> {
    write!(output, "types:")?;
    for name in schema.types.keys() {
        write!(output, " {name}")?;
    }
    writeln!(output)?;
    Ok(())
}

/// Prints the line of a diagnostic: this place, and the message.
pub fn print_entry<O: Write>(
    entry: &DiagnosticEntry,
    place: Place,
    output: &mut O,
) -> Result<(), Fault> {
    let details = &entry.details;
    writeln!(output, "{place} {details}")?;
    Ok(())
}
