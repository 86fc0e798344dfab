//! Two schemas, compared.

ghost use Rattle.graphql_frontend.specs.Schemas.{IsUsable};

use crate::operations::{ComparedSchemas, Operations, check_operations};
use gqlvalidate_inputs::faults::Fault;
use gqlvalidate_inputs::printable::Printable;
use gqlvalidate_inputs::statuses::Status;
use gqlvalidate_inputs::terminals::Terminal;
use gqlvalidate_inputs::word_paths::{expanded, schema_paths, views};
use gqlvalidate_paths::Expansion;
use gqlvalidate_runs::accounts::{Account, Extent, Whole, print};
use gqlvalidate_runs::bounds::OF_SCHEMA;
use gqlvalidate_runs::dialects::{SchemaTexts, dialect_texts, read_schema_in};
use gqlvalidate_runs::github::{Annotation, push_annotation};
use gqlvalidate_runs::json_lines::print_line;
use gqlvalidate_runs::named_texts::{CountedSubject, NamedText};
use gqlvalidate_runs::presentations::Presentation;
use gqlvalidate_runs::schema_files::{FileKind, ReadFiles, named_text, read_files};
use gqlvalidate_runs::schema_reports::reject;
use gqlvalidate_runs::schema_texts::{BUILT_IN_TEXT, schema_subject};
use gqlvalidate_words::{ChangeFormat, Color, Dialect, FailOn, Format, Reporting};
use graphql_change_formats::{
    ChangeTally, ChangeVerdict, ComparedTexts, ShownChange, json_format, markdown_format,
    text_format, verdict_of,
};
use graphql_change_kinds::{BreakingReason, Level, SchemaChange};
use graphql_change_witnesses::confirmed_witness;
use graphql_documents::documents::Schema;
use graphql_frontend::{SchemaReading, abandon};
use graphql_kept_projects::all_reports_of_schema;
use graphql_parser::Bounds;
use graphql_schema_comparison::{Comparison, compare_schemas};
use graphql_schema_ways::Ways;
use json::Writer;
use std::alloc::{AllocError, Global};
use std::io::{Read, Write};
use std::rt::Files;

/// What is compared, and how it is told.
#[derive(Clone, Copy)]
pub struct Compared<'a> {
    pub old: &'a [&'a str],
    pub new: &'a [&'a str],
    pub operations: &'a [&'a str],
    pub lone_fields: bool,
    pub fail_on: FailOn,
    pub format: ChangeFormat,
    /// How reports of a schema or a document are presented.
    pub presentation: Presentation,
    /// What the schemas mean beyond the specification.
    pub dialect: Dialect,
}

/// The files of a schema: their paths as they are shown, and their texts.
#[derive(Drop)]
struct SchemaFiles {
    paths: Vec<String>,
    texts: Vec<String>,
}

impl<'a> Compared<'a> {
    /// How reports of documents are presented: not at all in formats that only name the documents.
    pub fn presentation_of_documents(&self) -> Presentation {
        let Presentation { reporting, style } = self.presentation;
        let reporting = match self.format {
            ChangeFormat::Text | ChangeFormat::Github => reporting,
            ChangeFormat::Json | ChangeFormat::Markdown => {
                Reporting::new(Format::Text, Color::Never, Some(0))
            }
        };
        Presentation { reporting, style }
    }
}

/// How reports of a schema are presented, if changes are in this format.
pub fn presentation_of(format: ChangeFormat, terminal: Terminal) -> Presentation {
    let format = match format {
        ChangeFormat::Text | ChangeFormat::Markdown => Format::Text,
        ChangeFormat::Github => Format::Github,
        ChangeFormat::Json => Format::Json,
    };
    Presentation::new(Reporting::new(format, Color::Auto, None), terminal)
}

/// Compares the schemas of the files that these words name, and validates documents against both, if both schemas hold.
pub fn compare<R: Files + AllocGlobal + Clone + Drop, I: Read, O: Write, F: Write>(
    rt: &R,
    words: Compared<'_>,
    input: &mut I,
    output: &mut O,
    faults: &mut F,
) -> Result<Status, Fault> {
    let Expansion { files, unread } = expanded(rt, words.operations, faults)?;
    let is_all = unread.is_empty();
    drop(unread);
    let operations = views(rt.alloc(), &files)?;
    let compared = Compared {
        operations: &operations,
        ..words
    };
    let status = compare_files(rt, compared, input, output, faults);
    drop(operations);
    drop(files);
    if is_all {
        status
    } else {
        Ok(status?.with(Status::Unreadable))
    }
}

/// Compares two schemas, and validates these documents against both, if both schemas hold.
fn compare_files<R: Files + AllocGlobal + Clone + Drop, I: Read, O: Write, F: Write>(
    rt: &R,
    compared: Compared<'_>,
    input: &mut I,
    output: &mut O,
    faults: &mut F,
) -> Result<Status, Fault> {
    let old = files_of(rt, compared.old, compared.format, input, faults)?;
    let new = files_of(rt, compared.new, compared.format, input, faults)?;
    let status = match (&old, &new) {
        (Some(old), Some(new)) => compare_read(rt, old, new, compared, input, output, faults),
        _ => Ok(Status::Unreadable),
    };
    drop(new);
    drop(old);
    status
}

/// Compares the schemas of these files, and validates the documents against both, if both schemas hold.
fn compare_read<R: Files + AllocGlobal, I: Read, O: Write, F: Write>(
    rt: &R,
    old: &SchemaFiles,
    new: &SchemaFiles,
    compared: Compared<'_>,
    input: &mut I,
    output: &mut O,
    faults: &mut F,
) -> Result<Status, Fault> {
    let old = named_files(rt.alloc(), old)?;
    let new = named_files(rt.alloc(), new)?;
    compare_named(rt, &old, &new, compared, input, output, faults)
}

/// Compares the schemas of these texts, as their dialect reads them.
fn compare_named<R: Files + AllocGlobal, I: Read, O: Write, F: Write>(
    rt: &R,
    old: &[NamedText<'_>],
    new: &[NamedText<'_>],
    compared: Compared<'_>,
    input: &mut I,
    output: &mut O,
    faults: &mut F,
) -> Result<Status, Fault> {
    let old_read = dialect_texts(rt.alloc(), old, compared.dialect)?;
    let new_read = dialect_texts(rt.alloc(), new, compared.dialect)?;
    let old = SchemaTexts::new(rt.alloc(), old, &old_read)?;
    let new = SchemaTexts::new(rt.alloc(), new, &new_read)?;
    compare_from(rt, &old, &new, compared, input, output, faults)
}

/// The files of a schema that these words name, if all of them have a text. Standard error says what is wrong with the others.
fn files_of<R: Files + AllocGlobal + Clone + Drop, I: Read, F: Write>(
    rt: &R,
    words: &[&str],
    format: ChangeFormat,
    input: &mut I,
    faults: &mut F,
) -> Result<Option<SchemaFiles>, Fault> {
    let Some(files) = schema_paths(rt, words, faults)? else {
        return Ok(None);
    };
    let read = read_schema_files(rt, &files, format, input, faults);
    drop(files);
    read
}

/// These files of a schema, if all of them have a text.
fn read_schema_files<R: Files + AllocGlobal, I: Read, F: Write>(
    rt: &R,
    files: &[String],
    format: ChangeFormat,
    input: &mut I,
    faults: &mut F,
) -> Result<Option<SchemaFiles>, Fault> {
    let paths = views(rt.alloc(), files)?;
    let ReadFiles { texts, unreadable } = read_files(rt, &paths, FileKind::Schema, input, faults)?;
    drop(unreadable);
    let Some(texts) = texts else {
        return Ok(None);
    };
    let paths = paths_as_shown(rt.alloc(), &paths, format)?;
    Ok(Some(SchemaFiles { paths, texts }))
}

/// The paths as they are shown: JSON escapes control characters, and the other formats replace them.
fn paths_as_shown(
    alloc: Global,
    paths: &[&str],
    format: ChangeFormat,
) -> Result<Vec<String>, AllocError> {
    let mut shown = Vec::new(alloc);
    for path in paths {
        shown.push(path_as_shown(alloc, path, format)?)?;
    }
    Ok(shown)
}

fn path_as_shown(alloc: Global, path: &str, format: ChangeFormat) -> Result<String, AllocError> {
    match format {
        ChangeFormat::Json => String::from_str(alloc, path),
        _ => Printable(path).to_string(alloc),
    }
}

/// The texts of a schema with their paths, behind the definitions that every schema has.
fn named_files<'a>(
    alloc: Global,
    files: &'a SchemaFiles,
) -> Result<Vec<NamedText<'a>>, AllocError> {
    let mut named = Vec::new(alloc);
    named.push(BUILT_IN_TEXT)?;
    for (position, (path, text)) in files.paths.iter().zip(files.texts.iter()).enumerate() {
        named.push(named_text(position, path.as_str(), text.as_str()))?;
    }
    Ok(named)
}

/// Compares the schemas of these texts, if the old one holds.
fn compare_from<R: Files + AllocGlobal, I: Read, O: Write, F: Write>(
    rt: &R,
    old: &SchemaTexts<'_>,
    new: &SchemaTexts<'_>,
    compared: Compared<'_>,
    input: &mut I,
    output: &mut O,
    faults: &mut F,
) -> Result<Status, Fault> {
    let subject = schema_subject(&old.shown, &old.read);
    match read_schema_in(rt.alloc(), old, compared.dialect)? {
        SchemaReading::Accepted(schema) => {
            let texts = CountedSubject::new(rt.alloc(), subject)?;
            let status = compare_to(rt, &schema, texts, new, compared, input, output, faults);
            abandon(schema);
            status
        }
        SchemaReading::Rejected(reports) => {
            let presentation = compared.presentation;
            let lists = all_reports_of_schema(
                rt.alloc(),
                subject.sources,
                reports,
                OF_SCHEMA,
                compared.dialect.federation,
            )?;
            reject(rt.alloc(), &lists, subject, presentation, output, faults)
        }
        SchemaReading::LacksIntrospection => Err(Fault::LacksIntrospection),
    }
}

/// Compares a schema to that of the new texts, if that holds.
fn compare_to<R: Files + AllocGlobal, I: Read, O: Write, F: Write>(
    rt: &R,
    old: &Schema,
    old_texts: CountedSubject<'_>,
    new: &SchemaTexts<'_>,
    compared: Compared<'_>,
    input: &mut I,
    output: &mut O,
    faults: &mut F,
) -> Result<Status, Fault>
    requires { IsUsable old.now }
{
    let subject = schema_subject(&new.shown, &new.read);
    match read_schema_in(rt.alloc(), new, compared.dialect)? {
        SchemaReading::Accepted(schema) => {
            let texts = ComparedTexts {
                old: old_texts,
                new: CountedSubject::new(rt.alloc(), subject)?,
            };
            let status = tell(rt, old, &schema, &texts, compared, input, output, faults);
            abandon(schema);
            status
        }
        SchemaReading::Rejected(reports) => {
            let presentation = compared.presentation;
            let lists = all_reports_of_schema(
                rt.alloc(),
                subject.sources,
                reports,
                OF_SCHEMA,
                compared.dialect.federation,
            )?;
            reject(rt.alloc(), &lists, subject, presentation, output, faults)
        }
        SchemaReading::LacksIntrospection => Err(Fault::LacksIntrospection),
    }
}

/// Tells what changes from one schema to another, and which documents break.
fn tell<R: Files + AllocGlobal, I: Read, O: Write, F: Write>(
    rt: &R,
    old: &Schema,
    new: &Schema,
    texts: &ComparedTexts<'_>,
    compared: Compared<'_>,
    input: &mut I,
    output: &mut O,
    faults: &mut F,
) -> Result<Status, Fault>
    requires old { IsUsable old.now }
    requires new { IsUsable new.now }
{
    let alloc = rt.alloc();
    let comparison = compare_schemas(alloc, old, new)?;
    let schemas = ComparedSchemas {
        old,
        new,
        changes: &comparison.changes,
    };
    let status = tell_changes(
        rt,
        schemas,
        &comparison,
        texts,
        compared,
        input,
        output,
        faults,
    );
    drop(comparison);
    status
}

/// Tells these changes, and which documents break.
fn tell_changes<R: Files + AllocGlobal, I: Read, O: Write, F: Write>(
    rt: &R,
    schemas: ComparedSchemas<'_>,
    comparison: &Comparison,
    texts: &ComparedTexts<'_>,
    compared: Compared<'_>,
    input: &mut I,
    output: &mut O,
    faults: &mut F,
) -> Result<Status, Fault>
    requires old { IsUsable schemas.old.now }
    requires new { IsUsable schemas.new.now }
{
    let alloc = rt.alloc();
    let mut account = Account::new(alloc, compared.presentation_of_documents())?;
    let operations = check_operations(rt, schemas, compared, &mut account, input, output, faults)?;
    let status = print_all(
        alloc,
        schemas,
        comparison,
        texts,
        compared,
        &operations,
        output,
    );
    drop(operations);
    let status = status?;
    let extent = Extent {
        whole: Whole::Documents(compared.operations.len()),
        schema_files: compared.new.len(),
    };
    account.end(alloc, extent, output, faults)?;
    Ok(status)
}

/// Prints the changes, and what they mean for documents.
fn print_all<O: Write>(
    alloc: Global,
    schemas: ComparedSchemas<'_>,
    comparison: &Comparison,
    texts: &ComparedTexts<'_>,
    compared: Compared<'_>,
    operations: &Operations<'_>,
    output: &mut O,
) -> Result<Status, Fault>
    requires old { IsUsable schemas.old.now }
    requires new { IsUsable schemas.new.now }
{
    let changes = shown_changes(alloc, schemas, operations, compared.lone_fields)?;
    print_changes(alloc, &changes, texts, compared.format, output)?;
    print_end(
        alloc, comparison, &changes, texts, compared, operations, output,
    )?;
    Ok(status_of(ChangeTally::of(&changes), compared, operations))
}

/// The changes with their levels, with documents that show the breaking ones, and with whether documents use what changes.
fn shown_changes<'a>(
    alloc: Global,
    schemas: ComparedSchemas<'a>,
    operations: &Operations<'_>,
    lone_fields: bool,
) -> Result<Vec<ShownChange<'a>>, Fault>
    requires old { IsUsable schemas.old.now }
    requires new { IsUsable schemas.new.now }
{
    let ways = Ways::new(alloc, schemas.old)?;
    let shown = shown_by(alloc, &ways, schemas, operations, lone_fields);
    drop(ways);
    shown
}

/// The changes as `shown_changes` gives them. The ways lead to each place of the old schema.
fn shown_by<'a>(
    alloc: Global,
    ways: &Ways<'_>,
    schemas: ComparedSchemas<'a>,
    operations: &Operations<'_>,
    lone_fields: bool,
) -> Result<Vec<ShownChange<'a>>, Fault>
    requires old { IsUsable schemas.old.now }
    requires new { IsUsable schemas.new.now }
{
    let mut shown = Vec::new(alloc);
    for (position, change) in schemas.changes.iter().enumerate() {
        let level = if lone_fields {
            change.change.level_of_lone_fields()
        } else {
            change.level()
        };
        let witness = witness_of(alloc, ways, schemas.old, schemas.new, change, level)?;
        shown.push(ShownChange {
            change,
            level,
            witness,
            used: operations.use_of(position),
        })?;
    }
    Ok(shown)
}

/// A document that shows a change that may break documents, if there is one.
fn witness_of(
    alloc: Global,
    ways: &Ways<'_>,
    old: &Schema,
    new: &Schema,
    change: &SchemaChange,
    level: Level,
) -> Result<Option<String>, Fault>
    requires old { IsUsable old.now }
    requires new { IsUsable new.now }
{
    match level {
        Level::Breaking(BreakingReason::Documents | BreakingReason::Merging) => {
            let change = &change.change;
            Ok(confirmed_witness(alloc, ways, old, new, change, Bounds::DEFAULT)?)
        }
        _ => Ok(None),
    }
}

/// Prints the changes that are listed, in the formats that have a line for each.
fn print_changes<O: Write>(
    alloc: Global,
    changes: &[ShownChange<'_>],
    texts: &ComparedTexts<'_>,
    format: ChangeFormat,
    output: &mut O,
) -> Result<(), Fault> {
    let mut text = String::new(alloc);
    match format {
        ChangeFormat::Text => text_format::push_changes(&mut text, changes, texts)?,
        ChangeFormat::Github => push_annotations(&mut text, alloc, changes, texts)?,
        ChangeFormat::Json | ChangeFormat::Markdown => {}
    }
    print(text, output)
}

fn push_annotations(
    out: &mut String,
    alloc: Global,
    changes: &[ShownChange<'_>],
    texts: &ComparedTexts<'_>,
) -> Result<(), AllocError> {
    for shown in changes {
        if shown.is_listed() {
            push_change(out, alloc, shown, texts)?;
        }
    }
    Ok(())
}

fn push_change(
    out: &mut String,
    alloc: Global,
    shown: &ShownChange<'_>,
    texts: &ComparedTexts<'_>,
) -> Result<(), AllocError> {
    let command = match shown.level {
        Level::Breaking(_) => "error",
        Level::Dangerous => "warning",
        Level::Safe => "notice",
    };
    let mut message = shown.change.change.to_string(alloc)?;
    if let Some(witness) = &shown.witness {
        let witness = witness.as_str();
        write!(&mut message, "; valid before and not after: {witness}")?;
    }
    let annotation = Annotation {
        command,
        title: shown.change.change.name(),
        message: message.as_str(),
        located: texts.place_of(shown.change),
        path: texts.new.path,
    };
    push_annotation(out, annotation)?;
    out.push('\n')?;
    Ok(())
}

/// Prints what comes at the end: how many changes there are, what that means for documents, and which of them break.
fn print_end<O: Write>(
    alloc: Global,
    comparison: &Comparison,
    changes: &[ShownChange<'_>],
    texts: &ComparedTexts<'_>,
    compared: Compared<'_>,
    operations: &Operations<'_>,
    output: &mut O,
) -> Result<(), Fault> {
    if compared.format == ChangeFormat::Json {
        return print_json(alloc, comparison, changes, texts, operations, output);
    }
    let verdict = verdict_of(comparison, compared.lone_fields);
    let mut text = String::new(alloc);
    push_end(
        &mut text,
        changes,
        texts,
        compared.format,
        verdict,
        operations,
    )?;
    print(text, output)
}

/// Adds what comes at the end, in formats other than JSON.
fn push_end(
    out: &mut String,
    changes: &[ShownChange<'_>],
    texts: &ComparedTexts<'_>,
    format: ChangeFormat,
    verdict: ChangeVerdict,
    operations: &Operations<'_>,
) -> Result<(), AllocError> {
    match format {
        ChangeFormat::Text => {
            text_format::push_summary(out, ChangeTally::of(changes), verdict)?;
            operations.push_summary(out)
        }
        ChangeFormat::Markdown => {
            markdown_format::push_changes(out, changes, texts, verdict)?;
            operations.push_summary(out)
        }
        ChangeFormat::Github => {
            out.push_str("::notice title=Changes::")?;
            text_format::push_summary(out, ChangeTally::of(changes), verdict)
        }
        ChangeFormat::Json => Ok(()),
    }
}

fn print_json<O: Write>(
    alloc: Global,
    comparison: &Comparison,
    changes: &[ShownChange<'_>],
    texts: &ComparedTexts<'_>,
    operations: &Operations<'_>,
    output: &mut O,
) -> Result<(), Fault> {
    let mut json = Writer::new(Vec::new(alloc));
    write_json(&mut json, alloc, comparison, changes, texts, operations)?;
    print_line(alloc, json, output)
}

/// Writes the object of a comparison.
fn write_json(
    json: &mut Writer,
    alloc: Global,
    comparison: &Comparison,
    changes: &[ShownChange<'_>],
    texts: &ComparedTexts<'_>,
    operations: &Operations<'_>,
) -> Result<(), Fault> {
    json_format::begin(json, comparison)?;
    json_format::add_changes(json, alloc, changes, texts)?;
    if operations.count > 0 {
        json_format::add_operations(
            json,
            operations.count,
            operations.invalid_before,
            &operations.broken,
        )?;
    }
    json_format::end(json)?;
    Ok(())
}

/// The status: of the documents, if there are any, and else of the changes. A document that could not be read is the gravest.
fn status_of(tally: ChangeTally, compared: Compared<'_>, operations: &Operations<'_>) -> Status {
    let fails = if operations.count > 0 {
        compared.fail_on != FailOn::Never && !operations.broken.is_empty()
    } else {
        match compared.fail_on {
            FailOn::Breaking => tally.breaking > 0,
            FailOn::Dangerous => tally.breaking > 0 || tally.dangerous > 0,
            FailOn::Never => false,
        }
    };
    let status = if fails {
        Status::Reported
    } else {
        Status::Accepted
    };
    status.with(operations.status)
}
