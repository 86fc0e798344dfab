//! Questions on standard input, a line of JSON each, answered against a schema that is read once.

ghost use Rattle.graphql_frontend.specs.Schemas.{IsUsable};

use crate::lines::{ReadLine, read_line};
use crate::questions::{Question, QuestionError};
use gqlvalidate_inputs::faults::{Fault, fault_of_output};
use gqlvalidate_inputs::sources::explain_input;
use gqlvalidate_inputs::statuses::Status;
use gqlvalidate_inputs::word_paths::{expanded, schema_paths, views};
use gqlvalidate_paths::Expansion;
use gqlvalidate_paths::plain::plain;
use gqlvalidate_runs::bounds::OF_SCHEMA;
use gqlvalidate_runs::dialects::{SchemaTexts, dialect_texts, read_schema_in};
use gqlvalidate_runs::json_format::{add_findings, begin_errors};
use gqlvalidate_runs::json_lines::print_line;
use gqlvalidate_runs::named_texts::{CountedSubject, NamedText, Subject};
use gqlvalidate_runs::schema_files::{FileKind, ReadFiles, named_schema, named_text, read_files};
use gqlvalidate_runs::schema_texts::{schema_subject, sources_of};
use gqlvalidate_runs::{Finding, Texts, findings_of};
use gqlvalidate_words::Dialect;
use graphql_documents::documents::Schema;
use graphql_frontend::{ProjectReports, Reports, SchemaReading, SourceText, abandon};
use graphql_kept_projects::{
    Scope, add_further, all_reports_of_document, all_reports_of_schema, reports_of,
};
use graphql_nodes::FileId;
use graphql_parser::Bounds;
use json::{Scratch, Writer};
use std::alloc::{AllocError, Global};
use std::io;
use std::io::{BufReader, Read, Write};
use std::rt::Files;
use std::slice::from_ref;

/// The number of the text of a question.
const QUESTION: FileId = FileId(u32::MAX);

/// Only the document of a question is judged, and no other text is.
const ALONE: Scope = Scope {
    judged: 1,
    is_whole: true,
};

/// The rule that each fragment is used. Specification: 5.5.1.4 Fragments Must Be Used.
const UNUSED_FRAGMENT: &str = "UnusedFragment";

/// What a question may take.
#[derive(Clone, Copy)]
pub struct Allowance {
    pub bounds: Bounds,
    /// So many bytes its line may have, without its end.
    pub line: u64,
    /// How many reports the answer to a question has at most.
    pub reports: usize,
    /// Whether documents may spread the fragments of files that are lent.
    pub lends: bool,
    /// What the schema means beyond the specification.
    pub dialect: Dialect,
}

/// Reads the schema of the files that these words name, and answers each line of standard input by a line, until there are no more.
/// If the schema is reported, one line with its reports ends the run. Documents may spread the fragments of the files that are lent.
pub fn serve<R: Files + AllocGlobal + Clone + Drop, I: Read, O: Write, F: Write>(
    rt: &R,
    words: &[&str],
    fragments: &[&str],
    allowance: Allowance,
    input: &mut I,
    output: &mut O,
    faults: &mut F,
) -> Result<Status, Fault> {
    let Some(files) = schema_paths(rt, words, faults)? else {
        return Ok(Status::Unreadable);
    };
    let served = serve_files(rt, &files, fragments, allowance, input, output, faults);
    drop(files);
    served
}

/// Reads the schema of these files, and answers each line of standard input.
fn serve_files<R: Files + AllocGlobal + Clone + Drop, I: Read, O: Write, F: Write>(
    rt: &R,
    files: &[String],
    fragments: &[&str],
    allowance: Allowance,
    input: &mut I,
    output: &mut O,
    faults: &mut F,
) -> Result<Status, Fault> {
    let paths = views(rt.alloc(), files)?;
    let ReadFiles { texts, unreadable } = read_files(rt, &paths, FileKind::Schema, input, faults)?;
    drop(unreadable);
    let Some(texts) = texts else {
        return Ok(Status::Unreadable);
    };
    let named = named_schema(rt.alloc(), &paths, &texts)?;
    serve_schema(rt, &named, fragments, allowance, input, output, faults)
}

/// Reads the schema of these texts, and answers each line of standard input.
fn serve_schema<R: Files + AllocGlobal + Clone + Drop, I: Read, O: Write, F: Write>(
    rt: &R,
    named: &[NamedText<'_>],
    fragments: &[&str],
    allowance: Allowance,
    input: &mut I,
    output: &mut O,
    faults: &mut F,
) -> Result<Status, Fault> {
    let read = dialect_texts(rt.alloc(), named, allowance.dialect)?;
    let texts = SchemaTexts::new(rt.alloc(), named, &read)?;
    let subject = schema_subject(&texts.shown, &texts.read);
    match read_schema_in(rt.alloc(), &texts, allowance.dialect)? {
        SchemaReading::Accepted(schema) => {
            let status = serve_beside(
                rt, &schema, subject, fragments, allowance, input, output, faults,
            );
            abandon(schema);
            status
        }
        SchemaReading::Rejected(reports) => {
            let allowance = Allowance {
                bounds: OF_SCHEMA,
                ..allowance
            };
            print_reports(rt.alloc(), reports, subject, allowance, output)?;
            Ok(Status::Reported)
        }
        SchemaReading::LacksIntrospection => Err(Fault::LacksIntrospection),
    }
}

/// Reads the files that are lent, if words name some, and answers each line of standard input.
fn serve_beside<R: Files + AllocGlobal + Clone + Drop, I: Read, O: Write, F: Write>(
    rt: &R,
    schema: &Schema,
    of_schema: Subject<'_>,
    fragments: &[&str],
    allowance: Allowance,
    input: &mut I,
    output: &mut O,
    faults: &mut F,
) -> Result<Status, Fault>
    requires { IsUsable schema.now }
{
    let Expansion { files, unread } = expanded(rt, fragments, faults)?;
    let is_all = unread.is_empty();
    drop(unread);
    let lent = LentFiles {
        files: &files,
        is_all,
    };
    let served = serve_with(
        rt, schema, of_schema, lent, allowance, input, output, faults,
    );
    drop(files);
    served
}

/// The files that lend fragments.
#[derive(Clone, Copy)]
struct LentFiles<'a> {
    files: &'a [String],
    /// Each folder was read.
    is_all: bool,
}

/// Reads the files that are lent, and answers each line of standard input, if none is missing.
fn serve_with<R: Files + AllocGlobal, I: Read, O: Write, F: Write>(
    rt: &R,
    schema: &Schema,
    of_schema: Subject<'_>,
    lent: LentFiles<'_>,
    allowance: Allowance,
    input: &mut I,
    output: &mut O,
    faults: &mut F,
) -> Result<Status, Fault>
    requires { IsUsable schema.now }
{
    let paths = views(rt.alloc(), lent.files)?;
    let ReadFiles { texts, unreadable } = read_files(
        rt,
        &paths,
        FileKind::Document,
        input,
        faults,
    )?;
    drop(unreadable);
    let Some(texts) = texts else {
        return Ok(Status::Unreadable);
    };
    if !lent.is_all {
        return Ok(Status::Unreadable);
    }
    let lent = named_beside(rt.alloc(), of_schema.texts, &paths, &texts)?;
    answer_counted(
        rt.alloc(),
        schema,
        of_schema,
        &lent,
        allowance,
        input,
        output,
        faults,
    )
}

/// The texts with their paths, numbered after those of the schema.
fn named_beside<'a>(
    alloc: Global,
    of_schema: &[NamedText<'_>],
    paths: &'a [&'a str],
    texts: &'a [String],
) -> Result<Vec<NamedText<'a>>, AllocError> {
    let mut named = Vec::new(alloc);
    for (position, (path, text)) in paths.iter().zip(texts.iter()).enumerate() {
        let position = position.saturating_add(of_schema.len());
        named.push(named_text(position, path, text.as_str()))?;
    }
    Ok(named)
}

/// The texts that questions may be about besides their own.
#[derive(Clone, Copy)]
struct KnownTexts<'a> {
    /// Those of the schema, with their lines counted.
    of_schema: &'a CountedSubject<'a>,
    /// Those of the files that lend fragments.
    lent: &'a [NamedText<'a>],
}

/// Counts the lines of the schema, and answers each line of standard input.
fn answer_counted<I: Read, O: Write, F: Write>(
    alloc: Global,
    schema: &Schema,
    of_schema: Subject<'_>,
    lent: &[NamedText<'_>],
    allowance: Allowance,
    input: &mut I,
    output: &mut O,
    faults: &mut F,
) -> Result<Status, Fault>
    requires { IsUsable schema.now }
{
    let counted = CountedSubject::new(alloc, of_schema)?;
    answer_known(
        alloc, schema, &counted, lent, allowance, input, output, faults,
    )
}

/// Answers each line of standard input, with the texts of the schema, whose lines are counted, and of files that lend fragments.
fn answer_known<I: Read, O: Write, F: Write>(
    alloc: Global,
    schema: &Schema,
    of_schema: &CountedSubject<'_>,
    lent: &[NamedText<'_>],
    allowance: Allowance,
    input: &mut I,
    output: &mut O,
    faults: &mut F,
) -> Result<Status, Fault>
    requires { IsUsable schema.now }
{
    let known = KnownTexts { of_schema, lent };
    answer_lines(alloc, schema, known, allowance, input, output, faults)
}

fn answer_lines<I: Read, O: Write, F: Write>(
    alloc: Global,
    schema: &Schema,
    known: KnownTexts<'_>,
    allowance: Allowance,
    input: &mut I,
    output: &mut O,
    faults: &mut F,
) -> Result<Status, Fault>
    requires { IsUsable schema.now }
{
    match answer_each(alloc, schema, known, allowance, input, output) {
        Ok(()) => Ok(Status::Accepted),
        Err(Ended::Fault(fault)) => Err(fault),
        Err(Ended::InputFailed(error)) => {
            explain_input(&error, faults);
            Ok(Status::Unreadable)
        }
    }
}

/// Why a run that answers questions ended before its input did.
#[derive(Drop)]
enum Ended {
    Fault(Fault),
    InputFailed(io::Error),
}

impl From<Fault> for Ended {
    fn from(fault: Fault) -> Ended {
        Ended::Fault(fault)
    }
}

impl From<io::Error> for Ended {
    fn from(error: io::Error) -> Ended {
        match error.kind() {
            io::ErrorKind::OutOfMemory => Ended::Fault(Fault::OutOfMemory),
            _ => Ended::InputFailed(error),
        }
    }
}

fn answer_each<I: Read, O: Write>(
    alloc: Global,
    schema: &Schema,
    known: KnownTexts<'_>,
    allowance: Allowance,
    input: &mut I,
    output: &mut O,
) -> Result<(), Ended>
    requires { IsUsable schema.now }
{
    let mut lines = BufReader::new(alloc, input)?;
    let mut line = Vec::new(alloc);
    for _ in 0..u64::MAX {
        let read = read_line(&mut lines, allowance.line, &mut line)?;
        if !answer_read(alloc, schema, known, allowance, read, &line, output)? {
            break;
        }
    }
    Ok(())
}

/// Answers a line that was read. The result is whether more lines can come.
fn answer_read<O: Write>(
    alloc: Global,
    schema: &Schema,
    known: KnownTexts<'_>,
    allowance: Allowance,
    read: ReadLine,
    line: &[u8],
    output: &mut O,
) -> Result<bool, Fault>
    requires { IsUsable schema.now }
{
    match read {
        ReadLine::End => return Ok(false),
        ReadLine::Whole => answer(alloc, schema, known, allowance, line, output)?,
        ReadLine::TooLong => say(TOO_LONG, output)?,
        ReadLine::OutOfMemory => say(OUT_OF_MEMORY, output)?,
    }
    Ok(true)
}

/// The answer to a line that is longer than a line may be.
const TOO_LONG: &str = "{\"fault\":\"the line is longer than `--max-line` allows\"}\n";

/// The answer to a question for which there is no memory.
const OUT_OF_MEMORY: &str = "{\"fault\":\"out of memory\"}\n";

/// Prints a line that is at hand, at once: that takes no memory.
fn say<O: Write>(line: &str, output: &mut O) -> Result<(), Fault> {
    output.write_all(line.as_bytes()).map_err(fault_of_output)?;
    output.flush().map_err(fault_of_output)
}

/// Answers a line. If there is no memory for that, the answer says so, and the run goes on.
fn answer<O: Write>(
    alloc: Global,
    schema: &Schema,
    known: KnownTexts<'_>,
    allowance: Allowance,
    line: &[u8],
    output: &mut O,
) -> Result<(), Fault>
    requires { IsUsable schema.now }
{
    match answer_of(alloc, schema, known, allowance, line) {
        Ok(json) => match print_now(alloc, json, output) {
            Err(Fault::OutOfMemory) => say(OUT_OF_MEMORY, output),
            ended => ended,
        },
        Err(Fault::OutOfMemory) => say(OUT_OF_MEMORY, output),
        Err(fault) => Err(fault),
    }
}

/// The answer to a line. That to one that is no question says so.
fn answer_of(
    alloc: Global,
    schema: &Schema,
    known: KnownTexts<'_>,
    allowance: Allowance,
    line: &[u8],
) -> Result<Writer, Fault>
    requires { IsUsable schema.now }
{
    let mut json = Writer::new(Vec::new(alloc));
    write_answer(alloc, schema, known, allowance, line, &mut json)?;
    Ok(json)
}

/// Writes the answer to a line.
fn write_answer(
    alloc: Global,
    schema: &Schema,
    known: KnownTexts<'_>,
    allowance: Allowance,
    line: &[u8],
    json: &mut Writer,
) -> Result<(), Fault>
    requires { IsUsable schema.now }
{
    let mut scratch = Scratch::new(alloc);
    json.begin_object()?;
    match Question::read(alloc, line, &mut scratch) {
        Ok(question) => answer_question(alloc, schema, known, allowance, &question, json)?,
        Err(QuestionError::OutOfMemory) => return Err(Fault::OutOfMemory),
        Err(QuestionError::Unclear(why)) => add_fault(why, json)?,
    }
    Ok(json.end_object()?)
}

/// Says what is wrong with a question.
fn add_fault(why: &str, json: &mut Writer) -> Result<(), AllocError> {
    json.key("fault")?;
    json.string(why)
}

/// Answers a question.
fn answer_question(
    alloc: Global,
    schema: &Schema,
    known: KnownTexts<'_>,
    allowance: Allowance,
    question: &Question<'_>,
    json: &mut Writer,
) -> Result<(), Fault>
    requires { IsUsable schema.now }
{
    question.add_id(json)?;
    if allowance.lends {
        answer_beside(alloc, schema, known, allowance, question, json)
    } else {
        answer_alone(alloc, schema, known, allowance, question.document, json)
    }
}

/// Answers what is reported of a document that has all fragments itself.
fn answer_alone(
    alloc: Global,
    schema: &Schema,
    known: KnownTexts<'_>,
    allowance: Allowance,
    document: &str,
    json: &mut Writer,
) -> Result<(), Fault>
    requires { IsUsable schema.now }
{
    let source = SourceText {
        file_id: QUESTION,
        text: document,
    };
    let texts = [NamedText { path: None, source }];
    let sources = [source];
    let subject = Subject {
        path: None,
        texts: texts.as_slice(),
        sources: sources.as_slice(),
    };
    let about = About {
        subject,
        of_schema: Some(known.of_schema),
    };
    let found = all_reports_of_document(alloc, schema, source, allowance.bounds)?;
    let written = add_errors(alloc, Some(schema), &found, about, allowance, json);
    drop(found);
    written
}

/// What findings are about.
#[derive(Clone, Copy)]
struct About<'a> {
    subject: Subject<'a>,
    /// The texts of the schema, if these are others.
    of_schema: Option<&'a CountedSubject<'a>>,
}

/// Answers what is reported of a document that may spread the fragments of the files that are lent, without the file of its own name. Other
/// documents may spread its fragments, so none is reported as unused.
fn answer_beside(
    alloc: Global,
    schema: &Schema,
    known: KnownTexts<'_>,
    allowance: Allowance,
    question: &Question<'_>,
    json: &mut Writer,
) -> Result<(), Fault>
    requires { IsUsable schema.now }
{
    let texts = texts_of(alloc, question, known.lent)?;
    let sources = sources_of(alloc, &texts)?;
    let found = reports_beside(alloc, schema, &sources, allowance.bounds)?;
    let about = About {
        subject: Subject {
            path: None,
            texts: &texts,
            sources: &sources,
        },
        of_schema: Some(known.of_schema),
    };
    let written = add_used(alloc, schema, &found.lists, about, allowance, json);
    drop(found);
    written
}

/// What is reported of the first of these texts, and of what is left of it without what cannot be built. The others lend fragments.
fn reports_beside(
    alloc: Global,
    schema: &Schema,
    sources: &[SourceText<'_>],
    bounds: Bounds,
) -> Result<ProjectReports, Fault>
    requires { IsUsable schema.now }
{
    let mut found = reports_of(alloc, schema, sources, ALONE, bounds)?;
    add_further(alloc, schema, sources, ALONE, bounds, &mut found)?;
    Ok(found)
}

/// Adds the first findings that are not about unused fragments, as many as an answer has at most, and the number of the others, if there are
/// any.
fn add_used(
    alloc: Global,
    schema: &Schema,
    found: &[Reports],
    about: About<'_>,
    allowance: Allowance,
    json: &mut Writer,
) -> Result<(), Fault> {
    let sources = about.subject.sources;
    let bounds = allowance.bounds;
    let mut findings = findings_of(alloc, Some(schema), found, sources, bounds, usize::MAX)?;
    let shown = &mut findings.shown;
    shown.retain(|finding| finding.report.rule != UNUSED_FRAGMENT);
    let others = shown.len().saturating_sub(allowance.reports);
    shown.truncate(allowance.reports);
    let written = write_errors(alloc, shown, others, about, json);
    drop(findings);
    written
}

/// Adds these findings, and the number of the others, if there are any.
fn write_errors(
    alloc: Global,
    findings: &[Finding<'_>],
    others: usize,
    about: About<'_>,
    json: &mut Writer,
) -> Result<(), Fault> {
    let counted = CountedSubject::new(alloc, about.subject)?;
    let texts = Texts {
        subject: &counted,
        schema: about.of_schema,
    };
    begin_errors(json)?;
    add_findings(json, alloc, findings, texts)?;
    json.end_array()?;
    add_others(json, others)
}

/// The text of the question, and then those that are lent.
fn texts_of<'a>(
    alloc: Global,
    question: &Question<'a>,
    lent: &[NamedText<'a>],
) -> Result<Vec<NamedText<'a>>, AllocError> {
    let source = SourceText {
        file_id: QUESTION,
        text: question.document,
    };
    let mut texts = Vec::new(alloc);
    texts.push(NamedText { path: None, source })?;
    let file = plain(alloc, question.file.unwrap_or(""))?;
    for text in lent {
        if plain(alloc, text.path.unwrap_or(""))? != file {
            texts.push(*text)?;
        }
    }
    Ok(texts)
}

/// Adds the number of findings that are not shown, if there are any.
fn add_others(json: &mut Writer, others: usize) -> Result<(), Fault> {
    if others > 0 {
        json.key("notShown")?;
        json.u64(others as u64)?;
    }
    Ok(())
}

/// Adds the first findings, as many as an answer has at most, and the number of the others, if there are any.
fn add_errors(
    alloc: Global,
    schema: Option<&Schema>,
    lists: &[Reports],
    about: About<'_>,
    allowance: Allowance,
    json: &mut Writer,
) -> Result<(), Fault> {
    let sources = about.subject.sources;
    let bounds = allowance.bounds;
    let findings = findings_of(alloc, schema, lists, sources, bounds, allowance.reports)?;
    let written = write_errors(alloc, &findings.shown, findings.others, about, json);
    drop(findings);
    written
}

/// Prints the findings of a schema as a line.
fn print_reports<O: Write>(
    alloc: Global,
    reports: Reports,
    subject: Subject<'_>,
    allowance: Allowance,
    output: &mut O,
) -> Result<(), Fault> {
    let about = About {
        subject,
        of_schema: None,
    };
    let lists = all_reports_of_schema(
        alloc,
        subject.sources,
        reports,
        OF_SCHEMA,
        allowance.dialect.federation,
    )?;
    let mut json = Writer::new(Vec::new(alloc));
    json.begin_object()?;
    add_errors(alloc, None, &lists, about, allowance, &mut json)?;
    json.end_object()?;
    print_now(alloc, json, output)
}

/// Prints the object as a line, at once.
fn print_now<O: Write>(alloc: Global, json: Writer, output: &mut O) -> Result<(), Fault> {
    print_line(alloc, json, output)?;
    output.flush().map_err(fault_of_output)
}
