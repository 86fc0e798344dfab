//! Reports as JSON objects.

ghost use Rattle.std.specs.Prelude.{◌≡◌, ◌++◌, [], ◌∷◌, IfOk, IsOkUnless, None, Some, map};
ghost use Rattle.std.specs.Option.{option_copied};
ghost use Rattle.graphql_answers.specs.Answers.{AreFirstErrorsOf, IsErrorOfLack, IsObjectOfRejected, default_limits, error_of_lack, no_errors, schema_texts, unnamed};
ghost use Rattle.graphql_answers.specs.Objects.{AppendsOne, IsAnswer};
ghost use Rattle.graphql_report_formats.specs.JsonReports.{Appends, errors_object};
ghost use Rattle.graphql_report_formats.specs.NamedTexts.{named_text, path_of, texts_of};
ghost use Rattle.json.specs.Print.{print};

use crate::answers::{Answer, Found, Refusal};
use crate::limits::Limits;
use crate::texts::{schema_texts, unnamed};
use graphql_documents::documents::Schema;
use graphql_kept_projects::all_reports_of_schema;
use graphql_kept_projects::frontend::{Reports, SourceText};
use graphql_report_formats::named_texts::{CountedSubject, Subject, Texts};
use graphql_report_formats::schema_texts::BUILT_IN_TEXT;
use graphql_report_formats::{Finding, findings_of, json_format};
use json::Writer;
use std::alloc::Global;

/// The answer that nothing is reported of a schema, or of one document.
pub(crate) fn nothing(alloc: Global) -> Result<Answer, Refusal>
    ensures found { IfOk result (IsAnswer Found.Nothing (λ object. object ≡ no_errors)) }
    ensures refused { IsOkUnless result Refusal.OutOfMemory }
{
    let mut json = Writer::new(Vec::new(alloc));
    add_nothing(&mut json)?;
    Ok(answer(Found::Nothing, json))
}

/// Adds an object without reports.
pub(crate) fn add_nothing(json: &mut Writer) -> Result<(), Refusal>
    ensures added { Appends result json.old json.new no_errors }
    ensures refused { IsOkUnless result Refusal.OutOfMemory }
{
    json_format::begin(json)?;
    json_format::end(json)?;
    Ok(())
}

/// The answer on a schema with these texts, which is rejected with these reports: all that is found.
pub(crate) fn reports_of_schema(
    alloc: Global,
    reports: Reports,
    sources: [SourceText<'_>; 2],
) -> Result<Answer, Refusal>
    ensures found { IfOk result (IsAnswer Found.InSchema (IsObjectOfRejected default_limits (schema_texts sources.entry) None sources.entry reports)) }
    ensures refused { IsOkUnless result Refusal.OutOfMemory }
{
    let texts = schema_texts(sources);
    let subject = Subject {
        path: None,
        texts: texts.as_slice(),
        sources: sources.as_slice(),
    };
    reports_of_subject(alloc, reports, subject, Limits::DEFAULT)
}

/// The answer on a schema that is rejected with these reports, by the names of its texts: all that is found.
pub(crate) fn reports_of_subject(
    alloc: Global,
    reports: Reports,
    subject: Subject<'_>,
    limits: Limits,
) -> Result<Answer, Refusal>
    ensures found { IfOk result (IsAnswer Found.InSchema (IsObjectOfRejected limits (map named_text subject.entry.texts.now) (path_of subject.entry.path) subject.entry.sources.now reports)) }
    ensures refused { IsOkUnless result Refusal.OutOfMemory }
{
    let lists = all_reports_of_schema(alloc, subject.sources, reports, limits.bounds, false)?;
    let mut json = Writer::new(Vec::new(alloc));
    add_reports(&mut json, alloc, None, &lists, subject, limits)?;
    Ok(answer(Found::InSchema, json))
}

/// The answer that the definitions which every schema has are missing.
pub(crate) fn lack_of_introspection(alloc: Global) -> Result<Answer, Refusal>
    ensures found { IfOk result (IsAnswer Found.InSchema IsErrorOfLack) }
    ensures refused { IsOkUnless result Refusal.OutOfMemory }
{
    let mut json = Writer::new(Vec::new(alloc));
    add_lack(&mut json)?;
    Ok(answer(Found::InSchema, json))
}

/// Adds an object that says so.
fn add_lack(json: &mut Writer) -> Result<(), Refusal>
    ensures added { Appends result json.old json.new error_of_lack }
    ensures refused { IsOkUnless result Refusal.OutOfMemory }
{
    json_format::begin(json)?;
    json_format::add_error(
        json,
        "LacksIntrospection",
        "the definitions that every schema has are missing",
        BUILT_IN_TEXT.path,
    )?;
    json_format::end(json)?;
    Ok(())
}

/// The answer that these lists are reported of a document with this text, which was validated against this schema.
pub(crate) fn reports_of_document(
    alloc: Global,
    schema: &Schema,
    lists: &[Reports],
    document: SourceText<'_>,
    limits: Limits,
) -> Result<Answer, Refusal>
    ensures found { IfOk result (IsAnswer Found.InDocuments (AreFirstErrorsOf limits (Some schema.now) (unnamed document.entry ∷ []) None (document.entry ∷ []) lists.now)) }
    ensures refused { IsOkUnless result Refusal.OutOfMemory }
{
    let mut json = Writer::new(Vec::new(alloc));
    add_document(&mut json, alloc, schema, lists, document, limits)?;
    Ok(answer(Found::InDocuments, json))
}

/// Adds an object with the first findings of a document, which was validated against this schema.
pub(crate) fn add_document(
    json: &mut Writer,
    alloc: Global,
    schema: &Schema,
    lists: &[Reports],
    document: SourceText<'_>,
    limits: Limits,
) -> Result<(), Refusal>
    ensures added { AppendsOne result json.old json.new (AreFirstErrorsOf limits (Some schema.now) (unnamed document.entry ∷ []) None (document.entry ∷ []) lists.now) }
    ensures refused { IsOkUnless result Refusal.OutOfMemory }
{
    let texts = [unnamed(document)];
    let sources = [document];
    let subject = Subject {
        path: None,
        texts: texts.as_slice(),
        sources: sources.as_slice(),
    };
    add_reports(json, alloc, Some(schema), lists, subject, limits)
}

/// Adds an object with the first findings of these lists of reports.
fn add_reports(
    json: &mut Writer,
    alloc: Global,
    schema: Option<&Schema>,
    lists: &[Reports],
    subject: Subject<'_>,
    limits: Limits,
) -> Result<(), Refusal>
    ensures added { AppendsOne result json.old json.new (AreFirstErrorsOf limits (option_copied schema.entry) (map named_text subject.entry.texts.now) (path_of subject.entry.path) subject.entry.sources.now lists.now) }
    ensures refused { IsOkUnless result Refusal.OutOfMemory }
{
    let Limits {
        bounds,
        reports: most,
    } = limits;
    let findings = findings_of(alloc, schema, lists, subject.sources, bounds, most)?;
    add_shown(json, alloc, &findings.shown, subject)
}

/// Adds an object with these findings.
fn add_shown(
    json: &mut Writer,
    alloc: Global,
    shown: &[Finding<'_>],
    subject: Subject<'_>,
) -> Result<(), Refusal>
    ensures added { Appends result json.old json.new (errors_object (map named_text subject.entry.texts.now) (path_of subject.entry.path) shown.now) }
    ensures refused { IsOkUnless result Refusal.OutOfMemory }
{
    let counted = CountedSubject::new(alloc, subject)?;
    add_counted(json, alloc, shown, &counted)
}

/// Adds an object with these findings on texts whose lines are counted.
fn add_counted(
    json: &mut Writer,
    alloc: Global,
    shown: &[Finding<'_>],
    counted: &CountedSubject<'_>,
) -> Result<(), Refusal>
    ensures added { Appends result json.old json.new (errors_object (texts_of counted.now) (path_of counted.now.path) shown.now) }
    ensures refused { IsOkUnless result Refusal.OutOfMemory }
{
    let texts = Texts {
        subject: counted,
        schema: None,
    };
    json_format::begin(json)?;
    json_format::add_findings(json, alloc, shown, texts)?;
    json_format::end(json)?;
    Ok(())
}

fn answer(found: Found, json: Writer) -> Answer
    ensures found { result.found ≡ found }
    ensures json { result.json.items ≡ json.before ++ print json.tokens }
{
    Answer {
        found,
        json: json.into_inner(),
    }
}
