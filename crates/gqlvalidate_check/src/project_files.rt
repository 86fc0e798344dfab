//! Documents that are validated together: operations spread fragments of each other's files.

ghost use Rattle.graphql_frontend.specs.Schemas.{IsUsable};

use crate::again::{keep, reports_with};
use gqlvalidate_sources::Paths;
use gqlvalidate_sources::cuts::{Cuts, add_cuts, count_of, cuts_of, with_cuts};
use gqlvalidate_sources::inputs::faults::Fault;
use gqlvalidate_sources::inputs::statuses::Status;
use gqlvalidate_sources::run_texts::{ReadFile, ReadFiles, RunTexts, read_files};
use gqlvalidate_sources::runs::accounts::{Account, FilesOfProject};
use gqlvalidate_sources::runs::depend_on_operations;
use gqlvalidate_sources::runs::named_texts::{NamedText, Subject};
use gqlvalidate_watching::Kept;
use graphql_documents::documents::Schema;
use graphql_frontend::{ProjectReports, Reports, SourceText};
use graphql_kept_projects::{Scope, add_further, check_project, may_hide_faults, reports_of};
use graphql_parser::Bounds;
use std::alloc::{AllocError, Global};
use std::collections::{BTreeMap, BTreeSet};
use std::io::{Read, Write};
use std::rt::Files;

/// The files that could be read, when the account has the others.
#[derive(Drop)]
struct TextFiles {
    files: Vec<ReadFile>,
    /// There are no others.
    is_all: bool,
    /// All their literals are read.
    has_all_literals: bool,
}

/// Texts that are validated together.
#[derive(Clone, Copy)]
struct Project<'a> {
    /// The texts as they are shown.
    shown: &'a [NamedText<'a>],
    /// The texts as they are read, in the order of `shown`.
    read: &'a [SourceText<'a>],
    scope: Scope,
}

/// Validates these files together, with the fragments of those that are lent, and with what the last run kept. One that cannot be read does not end the
/// run.
pub fn check_files<R: Files + AllocGlobal, I: Read, O: Write, F: Write>(
    rt: &R,
    schema: &Schema,
    paths: Paths<'_>,
    kept: &mut Kept,
    account: &mut Account<'_>,
    input: &mut I,
    output: &mut O,
    faults: &mut F,
) -> Result<Status, Fault>
    requires { IsUsable schema.now }
{
    let mut own = text_files(rt, paths, paths.documents, account, input, faults)?;
    let mut lent = text_files(rt, paths, paths.fragments, account, input, faults)?;
    read_as_sent(rt.alloc(), schema, &mut own.files, paths, faults)?;
    read_as_sent(rt.alloc(), schema, &mut lent.files, paths, faults)?;
    let is_all = own.is_all && lent.is_all;
    let has_all_literals = own.has_all_literals && lent.has_all_literals;
    count_files(account, &own.files);
    let count = check_text_files(
        rt.alloc(),
        schema,
        &own.files,
        &lent.files,
        paths,
        is_all && has_all_literals,
        kept,
        account,
        output,
    )?;
    Ok(status_of(count, is_all))
}

/// Reads these files as their client sends them.
fn read_as_sent<F: Write>(
    alloc: Global,
    schema: &Schema,
    files: &mut [ReadFile],
    paths: Paths<'_>,
    faults: &mut F,
) -> Result<(), Fault> {
    for file in files.iter_mut() {
        file.read_as_sent(alloc, schema, paths.bounds, paths.dialect, faults)?;
    }
    Ok(())
}

/// Validates these files together, with the fragments of those that are lent. The answer is how many reports there are.
fn check_text_files<O: Write>(
    alloc: Global,
    schema: &Schema,
    own: &[ReadFile],
    lent: &[ReadFile],
    paths: Paths<'_>,
    is_all: bool,
    kept: &mut Kept,
    account: &mut Account<'_>,
    output: &mut O,
) -> Result<usize, Fault>
    requires { IsUsable schema.now }
{
    let mut texts = RunTexts::new(alloc, paths.schema.len());
    texts.add_files(own)?;
    let judged = texts.shown.len();
    texts.add_files(lent)?;
    let project = Project {
        shown: &texts.shown,
        read: &texts.read,
        scope: Scope {
            judged,
            is_whole: is_all && paths.is_all,
        },
    };
    check_texts(alloc, schema, project, paths, kept, account, output)
}

/// Validates these texts together. The answer is how many reports there are.
fn check_texts<O: Write>(
    alloc: Global,
    schema: &Schema,
    project: Project<'_>,
    paths: Paths<'_>,
    kept: &mut Kept,
    account: &mut Account<'_>,
    output: &mut O,
) -> Result<usize, Fault>
    requires { IsUsable schema.now }
{
    let (read, scope) = (project.read, project.scope);
    let mut found = reports_with(alloc, schema, read, scope, paths.bounds, kept)?;
    let (own, _) = project
        .read
        .split_at(project.scope.judged.min(project.read.len()));
    let cuts = cuts_of(alloc, own, &found, paths.bounds)?;
    if cuts.is_empty() {
        let (lists, operations) = (found.lists.len(), found.operations.len());
        add_further(alloc, schema, read, scope, paths.bounds, &mut found)?;
        let count = report_found(alloc, &found, project, paths, account, output)?;
        found.lists.truncate(lists);
        found.operations.truncate(operations);
        keep(alloc, read, scope, paths.bounds, found, kept)?;
        return Ok(count);
    }
    drop(found);
    let counted = check_cut(alloc, schema, project, &cuts, paths, account, output);
    drop(cuts);
    counted
}

/// Validates these texts together, each that is no document with its parts. The answer is how many reports there are.
fn check_cut<O: Write>(
    alloc: Global,
    schema: &Schema,
    project: Project<'_>,
    cuts: &Cuts,
    paths: Paths<'_>,
    account: &mut Account<'_>,
    output: &mut O,
) -> Result<usize, Fault>
    requires { IsUsable schema.now }
{
    let texts = with_cuts(alloc, project.shown, project.read, cuts)?;
    let project = Project {
        shown: &texts.shown,
        read: &texts.read,
        scope: Scope {
            judged: project.scope.judged.saturating_add(count_of(cuts)),
            is_whole: project.scope.is_whole,
        },
    };
    let found = all_reports_of(alloc, schema, project, paths.bounds)?;
    report_found(alloc, &found, project, paths, account, output)
}

/// The parts that are cut out of the text of a document of which this is reported, if the document may have other faults. `None`, if it has none, or if no
/// part of its text can be read besides.
pub fn cuts_beside(
    alloc: Global,
    document: NamedText<'_>,
    reports: &Reports,
    bounds: Bounds,
) -> Result<Option<Cuts>, Fault> {
    match reports {
        Reports::Syntax(errors) => {
            let mut cuts = BTreeMap::new(alloc);
            add_cuts(alloc, &[document.source], errors, bounds, &mut cuts)?;
            if cuts.is_empty() {
                return Ok(None);
            }
            Ok(Some(cuts))
        }
        _ if may_hide_faults(reports) => Ok(Some(BTreeMap::new(alloc))),
        _ => Ok(None),
    }
}

/// Reports what is wrong with the definitions of a document, and of the parts of its text: with what can be built of it, and fragments that no operation
/// reaches. The answer is how many reports there are.
pub fn report_cut<O: Write>(
    alloc: Global,
    schema: &Schema,
    document: NamedText<'_>,
    cuts: &Cuts,
    bounds: Bounds,
    account: &mut Account<'_>,
    output: &mut O,
) -> Result<usize, Fault>
    requires { IsUsable schema.now }
{
    let texts = with_cuts(alloc, &[document], &[document.source], cuts)?;
    let project = Project {
        shown: &texts.shown,
        read: &texts.read,
        scope: Scope {
            judged: texts.shown.len(),
            is_whole: true,
        },
    };
    let found = all_reports_of(alloc, schema, project, bounds)?;
    account.add_documents(1);
    let hidden = BTreeSet::new(alloc);
    let files = FilesOfProject {
        judged: project.scope.judged,
        hidden: &hidden,
    };
    let subject = subject_of(project);
    account.report_together(alloc, &found, subject, files, bounds, output)
}

/// What reports on these texts are about.
fn subject_of(project: Project<'_>) -> Subject<'_> {
    Subject {
        path: project.shown.first().and_then(|text| text.path),
        texts: project.shown,
        sources: project.read,
    }
}

/// Counts these files: those that are validated, and those without a token.
fn count_files(account: &mut Account<'_>, own: &[ReadFile]) {
    let empty = own.iter().filter(|file| file.has_no_token()).count();
    account.add_documents(own.len().saturating_sub(empty));
    account.add_empty(empty);
}

/// Reports what was found in texts. The answer is how many reports there are.
fn report_found<O: Write>(
    alloc: Global,
    found: &ProjectReports,
    project: Project<'_>,
    paths: Paths<'_>,
    account: &mut Account<'_>,
    output: &mut O,
) -> Result<usize, Fault> {
    let hidden = hidden_files(alloc, project.shown, paths.hidden)?;
    let files = FilesOfProject {
        judged: project.scope.judged,
        hidden: &hidden,
    };
    let subject = subject_of(project);
    account.report_together(alloc, found, subject, files, paths.bounds, output)
}

/// The numbers of the files whose reports are not shown.
fn hidden_files(
    alloc: Global,
    named: &[NamedText<'_>],
    hidden: &[&str],
) -> Result<BTreeSet<u32>, AllocError> {
    let mut paths = BTreeSet::new(alloc);
    for path in hidden {
        paths.insert(*path)?;
    }
    let files = files_among(alloc, named, &paths);
    drop(paths);
    files
}

/// The numbers of the files that have one of these paths.
fn files_among(
    alloc: Global,
    named: &[NamedText<'_>],
    paths: &BTreeSet<&str>,
) -> Result<BTreeSet<u32>, AllocError> {
    let mut files = BTreeSet::new(alloc);
    for text in named {
        if text.path.is_some_and(|path| paths.contains(path)) {
            files.insert(text.source.file_id.0)?;
        }
    }
    Ok(files)
}

/// The texts of these files of a run. The account has those that cannot be read.
fn text_files<R: Files + AllocGlobal, I: Read, F: Write>(
    rt: &R,
    run: Paths<'_>,
    paths: &[&str],
    account: &mut Account<'_>,
    input: &mut I,
    faults: &mut F,
) -> Result<TextFiles, Fault> {
    let ReadFiles {
        files,
        unreadable,
        has_all_literals,
    } = read_files(rt, run, paths, input, faults)?;
    let is_all = unreadable.is_empty();
    account.add_all_unreadable(unreadable)?;
    Ok(TextFiles {
        files,
        is_all,
        has_all_literals,
    })
}

/// What is reported of these texts together, and of what is left of them without what cannot be built.
fn all_reports_of(
    alloc: Global,
    schema: &Schema,
    project: Project<'_>,
    bounds: Bounds,
) -> Result<ProjectReports, Fault>
    requires { IsUsable schema.now }
{
    let mut found = reports_of(alloc, schema, project.read, project.scope, bounds)?;
    add_further(
        alloc,
        schema,
        project.read,
        project.scope,
        bounds,
        &mut found,
    )?;
    Ok(found)
}

/// What is reported of the texts of a document as a project, if one of these reports on it depends on an operation.
pub fn project_of(
    alloc: Global,
    schema: &Schema,
    sources: &[SourceText<'_>],
    reports: &Reports,
    bounds: Bounds,
) -> Result<Option<ProjectReports>, Fault>
    requires { IsUsable schema.now }
{
    if !depend_on_operations(alloc, reports)? {
        return Ok(None);
    }
    let lent: [SourceText<'_>; 0] = [];
    let project = check_project(alloc, schema, sources, lent.as_slice(), bounds)?;
    Ok(Some(project))
}

/// The status of a run that shows, or counts, so many reports.
fn status_of(count: usize, is_all: bool) -> Status {
    if !is_all {
        Status::Unreadable
    } else if count == 0 {
        Status::Accepted
    } else {
        Status::Reported
    }
}
