//! What a run reports, and how many.

ghost use Rattle.std.specs.Prelude.{◌≡◌, ◌↔◌, ◌⊎◌};
ghost use Rattle.gqlvalidate_levels.specs.Levels.{Fails};
ghost use Rattle.gqlvalidate_runs.specs.Runs.{IsFound};

use crate::comments::{Comments, UNUSED_IGNORE};
use crate::files::{first_of, first_texts, place_in, sort};
use crate::kept::{counts_of, keep_shown};
use crate::policies::Policy;
use crate::presentations::Presentation;
use crate::sheets::Sheet;
use gqlvalidate_deprecations::{DEPRECATED_USAGE, deprecation_reports};
use gqlvalidate_formats::named_texts::{CountedSubject, Subject};
use gqlvalidate_formats::{
    Finding, ProjectReports, Reports, Run, SourceText, Texts, findings_beside,
};
use gqlvalidate_inputs::faults::{Fault, fault_of_output};
use gqlvalidate_inputs::statuses::Status;
use gqlvalidate_levels::{Counts, Levels};
use graphql_documents::documents::Schema;
use graphql_nodes::ValidationError;
use graphql_parser::Bounds;
use std::alloc::{AllocError, Global};
use std::collections::{BTreeMap, BTreeSet};
use std::fmt;
use std::io::Write;

/// What a run has reported until now.
pub struct Account<'a> {
    presentation: Presentation,
    sheet: Sheet,
    tally: Tally,
    /// The levels of rules.
    levels: Levels,
    /// There may be so many warnings; any number, if none is given.
    max_warnings: Option<usize>,
    /// Comments ignore reports.
    heeds_comments: bool,
    /// The schema against which documents are validated: help names what it defines.
    definitions: Option<&'a Schema>,
    /// Its texts, which notes may be about.
    schema: Option<Subject<'a>>,
    /// The texts of the schema with their lines counted, once something is reported.
    counted: Option<CountedSubject<'a>>,
    /// The files that could not be read.
    unreadable: Vec<String>,
}

// Written out, so that only this crate proves it: a derived one is proved again in each crate that drops accounts.
impl Drop for Account<'_> {
    fn drop(self) {
        let Account {
            presentation: _,
            sheet: _,
            tally: _,
            levels: _,
            max_warnings: _,
            heeds_comments: _,
            definitions: _,
            schema: _,
            counted: _,
            unreadable: _,
        } = self;
    }
}

/// How many reports there are.
#[derive(Clone, Copy)]
pub struct Tally {
    /// How many are errors, and how many are warnings.
    pub counts: Counts,
    /// How many others comments ignore.
    pub ignored: usize,
    /// How many of them are printed.
    pub shown: usize,
    /// How many files they are about.
    pub files: usize,
    /// How many documents were checked.
    pub documents: usize,
    /// How many files have no token, so that nothing of them was checked.
    pub empty: usize,
}

/// What a run validates.
#[derive(Clone, Copy)]
pub enum Whole {
    Schema,
    /// So many documents.
    Documents(usize),
}

/// What is counted at the end of a run.
#[derive(Clone, Copy)]
pub struct Extent {
    pub whole: Whole,
    /// How many files the schema has that were read.
    pub schema_files: usize,
}

impl Extent {
    /// Whether what the run validates could be read: the schema, or at least one file of the documents.
    fn is_checked(self, tally: Tally) -> bool {
        match self.whole {
            Whole::Schema => self.schema_files > 0,
            Whole::Documents(_) => tally.documents > 0 || tally.empty > 0,
        }
    }
}

/// The files of documents that are validated together.
#[derive(Clone, Copy)]
pub struct FilesOfProject<'a> {
    /// So many come first; the others lend fragments.
    pub judged: usize,
    /// The numbers of those whose reports are not shown.
    pub hidden: &'a BTreeSet<u32>,
}

impl<'a> Account<'a> {
    /// Nothing is reported yet. Rules have their usual levels, and no comment ignores a report.
    pub fn new(alloc: Global, presentation: Presentation) -> Result<Account<'a>, AllocError> {
        let Presentation { reporting, style } = presentation;
        Ok(Account {
            presentation,
            sheet: Sheet::new(alloc, reporting.format, style)?,
            tally: Tally {
                counts: Counts {
                    errors: 0,
                    warnings: 0,
                },
                ignored: 0,
                shown: 0,
                files: 0,
                documents: 0,
                empty: 0,
            },
            levels: Levels::new(alloc),
            max_warnings: None,
            heeds_comments: false,
            definitions: None,
            schema: None,
            counted: None,
            unreadable: Vec::new(alloc),
        })
    }

    /// Rules have these levels, there may be so many warnings, and comments in documents ignore reports.
    pub fn heed(&mut self, alloc: Global, policy: Policy<'_>) -> Result<(), AllocError> {
        self.levels = policy.levels.copied(alloc)?;
        self.max_warnings = policy.max_warnings;
        self.heeds_comments = true;
        Ok(())
    }

    /// The status of a run in which this was found: if nothing kept it from being validated, the levels of what is reported decide.
    pub fn status(&self, found: Status) -> Status
        ensures reported { IsFound found → ((result ≡ Status.Reported) ↔ Fails self.now.tally.counts.errors self.now.tally.counts.warnings self.now.max_warnings) }
        ensures accepted { IsFound found → ((result ≡ Status.Accepted) ⊎ (result ≡ Status.Reported)) }
        ensures other { ¬ IsFound found → result ≡ found }
    {
        match found {
            Status::Accepted | Status::Reported => {
                if self.tally.counts.fails(self.max_warnings) {
                    Status::Reported
                } else {
                    Status::Accepted
                }
            }
            _ => found,
        }
    }

    /// Documents are validated against this schema, which was read from these texts.
    pub fn add_schema(&mut self, definitions: &'a Schema, schema: Subject<'a>) {
        self.definitions = Some(definitions);
        self.schema = Some(schema);
    }

    /// This file could not be read.
    pub fn add_unreadable(&mut self, alloc: Global, path: &str) -> Result<(), AllocError> {
        self.unreadable.push(String::from_str(alloc, path)?)?;
        Ok(())
    }

    /// These files could not be read.
    pub fn add_all_unreadable(&mut self, paths: Vec<String>) -> Result<(), AllocError> {
        for path in paths {
            self.unreadable.push(path)?;
        }
        Ok(())
    }

    /// A document was checked, and nothing is reported of it.
    pub fn accept(&mut self, path: Option<&str>) -> Result<(), AllocError> {
        self.tally.documents = self.tally.documents.saturating_add(1);
        self.pass(path)
    }

    /// So many documents were checked together.
    pub fn add_documents(&mut self, count: usize) {
        self.tally.documents = self.tally.documents.saturating_add(count);
    }

    /// So many files have no token.
    pub fn add_empty(&mut self, count: usize) {
        self.tally.empty = self.tally.empty.saturating_add(count);
    }

    /// Nothing is reported of this file.
    pub fn pass(&mut self, path: Option<&str>) -> Result<(), AllocError> {
        match path {
            Some(path) => self.sheet.pass(path),
            None => Ok(()),
        }
    }

    /// Reports what is wrong with one document, if anything is, which was read within these bounds. The operations on which reports depend are
    /// taken from what is reported of its texts as a project, if that is given.
    pub fn reject<O: Write>(
        &mut self,
        alloc: Global,
        reports: &[Reports],
        project: Option<&ProjectReports>,
        subject: Subject<'_>,
        bounds: Bounds,
        output: &mut O,
    ) -> Result<(), Fault> {
        self.tally.documents = self.tally.documents.saturating_add(1);
        let mut findings = findings_beside(
            alloc,
            self.definitions,
            reports,
            project,
            subject.sources,
            bounds,
            usize::MAX,
        )?;
        self.add_deprecations(alloc, subject.sources, bounds, &mut findings.shown)?;
        let reported = self.report_one(alloc, &mut findings.shown, subject, output);
        drop(findings);
        reported
    }

    /// Reports these findings on one document.
    fn report_one<O: Write>(
        &mut self,
        alloc: Global,
        shown: &mut Vec<Finding<'_>>,
        subject: Subject<'_>,
        output: &mut O,
    ) -> Result<(), Fault> {
        self.settle(alloc, shown, subject, subject.texts.len())?;
        if shown.is_empty() {
            return Ok(self.pass(subject.path)?);
        }
        let counts = counts_of(shown, &self.levels);
        shown.truncate(self.room());
        self.tally.add(counts, shown.len(), 1);
        self.print_findings(alloc, shown, subject, output)
    }

    /// Takes out the findings that comments ignore, and those of rules that are off, and adds one for each name in a comment that ignores nothing,
    /// in the order of places. So many texts come first whose comments are to ignore something.
    fn settle(
        &mut self,
        alloc: Global,
        shown: &mut Vec<Finding<'_>>,
        subject: Subject<'_>,
        judged: usize,
    ) -> Result<(), AllocError> {
        if !self.heeds_comments {
            return Ok(());
        }
        let comments = Comments::of(alloc, subject, judged)?;
        let heard = comments.heard(alloc, shown, subject)?;
        keep_shown(shown, &self.levels);
        let ignored = comments.take_out(alloc, shown, subject)?;
        self.tally.ignored = self.tally.ignored.saturating_add(ignored);
        if self.levels.shows(UNUSED_IGNORE) {
            comments.add_unused(alloc, &heard, shown)?;
        }
        sort(alloc, shown, subject)
    }

    /// Reports what is wrong with documents that were read within these bounds, and validated together: each fault once, unless it is in a
    /// file of those that are hidden. The answer is how many reports there are.
    pub fn report_together<O: Write>(
        &mut self,
        alloc: Global,
        found: &ProjectReports,
        subject: Subject<'_>,
        files: FilesOfProject<'_>,
        bounds: Bounds,
        output: &mut O,
    ) -> Result<usize, Fault> {
        let mut findings = findings_beside(
            alloc,
            self.definitions,
            &found.lists,
            Some(found),
            subject.sources,
            bounds,
            usize::MAX,
        )?;
        let (judged, _) = subject
            .sources
            .split_at(files.judged.min(subject.sources.len()));
        self.add_deprecations(alloc, judged, bounds, &mut findings.shown)?;
        let count = self.report_shown(alloc, &mut findings.shown, subject, files, output);
        drop(findings);
        count
    }

    /// Adds findings on what these texts use of the schema that is deprecated, unless that rule is off.
    fn add_deprecations(
        &self,
        alloc: Global,
        sources: &[SourceText<'_>],
        bounds: Bounds,
        findings: &mut Vec<Finding<'_>>,
    ) -> Result<(), ValidationError> {
        let Some(schema) = self.definitions else {
            return Ok(());
        };
        if !self.levels.shows(DEPRECATED_USAGE) {
            return Ok(());
        }
        for report in deprecation_reports(alloc, schema, sources, bounds)? {
            findings.push(Finding {
                report,
                notes: Vec::new(alloc),
                help: None,
                operations: Vec::new(alloc),
            })?;
        }
        Ok(())
    }

    /// Reports these findings, unless they are in a file of those that are hidden. The answer is how many there are.
    fn report_shown<O: Write>(
        &mut self,
        alloc: Global,
        shown: &mut Vec<Finding<'_>>,
        subject: Subject<'_>,
        files: FilesOfProject<'_>,
        output: &mut O,
    ) -> Result<usize, Fault> {
        self.settle(alloc, shown, subject, files.judged)?;
        shown.retain(|finding| is_in_none(finding, files.hidden));
        let count = shown.len();
        let firsts = first_texts(alloc, subject.texts)?;
        shown.sort_by(|a, b| place_in(a, &firsts).cmp(&place_in(b, &firsts)))?;
        let faulty = files_of(alloc, shown, subject, &firsts)?;
        drop(firsts);
        let counts = counts_of(shown, &self.levels);
        shown.truncate(self.room());
        self.tally.add(counts, shown.len(), faulty.len());
        if count > 0 {
            self.print_findings(alloc, shown, subject, output)?;
        }
        self.pass_others(subject, &faulty, files)?;
        Ok(count)
    }

    /// Prints findings of this subject.
    fn print_findings<O: Write>(
        &mut self,
        alloc: Global,
        findings: &[Finding<'_>],
        subject: Subject<'_>,
        output: &mut O,
    ) -> Result<(), Fault> {
        let counted = CountedSubject::new(alloc, subject)?;
        self.count_schema(alloc)?;
        let texts = Texts {
            subject: &counted,
            schema: self.counted.as_ref(),
        };
        print(
            self.sheet.add(alloc, findings, &self.levels, texts)?,
            output,
        )
    }

    /// Nothing is reported of the other files that are judged and shown.
    fn pass_others(
        &mut self,
        subject: Subject<'_>,
        faulty: &BTreeSet<u32>,
        files: FilesOfProject<'_>,
    ) -> Result<(), AllocError> {
        let mut last = None;
        for text in subject.texts.iter().take(files.judged) {
            let file = text.source.file_id.0;
            let is_part = text.path.is_some() && text.path == last;
            last = text.path;
            if !is_part && !faulty.contains(&file) && !files.hidden.contains(&file) {
                self.pass(text.path)?;
            }
        }
        Ok(())
    }

    /// As many reports may still be printed.
    fn room(&self) -> usize {
        self.presentation
            .reporting
            .max_reports
            .saturating_sub(self.tally.shown)
    }

    /// Reports what is wrong with one subject, which was read within these bounds: each fault once, as an error, whatever comments say.
    pub fn report<O: Write>(
        &mut self,
        alloc: Global,
        reports: &[Reports],
        project: Option<&ProjectReports>,
        subject: Subject<'_>,
        bounds: Bounds,
        output: &mut O,
    ) -> Result<(), Fault> {
        let most = self.room();
        let findings = findings_beside(
            alloc,
            self.definitions,
            reports,
            project,
            subject.sources,
            bounds,
            most,
        )?;
        let counts = Counts {
            errors: findings.shown.len().saturating_add(findings.others),
            warnings: 0,
        };
        self.tally.add(counts, findings.shown.len(), 1);
        self.print_findings(alloc, &findings.shown, subject, output)
    }

    /// Counts the lines of the schema, unless they are counted.
    fn count_schema(&mut self, alloc: Global) -> Result<(), AllocError> {
        if self.counted.is_none() {
            if let Some(schema) = self.schema {
                self.counted = Some(CountedSubject::new(alloc, schema)?);
            }
        }
        Ok(())
    }

    /// Prints what is left to print, and says on standard error how many reports there are, or that there are none of what was checked.
    pub fn end<O: Write, F: Write>(
        self,
        alloc: Global,
        extent: Extent,
        output: &mut O,
        faults: &mut F,
    ) -> Result<(), Fault> {
        let Account {
            presentation: _,
            sheet,
            tally,
            levels: _,
            max_warnings: _,
            heeds_comments: _,
            definitions: _,
            schema: _,
            counted: _,
            unreadable,
        } = self;
        let views = views(alloc, &unreadable)?;
        let run = Run {
            not_shown: tally.left_out(),
            ignored: tally.ignored,
            schema_files: extent.schema_files,
            documents: tally.documents,
            empty: tally.empty,
            unreadable: views.as_slice(),
        };
        print(sheet.end(alloc, run)?, output)?;
        if tally.reports() > 0 || extent.is_checked(tally) {
            let whole = extent.whole;
            let summary = Summary { tally, whole };
            let _ = writeln!(faults, "{summary}");
        }
        Ok(())
    }
}

/// Whether the finding has no place, or one in a file that is none of these.
fn is_in_none(finding: &Finding<'_>, files: &BTreeSet<u32>) -> bool {
    match finding.report.location {
        Some(span) => !files.contains(&span.file_id.0),
        None => true,
    }
}

/// The numbers of the files that these are about, each that of its first text. Those without a place are about the first file of the subject.
fn files_of(
    alloc: Global,
    findings: &[Finding<'_>],
    subject: Subject<'_>,
    firsts: &BTreeMap<u32, u32>,
) -> Result<BTreeSet<u32>, AllocError> {
    let mut files = BTreeSet::new(alloc);
    let first = subject.sources.first().map(|source| source.file_id.0);
    for finding in findings {
        let file = finding.report.location.map(|place| place.file_id.0);
        if let Some(file) = file.or(first) {
            files.insert(first_of(file, firsts))?;
        }
    }
    Ok(files)
}

fn views(alloc: Global, paths: &[String]) -> Result<Vec<&str>, AllocError> {
    let mut views = Vec::new(alloc);
    for path in paths {
        views.push(path.as_str())?;
    }
    Ok(views)
}

/// Prints the text, in one write.
pub fn print<O: Write>(text: String, output: &mut O) -> Result<(), Fault> {
    output.write_all(text.as_bytes()).map_err(fault_of_output)
}

impl Tally {
    /// How many reports there are.
    fn reports(&self) -> usize {
        self.counts.errors.saturating_add(self.counts.warnings)
    }

    /// Counts the reports of so many more files, of which so many are printed.
    fn add(&mut self, counts: Counts, shown: usize, files: usize) {
        self.counts = self.counts.and(counts);
        self.shown = self.shown.saturating_add(shown);
        self.files = self.files.saturating_add(files);
    }

    /// How many reports are not printed.
    fn left_out(&self) -> usize {
        self.reports().saturating_sub(self.shown)
    }
}

/// The last line on standard error.
#[derive(Clone, Copy)]
struct Summary {
    tally: Tally,
    whole: Whole,
}

impl fmt::Display for Summary {
    fn fmt<W: fmt::Write>(&self, f: &mut fmt::Formatter<W>) -> fmt::Result {
        if self.tally.reports() == 0 {
            self.write_silence(f)?;
        } else {
            self.write_reports(f)?;
            self.write_empty(f)?;
        }
        write_part(self.tally.ignored, "ignored", f)?;
        write_part(self.tally.left_out(), "not shown", f)
    }
}

/// Adds how many are so, if any are.
fn write_part<W: fmt::Write>(
    count: usize,
    how: &'static str,
    f: &mut fmt::Formatter<W>,
) -> fmt::Result {
    if count > 0 {
        write!(f, ", {count} {how}")?;
    }
    Ok(())
}

impl Summary {
    /// How many reports there are, and of how many files: with warnings, errors and warnings each.
    fn write_reports<W: fmt::Write>(&self, f: &mut fmt::Formatter<W>) -> fmt::Result {
        let Counts { errors, warnings } = self.tally.counts;
        if warnings == 0 {
            write!(f, "{}", Counted(errors, "report"))?;
        } else if errors == 0 {
            write!(f, "{}", Counted(warnings, "warning"))?;
        } else {
            let errors = Counted(errors, "error");
            let warnings = Counted(warnings, "warning");
            write!(f, "{errors}, {warnings}")?;
        }
        match self.whole {
            Whole::Schema => f.write_str(" in the schema"),
            Whole::Documents(count) => {
                let files = self.tally.files;
                let documents = Counted(count.saturating_sub(self.tally.empty), "document");
                write!(f, " in {files} of {documents}")
            }
        }
    }

    /// What was checked, if nothing is reported of it.
    fn write_silence<W: fmt::Write>(&self, f: &mut fmt::Formatter<W>) -> fmt::Result {
        match self.whole {
            Whole::Schema => f.write_str("checked the schema: no reports"),
            Whole::Documents(_) => {
                let documents = Counted(self.tally.documents, "document");
                write!(f, "checked {documents}")?;
                self.write_empty(f)?;
                f.write_str(": no reports")
            }
        }
    }

    /// How many files were skipped, if any were.
    fn write_empty<W: fmt::Write>(&self, f: &mut fmt::Formatter<W>) -> fmt::Result {
        match self.tally.empty {
            0 => Ok(()),
            count => {
                let files = Counted(count, "empty file");
                write!(f, ", skipped {files}")
            }
        }
    }
}

/// A number of things of this name.
#[derive(Clone, Copy)]
struct Counted(usize, &'static str);

impl fmt::Display for Counted {
    fn fmt<W: fmt::Write>(&self, f: &mut fmt::Formatter<W>) -> fmt::Result {
        let count = self.0;
        let name = self.1;
        if count == 1 {
            write!(f, "{count} {name}")
        } else {
            write!(f, "{count} {name}s")
        }
    }
}
