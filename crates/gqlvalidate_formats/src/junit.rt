//! Findings as the XML of JUnit: a test case a file, which fails once for each error. Warnings are output of a test case.

use crate::severities::Severity;
use crate::xml::Escaped;
use gqlvalidate_levels::Levels;
use gqlvalidate_texts::named_texts::shown_name;
use gqlvalidate_texts::{
    Finding, FindingHelp, Note, Run, Texts, UNREADABLE, UNREADABLE_RULE, file_of, of_first_file,
    operation_notes,
};
use std::alloc::{AllocError, Global};

/// The test cases until now.
#[derive(Drop)]
pub struct Suite {
    cases: String,
    tests: usize,
    failures: usize,
}

impl Suite {
    /// One without test cases.
    pub fn new(alloc: Global) -> Suite {
        Suite {
            cases: String::new(alloc),
            tests: 0,
            failures: 0,
        }
    }

    /// Adds a file of which nothing is reported.
    pub fn pass(&mut self, path: &str) -> Result<(), AllocError> {
        let name = Escaped(path);
        writeln!(
            &mut self.cases,
            "<testcase name=\"{name}\" classname=\"gqlvalidate\"/>"
        )?;
        self.tests = self.tests.saturating_add(1);
        Ok(())
    }

    /// Adds findings, a test case for those of one file that follow one another.
    pub fn add(
        &mut self,
        alloc: Global,
        findings: &[Finding<'_>],
        levels: &Levels,
        texts: Texts<'_>,
    ) -> Result<(), AllocError> {
        let mut at = 0_usize;
        for _ in 0..findings.len() {
            let (_, rest) = findings.split_at(at.min(findings.len()));
            let count = of_first_file(rest, texts);
            let (first, _) = rest.split_at(count.min(rest.len()));
            self.add_file(alloc, first, levels, texts)?;
            at = at.saturating_add(count);
        }
        Ok(())
    }

    /// Adds the findings of one file, if there are any.
    fn add_file(
        &mut self,
        alloc: Global,
        findings: &[Finding<'_>],
        levels: &Levels,
        texts: Texts<'_>,
    ) -> Result<(), AllocError> {
        let Some(first) = findings.first() else {
            return Ok(());
        };
        let name = Escaped(file_of(first, texts));
        writeln!(
            &mut self.cases,
            "<testcase name=\"{name}\" classname=\"gqlvalidate\">"
        )?;
        let failures = push_failures(&mut self.cases, alloc, findings, levels, texts)?;
        if failures < findings.len() {
            push_warnings(&mut self.cases, alloc, findings, levels, texts)?;
        }
        writeln!(&mut self.cases, "</testcase>")?;
        self.tests = self.tests.saturating_add(1);
        if failures > 0 {
            self.failures = self.failures.saturating_add(1);
        }
        Ok(())
    }

    /// The document, with the files that could not be read.
    pub fn end(self, alloc: Global, run: Run<'_>) -> Result<String, AllocError> {
        let Suite {
            cases,
            tests,
            failures,
        } = self;
        let errors = run.unreadable.len();
        let tests = tests.saturating_add(errors);
        let mut out = String::new(alloc);
        writeln!(&mut out, "<?xml version=\"1.0\" encoding=\"UTF-8\"?>")?;
        writeln!(
            &mut out,
            "<testsuites>\n<testsuite name=\"gqlvalidate\" tests=\"{tests}\" failures=\"{failures}\" errors=\"{errors}\">"
        )?;
        out.push_str(cases.as_str())?;
        push_unreadable(&mut out, run.unreadable)?;
        writeln!(&mut out, "</testsuite>\n</testsuites>")?;
        Ok(out)
    }
}

fn push_unreadable(out: &mut String, unreadable: &[&str]) -> Result<(), AllocError> {
    for path in unreadable {
        let name = Escaped(path);
        writeln!(
            out,
            "<testcase name=\"{name}\" classname=\"gqlvalidate\">\n<error message=\"{UNREADABLE}\" type=\"{UNREADABLE_RULE}\"/>\n</testcase>"
        )?;
    }
    Ok(())
}

/// Adds the errors of these. The answer is how many there are.
fn push_failures(
    out: &mut String,
    alloc: Global,
    findings: &[Finding<'_>],
    levels: &Levels,
    texts: Texts<'_>,
) -> Result<usize, AllocError> {
    let mut failures = 0_usize;
    for finding in findings {
        if matches!(Severity::of(levels, finding.report.rule), Severity::Error) {
            push_failure(out, alloc, finding, texts)?;
            failures = failures.saturating_add(1);
        }
    }
    Ok(failures)
}

/// Adds the warnings of these, as the output of the test case.
fn push_warnings(
    out: &mut String,
    alloc: Global,
    findings: &[Finding<'_>],
    levels: &Levels,
    texts: Texts<'_>,
) -> Result<(), AllocError> {
    out.push_str("<system-out>")?;
    for finding in findings {
        if matches!(Severity::of(levels, finding.report.rule), Severity::Warning) {
            push_warning(out, alloc, finding, texts)?;
        }
    }
    out.push_str("</system-out>\n")
}

/// Adds a warning.
fn push_warning(
    out: &mut String,
    alloc: Global,
    finding: &Finding<'_>,
    texts: Texts<'_>,
) -> Result<(), AllocError> {
    let rule = Escaped(finding.report.rule);
    write!(out, "warning [{rule}]: ")?;
    push_words(out, alloc, finding, texts)?;
    writeln!(out)
}

/// Adds an error.
fn push_failure(
    out: &mut String,
    alloc: Global,
    finding: &Finding<'_>,
    texts: Texts<'_>,
) -> Result<(), AllocError> {
    let message = Escaped(finding.report.message.as_str());
    let rule = Escaped(finding.report.rule);
    write!(out, "<failure message=\"{message}\" type=\"{rule}\">")?;
    push_words(out, alloc, finding, texts)?;
    writeln!(out, "</failure>")
}

/// Adds where it is and what is wrong, with notes and help.
fn push_words(
    out: &mut String,
    alloc: Global,
    finding: &Finding<'_>,
    texts: Texts<'_>,
) -> Result<(), AllocError> {
    push_place(out, finding, texts)?;
    push_notes(out, &finding.notes, texts)?;
    push_notes(out, &operation_notes(alloc, finding)?, texts)?;
    push_help(out, alloc, finding.help.as_ref())
}
/// Adds where it is, and what is wrong.
fn push_place(out: &mut String, finding: &Finding<'_>, texts: Texts<'_>) -> Result<(), AllocError> {
    let message = Escaped(finding.report.message.as_str());
    let file = Escaped(file_of(finding, texts));
    match texts.locate(finding.report.location) {
        Some(located) => {
            let line = located.start.line;
            let column = located.start.column;
            write!(out, "{file}:{line}:{column}: {message}")
        }
        None => write!(out, "{file}: {message}"),
    }
}

fn push_notes(out: &mut String, notes: &[Note], texts: Texts<'_>) -> Result<(), AllocError> {
    for note in notes {
        if let Some(located) = texts.locate(Some(note.place)) {
            let file = Escaped(shown_name(located.path));
            let line = located.start.line;
            let column = located.start.column;
            let label = Escaped(note.message.as_str());
            write!(out, "\n{file}:{line}:{column}: note: {label}")?;
        }
    }
    Ok(())
}

/// Adds what helps, if something does.
fn push_help(
    out: &mut String,
    alloc: Global,
    help: Option<&FindingHelp<'_>>,
) -> Result<(), AllocError> {
    let Some(help) = help else {
        return Ok(());
    };
    let words = help.to_string(alloc)?;
    let words = Escaped(words.as_str());
    write!(out, "\nhelp: {words}")
}
