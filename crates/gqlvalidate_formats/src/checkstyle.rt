//! Findings as the XML of Checkstyle.

use crate::helped::Helped;
use crate::severities::Severity;
use crate::xml::Escaped;
use gqlvalidate_levels::Levels;
use gqlvalidate_texts::{Finding, Run, Texts, UNREADABLE, UNREADABLE_RULE, file_of};
use std::alloc::{AllocError, Global};

/// The document, up to its first file.
pub fn begin(alloc: Global) -> Result<String, AllocError> {
    String::from_str(
        alloc,
        "<?xml version=\"1.0\" encoding=\"UTF-8\"?>\n<checkstyle version=\"8.0\">\n",
    )
}

/// The findings, each as an error of its file.
pub fn elements_of(
    alloc: Global,
    findings: &[Finding<'_>],
    levels: &Levels,
    texts: Texts<'_>,
) -> Result<String, AllocError> {
    let mut out = String::new(alloc);
    for finding in findings {
        let file = Escaped(file_of(finding, texts));
        writeln!(&mut out, "<file name=\"{file}\">")?;
        let severity = Severity::of(levels, finding.report.rule);
        push_error(&mut out, alloc, finding, severity, texts)?;
        writeln!(&mut out, "</file>")?;
    }
    Ok(out)
}

/// The files that could not be read, and the end of the document.
pub fn end(alloc: Global, run: Run<'_>) -> Result<String, AllocError> {
    let mut out = String::new(alloc);
    for path in run.unreadable {
        let file = Escaped(path);
        writeln!(
            &mut out,
            "<file name=\"{file}\">\n<error line=\"1\" column=\"1\" severity=\"error\" message=\"{UNREADABLE}\" source=\"gqlvalidate.{UNREADABLE_RULE}\"/>\n</file>"
        )?;
    }
    out.push_str("</checkstyle>\n")?;
    Ok(out)
}

fn push_error(
    out: &mut String,
    alloc: Global,
    finding: &Finding<'_>,
    severity: Severity,
    texts: Texts<'_>,
) -> Result<(), AllocError> {
    let (line, column) = match texts.locate(finding.report.location) {
        Some(located) => (located.start.line, located.start.column),
        None => (1, 1),
    };
    let message = Helped(finding).to_string(alloc)?;
    let message = Escaped(message.as_str());
    let rule = Escaped(finding.report.rule);
    let severity = severity.name();
    writeln!(
        out,
        "<error line=\"{line}\" column=\"{column}\" severity=\"{severity}\" message=\"{message}\" source=\"gqlvalidate.{rule}\"/>"
    )
}
