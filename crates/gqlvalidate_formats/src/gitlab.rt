//! Findings as the code quality report of GitLab.

use crate::fingerprints::Fingerprints;
use crate::helped::Helped;
use crate::severities::Severity;
use gqlvalidate_levels::Levels;
use gqlvalidate_texts::{Finding, Run, Texts, UNREADABLE, UNREADABLE_RULE, file_of};
use json::Writer;
use std::alloc::{AllocError, Global};

/// The issues until now.
#[derive(Drop)]
pub struct Issues {
    json: Writer,
    fingerprints: Fingerprints,
}

/// An issue.
#[derive(Clone, Copy)]
struct Issue<'a> {
    file: &'a str,
    line: usize,
    rule: &'a str,
    /// `major`, or `minor`.
    severity: &'static str,
    message: &'a str,
    /// The message with what helps.
    description: &'a str,
}

impl Issues {
    /// A report without issues: its JSON array begins. The only error is a failed allocation.
    pub fn new(alloc: Global) -> Result<Issues, AllocError> {
        let mut json = Writer::new(Vec::new(alloc));
        json.begin_array()?;
        Ok(Issues {
            json,
            fingerprints: Fingerprints::new(alloc),
        })
    }

    /// Adds findings, in order.
    pub fn add(
        &mut self,
        alloc: Global,
        findings: &[Finding<'_>],
        levels: &Levels,
        texts: Texts<'_>,
    ) -> Result<(), AllocError> {
        for finding in findings {
            let line = match texts.locate(finding.report.location) {
                Some(located) => located.start.line,
                None => 1,
            };
            let description = Helped(finding).to_string(alloc)?;
            let issue = Issue {
                file: file_of(finding, texts),
                line,
                rule: finding.report.rule,
                severity: severity_name(Severity::of(levels, finding.report.rule)),
                message: finding.report.message.as_str(),
                description: description.as_str(),
            };
            self.add_issue(alloc, issue)?;
        }
        Ok(())
    }

    /// The report, with the files that could not be read.
    pub fn end(mut self, alloc: Global, run: Run<'_>) -> Result<Writer, AllocError> {
        for path in run.unreadable {
            let issue = Issue {
                file: path,
                line: 1,
                rule: UNREADABLE_RULE,
                severity: severity_name(Severity::Error),
                message: UNREADABLE,
                description: UNREADABLE,
            };
            self.add_issue(alloc, issue)?;
        }
        self.json.end_array()?;
        let Issues { json, .. } = self;
        Ok(json)
    }

    fn add_issue(&mut self, alloc: Global, issue: Issue<'_>) -> Result<(), AllocError> {
        let Issue {
            file,
            line,
            rule,
            severity,
            message,
            description,
        } = issue;
        let fingerprint = self.fingerprints.next(alloc, file, rule, message)?;
        let json = &mut self.json;
        json.begin_object()?;
        add_text(json, "description", description)?;
        add_text(json, "check_name", rule)?;
        add_text(json, "fingerprint", fingerprint.as_str())?;
        add_text(json, "severity", severity)?;
        json.key("location")?;
        json.begin_object()?;
        add_text(json, "path", file)?;
        json.key("lines")?;
        json.begin_object()?;
        json.key("begin")?;
        json.u64(line as u64)?;
        json.end_object()?;
        json.end_object()?;
        json.end_object()
    }
}

/// The name that GitLab has for a severity.
fn severity_name(severity: Severity) -> &'static str {
    match severity {
        Severity::Warning => "minor",
        Severity::Error => "major",
    }
}

fn add_text(json: &mut Writer, name: &str, text: &str) -> Result<(), AllocError> {
    json.key(name)?;
    json.string(text)
}
