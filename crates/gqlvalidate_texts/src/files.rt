//! Findings by their files.

use graphql_report_formats::Finding;
use graphql_report_formats::named_texts::{Texts, shown_name};

/// What a line calls the file of a finding.
pub fn file_of<'a>(finding: &Finding<'_>, texts: Texts<'a>) -> &'a str {
    match texts.locate(finding.report.location) {
        Some(located) => shown_name(located.path),
        None => shown_name(texts.path()),
    }
}

/// How many of the first findings are of one file.
pub fn of_first_file(findings: &[Finding<'_>], texts: Texts<'_>) -> usize {
    let Some(first) = findings.first() else {
        return 0;
    };
    let file = file_of(first, texts);
    findings
        .iter()
        .take_while(|finding| file_of(finding, texts) == file)
        .count()
}
