use graphql_building_reports::BuildingReportList;
use graphql_nodes::FileId;
use graphql_parser::{Bounds, parse_document};
use graphql_trees::Document;
use std::alloc::Global;
use std::process::Abort;

/// The tree of the text.
pub(crate) fn tree(rt: &impl Abort, alloc: Global, file: u32, text: &str) -> Document {
    match parse_document(alloc, FileId(file), text, Bounds::DEFAULT) {
        Ok(document) => document,
        Err(error) => panic!(rt; "{error} at {} in {text}", error.at(text)),
    }
}

/// The reports, each on a line: the byte where it is, and its message.
pub(crate) fn lines(rt: &impl Abort, alloc: Global, reports: &BuildingReportList) -> String {
    let mut text = String::new(alloc);
    for report in reports.iter() {
        let rule = &report.rule;
        let line = match report.location {
            Some(span) => format!(in alloc; "{} {rule}\n", span.start),
            None => format!(in alloc; "- {rule}\n"),
        };
        let line = line.expect(rt, "memory for a line");
        text.push_str(line.as_str()).expect(rt, "memory for a line");
    }
    text
}
