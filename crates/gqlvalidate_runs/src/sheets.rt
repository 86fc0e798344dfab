//! The formats, each with what is written in it until now.

use gqlvalidate_formats::gitlab::Issues;
use gqlvalidate_formats::junit::Suite;
use gqlvalidate_formats::{
    Finding, Run, Style, Texts, checkstyle, github, json_findings, sarif, text,
};
use gqlvalidate_inputs::printable::PrintableJson;
use gqlvalidate_levels::Levels;
use gqlvalidate_words::Format;
use json::Writer;
use std::alloc::{AllocError, Global};

/// What is written until now.
#[derive(Drop)]
pub enum Sheet {
    /// Nothing: text is printed at once.
    Text(Style),
    /// Nothing: annotations are printed at once.
    Github,
    Json(Writer),
    Sarif(Writer),
    Gitlab(Issues),
    Junit(Suite),
    /// The elements of files.
    Checkstyle(String),
}

impl Sheet {
    /// Begins a sheet of this format without findings. The only error is a failed allocation.
    pub fn new(alloc: Global, format: Format, style: Style) -> Result<Sheet, AllocError> {
        match format {
            Format::Text => Ok(Sheet::Text(style)),
            Format::Github => Ok(Sheet::Github),
            Format::Json => {
                let mut json = Writer::new(Vec::new(alloc));
                json_findings::begin(&mut json)?;
                Ok(Sheet::Json(json))
            }
            Format::Sarif => {
                let mut json = Writer::new(Vec::new(alloc));
                sarif::begin(&mut json)?;
                Ok(Sheet::Sarif(json))
            }
            Format::Gitlab => Ok(Sheet::Gitlab(Issues::new(alloc)?)),
            Format::Junit => Ok(Sheet::Junit(Suite::new(alloc))),
            Format::Checkstyle => Ok(Sheet::Checkstyle(checkstyle::begin(alloc)?)),
        }
    }

    /// Adds findings, in order. What is to be printed at once.
    pub fn add(
        &mut self,
        alloc: Global,
        findings: &[Finding<'_>],
        levels: &Levels,
        texts: Texts<'_>,
    ) -> Result<String, AllocError> {
        match self {
            Sheet::Text(style) => return text::text_of(alloc, findings, levels, texts, *style),
            Sheet::Github => return github::annotations_of(alloc, findings, levels, texts),
            Sheet::Json(json) => json_findings::add_findings(json, alloc, findings, levels, texts)?,
            Sheet::Sarif(json) => sarif::add_findings(json, alloc, findings, levels, texts)?,
            Sheet::Gitlab(issues) => issues.add(alloc, findings, levels, texts)?,
            Sheet::Junit(suite) => suite.add(alloc, findings, levels, texts)?,
            Sheet::Checkstyle(elements) => {
                let more = checkstyle::elements_of(alloc, findings, levels, texts)?;
                elements.push_str(more.as_str())?;
            }
        }
        Ok(String::new(alloc))
    }

    /// Adds a file of which nothing is reported, where the format says so.
    pub fn pass(&mut self, path: &str) -> Result<(), AllocError> {
        match self {
            Sheet::Junit(suite) => suite.pass(path),
            _ => Ok(()),
        }
    }

    /// What is to be printed at the end of this run.
    pub fn end(self, alloc: Global, run: Run<'_>) -> Result<String, AllocError> {
        match self {
            Sheet::Text(_) => Ok(String::new(alloc)),
            Sheet::Github => github::annotations_of_unreadable(alloc, run.unreadable),
            Sheet::Json(mut json) => {
                json_findings::end(&mut json, run)?;
                line_of(alloc, json)
            }
            Sheet::Sarif(mut json) => {
                sarif::end(&mut json, alloc, run)?;
                line_of(alloc, json)
            }
            Sheet::Gitlab(issues) => line_of(alloc, issues.end(alloc, run)?),
            Sheet::Junit(suite) => suite.end(alloc, run),
            Sheet::Checkstyle(mut elements) => {
                let rest = checkstyle::end(alloc, run)?;
                elements.push_str(rest.as_str())?;
                Ok(elements)
            }
        }
    }
}

/// The JSON as a line.
pub fn line_of(alloc: Global, json: Writer) -> Result<String, AllocError> {
    let bytes = json.into_inner();
    let text = std::str::from_utf8(&bytes).unwrap_or("");
    let mut line = PrintableJson(text).to_string(alloc)?;
    line.push('\n')?;
    Ok(line)
}
