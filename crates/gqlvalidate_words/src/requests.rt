//! What a command line asks for.

ghost use Rattle.std.specs.Prelude.{◌≡◌, ℕ, None, Some};

use gqlvalidate_dialects::Dialect;
use gqlvalidate_levels::Levels;

/// The path that stands for standard input.
pub const STANDARD_INPUT: &str = "-";

/// How many reports are written as text at most, unless a number is given.
pub const TEXT_REPORTS: usize = 100;

/// How reports are written.
#[derive(Clone, Copy, Debug, PartialEq, Eq)]
pub enum Format {
    /// Lines for people, with the part of the source that a report is about.
    Text,
    /// One JSON object.
    Json,
    /// Workflow commands of GitHub Actions, which makes annotations of them.
    Github,
    /// A log of the Static Analysis Results Interchange Format.
    Sarif,
    /// The XML of JUnit.
    Junit,
    /// The XML of Checkstyle.
    Checkstyle,
    /// A code quality report of GitLab.
    Gitlab,
}

/// How changes of a schema are written.
#[derive(Clone, Copy, Debug, PartialEq, Eq)]
pub enum ChangeFormat {
    /// Lines for people.
    Text,
    /// One JSON object.
    Json,
    /// Workflow commands of GitHub Actions, which makes annotations of them.
    Github,
    /// A table, as comments of pull requests have it.
    Markdown,
}

/// Which changes of a schema end the run with status 1.
#[derive(Clone, Copy, Debug, PartialEq, Eq)]
pub enum FailOn {
    Breaking,
    /// Dangerous ones, and breaking ones too.
    Dangerous,
    Never,
}

/// When text is coloured.
#[derive(Clone, Copy, Debug, PartialEq, Eq)]
pub enum Color {
    /// At a terminal, unless the environment has `NO_COLOR`.
    Auto,
    Always,
    Never,
}

/// Which reports are written, and how.
#[derive(Clone, Copy, Debug, PartialEq, Eq)]
pub struct Reporting {
    pub format: Format,
    pub color: Color,
    /// How many reports are written at most, in all files together.
    pub max_reports: usize,
}

impl Reporting {
    /// With the number that was given, if one was. Otherwise text ends behind 100 reports, and the formats for
    /// machines have no bound.
    pub fn new(format: Format, color: Color, max_reports: Option<usize>) -> Reporting
        ensures format { result.format ≡ format }
        ensures color { result.color ≡ color }
        ensures given { (most : ℕ) → max_reports ≡ Some most → result.max_reports ≡ most }
        ensures text { max_reports ≡ None → format ≡ Format.Text → result.max_reports ≡ 100 }
    {
        let max_reports = match max_reports {
            Some(most) => most,
            None => most_of(format),
        };
        Reporting {
            format,
            color,
            max_reports,
        }
    }
}

/// How many reports are written in a format, if no number is given.
fn most_of(format: Format) -> usize
    ensures { format ≡ Format.Text → result ≡ 100 }
{
    match format {
        Format::Text => TEXT_REPORTS,
        _ => usize::MAX,
    }
}

/// What a document may take.
#[derive(Clone, Copy, Debug, PartialEq, Eq)]
pub struct Limits {
    /// So many levels it may nest.
    pub depth: usize,
    /// So many bytes its operations may reach for each byte of its text.
    pub reach: usize,
    /// So many steps may be taken to compare its fields that come together.
    pub work: usize,
}

/// Which documents are validated together.
#[derive(Clone, Copy, Debug, PartialEq, Eq)]
pub enum Grouping {
    /// All of them: each operation with the fragments that it reaches in any of them.
    Project,
    /// All of them, as one document.
    OneDocument,
    /// Each for itself.
    Each,
}

/// A file with paths.
#[derive(Clone, Copy, Debug, PartialEq, Eq)]
pub struct PathList<'a> {
    pub file: &'a str,
    pub ends: PathEnds,
}

/// How the paths of a list end.
#[derive(Clone, Copy, Debug, PartialEq, Eq)]
pub enum PathEnds {
    /// With a line end.
    Lines,
    /// With a byte of value 0.
    Null,
}

/// Which configuration names the files that the command line does not name.
#[derive(Clone, Copy, Debug, PartialEq, Eq)]
pub enum Configuration<'a> {
    /// The nearest one, upwards from the working folder.
    Nearest,
    /// That of this file.
    File(&'a str),
    Nothing,
}

/// The configuration of a run.
#[derive(Clone, Copy, Debug, PartialEq, Eq)]
pub struct ConfigurationChoice<'a> {
    pub configuration: Configuration<'a>,
    /// The project of it; all, if none is named.
    pub project: Option<&'a str>,
}

/// What a command line asks for. Paths are in the order of the command line.
#[derive(Debug, Drop)]
pub enum Request<'a> {
    /// To validate documents against the schema of these files.
    Check {
        choice: ConfigurationChoice<'a>,
        schema: Vec<&'a str>,
        documents: Vec<&'a str>,
        /// The list of further documents.
        files_from: Option<PathList<'a>>,
        /// The files whose fragments are lent.
        fragments: Vec<&'a str>,
        /// The files whose reports are shown; all, if there are none.
        only: Vec<&'a str>,
        /// The document whose text is that of standard input.
        stdin_name: Option<&'a str>,
        grouping: Grouping,
        limits: Limits,
        reporting: Reporting,
        /// Files are validated again whenever one of them changes.
        watch: bool,
        /// The levels that the command line gives to rules.
        levels: Levels,
        /// There may be so many warnings; any number, if none is given.
        max_warnings: Option<usize>,
        /// What the schema and the documents mean beyond the specification.
        dialect: Dialect,
    },
    /// To compare the schema of some files with that of others.
    Diff {
        old: Vec<&'a str>,
        new: Vec<&'a str>,
        /// Documents that are validated against both.
        operations: Vec<&'a str>,
        /// Only documents count that put no two fields under one response key.
        lone_fields: bool,
        fail_on: FailOn,
        format: ChangeFormat,
        /// Both schemas are subgraphs of Federation.
        federation: bool,
    },
    /// To print the schema that this answer to an introspection query describes.
    PrintSchema {
        answer: &'a str,
    },
    /// To validate the schema of these files.
    Schema {
        schema: Vec<&'a str>,
        reporting: Reporting,
        /// It is a subgraph of Federation.
        federation: bool,
    },
    /// To answer lines of JSON on standard input, a document each, against the schema of these files.
    Serve {
        schema: Vec<&'a str>,
        /// The files whose fragments are lent.
        fragments: Vec<&'a str>,
        limits: Limits,
        /// So many bytes a line may have, without its end.
        max_line: u64,
        /// How many reports an answer has at most.
        max_reports: usize,
        /// The schema is a subgraph of Federation.
        federation: bool,
    },
    /// To test whether these files are GraphQL documents, each for itself.
    Syntax {
        files: Vec<&'a str>,
        reporting: Reporting,
    },
    /// To explain the rule of this name, or to list all rules.
    Explain {
        rule: Option<&'a str>,
    },
}

/// Why a command line asks for no run.
#[derive(Debug, Drop)]
pub enum Refusal {
    OutOfMemory,
    /// It asks for this text, which is its help or the version.
    Asked(String),
    /// This is wrong with it.
    Wrong(String),
}
