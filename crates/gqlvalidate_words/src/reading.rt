//! From words to a request.

use crate::commands::{
    ALWAYS, ANSWER, CHECK, CHECKSTYLE, COLOR, CONFIG, DANGEROUS, DIFF, EACH, EXPLAIN, FAIL_ON,
    FILES, FILES_FROM, FORMAT, FRAGMENTS, GITHUB, GITLAB, JSON, JUNIT, LONE_FIELDS, MARKDOWN,
    MAX_DEPTH, MAX_LINE, MAX_REACH, MAX_REPORTS, MAX_WARNINGS, MAX_WORK, NEVER, NEW, NEW_SCHEMA,
    NO_CONFIG, NULL, OLD, OLD_SCHEMA, ONE_DOCUMENT, ONLY, OPERATIONS, PRINT_SCHEMA, PROJECT, RULE,
    SARIF, SCHEMA, SERVE, STDIN_NAME, SYNTAX, WATCH, program,
};
use crate::dialects::{dialect_of, is_federation};
use crate::levels::levels_of;
use crate::requests::{
    ChangeFormat, Color, Configuration, ConfigurationChoice, FailOn, Format, Grouping, Limits,
    PathEnds, PathList, Refusal, Reporting, Request, STANDARD_INPUT,
};
use clap::error::ErrorKind;
use clap::{ArgMatches, Error};
use gqlvalidate_levels::Levels;
use std::alloc::{AllocError, Global};

/// What the words behind the program's name ask for.
pub fn parse<'a>(alloc: Global, words: &'a [String]) -> Result<Request<'a>, Refusal> {
    match matches(alloc, words) {
        Ok(matches) => request(alloc, &matches),
        Err(error) => Err(refusal_of(alloc, &error)),
    }
}

fn matches<'a>(alloc: Global, words: &'a [String]) -> Result<ArgMatches<'a>, Error> {
    program(alloc)?.try_get_matches_from(words)
}

/// Why there are no matches.
fn refusal_of(alloc: Global, error: &Error) -> Refusal {
    if error.kind() == ErrorKind::OutOfMemory {
        return Refusal::OutOfMemory;
    }
    match error.to_string(alloc) {
        Ok(text) => {
            if error.use_stderr() {
                Refusal::Wrong(text)
            } else {
                Refusal::Asked(text)
            }
        }
        Err(_refused) => Refusal::OutOfMemory,
    }
}

/// What the matches ask for.
fn request<'a>(alloc: Global, matches: &ArgMatches<'a>) -> Result<Request<'a>, Refusal> {
    let Some((command, given)) = matches.subcommand() else {
        return Err(wrong(alloc, "error: no command is given\n"));
    };
    if inputs(command, given) > 1 {
        return Err(wrong(
            alloc,
            "error: standard input, `-`, is named more than once\n",
        ));
    }
    if watches_input(command, given) {
        return Err(wrong(alloc, "error: standard input, `-`, cannot be watched\n"));
    }
    let levels = levels_of(alloc, command, given)?;
    match request_of(alloc, command, given, levels) {
        Ok(request) => Ok(request),
        Err(_refused) => Err(Refusal::OutOfMemory),
    }
}

/// What a command with these arguments, and these levels of rules, asks for.
fn request_of<'a>(
    alloc: Global,
    command: &str,
    given: &ArgMatches<'a>,
    levels: Levels,
) -> Result<Request<'a>, AllocError> {
    let files = paths(alloc, given, FILES)?;
    if command == CHECK {
        let schema = paths(alloc, given, SCHEMA)?;
        Ok(Request::Check {
            choice: configuration_choice(given),
            schema,
            documents: files,
            files_from: path_list(given),
            fragments: paths(alloc, given, FRAGMENTS)?,
            only: paths(alloc, given, ONLY)?,
            stdin_name: given.get_str(STDIN_NAME),
            grouping: grouping(given),
            limits: limits(given),
            reporting: reporting(given),
            watch: given.get_flag(WATCH),
            levels,
            max_warnings: given.get_one::<usize>(MAX_WARNINGS),
            dialect: dialect_of(given),
        })
    } else if command == SERVE {
        let schema = paths(alloc, given, SCHEMA)?;
        Ok(Request::Serve {
            schema,
            fragments: paths(alloc, given, FRAGMENTS)?,
            limits: limits(given),
            max_line: given.get_one::<u64>(MAX_LINE).unwrap_or(u64::MAX),
            max_reports: given.get_one::<usize>(MAX_REPORTS).unwrap_or(usize::MAX),
            federation: is_federation(given),
        })
    } else if command == DIFF {
        diff(alloc, given)
    } else if command == PRINT_SCHEMA {
        Ok(Request::PrintSchema {
            answer: given.get_str(ANSWER).unwrap_or(STANDARD_INPUT),
        })
    } else if command == SYNTAX {
        Ok(Request::Syntax {
            files,
            reporting: reporting(given),
        })
    } else if command == EXPLAIN {
        Ok(Request::Explain {
            rule: given.get_str(RULE),
        })
    } else {
        Ok(Request::Schema {
            schema: files,
            reporting: reporting(given),
            federation: is_federation(given),
        })
    }
}

/// Which configuration is read, and for which project.
fn configuration_choice<'a>(given: &ArgMatches<'a>) -> ConfigurationChoice<'a> {
    let configuration = match given.get_str(CONFIG) {
        Some(file) => Configuration::File(file),
        None if given.get_flag(NO_CONFIG) => Configuration::Nothing,
        None => Configuration::Nearest,
    };
    ConfigurationChoice {
        configuration,
        project: given.get_str(PROJECT),
    }
}

/// The list of further documents, if one is named.
fn path_list<'a>(given: &ArgMatches<'a>) -> Option<PathList<'a>> {
    let file = given.get_str(FILES_FROM)?;
    let ends = if given.get_flag(NULL) {
        PathEnds::Null
    } else {
        PathEnds::Lines
    };
    Some(PathList { file, ends })
}

/// Which documents are validated together.
fn grouping(given: &ArgMatches<'_>) -> Grouping {
    if given.get_flag(ONE_DOCUMENT) {
        Grouping::OneDocument
    } else if given.get_flag(EACH) {
        Grouping::Each
    } else {
        Grouping::Project
    }
}

/// What `diff` with these arguments asks for.
fn diff<'a>(alloc: Global, given: &ArgMatches<'a>) -> Result<Request<'a>, AllocError> {
    let mut old = paths(alloc, given, OLD)?;
    add_paths(&mut old, given, OLD_SCHEMA)?;
    let mut new = paths(alloc, given, NEW)?;
    add_paths(&mut new, given, NEW_SCHEMA)?;
    Ok(Request::Diff {
        old,
        new,
        operations: paths(alloc, given, OPERATIONS)?,
        lone_fields: given.get_flag(LONE_FIELDS),
        fail_on: fail_on_of(given.get_str(FAIL_ON)),
        format: change_format_of(given.get_str(FORMAT)),
        federation: is_federation(given),
    })
}

/// The format of this name. No other is accepted but these, and text is the default.
fn change_format_of(name: Option<&str>) -> ChangeFormat {
    match name {
        Some(name) if name == JSON => ChangeFormat::Json,
        Some(name) if name == GITHUB => ChangeFormat::Github,
        Some(name) if name == MARKDOWN => ChangeFormat::Markdown,
        _ => ChangeFormat::Text,
    }
}

/// Which changes end a run with status 1, by this name. No other is accepted but these, and `breaking` is the default.
fn fail_on_of(name: Option<&str>) -> FailOn {
    match name {
        Some(name) if name == DANGEROUS => FailOn::Dangerous,
        Some(name) if name == NEVER => FailOn::Never,
        _ => FailOn::Breaking,
    }
}

fn wrong(alloc: Global, text: &str) -> Refusal {
    match String::from_str(alloc, text) {
        Ok(text) => Refusal::Wrong(text),
        Err(_refused) => Refusal::OutOfMemory,
    }
}

/// What a document may take. Each number has a default on the command line.
fn limits(given: &ArgMatches<'_>) -> Limits {
    Limits {
        depth: given.get_one::<usize>(MAX_DEPTH).unwrap_or(usize::MAX),
        reach: given.get_one::<usize>(MAX_REACH).unwrap_or(usize::MAX),
        work: given.get_one::<usize>(MAX_WORK).unwrap_or(usize::MAX),
    }
}

fn reporting(given: &ArgMatches<'_>) -> Reporting {
    Reporting::new(
        format_of(given.get_str(FORMAT)),
        color_of(given.get_str(COLOR)),
        given.get_one::<usize>(MAX_REPORTS),
    )
}

/// The format of this name. No other is accepted but these, and text is the default.
fn format_of(name: Option<&str>) -> Format {
    match name {
        Some(name) if name == JSON => Format::Json,
        Some(name) if name == GITHUB => Format::Github,
        Some(name) if name == SARIF => Format::Sarif,
        Some(name) if name == JUNIT => Format::Junit,
        Some(name) if name == CHECKSTYLE => Format::Checkstyle,
        Some(name) if name == GITLAB => Format::Gitlab,
        _ => Format::Text,
    }
}

/// When text is coloured, by this name. No other is accepted but these, and `auto` is the default.
fn color_of(name: Option<&str>) -> Color {
    match name {
        Some(name) if name == ALWAYS => Color::Always,
        Some(name) if name == NEVER => Color::Never,
        _ => Color::Auto,
    }
}

/// The paths of an argument, in order.
fn paths<'a>(
    alloc: Global,
    given: &ArgMatches<'a>,
    argument: &str,
) -> Result<Vec<&'a str>, AllocError> {
    let mut paths = Vec::new(alloc);
    add_paths(&mut paths, given, argument)?;
    Ok(paths)
}

/// Adds the paths of an argument, in order.
fn add_paths<'a>(
    paths: &mut Vec<&'a str>,
    given: &ArgMatches<'a>,
    argument: &str,
) -> Result<(), AllocError> {
    for path in given.get_strs(argument).unwrap_or(&[]) {
        paths.push(*path)?;
    }
    Ok(())
}

/// Whether files are watched, and standard input is one of them.
fn watches_input(command: &str, given: &ArgMatches<'_>) -> bool {
    command == CHECK && given.get_flag(WATCH) && inputs(command, given) > 0
}

/// How often a command takes standard input: by a path, `check` for a document that `--stdin-name` names, and `serve` for its questions.
fn inputs(command: &str, given: &ArgMatches<'_>) -> usize {
    let questions = usize::from(command == SERVE);
    let named = usize::from(command == CHECK && given.get_str(STDIN_NAME).is_some());
    questions
        .saturating_add(named)
        .saturating_add(inputs_of(given, SCHEMA))
        .saturating_add(inputs_of(given, FILES))
        .saturating_add(inputs_of(given, FRAGMENTS))
        .saturating_add(inputs_of(given, FILES_FROM))
        .saturating_add(inputs_of_schemas(given))
        .saturating_add(inputs_of(given, OPERATIONS))
        .saturating_add(inputs_of(given, ANSWER))
}

/// How many paths of the two schemas of a comparison name standard input.
fn inputs_of_schemas(given: &ArgMatches<'_>) -> usize {
    inputs_of(given, OLD)
        .saturating_add(inputs_of(given, OLD_SCHEMA))
        .saturating_add(inputs_of(given, NEW))
        .saturating_add(inputs_of(given, NEW_SCHEMA))
}

/// How many paths of an argument name standard input.
fn inputs_of(given: &ArgMatches<'_>, argument: &str) -> usize {
    given
        .get_strs(argument)
        .unwrap_or(&[])
        .iter()
        .filter(|path| **path == STANDARD_INPUT)
        .count()
}
