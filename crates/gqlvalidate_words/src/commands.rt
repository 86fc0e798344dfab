//! The commands and their arguments.

use crate::dialects::{with_dialect, with_federation};
use clap::{Arg, ArgAction, Command, Error, value_parser};
use std::alloc::Global;

/// The names of the arguments.
pub const SCHEMA: &str = "schema";

pub const FILES: &str = "files";

pub const FORMAT: &str = "format";

pub const MAX_REPORTS: &str = "max-reports";

pub const COLOR: &str = "color";

pub const ONE_DOCUMENT: &str = "one-document";

pub const EACH: &str = "each";

pub const FRAGMENTS: &str = "fragments";

pub const FILES_FROM: &str = "files-from";

pub const NULL: &str = "null";

pub const ONLY: &str = "only";

pub const CONFIG: &str = "config";

pub const NO_CONFIG: &str = "no-config";

pub const PROJECT: &str = "project";

pub const STDIN_NAME: &str = "stdin-name";

pub const WATCH: &str = "watch";

pub const MAX_DEPTH: &str = "max-depth";

pub const MAX_REACH: &str = "max-reach";

pub const MAX_WORK: &str = "max-work";

pub const MAX_LINE: &str = "max-line";

pub const RULE: &str = "rule";

pub const MAX_WARNINGS: &str = "max-warnings";

pub const DEPRECATED: &str = "deprecated";

pub const ANSWER: &str = "answer";

pub const OLD: &str = "old";

pub const NEW: &str = "new";

pub const OLD_SCHEMA: &str = "old-schema";

pub const NEW_SCHEMA: &str = "new-schema";

pub const OPERATIONS: &str = "operations";

pub const LONE_FIELDS: &str = "lone-fields";

pub const FAIL_ON: &str = "fail-on";

/// The names of the commands.
pub const CHECK: &str = "check";

pub const DIFF: &str = "diff";

pub const PRINT_SCHEMA: &str = "print-schema";

pub const SERVE: &str = "serve";

pub const SYNTAX: &str = "syntax";

pub const EXPLAIN: &str = "explain";

/// The names of the formats.
pub const TEXT: &str = "text";

pub const JSON: &str = "json";

pub const GITHUB: &str = "github";

pub const SARIF: &str = "sarif";

pub const JUNIT: &str = "junit";

pub const CHECKSTYLE: &str = "checkstyle";

pub const GITLAB: &str = "gitlab";

static FORMATS: [&str; 7] = [TEXT, JSON, GITHUB, SARIF, JUNIT, CHECKSTYLE, GITLAB];

pub const MARKDOWN: &str = "markdown";

static CHANGE_FORMATS: [&str; 4] = [TEXT, JSON, GITHUB, MARKDOWN];

/// Which changes end a comparison with status 1; `never` is a name of this, too.
pub const BREAKING: &str = "breaking";

pub const DANGEROUS: &str = "dangerous";

static LEVELS: [&str; 3] = [BREAKING, DANGEROUS, NEVER];

/// The levels of a rule.
static RULE_LEVELS: [&str; 3] = ["off", "warning", "error"];

/// When text is coloured.
pub const AUTO: &str = "auto";

pub const ALWAYS: &str = "always";

pub const NEVER: &str = "never";

static COLORS: [&str; 3] = [AUTO, ALWAYS, NEVER];

/// What the help of the program and of its commands ends with.
const STATUSES: &str = "`-` stands for standard input, and may be named once.

Status:
  0  nothing was reported, or only warnings
  1  something was reported that is no warning, or too many warnings
  2  bad arguments
  3  out of memory
  4  standard output could not be written
  5  a file could not be read";

/// The program with its commands.
pub fn program<'a>(alloc: Global) -> Result<Command<'a>, Error> {
    let program = Command::new(alloc, "gqlvalidate")
        .version(
            "0.1.0 (GraphQL October 2021 with @defer; proved with Rattle, logic dac8208d650f15bf)",
        )
        .about("Validates GraphQL schemas and documents")
        .after_help(STATUSES)
        .no_binary_name(true)
        .subcommand_required(true)
        .bin_name("gqlvalidate")?;
    let program = with_validation(alloc, program)?;
    let program = with_schemas(alloc, program)?;
    Ok(program.subcommand(explain(alloc)?)?)
}

/// Adds the commands `check` and `diff`.
fn with_validation<'a>(alloc: Global, program: Command<'a>) -> Result<Command<'a>, Error> {
    let program = program.subcommand(check(alloc)?)?;
    Ok(program.subcommand(diff(alloc)?)?)
}

/// Adds the commands on schemas and on syntax, and `serve`.
fn with_schemas<'a>(alloc: Global, program: Command<'a>) -> Result<Command<'a>, Error> {
    let program = program.subcommand(print_schema(alloc)?)?;
    let program = program.subcommand(schema(alloc)?)?;
    let program = program.subcommand(serve(alloc)?)?;
    Ok(program.subcommand(syntax(alloc)?)?)
}

fn check<'a>(alloc: Global) -> Result<Command<'a>, Error> {
    let command = Command::new(alloc, CHECK)
        .about("Validates documents against a schema")
        .after_help(STATUSES);
    let command = command.arg(schema_files(alloc))?;
    let command = with_configuration(alloc, command)?;
    let command = with_reporting(alloc, command)?;
    let command = with_rules(alloc, command)?;
    let command = with_grouping(alloc, command)?;
    let command = with_lists(alloc, command)?;
    let command = with_limits(alloc, command, "64")?;
    let command = with_editing(alloc, command)?;
    let command = with_dialect(alloc, command)?;
    Ok(command.arg(documents(alloc))?)
}

fn diff<'a>(alloc: Global) -> Result<Command<'a>, Error> {
    let command = Command::new(alloc, DIFF)
        .about("Finds what changes from one schema to another, and whether documents stay valid")
        .after_help(STATUSES);
    let command = with_levels(alloc, command)?;
    let command = with_further_files(alloc, command)?;
    let command = with_federation(alloc, command)?;
    let command = command.arg(one_file(alloc, OLD, "OLD", "The old schema"))?;
    Ok(command.arg(one_file(alloc, NEW, "NEW", "The new schema"))?)
}

fn print_schema<'a>(alloc: Global) -> Result<Command<'a>, Error> {
    let command = Command::new(alloc, PRINT_SCHEMA)
        .about("Prints the schema that an answer to an introspection query describes")
        .after_help(STATUSES);
    Ok(command.arg(one_file(alloc, ANSWER, "FILE", "The answer, as JSON"))?)
}

fn schema<'a>(alloc: Global) -> Result<Command<'a>, Error> {
    let command = Command::new(alloc, SCHEMA)
        .about("Validates a schema")
        .after_help(STATUSES);
    let command = with_reporting(alloc, command)?;
    let command = with_federation(alloc, command)?;
    Ok(command.arg(files(
        alloc,
        "FILE",
        "Files of the schema; together they form one schema",
    ))?)
}

fn serve<'a>(alloc: Global) -> Result<Command<'a>, Error> {
    let command = Command::new(alloc, SERVE)
        .about(
            "Validates documents from standard input, one in each line of JSON, against a schema that is read once",
        )
        .after_help(STATUSES);
    let command = with_limits(alloc, command, "4")?;
    let command = command.arg(max_line(alloc))?;
    let command = command.arg(max_reports_of_an_answer(alloc))?;
    let command = command.arg(lent_fragments(alloc))?;
    let command = with_federation(alloc, command)?;
    Ok(command.arg(schema_files(alloc).required(true))?)
}

fn syntax<'a>(alloc: Global) -> Result<Command<'a>, Error> {
    let command = Command::new(alloc, SYNTAX)
        .about("Checks the grammar of files, whether documents or schemas")
        .after_help(STATUSES);
    let command = with_reporting(alloc, command)?;
    Ok(command.arg(files(alloc, "FILE", "Files to check, each on its own"))?)
}

fn explain<'a>(alloc: Global) -> Result<Command<'a>, Error> {
    let command = Command::new(alloc, EXPLAIN).about(
        "Explains a rule, with a wrong and a right example, or lists all rules",
    );
    Ok(command.arg(rule(alloc))?)
}

fn with_reporting<'a>(alloc: Global, command: Command<'a>) -> Result<Command<'a>, Error> {
    let command = command.arg(format(alloc))?;
    let command = command.arg(color(alloc))?;
    Ok(command.arg(max_reports(alloc))?)
}

/// Adds the options that say which reports are errors, and how many warnings there may be.
fn with_rules<'a>(alloc: Global, command: Command<'a>) -> Result<Command<'a>, Error> {
    let command = command.arg(level(alloc))?;
    Ok(command.arg(deprecated(alloc))?.arg(max_warnings(alloc))?)
}

/// Adds the options that choose the configuration.
fn with_configuration<'a>(alloc: Global, command: Command<'a>) -> Result<Command<'a>, Error> {
    let command = command.arg(config(alloc))?;
    let command = command.arg(no_config(alloc)?)?;
    Ok(command.arg(project(alloc))?)
}

/// Adds the options that choose which documents are validated together.
fn with_grouping<'a>(alloc: Global, command: Command<'a>) -> Result<Command<'a>, Error> {
    let command = command.arg(lent_fragments(alloc))?;
    let command = command.arg(each(alloc)?)?;
    Ok(command.arg(one_document(alloc))?)
}

/// Adds the options that name further documents, and those to show.
fn with_lists<'a>(alloc: Global, command: Command<'a>) -> Result<Command<'a>, Error> {
    let command = command.arg(files_from(alloc))?;
    let command = command.arg(null(alloc))?;
    Ok(command.arg(only(alloc)?)?)
}

/// Adds the options for documents that are edited.
fn with_editing<'a>(alloc: Global, command: Command<'a>) -> Result<Command<'a>, Error> {
    let command = command.arg(stdin_name(alloc)?)?;
    Ok(command.arg(watch(alloc)?)?)
}

/// Adds the options that bound a document.
fn with_limits<'a>(
    alloc: Global,
    command: Command<'a>,
    reach: &'a str,
) -> Result<Command<'a>, Error> {
    let command = command.arg(max_depth(alloc))?;
    let command = command.arg(max_reach(alloc, reach))?;
    Ok(command.arg(max_work(alloc))?)
}

/// Adds the options that choose the format of changes, and which changes end the run with status 1.
fn with_levels<'a>(alloc: Global, command: Command<'a>) -> Result<Command<'a>, Error> {
    let command = command.arg(change_format(alloc))?;
    let command = command.arg(fail_on(alloc))?;
    Ok(command.arg(lone_fields(alloc))?)
}

/// Adds the options that name further files of a comparison.
fn with_further_files<'a>(alloc: Global, command: Command<'a>) -> Result<Command<'a>, Error> {
    let command = command.arg(further_file(
        alloc,
        OLD_SCHEMA,
        "A further file of the old schema; repeat the option for each file",
    ))?;
    let command = command.arg(further_file(
        alloc,
        NEW_SCHEMA,
        "A further file of the new schema; repeat the option for each file",
    ))?;
    Ok(command.arg(further_file(
        alloc,
        OPERATIONS,
        "A document to validate against both; repeat the option for each file",
    ))?)
}

/// The paths that a command takes, one at least.
fn files<'a>(alloc: Global, name: &'a str, help: &'a str) -> Arg<'a> {
    Arg::new(alloc, FILES)
        .value_name(name)
        .help(help)
        .required(true)
        .num_args(1..)
        .action(ArgAction::Append)
}

/// The documents: paths, unless a file has a list of them, or the configuration names them.
fn documents<'a>(alloc: Global) -> Arg<'a> {
    Arg::new(alloc, FILES)
        .value_name("PATH")
        .help(
            "Executable documents: files, folders, or quoted patterns such as 'src/**/*.graphql'; '!PATTERN' takes out [default: those of the configuration]",
        )
        .num_args(1..)
        .action(ArgAction::Append)
}

fn files_from<'a>(alloc: Global) -> Arg<'a> {
    Arg::new(alloc, FILES_FROM)
        .long(FILES_FROM)
        .value_name("FILE")
        .help("A file with further paths of documents, one on each line")
        .action(ArgAction::Set)
}

fn null<'a>(alloc: Global) -> Arg<'a> {
    Arg::new(alloc, NULL)
        .short('0')
        .long(NULL)
        .help("The paths of --files-from end with a byte of value 0, as those of find -print0")
        .action(ArgAction::SetTrue)
}

fn only<'a>(alloc: Global) -> Result<Arg<'a>, Error> {
    let only = Arg::new(alloc, ONLY)
        .long(ONLY)
        .value_name("PATH")
        .help(
            "Show only the reports on these files, folders or quoted patterns of a whole run; may be repeated",
        )
        .action(ArgAction::Append);
    Ok(only.conflicts_with(ONE_DOCUMENT)?.conflicts_with(EACH)?)
}

fn lent_fragments<'a>(alloc: Global) -> Arg<'a> {
    Arg::new(alloc, FRAGMENTS)
        .long(FRAGMENTS)
        .value_name("PATH")
        .help(
            "Files, a folder or a quoted pattern whose fragments documents may spread, and which are not judged; may be repeated",
        )
        .action(ArgAction::Append)
}

fn each<'a>(alloc: Global) -> Result<Arg<'a>, Error> {
    let each = Arg::new(alloc, EACH)
        .long(EACH)
        .help("Validate each document for itself, without the fragments of others")
        .action(ArgAction::SetTrue);
    Ok(
        each.conflicts_with(ONE_DOCUMENT)?
            .conflicts_with(FRAGMENTS)?,
    )
}

/// A path that a command takes.
fn one_file<'a>(alloc: Global, id: &'a str, name: &'a str, help: &'a str) -> Arg<'a> {
    Arg::new(alloc, id)
        .value_name(name)
        .help(help)
        .required(true)
        .action(ArgAction::Set)
}

/// An option that adds a file.
fn further_file<'a>(alloc: Global, name: &'a str, help: &'a str) -> Arg<'a> {
    Arg::new(alloc, name)
        .long(name)
        .value_name("FILE")
        .help(help)
        .action(ArgAction::Append)
}

fn schema_files<'a>(alloc: Global) -> Arg<'a> {
    Arg::new(alloc, SCHEMA)
        .long(SCHEMA)
        .value_name("FILE")
        .help("A file of the schema; repeat the option for each file")
        .action(ArgAction::Append)
}

fn config<'a>(alloc: Global) -> Arg<'a> {
    Arg::new(alloc, CONFIG)
        .long(CONFIG)
        .value_name("FILE")
        .help(
            "The configuration, for what the command line does not name [default: the nearest .graphqlrc, upwards from the working folder]",
        )
        .action(ArgAction::Set)
}

fn no_config<'a>(alloc: Global) -> Result<Arg<'a>, Error> {
    let no_config = Arg::new(alloc, NO_CONFIG)
        .long(NO_CONFIG)
        .help("Read no configuration")
        .action(ArgAction::SetTrue);
    Ok(no_config.conflicts_with(CONFIG)?.conflicts_with(PROJECT)?)
}

fn project<'a>(alloc: Global) -> Arg<'a> {
    Arg::new(alloc, PROJECT)
        .long(PROJECT)
        .value_name("NAME")
        .help("The project of the configuration [default: all]")
        .action(ArgAction::Set)
}

fn stdin_name<'a>(alloc: Global) -> Result<Arg<'a>, Error> {
    let stdin_name = Arg::new(alloc, STDIN_NAME)
        .long(STDIN_NAME)
        .value_name("PATH")
        .help("The document whose text is read from standard input instead of its file")
        .action(ArgAction::Set);
    Ok(stdin_name.conflicts_with(ONE_DOCUMENT)?)
}

fn watch<'a>(alloc: Global) -> Result<Arg<'a>, Error> {
    let watch = Arg::new(alloc, WATCH)
        .long(WATCH)
        .help("Validate again whenever a file changes, until the program is interrupted")
        .action(ArgAction::SetTrue);
    Ok(watch.conflicts_with(STDIN_NAME)?)
}

fn format<'a>(alloc: Global) -> Arg<'a> {
    Arg::new(alloc, FORMAT)
        .long(FORMAT)
        .value_name("FORMAT")
        .help("Format of the reports")
        .value_parser(FORMATS.as_slice())
        .default_value(TEXT)
        .action(ArgAction::Set)
}

fn change_format<'a>(alloc: Global) -> Arg<'a> {
    Arg::new(alloc, FORMAT)
        .long(FORMAT)
        .value_name("FORMAT")
        .help("Format of the changes")
        .value_parser(CHANGE_FORMATS.as_slice())
        .default_value(TEXT)
        .action(ArgAction::Set)
}

fn fail_on<'a>(alloc: Global) -> Arg<'a> {
    Arg::new(alloc, FAIL_ON)
        .long(FAIL_ON)
        .value_name("LEVEL")
        .help("Which changes end the run with status 1; dangerous: breaking ones, too")
        .value_parser(LEVELS.as_slice())
        .default_value(BREAKING)
        .action(ArgAction::Set)
}

fn lone_fields<'a>(alloc: Global) -> Arg<'a> {
    Arg::new(alloc, LONE_FIELDS)
        .long(LONE_FIELDS)
        .help("Consider only documents that put no two fields under one response key")
        .action(ArgAction::SetTrue)
}

fn color<'a>(alloc: Global) -> Arg<'a> {
    Arg::new(alloc, COLOR)
        .long(COLOR)
        .value_name("WHEN")
        .help("When to colour text; auto: on a terminal, unless NO_COLOR is set")
        .value_parser(COLORS.as_slice())
        .default_value(AUTO)
        .action(ArgAction::Set)
}

fn one_document<'a>(alloc: Global) -> Arg<'a> {
    Arg::new(alloc, ONE_DOCUMENT)
        .long(ONE_DOCUMENT)
        .help("Treat all files as one document, so that they can share fragments")
        .action(ArgAction::SetTrue)
}

fn rule<'a>(alloc: Global) -> Arg<'a> {
    Arg::new(alloc, RULE)
        .value_name("RULE")
        .help("The name of the rule, as reports have it in brackets or as `rule`")
        .action(ArgAction::Set)
}

fn level<'a>(alloc: Global) -> Arg<'a> {
    Arg::new(alloc, RULE)
        .long(RULE)
        .value_name("NAME=LEVEL")
        .help(
            "The level of a rule: error, warning or, for rules on which no other check depends, off; may be repeated",
        )
        .action(ArgAction::Append)
}

fn deprecated<'a>(alloc: Global) -> Arg<'a> {
    Arg::new(alloc, DEPRECATED)
        .long(DEPRECATED)
        .value_name("LEVEL")
        .help(
            "The level of reports on deprecated elements, as --rule DeprecatedUsage=LEVEL [default: warning]",
        )
        .value_parser(RULE_LEVELS.as_slice())
        .action(ArgAction::Set)
}

fn max_warnings<'a>(alloc: Global) -> Arg<'a> {
    Arg::new(alloc, MAX_WARNINGS)
        .long(MAX_WARNINGS)
        .value_name("N")
        .help("End with status 1 if there are more warnings [default: no limit]")
        .value_parser(value_parser!(usize))
        .action(ArgAction::Set)
}

fn max_depth<'a>(alloc: Global) -> Arg<'a> {
    Arg::new(alloc, MAX_DEPTH)
        .long(MAX_DEPTH)
        .value_name("N")
        .help(
            "Levels to which a document may nest, in brackets and braces and through its fragments",
        )
        .value_parser(value_parser!(usize))
        .default_value("500")
        .action(ArgAction::Set)
}

fn max_reach<'a>(alloc: Global, default: &'a str) -> Arg<'a> {
    Arg::new(alloc, MAX_REACH)
        .long(MAX_REACH)
        .value_name("N")
        .help("Bytes to which operations may expand, for each byte of the document")
        .value_parser(value_parser!(usize))
        .default_value(default)
        .action(ArgAction::Set)
}

fn max_work<'a>(alloc: Global) -> Arg<'a> {
    Arg::new(alloc, MAX_WORK)
        .long(MAX_WORK)
        .value_name("N")
        .help("Steps to compare the fields of a document that come together")
        .value_parser(value_parser!(usize))
        .default_value("160000000")
        .action(ArgAction::Set)
}

fn max_line<'a>(alloc: Global) -> Arg<'a> {
    Arg::new(alloc, MAX_LINE)
        .long(MAX_LINE)
        .value_name("BYTES")
        .help("Bytes that a line of standard input may have")
        .value_parser(value_parser!(u64))
        .default_value("8388608")
        .action(ArgAction::Set)
}

fn max_reports<'a>(alloc: Global) -> Arg<'a> {
    Arg::new(alloc, MAX_REPORTS)
        .long(MAX_REPORTS)
        .value_name("N")
        .help("Reports to print at most [default: 100 as text, no limit otherwise]")
        .value_parser(value_parser!(usize))
        .action(ArgAction::Set)
}

fn max_reports_of_an_answer<'a>(alloc: Global) -> Arg<'a> {
    Arg::new(alloc, MAX_REPORTS)
        .long(MAX_REPORTS)
        .value_name("N")
        .help("Reports in an answer at most; `notShown` counts the others")
        .value_parser(value_parser!(usize))
        .default_value("1000")
        .action(ArgAction::Set)
}
