//! Runs for which a configuration names the files that the command line does not name.

use gqlvalidate_check::policies::Policy;
use gqlvalidate_check::presentations::Presentation;
use gqlvalidate_check::{Kept, KeptRuns, Words, check_words};
use gqlvalidate_inputs::faults::Fault;
use gqlvalidate_inputs::printable::Printable;
use gqlvalidate_inputs::statuses::Status;
use gqlvalidate_inputs::word_paths::views;
use gqlvalidate_levels::Levels;
use gqlvalidate_settings::{
    ProjectPolicy, ProjectSettings, Settings, SettingsFault, find_settings, read_settings,
};
use gqlvalidate_words::{Configuration, ConfigurationChoice, Dialect, Format, Grouping};
use std::alloc::Global;
use std::io::{Read, Write};
use std::rt::Files;

/// Validates the schema and the documents that these words name. What they do not name is that of the configuration: of the project that is
/// chosen, or of each of its projects, one after another. Each project is validated with what the last run kept of it.
pub fn check_configured<R: Files + AllocGlobal + Clone + Drop, I: Read, O: Write, F: Write>(
    rt: &R,
    words: Words<'_>,
    choice: ConfigurationChoice<'_>,
    presentation: Presentation,
    kept: &mut KeptRuns,
    input: &mut I,
    output: &mut O,
    faults: &mut F,
) -> Result<Status, Fault> {
    if words.is_complete()
        && choice.configuration == Configuration::Nearest
        && choice.project.is_none()
    {
        return check_alone(rt, words, presentation, kept, input, output, faults);
    }
    let settings = match settings_of(rt, choice.configuration) {
        Ok(settings) => settings,
        Err(fault) => return refuse(rt.alloc(), &fault, faults),
    };
    match settings {
        Some(settings) => check_projects(
            rt,
            &settings,
            words,
            choice.project,
            presentation,
            kept,
            input,
            output,
            faults,
        ),
        None if words.is_complete() => {
            check_alone(rt, words, presentation, kept, input, output, faults)
        }
        None => Ok(say_incomplete(words, faults)),
    }
}

/// Validates what the words name, as the only project of the run.
fn check_alone<R: Files + AllocGlobal + Clone + Drop, I: Read, O: Write, F: Write>(
    rt: &R,
    words: Words<'_>,
    presentation: Presentation,
    kept: &mut KeptRuns,
    input: &mut I,
    output: &mut O,
    faults: &mut F,
) -> Result<Status, Fault> {
    let mut of_project = kept.take(0);
    let status = check_words(
        rt,
        words,
        presentation,
        &mut of_project,
        input,
        output,
        faults,
    );
    kept.put(0, of_project)?;
    status
}

/// The settings of the configuration that is chosen, if there is one.
pub fn settings_of<R: Files + AllocGlobal>(
    rt: &R,
    configuration: Configuration<'_>,
) -> Result<Option<Settings>, SettingsFault> {
    match configuration {
        Configuration::Nothing => Ok(None),
        Configuration::Nearest => find_settings(rt),
        Configuration::File(path) => Ok(Some(read_settings(rt, path)?)),
    }
}

/// Says on standard error what is wrong with a configuration.
fn refuse<F: Write>(alloc: Global, fault: &SettingsFault, faults: &mut F) -> Result<Status, Fault> {
    if matches!(fault, SettingsFault::OutOfMemory) {
        return Err(Fault::OutOfMemory);
    }
    let words = fault.to_string(alloc)?;
    let words = Printable(words.as_str());
    let _ = writeln!(faults, "{words}");
    Ok(Status::BadArguments)
}

/// Says on standard error what the words do not name.
fn say_incomplete<F: Write>(words: Words<'_>, faults: &mut F) -> Status {
    let missing = if words.schema.is_empty() {
        "schema"
    } else {
        "document"
    };
    let _ = writeln!(
        faults,
        "error: no {missing} is named, neither by the command line nor by a configuration such as .graphqlrc.json\n\nFor more information, try '--help'."
    );
    Status::BadArguments
}

/// Validates the projects of a configuration, or the one that is chosen.
fn check_projects<R: Files + AllocGlobal + Clone + Drop, I: Read, O: Write, F: Write>(
    rt: &R,
    settings: &Settings,
    words: Words<'_>,
    chosen: Option<&str>,
    presentation: Presentation,
    kept: &mut KeptRuns,
    input: &mut I,
    output: &mut O,
    faults: &mut F,
) -> Result<Status, Fault> {
    if !has_chosen(settings, chosen, presentation, faults) {
        return Ok(Status::BadArguments);
    }
    let mut status = Status::Accepted;
    let projects = settings.projects.iter().zip(settings.policies.iter());
    for (position, (project, policy)) in projects.enumerate() {
        if is_chosen(project, chosen) {
            say_name(project, faults);
            let mut of_project = kept.take(position);
            let checked = check_project(
                rt,
                project,
                policy,
                words,
                presentation,
                &mut of_project,
                input,
                output,
                faults,
            );
            kept.put(position, of_project)?;
            status = status.with(checked?);
        }
    }
    Ok(status)
}

fn is_chosen(project: &ProjectSettings, chosen: Option<&str>) -> bool {
    match chosen {
        Some(name) => project
            .name
            .as_ref()
            .is_some_and(|own| own.as_str() == name),
        None => true,
    }
}

/// Whether the configuration has the project that is chosen, and the format can have what is found in all of the projects. If not, standard error
/// says so.
fn has_chosen<F: Write>(
    settings: &Settings,
    chosen: Option<&str>,
    presentation: Presentation,
    faults: &mut F,
) -> bool {
    let file = Printable(settings.file.as_str());
    let count = settings
        .projects
        .iter()
        .filter(|project| is_chosen(project, chosen))
        .count();
    if count == 0 {
        let name = Printable(chosen.unwrap_or(""));
        let _ = writeln!(faults, "{file}: error: no project has the name `{name}`");
        return false;
    }
    let is_of_lines = matches!(presentation.reporting.format, Format::Text | Format::Github);
    if count > 1 && !is_of_lines {
        let _ = writeln!(
            faults,
            "{file}: error: this format is for one project: choose it by `--project`"
        );
        return false;
    }
    true
}

/// Says on standard error which project is validated, if the configuration has names.
fn say_name<F: Write>(project: &ProjectSettings, faults: &mut F) {
    if let Some(name) = &project.name {
        let name = Printable(name.as_str());
        let _ = writeln!(faults, "project `{name}`:");
    }
}

/// Validates a project of a configuration by this policy. The words override the configuration.
fn check_project<R: Files + AllocGlobal + Clone + Drop, I: Read, O: Write, F: Write>(
    rt: &R,
    project: &ProjectSettings,
    policy: &ProjectPolicy,
    words: Words<'_>,
    presentation: Presentation,
    kept: &mut Kept,
    input: &mut I,
    output: &mut O,
    faults: &mut F,
) -> Result<Status, Fault> {
    let levels = policy.levels.under(rt.alloc(), words.policy.levels)?;
    let schema = views(rt.alloc(), &project.schema)?;
    let documents = views(rt.alloc(), &project.documents)?;
    let fragments = views(rt.alloc(), &project.fragments)?;
    let dialect = policy.dialect.under(words.dialect);
    let words = completed(words, &schema, &documents, &fragments, &levels, dialect);
    if words.is_complete() {
        check_words(rt, words, presentation, kept, input, output, faults)
    } else {
        Ok(say_incomplete(words, faults))
    }
}

/// The words, with these for what they do not name, and with these levels and this dialect. Only documents that are validated together have
/// fragments of others.
fn completed<'a>(
    words: Words<'a>,
    schema: &'a [&'a str],
    documents: &'a [&'a str],
    fragments: &'a [&'a str],
    levels: &'a Levels,
    dialect: Dialect,
) -> Words<'a> {
    let takes_fragments = words.fragments.is_empty() && words.grouping == Grouping::Project;
    Words {
        schema: one_of(words.schema.is_empty(), schema, words.schema),
        documents: one_of(!words.names_documents(), documents, words.documents),
        fragments: one_of(takes_fragments, fragments, words.fragments),
        policy: Policy {
            levels,
            max_warnings: words.policy.max_warnings,
        },
        dialect,
        ..words
    }
}

/// The first one if this is so, else the other one.
fn one_of<'a>(is_first: bool, first: &'a [&'a str], other: &'a [&'a str]) -> &'a [&'a str] {
    if is_first { first } else { other }
}
