//! Settings and faults as text.

use gqlvalidate_settings::{ProjectPolicy, ProjectSettings, Settings, SettingsFault};
use std::alloc::{AllocError, Global};

/// A line for each project, or the fault, or `none`.
pub fn shown(
    alloc: Global,
    found: Result<Option<Settings>, SettingsFault>,
) -> Result<String, AllocError> {
    match found {
        Ok(Some(settings)) => shown_settings(alloc, &settings),
        Ok(None) => String::from_str(alloc, "none"),
        Err(fault) => fault.to_string(alloc),
    }
}

fn shown_settings(alloc: Global, settings: &Settings) -> Result<String, AllocError> {
    let mut text = String::from_str(alloc, settings.file.as_str())?;
    for (project, policy) in settings.projects.iter().zip(settings.policies.iter()) {
        push_project(&mut text, project)?;
        push_dialect(alloc, &mut text, policy)?;
    }
    Ok(text)
}

fn push_project(text: &mut String, project: &ProjectSettings) -> Result<(), AllocError> {
    text.push_str("\n")?;
    if let Some(name) = &project.name {
        text.push_str(name.as_str())?;
    }
    push_words(text, "schema", &project.schema)?;
    push_words(text, "documents", &project.documents)?;
    push_words(text, "fragments", &project.fragments)
}

/// Adds what the dialect has beyond the specification.
fn push_dialect(
    alloc: Global,
    text: &mut String,
    policy: &ProjectPolicy,
) -> Result<(), AllocError> {
    if let Some(client) = policy.dialect.client {
        text.push_str("; client ")?;
        text.push_str(format!(in alloc; "{client:?}")?.as_str())?;
    }
    if policy.dialect.federation {
        text.push_str("; federation")?;
    }
    Ok(())
}

fn push_words(text: &mut String, title: &str, words: &[String]) -> Result<(), AllocError> {
    text.push_str("; ")?;
    text.push_str(title)?;
    for word in words {
        text.push_str(" ")?;
        text.push_str(word.as_str())?;
    }
    Ok(())
}
