//! The settings that the text of a configuration has.

use crate::configurations::{Refused, projects_of};
use crate::faults::{SettingsFault, Why, wrong};
use crate::json_values::{JsonFault, json_setting, json_setting_at};
use crate::keys::Key;
use crate::policies::{ProjectPolicy, policies_of};
use crate::projects::ProjectSettings;
use crate::refusals::{Problem, Refusal};
use crate::setting::Setting;
use crate::toml_values::{TomlFault, toml_setting};
use gqlvalidate_key_places::{json_place, toml_place};
use graphql_places::Place;
use std::alloc::{AllocError, Global};

/// The settings of a configuration.
#[derive(Debug, Drop)]
pub struct Settings {
    /// The path of the file of the configuration.
    pub file: String,
    pub projects: Vec<ProjectSettings>,
    /// How each project is validated, in the order of the projects.
    pub policies: Vec<ProjectPolicy>,
}

/// The key of a package that has the configuration.
const IN_PACKAGE: &str = "graphql";

/// How the names of files end whose languages are not read.
const OTHER_SUFFIXES: [&str; 8] = [
    ".yml", ".yaml", ".js", ".cjs", ".mjs", ".ts", ".cts", ".mts",
];

/// The language of a configuration.
#[derive(Clone, Copy, Debug, PartialEq, Eq)]
enum Language {
    Json,
    /// The file of a package of Node.js, in JSON.
    Package,
    Toml,
    /// TOML, or a language that is not read: the name of the file says nothing, and the text does not begin as an object of JSON.
    MaybeToml,
    Other,
}

/// The language of a file with this path and this text.
fn language_of(file: &str, text: &str) -> Language {
    if file == "package.json" || file.ends_with("/package.json") {
        Language::Package
    } else if file.ends_with(".json") {
        Language::Json
    } else if file.ends_with(".toml") {
        Language::Toml
    } else if OTHER_SUFFIXES.iter().any(|suffix| file.ends_with(*suffix)) {
        Language::Other
    } else if text.trim_start().starts_with('{') {
        Language::Json
    } else {
        Language::MaybeToml
    }
}

/// The settings that the text of a file has. The path of the file says the language: JSON for `.json`, TOML for `.toml`; in another file, a
/// text whose first character that is not blank is a `{` is JSON, and others are TOML. The folder is that of the file, seen from the working
/// folder, and is empty or ends in `/`. None, if the file is a `package.json` without the key `graphql`.
///
/// A fault in JSON has the place where the key of the wrong value begins. In TOML it has that of the expression that makes the key. It has no
/// place, if an object of JSON has a key twice, or the text of the TOML is longer than 65,536 bytes.
pub fn settings_of_text(
    alloc: Global,
    file: &str,
    folder: &str,
    text: &str,
) -> Result<Option<Settings>, SettingsFault> {
    let language = language_of(file, text);
    let Some(whole) = setting_of(alloc, file, language, text)? else {
        return Ok(None);
    };
    let Some(members) = whole.as_table() else {
        return Err(wrong(alloc, file, None, Why::NotAnObject));
    };
    match settings_of_members(alloc, file, folder, members) {
        Ok(settings) => Ok(Some(settings)),
        Err(refused) => Err(fault_of_refused(alloc, file, language, text, &refused)),
    }
}

/// The settings of a configuration in a file of a folder.
fn settings_of_members(
    alloc: Global,
    file: &str,
    folder: &str,
    members: &[(String, Setting)],
) -> Result<Settings, Refused> {
    let projects = projects_of(alloc, folder, members)?;
    let policies = policies_of(alloc, members)?;
    match String::from_str(alloc, file) {
        Ok(file) => Ok(Settings {
            file,
            projects,
            policies,
        }),
        Err(AllocError) => Err(Refused::from(Refusal::OutOfMemory)),
    }
}

/// The value that the text of a file has as its configuration.
fn setting_of(
    alloc: Global,
    file: &str,
    language: Language,
    text: &str,
) -> Result<Option<Setting>, SettingsFault> {
    let read = match language {
        Language::Other => return Err(wrong(alloc, file, None, Why::OtherLanguage)),
        Language::Json => json_setting(alloc, text),
        Language::Package => return package_setting(alloc, file, text),
        Language::Toml | Language::MaybeToml => {
            return toml_setting_of(alloc, file, language, text);
        }
    };
    match read {
        Ok(setting) => Ok(Some(setting)),
        Err(fault) => Err(fault_of_json(alloc, file, text, fault)),
    }
}

/// The value of the configuration in the file of a package.
fn package_setting(
    alloc: Global,
    file: &str,
    text: &str,
) -> Result<Option<Setting>, SettingsFault> {
    match json_setting_at(alloc, text, IN_PACKAGE) {
        Ok(setting) => Ok(setting),
        Err(fault) => Err(fault_of_json(alloc, file, text, fault)),
    }
}

/// The value of a configuration in TOML.
fn toml_setting_of(
    alloc: Global,
    file: &str,
    language: Language,
    text: &str,
) -> Result<Option<Setting>, SettingsFault> {
    match toml_setting(alloc, text) {
        Ok(setting) => Ok(Some(setting)),
        Err(TomlFault::OutOfMemory) => Err(SettingsFault::OutOfMemory),
        Err(TomlFault::Invalid(byte, message)) => {
            let why = if language == Language::Toml {
                Why::NotToml(message)
            } else {
                Why::NotJsonOrToml(message)
            };
            Err(wrong(alloc, file, Some(place_of(text, byte)), why))
        }
    }
}

/// The fault of a text that should be JSON.
fn fault_of_json(alloc: Global, file: &str, text: &str, fault: JsonFault) -> SettingsFault {
    match fault {
        JsonFault::OutOfMemory => SettingsFault::OutOfMemory,
        JsonFault::KeyTwice => wrong(alloc, file, None, Why::KeyTwice),
        JsonFault::Invalid(byte) => { wrong(alloc, file, Some(place_of(text, byte)), Why::NotJson) }
    }
}

/// The place of a byte of the text, or of its end.
fn place_of(text: &str, byte: usize) -> Place {
    Place::of_byte(text, byte.min(text.len()))
}

/// The fault of a configuration that was refused.
fn fault_of_refused(
    alloc: Global,
    file: &str,
    language: Language,
    text: &str,
    refused: &Refused,
) -> SettingsFault {
    let Some(problem) = problem_of(&refused.refusal) else {
        return SettingsFault::OutOfMemory;
    };
    match fault_at_keys(alloc, file, language, text, refused, problem) {
        Ok(fault) => fault,
        Err(AllocError) => SettingsFault::OutOfMemory,
    }
}

/// What is wrong, unless memory is lacking.
fn problem_of(refusal: &Refusal) -> Option<Problem> {
    match refusal {
        Refusal::OutOfMemory => None,
        Refusal::Wrong(Key::Schema, Problem::NotTexts) => Some(Problem::NoFiles),
        Refusal::Wrong(_, problem) => Some(*problem),
        Refusal::Unknown(_) => Some(Problem::Unknown),
        Refusal::WrongLevel(_, problem) => Some(Problem::Level(*problem)),
        Refusal::NotAProject => Some(Problem::NotATable),
    }
}

/// The fault of the value that the keys of a refusal lead to.
fn fault_at_keys(
    alloc: Global,
    file: &str,
    language: Language,
    text: &str,
    refused: &Refused,
    problem: Problem,
) -> Result<SettingsFault, AllocError> {
    let path = keys_of(alloc, language, refused)?;
    let byte = match language {
        Language::Json | Language::Package => json_place(alloc, text, &path)?,
        Language::Toml | Language::MaybeToml | Language::Other => toml_place(alloc, text, &path),
    };
    let why = Why::Setting {
        keys: dotted(alloc, &path)?,
        problem,
    };
    let place = match byte {
        Some(byte) => Some(place_of(text, byte)),
        None => None,
    };
    Ok(wrong(alloc, file, place, why))
}

/// The keys that lead from the whole text to what was refused.
fn keys_of<'a>(
    alloc: Global,
    language: Language,
    refused: &'a Refused,
) -> Result<Vec<&'a str>, AllocError> {
    let mut path = Vec::new(alloc);
    if language == Language::Package {
        path.push(IN_PACKAGE)?;
    }
    if let Some(project) = &refused.project {
        path.push(Key::Projects.name())?;
        path.push(project.as_str())?;
    }
    match &refused.refusal {
        Refusal::OutOfMemory | Refusal::NotAProject => {}
        Refusal::Wrong(key, _) => {
            path.extend_from_slice(key.parents())?;
            path.push(key.name())?;
        }
        Refusal::Unknown(name) => {
            path.extend_from_slice(Key::Fragments.parents())?;
            path.push(name.as_str())?;
        }
        Refusal::WrongLevel(rule, _) => {
            path.extend_from_slice(Key::Rules.parents())?;
            path.push(Key::Rules.name())?;
            path.push(rule.as_str())?;
        }
    }
    Ok(path)
}

/// The keys with a `.` between each two.
fn dotted(alloc: Global, keys: &[&str]) -> Result<String, AllocError> {
    let mut text = String::new(alloc);
    for key in keys {
        if !text.is_empty() {
            text.push_str(".")?;
        }
        text.push_str(key)?;
    }
    Ok(text)
}
