//! All projects of a configuration.

ghost use Rattle.std.specs.List.{AllZip};
ghost use Rattle.std.specs.Prelude.{◌≡◌, ◌⊎◌, IfErr, IfOk, is_some, map, string_bytes};
ghost use Rattle.gqlvalidate_settings.specs.Configurations.{AreNamedProjects, AreProjects, IsNamedProject, IsSoleProject, key_beside};
ghost use Rattle.gqlvalidate_settings.specs.Refusals.{RulesOut};
ghost use Rattle.gqlvalidate_settings.specs.Settings.{value_at};

use crate::keys::Key;
use crate::projects::{ProjectSettings, fragments_of, project_of, table_at};
use crate::refusals::{Problem, Refusal};
use crate::setting::{Setting, value_at};
use std::alloc::{AllocError, Global};

/// Why a configuration is refused.
#[derive(Debug, Drop)]
pub struct Refused {
    /// The name of the project that is wrong, if one is.
    pub project: Option<String>,
    pub refusal: Refusal,
}

impl From<Refusal> for Refused {
    ghost use Rattle.std.specs.Prelude.{◌≡◌};

    ghost from_gives = { λ refusal refused. refused.refusal ≡ refusal };

    fn from(refusal: Refusal) -> Refused {
        Refused {
            project: None,
            refusal,
        }
    }
}

/// The projects of a configuration in a folder, whose path is empty or ends in `/`: those that it names, or the one that it is itself.
/// The error says what is wrong.
pub fn projects_of(
    alloc: Global,
    folder: &str,
    members: &[(String, Setting)],
) -> Result<Vec<ProjectSettings>, Refused>
    ensures projects { IfOk result (λ projects. AreProjects folder.now members.now projects.items) }
    ensures refused { IfErr result (λ refused. RulesOut (AreProjects folder.now members.now) refused.refusal) }
{
    match table_at(members, Key::Projects)? {
        Some(named) => named_projects(alloc, folder, members, named),
        None => match sole_project(alloc, folder, members) {
            Ok(projects) => Ok(projects),
            Err(refusal) => Err(Refused::from(refusal)),
        },
    }
}

/// The one project that a configuration is.
fn sole_project(
    alloc: Global,
    folder: &str,
    members: &[(String, Setting)],
) -> Result<Vec<ProjectSettings>, Refusal>
    ensures project { IfOk result (λ projects. IsSoleProject folder.now members.now projects.items) }
    ensures refused { IfErr result (RulesOut (IsSoleProject folder.now members.now)) }
{
    let project = project_of(alloc, folder, &[], members)?;
    let mut projects = Vec::new(alloc);
    projects.push(project)?;
    Ok(projects)
}

/// The projects that a configuration names. What it lists itself is refused, but for fragments, which it lists for each project.
fn named_projects(
    alloc: Global,
    folder: &str,
    members: &[(String, Setting)],
    named: &[(String, Setting)],
) -> Result<Vec<ProjectSettings>, Refused>
    ensures projects { IfOk result (λ projects. AreNamedProjects folder.now members.now named.now projects.items) }
    ensures refused { IfErr result (λ refused. RulesOut (AreNamedProjects folder.now members.now named.now) refused.refusal) }
{
    if let Some(key) = key_beside(members) {
        return Err(Refused::from(Refusal::Wrong(key, Problem::BesideProjects)));
    }
    let shared = fragments_of(alloc, members)?;
    each_project(alloc, folder, &shared, named)
}

/// The first key that members have, of those that only a project may have.
fn key_beside(members: &[(String, Setting)]) -> Option<Key>
    ensures { result ≡ key_beside members.now }
{
    if has_key(members, Key::Schema) {
        Some(Key::Schema)
    } else if has_key(members, Key::Documents) {
        Some(Key::Documents)
    } else if has_key(members, Key::Include) {
        Some(Key::Include)
    } else if has_key(members, Key::Exclude) {
        Some(Key::Exclude)
    } else {
        None
    }
}

/// Whether members have this key.
fn has_key(members: &[(String, Setting)], key: Key) -> bool
    ensures { result ≡ is_some (value_at key members.now) }
{
    value_at(members, key).is_some()
}

/// The project of each member, in their order. The configuration lists the shared fragments for all of them.
fn each_project(
    alloc: Global,
    folder: &str,
    shared: &[String],
    named: &[(String, Setting)],
) -> Result<Vec<ProjectSettings>, Refused>
    ensures projects { IfOk result (λ projects. AllZip (IsNamedProject folder.now (map string_bytes shared.now)) named.now projects.items) }
    ensures refused { IfErr result (λ refused. RulesOut (AllZip (IsNamedProject folder.now (map string_bytes shared.now)) named.now) refused.refusal) }
{
    let mut projects = Vec::new(alloc);
    for member in named {
        let project = match named_project(alloc, folder, shared, member) {
            Ok(project) => project,
            Err(refusal) => return Err(refused_in(alloc, member.0.as_str(), refusal)),
        };
        if projects.push(project).is_err() {
            return Err(Refused::from(Refusal::OutOfMemory));
        }
    }
    Ok(projects)
}

/// The project that a member is, under its name.
fn named_project(
    alloc: Global,
    folder: &str,
    shared: &[String],
    member: &(String, Setting),
) -> Result<ProjectSettings, Refusal>
    ensures project { IfOk result (IsNamedProject folder.now (map string_bytes shared.now) member.now) }
    ensures refused { IfErr result (RulesOut (IsNamedProject folder.now (map string_bytes shared.now) member.now)) }
{
    let Some(members) = member.1.as_table() else {
        return Err(Refusal::NotAProject);
    };
    let mut project = project_of(alloc, folder, shared, members)?;
    project.name = Some(String::from_str(alloc, member.0.as_str())?);
    Ok(project)
}

/// The refusal in the project of this name.
pub(crate) fn refused_in(alloc: Global, name: &str, refusal: Refusal) -> Refused
    ensures { (result.refusal ≡ refusal) ⊎ (result.refusal ≡ Refusal.OutOfMemory) }
{
    match String::from_str(alloc, name) {
        Ok(name) => Refused {
            project: Some(name),
            refusal,
        },
        Err(AllocError) => Refused::from(Refusal::OutOfMemory),
    }
}
