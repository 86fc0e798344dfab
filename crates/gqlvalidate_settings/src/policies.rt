//! How the projects of a configuration are validated.

use crate::configurations::{Refused, refused_in};
use crate::dialects::dialect_of;
use crate::keys::Key;
use crate::projects::{own_table, table_at};
use crate::refusals::Refusal;
use crate::rules::levels_of;
use crate::setting::Setting;
use gqlvalidate_dialects::Dialect;
use gqlvalidate_levels::Levels;
use std::alloc::{AllocError, Global};

/// How a project is validated.
#[derive(Debug, Drop)]
pub struct ProjectPolicy {
    /// The levels that the configuration gives to rules.
    pub levels: Levels,
    /// The dialect that the configuration names.
    pub dialect: Dialect,
}

impl ProjectPolicy {
    /// This policy, with what `over` gives and names in place of its own. The only error is a failed allocation.
    fn under(&self, alloc: Global, over: &ProjectPolicy) -> Result<ProjectPolicy, AllocError> {
        Ok(ProjectPolicy {
            levels: self.levels.under(alloc, &over.levels)?,
            dialect: self.dialect.under(over.dialect),
        })
    }
}

/// How each project of a configuration is validated, in the order of the projects: as the configuration says, and in its place as the project says.
/// The error says what is wrong, in the levels of rules before the dialect.
pub fn policies_of(
    alloc: Global,
    members: &[(String, Setting)],
) -> Result<Vec<ProjectPolicy>, Refused> {
    let shared = own_policy(alloc, members)?;
    match table_at(members, Key::Projects)? {
        Some(named) => each_policy(alloc, &shared, named),
        None => match single(alloc, shared) {
            Ok(policies) => Ok(policies),
            Err(refusal) => Err(Refused::from(refusal)),
        },
    }
}

/// This policy alone.
fn single(alloc: Global, shared: ProjectPolicy) -> Result<Vec<ProjectPolicy>, Refusal> {
    let mut policies = Vec::new(alloc);
    policies.push(shared)?;
    Ok(policies)
}

/// The policy of the project of each member, in their order. The configuration has the shared one.
fn each_policy(
    alloc: Global,
    shared: &ProjectPolicy,
    named: &[(String, Setting)],
) -> Result<Vec<ProjectPolicy>, Refused> {
    let mut policies = Vec::new(alloc);
    for member in named {
        let policy = match project_policy(alloc, shared, member) {
            Ok(policy) => policy,
            Err(refusal) => return Err(refused_in(alloc, member.0.as_str(), refusal)),
        };
        if policies.push(policy).is_err() {
            return Err(Refused::from(Refusal::OutOfMemory));
        }
    }
    Ok(policies)
}

/// The policy of the project that a member is.
fn project_policy(
    alloc: Global,
    shared: &ProjectPolicy,
    member: &(String, Setting),
) -> Result<ProjectPolicy, Refusal> {
    let Some(members) = member.1.as_table() else {
        return Err(Refusal::NotAProject);
    };
    let own = own_policy(alloc, members)?;
    Ok(shared.under(alloc, &own)?)
}

/// The policy that members have themselves.
fn own_policy(alloc: Global, members: &[(String, Setting)]) -> Result<ProjectPolicy, Refusal> {
    let own = own_table(members)?.unwrap_or(&[]);
    Ok(ProjectPolicy {
        levels: levels_of(alloc, own)?,
        dialect: dialect_of(own)?,
    })
}
