//! The levels that a configuration gives to rules.

ghost use Rattle.std.specs.Prelude.{IfOk};
ghost use Rattle.gqlvalidate_settings.specs.Rules.{GivesLevel};

use crate::keys::Key;
use crate::projects::table_at;
use crate::refusals::Refusal;
use crate::setting::Setting;
use gqlvalidate_levels::{LevelProblem, Levels, RuleLevel, rule_level};
use std::alloc::Global;

/// The levels that a configuration gives to rules in what it says of this program. The error says what is wrong.
pub(crate) fn levels_of(alloc: Global, own: &[(String, Setting)]) -> Result<Levels, Refusal> {
    let mut levels = Levels::new(alloc);
    if let Some(rules) = table_at(own, Key::Rules)? {
        set_levels(alloc, rules, &mut levels)?;
    }
    Ok(levels)
}

/// Gives these levels to their rules; of several for one rule the last counts.
fn set_levels(
    alloc: Global,
    rules: &[(String, Setting)],
    levels: &mut Levels,
) -> Result<(), Refusal> {
    for member in rules {
        match level_of(member) {
            Ok(given) => levels.set(given)?,
            Err(problem) => {
                let rule = String::from_str(alloc, member.0.as_str())?;
                return Err(Refusal::WrongLevel(rule, problem));
            }
        }
    }
    Ok(())
}

/// The rule and the level that a member names.
fn level_of(member: &(String, Setting)) -> Result<RuleLevel, LevelProblem>
    ensures { IfOk result (GivesLevel member.now) }
{
    match member.1.as_text() {
        Some(level) => rule_level(member.0.as_str(), level),
        None => Err(LevelProblem::NoLevel),
    }
}
