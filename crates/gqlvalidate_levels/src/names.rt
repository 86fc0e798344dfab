//! Rules and levels by their names.

ghost use Rattle.std.specs.Prelude.{◌≡◌, IfOk, IsTrue, Some};
ghost use Rattle.gqlvalidate_levels.specs.Levels.{level_named, may_be_off};
ghost use Rattle.gqlvalidate_levels.specs.declared.levels.Level.TheVariants.{Off};

use crate::levels::{Level, RuleLevel};
use gqlvalidate_rules::explanation_of;
use thiserror::Error;

/// Why a rule cannot have a level.
#[derive(Clone, Copy, Debug, PartialEq, Eq, Error)]
pub enum LevelProblem {
    #[error("is not the name of a rule")]
    NoRule,
    #[error("is no level: use `off`, `warning` or `error`")]
    NoLevel,
    #[error("cannot be off, because other checks depend on this rule, and would miss faults: make it a warning")]
    NeverOff,
}

/// The rule of this name with the level of this name. Whether there is such a rule is asked first, then whether there is such a level, and then
/// whether the rule may be off.
pub fn rule_level(rule: &str, level: &str) -> Result<RuleLevel, LevelProblem>
    ensures rule { IfOk result (λ given. given.rule.now ≡ rule.now) }
    ensures level { IfOk result (λ given. level_named level.now ≡ Some given.level) }
    ensures off { IfOk result (λ given. given.level ≡ Off → IsTrue (may_be_off rule.now)) }
{
    let Some(explanation) = explanation_of(rule) else {
        return Err(LevelProblem::NoRule);
    };
    let Some(level) = Level::named(level) else {
        return Err(LevelProblem::NoLevel);
    };
    if matches!(level, Level::Off) && !may_be_off(rule) {
        return Err(LevelProblem::NeverOff);
    }
    Ok(RuleLevel {
        rule: explanation.rule,
        level,
    })
}

/// Whether the reports of this rule need not be shown: no other check depends on the rule.
pub fn may_be_off(rule: &str) -> bool
    ensures { result ≡ may_be_off rule.now }
{
    rule == "UnusedVariable"
        || rule == "UnusedFragment"
        || rule == "DeprecatedUsage"
        || rule == "UnusedIgnore"
}
