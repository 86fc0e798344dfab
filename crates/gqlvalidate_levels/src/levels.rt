//! The level of each rule.

ghost use Rattle.std.specs.Option.{option_or};
ghost use Rattle.std.specs.Prelude.{◌≡◌, IfOk, List, None, OnOk, ℕ, if◌then◌else◌};
ghost use Rattle.std.specs.Str.{bytes_eq};
ghost use Rattle.gqlvalidate_levels.specs.Levels.{given_level, level_named, level_of, others_than, shows, usual_level};

use std::alloc::{AllocError, Global};

/// How much a report weighs.
#[derive(Clone, Copy, Debug, PartialEq, Eq)]
pub enum Level {
    /// It is not shown.
    Off,
    /// It is shown, and the run can end well.
    Warning,
    /// It is shown, and the run fails.
    Error,
}

impl Level {
    /// The level of this name: `off`, `warning` or `error`.
    pub fn named(name: &str) -> Option<Level>
        ensures { result ≡ level_named name.now }
    {
        if name == "off" {
            Some(Level::Off)
        } else if name == "warning" {
            Some(Level::Warning)
        } else if name == "error" {
            Some(Level::Error)
        } else {
            None
        }
    }
}

/// A rule with the level that a user gives to it.
#[derive(Clone, Copy, Debug)]
pub struct RuleLevel {
    /// The name of the rule, as the table of rules has it.
    pub rule: &'static str,
    pub level: Level,
}

/// The levels of all rules: those that a user gives, and the usual ones of others.
#[derive(Debug, Drop)]
pub struct Levels {
    /// What the user gives, the latest first.
    given: Vec<RuleLevel>,
}

impl Levels {
    /// The usual levels.
    pub fn new(alloc: Global) -> Levels
        ensures { (rule : List ℕ) → given_level result rule ≡ None }
    {
        Levels {
            given: Vec::new(alloc),
        }
    }

    /// Gives this level to this rule, in place of the one that it has. The only error is a failed allocation.
    pub fn set(&mut self, given: RuleLevel) -> Result<(), AllocError>
        ensures { OnOk result ((rule : List ℕ) → level_of self.new rule ≡ (if bytes_eq given.rule.now rule then given.level else level_of self.old rule)) }
    {
        self.forget(given.rule);
        self.given.insert(0, given)?;
        Ok(())
    }

    /// Takes away what is given to this rule.
    fn forget(&mut self, rule: &str)
        ensures { self.new.given.items ≡ others_than rule.now self.old.given.items }
    {
        self.given.retain(|given| given.rule != rule);
    }

    /// A copy. The only error is a failed allocation.
    pub fn copied(&self, alloc: Global) -> Result<Levels, AllocError>
        ensures { IfOk result (λ copy. (rule : List ℕ) → level_of copy rule ≡ level_of self.now rule) }
    {
        let given = Vec::from_slice(alloc, &self.given)?;
        Ok(Levels { given })
    }

    /// These levels, with those that are given to `over` in place of theirs. The only error is a failed allocation.
    pub fn under(&self, alloc: Global, over: &Levels) -> Result<Levels, AllocError>
        ensures { IfOk result (λ both. (rule : List ℕ) → given_level both rule ≡ option_or (given_level over.now rule) (given_level self.now rule)) }
    {
        let mut given = Vec::from_slice(alloc, &over.given)?;
        given.extend_from_slice(&self.given)?;
        Ok(Levels { given })
    }

    /// Whether reports of the rule of this name are shown.
    pub fn shows(&self, rule: &str) -> bool
        ensures { result ≡ shows self.now rule.now }
    {
        !matches!(self.level_of(rule), Level::Off)
    }

    /// The level of the rule of this name.
    pub fn level_of(&self, rule: &str) -> Level
        ensures { result ≡ level_of self.now rule.now }
    {
        match self.given.iter().find(|given| given.rule == rule) {
            Some(given) => given.level,
            None => usual_level(rule),
        }
    }
}

/// The level of a rule to which no user gives one: a warning for `DeprecatedUsage` and `UnusedIgnore`, and an error for all others.
pub fn usual_level(rule: &str) -> Level
    ensures { result ≡ usual_level rule.now }
{
    if rule == "DeprecatedUsage" || rule == "UnusedIgnore" {
        Level::Warning
    } else {
        Level::Error
    }
}
