//! How grave reports are.

ghost use Rattle.std.specs.Prelude.{◌≡◌};
ghost use Rattle.gqlvalidate_formats.specs.Severities.{severity_of};

use gqlvalidate_levels::{Level, Levels};

/// How grave a report is that is shown.
#[derive(Clone, Copy)]
pub enum Severity {
    Warning,
    Error,
}

impl Severity {
    /// That of the reports of this rule. Those of a rule that is off are not shown.
    pub fn of(levels: &Levels, rule: &str) -> Severity
        ensures { result ≡ severity_of levels.now rule.now }
    {
        match levels.level_of(rule) {
            Level::Error => Severity::Error,
            Level::Warning | Level::Off => Severity::Warning,
        }
    }

    /// Its name, in text, JSON, annotations, SARIF and Checkstyle.
    pub fn name(self) -> &'static str {
        match self {
            Severity::Warning => "warning",
            Severity::Error => "error",
        }
    }
}
