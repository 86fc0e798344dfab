//! Findings by the levels of their rules.

ghost use Rattle.std.specs.Prelude.{◌≡◌, [], List, count_by, filter, true, ℕ};
ghost use Rattle.gqlvalidate_levels.specs.Levels.{is_error, level_of, shows};
ghost use Rattle.gqlvalidate_levels.specs.declared.levels.Levels as all_levels;
ghost use Rattle.gqlvalidate_runs.specs.Kept.{HoldsBut, is_warning, shown};

use gqlvalidate_formats::Finding;
use gqlvalidate_levels::{Counts, Level, Levels};

/// Takes out the findings of rules that are off, and no others.
pub fn keep_shown(findings: &mut Vec<Finding<'_>>, levels: &Levels)
    ensures { findings.new.items ≡ filter (λ finding. shows levels.now finding.report.rule.now) findings.old.items }
{
    findings.retain(|finding| levels.shows(finding.report.rule));
}

/// How many of these findings are errors, and how many are warnings.
pub fn counts_of(findings: &[Finding<'_>], levels: &Levels) -> Counts
    ensures errors { result.errors ≡ count_by (λ finding. is_error (level_of levels.now finding.report.rule.now)) findings.now }
    ensures warnings { result.warnings ≡ count_by (λ finding. is_warning (level_of levels.now finding.report.rule.now)) findings.now }
{
    Counts {
        errors: findings
            .iter()
            .filter(|finding| is_error(levels.level_of(finding.report.rule)))
            .count(),
        warnings: findings
            .iter()
            .filter(|finding| is_warning(levels.level_of(finding.report.rule)))
            .count(),
    }
}

fn is_error(level: Level) -> bool
    ensures { result ≡ is_error level }
{
    matches!(level, Level::Error)
}

fn is_warning(level: Level) -> bool
    ensures { result ≡ is_warning level }
{
    matches!(level, Level::Warning)
}

/// If nothing is shown of what is reported, each report is of a rule that is off. If no rule is off, all is shown that is reported. Reports stand for
/// themselves by the names of their rules.
pub fn silence_is_of_rules_that_are_off()
    ensures silent { (levels : all_levels.Levels) (rules : List (List ℕ)) → shown levels rules ≡ [] → HoldsBut levels rules }
    ensures nothing_off { (levels : all_levels.Levels) (rules : List (List ℕ)) → ((rule : List ℕ) → shows levels rule ≡ true) → shown levels rules ≡ rules }
{}
