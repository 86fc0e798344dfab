//! Levels of rules: whether a report is an error or a warning, or is not shown; and when a run fails.
#![tactic(auto)]

pub mod counts;
pub mod levels;
pub mod names;
pub mod suggestions;

pub use counts::Counts;
pub use levels::{Level, Levels, RuleLevel, usual_level};
pub use names::{LevelProblem, may_be_off, rule_level};
pub use suggestions::similar_rule;
