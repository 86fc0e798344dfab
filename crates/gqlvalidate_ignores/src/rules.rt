//! Rules whose reports comments can ignore.

ghost use Rattle.std.specs.Prelude.{◌≡◌};

use gqlvalidate_rules::limits::limits;
use gqlvalidate_rules::{Explanation, explanation_of};

/// What a name in a comment stands for.
#[derive(Clone, Copy, Debug)]
pub enum Ignorable {
    /// The rule of this name, whose reports can be ignored.
    Rule(&'static str),
    /// A syntax error or a limit, which cannot be.
    Never,
    /// No rule.
    Unknown,
}

/// What this name stands for: syntax errors and limits cannot be ignored, since after them less of a document is validated.
pub fn meaning_of(name: &str) -> Ignorable {
    match explanation_of(name) {
        Some(explanation) if is_limit(explanation) => Ignorable::Never,
        Some(explanation) => Ignorable::Rule(explanation.rule),
        None => Ignorable::Unknown,
    }
}

/// Whether the rule is that of syntax, or a limit.
fn is_limit(explanation: &Explanation) -> bool {
    limits().iter().any(|limit| limit.rule == explanation.rule)
}
