//! Rules, and what they ask.

ghost use Rattle.std.specs.Prelude.{◌≡◌, IfSome};

use crate::comments::comment_rules;
use crate::definitions::definition_rules;
use crate::limits::limits;
use crate::selections::selection_rules;
use crate::subscriptions::subscription_rules;
use crate::types::type_rules;
use crate::values::value_rules;

/// What a rule asks.
#[derive(Clone, Copy, Debug)]
pub struct Explanation {
    /// The name of the rule, as reports have it.
    pub rule: &'static str,
    /// The section of the specification of October 2021, or the proposal. Empty for what is no rule of these: a limit, or a rule of
    /// comments.
    pub section: &'static str,
    /// What the rule asks.
    pub asks: &'static str,
    /// The schema of the examples, if they are documents. Otherwise they are schemas, or there are none.
    pub schema: &'static str,
    /// A text that breaks the rule.
    pub wrong: &'static str,
    /// A text that breaks no rule.
    pub right: &'static str,
}

/// All rules: first those of documents, then those of schemas, limits, and those of comments.
pub fn tables() -> [&'static [Explanation]; 7] {
    [
        selection_rules(),
        value_rules(),
        subscription_rules(),
        definition_rules(),
        type_rules(),
        limits(),
        comment_rules(),
    ]
}

/// What the rule of this name asks.
pub fn explanation_of(rule: &str) -> Option<&'static Explanation>
    ensures { IfSome result (λ found. found.now.rule.now ≡ rule.now) }
{
    for explanations in tables() {
        if let Some(found) = find(explanations, rule) {
            return Some(found);
        }
    }
    None
}

fn find(explanations: &'static [Explanation], rule: &str) -> Option<&'static Explanation>
    ensures { IfSome result (λ found. found.now.rule.now ≡ rule.now) }
{
    explanations
        .iter()
        .find(|explanation| explanation.rule == rule)
}
