//! Names of rules that may have been meant.

ghost use Rattle.std.specs.Prelude.{IfOk};

use gqlvalidate_rules::{Explanation, tables};
use std::alloc::{AllocError, Global};
use strsim::levenshtein;

/// A longer name is not compared with others, since that takes time.
const LONGEST: usize = 100;

/// A rule, and how many characters have to be put in, taken out or exchanged to make its name.
#[derive(Clone, Copy)]
struct Near {
    rule: &'static str,
    edits: usize,
}

/// The rule whose name is the most like this one, if one is like it: the first of several. The only error is a failed allocation.
pub fn similar_rule(alloc: Global, name: &str) -> Result<Option<&'static str>, AllocError> {
    if LONGEST < name.len() {
        return Ok(None);
    }
    let mut nearest = None;
    for explanations in tables() {
        nearest = nearer(alloc, name, explanations, nearest)?;
    }
    Ok(nearest.map(|near: Near| near.rule))
}

/// The nearest of this one and of these rules.
fn nearer(
    alloc: Global,
    name: &str,
    explanations: &'static [Explanation],
    nearest: Option<Near>,
) -> Result<Option<Near>, AllocError> {
    let mut nearest = nearest;
    for explanation in explanations {
        let rule = explanation.rule;
        let edits = levenshtein(alloc, name, rule)?;
        let most = match nearest {
            Some(near) => near.edits,
            None => name.len() * 2 / 5 + 2,
        };
        if edits < most {
            nearest = Some(Near { rule, edits });
        }
    }
    Ok(nearest)
}
