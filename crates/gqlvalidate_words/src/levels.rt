//! The levels that a command line gives to rules.

use crate::commands::{CHECK, DEPRECATED, RULE};
use crate::requests::Refusal;
use clap::ArgMatches;
use gqlvalidate_levels::{LevelProblem, Levels, rule_level, similar_rule};
use std::alloc::{AllocError, Global};

/// What `check` gives to rules: by `--deprecated`, and then each as `NAME=LEVEL`; of several for one rule the last counts. Other commands give none. The error says which is wrong:
/// there must be such a rule, and such a level that it may have.
pub fn levels_of(alloc: Global, command: &str, given: &ArgMatches<'_>) -> Result<Levels, Refusal> {
    let mut levels = Levels::new(alloc);
    if command != CHECK {
        return Ok(levels);
    }
    if let Some(level) = given.get_str(DEPRECATED) {
        set_deprecated(&mut levels, level)?;
    }
    for word in given.get_strs(RULE).unwrap_or(&[]) {
        set_level(alloc, &mut levels, word)?;
    }
    Ok(levels)
}

/// Gives this level to the rule that no deprecated element is used. No other level is accepted than those that there are.
fn set_deprecated(levels: &mut Levels, level: &str) -> Result<(), Refusal> {
    let Ok(given) = rule_level("DeprecatedUsage", level) else {
        return Ok(());
    };
    match levels.set(given) {
        Ok(()) => Ok(()),
        Err(AllocError) => Err(Refusal::OutOfMemory),
    }
}

/// Gives the level of this word to its rule.
fn set_level(alloc: Global, levels: &mut Levels, word: &str) -> Result<(), Refusal> {
    let Some((rule, level)) = word.split_once('=') else {
        return Err(refusal_of(alloc, word, NO_EQUALS));
    };
    match rule_level(rule, level) {
        Ok(given) => match levels.set(given) {
            Ok(()) => Ok(()),
            Err(AllocError) => Err(Refusal::OutOfMemory),
        },
        Err(problem) => Err(refusal_of_level(alloc, word, rule, problem)),
    }
}

/// What is wrong with a word that has no `=`.
const NO_EQUALS: &str = ": write a rule, `=`, and a level";

/// What is wrong with a level of this rule.
fn refusal_of_level(alloc: Global, word: &str, rule: &str, problem: LevelProblem) -> Refusal {
    match words_of(alloc, rule, problem) {
        Ok(words) => refusal_of(alloc, word, words.as_str()),
        Err(AllocError) => Refusal::OutOfMemory,
    }
}

/// What follows the words that say which value is wrong.
fn words_of(alloc: Global, rule: &str, problem: LevelProblem) -> Result<String, AllocError> {
    match problem {
        LevelProblem::NoLevel => {
            String::from_str(alloc, "\n  [possible values: off, warning, error]")
        }
        LevelProblem::NoRule => match similar_rule(alloc, rule)? {
            Some(similar) => format!(in alloc;
                ": `{rule}` {problem}\n\n  tip: a similar value exists: '{similar}'"
            ),
            None => format!(in alloc; ": `{rule}` {problem}"),
        },
        LevelProblem::NeverOff => format!(in alloc; ": `{rule}` {problem}"),
    }
}

/// The refusal of a level, in the form of others.
fn refusal_of(alloc: Global, word: &str, why: &str) -> Refusal {
    match format!(in alloc;
        "error: invalid value '{word}' for '--rule <NAME=LEVEL>'{why}\n\nFor more information, try '--help'.\n"
    ) {
        Ok(text) => Refusal::Wrong(text),
        Err(AllocError) => Refusal::OutOfMemory,
    }
}
