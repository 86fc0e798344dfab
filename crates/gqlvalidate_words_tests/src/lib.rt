//! Tests of the words of a command line: what they ask for, which paths a pattern matches, which texts are no patterns, and which files words name.
#![tactic(auto)]

#[cfg(test)]
mod files;
#[cfg(test)]
mod matching;
#[cfg(test)]
mod parsing;
#[cfg(test)]
mod requests;
