//! Tests of changes of schemas: what is found, how grave it is, and which document shows it.
#![tactic(auto)]

#[cfg(test)]
mod changes;
#[cfg(test)]
mod directives;
#[cfg(test)]
mod fields;
#[cfg(test)]
mod formats;
#[cfg(test)]
mod inputs;
#[cfg(test)]
mod types;
