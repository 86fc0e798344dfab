//! Tests of the calls on schemas and on applied directives, over the bench: what no contract says, and that each call
//! can succeed.
#![tactic(auto)]

#[cfg(test)]
mod building;
#[cfg(test)]
mod definitions;
#[cfg(test)]
mod directives;
#[cfg(test)]
mod fixtures;
#[cfg(test)]
mod levels;
#[cfg(test)]
mod schema_rules;
#[cfg(test)]
mod schemas;
#[cfg(test)]
mod type_maps;
