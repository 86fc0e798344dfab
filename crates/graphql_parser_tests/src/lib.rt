//! Tests of the parser: that each call can succeed, and what a peer answers.
#![tactic(auto)]

#[cfg(test)]
mod bounds;
#[cfg(test)]
mod bounds_of_documents;
#[cfg(test)]
mod executables;
#[cfg(test)]
mod helps;
#[cfg(test)]
mod names;
#[cfg(test)]
mod places;
#[cfg(test)]
mod strings;
#[cfg(test)]
mod texts;
#[cfg(test)]
mod tokens;
#[cfg(test)]
mod type_systems;
