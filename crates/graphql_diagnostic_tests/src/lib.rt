//! Tests of what validation is built on: diagnostics and their texts, nodes and their places, numbers, guards, and the
//! notation of the bench.
#![tactic(auto)]

#[cfg(test)]
mod diagnostics;
#[cfg(test)]
mod documents;
#[cfg(test)]
mod fixtures;
#[cfg(test)]
mod guards;
#[cfg(test)]
mod messages;
#[cfg(test)]
mod notation;
#[cfg(test)]
mod numbers;
#[cfg(test)]
mod spans;
