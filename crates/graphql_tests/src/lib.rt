//! Tests of the calls on documents, over the bench, and of its examples: what no contract says, and that each call can
//! succeed.
#![tactic(auto)]

#[cfg(test)]
mod arguments;
#[cfg(test)]
mod collect;
#[cfg(test)]
mod examples;
#[cfg(test)]
mod executables;
#[cfg(test)]
mod field_sets;
#[cfg(test)]
mod fixtures;
#[cfg(test)]
mod fragment_cycles;
#[cfg(test)]
mod many_faults;
#[cfg(test)]
mod operations;
#[cfg(test)]
mod usages;
#[cfg(test)]
mod values;
#[cfg(test)]
mod variables;
#[cfg(test)]
mod walks;
