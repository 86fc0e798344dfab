//! Tests of merging: documents whose fields merge, and others that have one report; of validation that goes by pairs where its work is
//! bounded; of the numbers of values; and of the other rules on fields that come together, those of subscriptions and `@defer`.
#![tactic(auto)]

#[cfg(test)]
mod bounds;
#[cfg(test)]
mod comparisons;
#[cfg(test)]
mod defer;
#[cfg(test)]
mod fixtures;
#[cfg(test)]
mod hostile;
#[cfg(test)]
mod lone;
#[cfg(test)]
mod merging;
#[cfg(test)]
mod numbers;
#[cfg(test)]
mod pairs;
#[cfg(test)]
mod parents;
#[cfg(test)]
mod sets;
#[cfg(test)]
mod subscriptions;
