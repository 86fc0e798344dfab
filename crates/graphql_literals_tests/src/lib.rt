//! Tests of the literals of programs: which are found, and which texts they have.
#![tactic(auto)]

#[cfg(test)]
mod comparisons;
#[cfg(test)]
mod found;
#[cfg(test)]
mod holes;
#[cfg(test)]
mod texts;
