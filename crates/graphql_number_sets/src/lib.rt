//! Sets of numbers, and of pairs of numbers.
#![tactic(auto)]

pub mod bit_sets;
mod cliques;
pub mod distinct_numbers;
pub mod pair_sets;
