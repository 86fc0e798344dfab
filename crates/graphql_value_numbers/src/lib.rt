//! Numbers for values: one for the same, and different ones for others. What holds many values is compared with
//! others by the numbers in it, so each value is looked through once.
#![tactic(auto)]

mod arguments;
pub mod laws;
mod named_numbers;
mod shapes;
mod values;

pub use values::ValueNumbers;
